// Laws of courses.

ghost use Rattle.std.specs.Prelude.{List};
ghost use Rattle.spi_run.specs.Reduction.{Event as Shown, Runs};
ghost use Rattle.spi_replay.specs.Stepping.{Pooled};
ghost use Rattle.spi_course.specs.declared.course.Taken.{Taken as TakenTerm};
ghost use Rattle.spi_course.specs.Courses.{TellsSteps, steps_of};

/// The steps that a course tells of are a run, and its events are those of the run.
pub fn courses_are_runs()
    ensures { (p q : Pooled) (ts : List TakenTerm) (es : List Shown) → TellsSteps p 0 ts es q
        → Runs p.configuration (steps_of ts) es q.configuration }
{}
