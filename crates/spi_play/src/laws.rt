// Laws of plays.

ghost use Rattle.std.specs.Prelude.{ℕ, List, Option};
ghost use Rattle.spi_run.specs.Reduction.{Runs};
ghost use Rattle.spi_replay.specs.Stepping.{Pooled};
ghost use Rattle.spi_play.specs.Way.{Seen};
ghost use Rattle.spi_play.specs.Play.{PlayState, TurnOf, Plays, start};
ghost use Rattle.spi_play.specs.Fitting.{TurnsFit};

/// The turns of a play fit its players.
pub fn turns_fit()
    ensures { (only : Option ℕ) (most : ℕ) (pool : Pooled) (players : List Seen) (turns : List TurnOf)
        (last : PlayState) → Plays only most (start pool players only) turns last
        → TurnsFit players turns last.seats }
{}

/// The steps of a play are a run, with its events.
pub fn play_runs()
    ensures { (only : Option ℕ) (most : ℕ) (pool : Pooled) (players : List Seen) (turns : List TurnOf)
        (last : PlayState) → Plays only most (start pool players only) turns last
        → Runs pool.configuration last.course.steps last.course.events last.course.pool.configuration }
{}
