// The text of a file's schedule.

ghost use Rattle.std.specs.Prelude.{◌≡◌, ◌+◌, ◌-◌, ◌^◌, ◌<◌, length, map, IfOk, IfErr};
ghost use Rattle.spi_run.specs.View.{step as step_of};
ghost use Rattle.spi_replay.specs.Stepping.{Pooled};
ghost use Rattle.spi_scope.specs.Files.{meant};
ghost use Rattle.spi_text.specs.Place.{IsSized};
ghost use Rattle.spi_course.specs.Courses.{IsCourse};
ghost use Rattle.spi_course.specs.Fit.{course_pool, IsFit, IsCourseOf, IsUntold};
ghost use Rattle.spi_course.specs.declared.answer.Untold.TheVariants.{NoMemory as OutOfMemory};

use crate::NoMemory;
use crate::chart::put_chart;
use crate::course::{Course, Taken, take_all};
use crate::deeds::{event_of, put_step};
use crate::follow::Follower;
use crate::naming::Naming;
use crate::scene::Scene;
use crate::source::Source;
use crate::waiting::{is_done, put_refusal, put_waiting, refusal_name};
use spi_lex::Token;
use spi_opponent::is_opponent;
use spi_replay::{Pool, StepFault};
use spi_run::Step;
use spi_scope::File;
use spi_term::Process;
use spi_trace::pair_up;
use std::alloc::{AllocError, Global};

/// How many places a replay may have.
const PLACES: u32 = 5_000;

/// What is told of a file's schedule.
#[derive(Drop)]
pub struct Account {
    /// The course of its steps.
    pub course: Course,
    /// The text or the chart of it.
    pub text: Vec<u8>,
}

/// Why nothing is told of a file.
#[derive(Drop)]
pub enum Untold {
    /// It has no opponent part.
    NoOpponent,
    /// It has no schedule.
    NoSchedule,
    /// Its opponent part is no opponent. The node is the first that no opponent has, by its number in the part.
    NotOpponent { node: u32 },
    /// Memory ran out.
    NoMemory,
}

impl From<AllocError> for Untold {
    ghost from_gives = { λ _ e. e ≡ OutOfMemory };

    fn from(_e: AllocError) -> Untold {
        Untold::NoMemory
    }
}

// For each event the step that begins for it, by its number from 1 on.
fn begins_of(alloc: Global, course: &Course) -> Result<Vec<Option<usize>>, NoMemory>
    requires { length course.now.events.items < 2 ^ 32 }
{
    let mut steps = Vec::new(alloc);
    for (number, taken) in course.taken.iter().enumerate() {
        if taken.event.is_some() {
            steps.push(number.saturating_add(1))?;
        }
    }
    let pairing = pair_up(alloc, &course.events)?;
    let mut begins = Vec::new(alloc);
    for from in &pairing.from {
        let begin = match from {
            Some(event) => steps.get(*event as usize).copied(),
            None => None,
        };
        begins.push(begin)?;
    }
    Ok(begins)
}

// The begin that pays for the event of a step.
fn begin_of(taken: &Taken, begins: &[Option<usize>]) -> Option<usize> {
    match begins.get(taken.event?) {
        Some(begin) => *begin,
        None => None,
    }
}

// Appends what each place waits for that isn't done.
fn put_places(scene: &mut Scene<'_>, places: u32) -> Result<(), NoMemory> {
    scene.put("At the end:\n")?;
    let mut done = false;
    for place in 0..places {
        if is_done(scene, place) {
            done = true;
        } else {
            put_waiting(scene, place)?;
        }
    }
    if done {
        scene.put("   nothing is left to do at the other places\n")?;
    }
    Ok(())
}

// Where a step of the schedule begins. A file has fewer than 4,294,967,296 steps.
fn offset_of(file: &File, index: usize) -> u32 {
    match u32::try_from(index) {
        Ok(number) => file.step_place(number).from,
        Err(_) => 0,
    }
}

// Appends the line of a step that is refused, and why.
fn put_refused(
    scene: &mut Scene<'_>,
    pool: &Pool<'_>,
    index: usize,
    step: Step,
    fault: &StepFault,
) -> Result<(), NoMemory> {
    scene.put_number(index.saturating_add(1) as u64)?;
    scene.put(". ")?;
    scene.put_step(step)?;
    scene.put(" in the schedule at ")?;
    let offset = offset_of(scene.file, index);
    scene.put_offset(offset)?;
    scene.put(" is refused: ")?;
    scene.put(refusal_name(fault))?;
    scene.put("\n")?;
    put_refusal(scene, pool, step, fault)
}

// Appends the lines of the steps that were taken, and those behind them.
fn put_course(
    scene: &mut Scene<'_>,
    pool: &Pool<'_>,
    course: &Course,
    steps: &[Step],
    begins: &[Option<usize>],
) -> Result<(), NoMemory> {
    for (index, taken) in course.taken.iter().enumerate() {
        scene.note(taken)?;
        let begin = begin_of(taken, begins);
        let event = event_of(course, taken);
        put_step(scene, index.saturating_add(1), taken, event, begin)?;
        scene.follower.follow(taken)?;
    }
    let index = course.taken.len();
    match (&course.refused, steps.get(index)) {
        (Some(fault), Some(step)) => put_refused(scene, pool, index, *step, fault)?,
        _ => {}
    }
    put_places(scene, pool.places())
}

// What the text of a file is written from, at the start of its schedule.
fn scene_of<'f>(
    alloc: Global,
    file: &'f File,
    opponent: &'f Process,
    tokens: &'f [Token],
    bytes: &'f [u8],
    mark: &'static str,
) -> Result<Scene<'f>, NoMemory>
    requires { IsSized bytes.now }
{
    let source = Source::of(alloc, bytes)?;
    let follower = Follower::start(alloc, &file.process, opponent)?;
    Ok(Scene {
        alloc,
        file,
        tokens,
        source,
        names: Naming {
            free: &file.names,
            made: Vec::new(alloc),
            mark,
        },
        follower,
        out: Vec::new(alloc),
    })
}

// The text or the chart of a course of these steps beside this opponent. The pool is the one that the course led to.
fn written(
    alloc: Global,
    file: &File,
    opponent: &Process,
    steps: &[Step],
    pool: &Pool<'_>,
    course: &Course,
    tokens: &[Token],
    bytes: &[u8],
    chart: bool,
) -> Result<Vec<u8>, NoMemory>
    requires sized { IsSized bytes.now }
    requires few { length course.now.events.items < 2 ^ 32 }
{
    let begins = begins_of(alloc, course)?;
    let mark = if chart { "#35;" } else { "#" };
    let mut scene = scene_of(alloc, file, opponent, tokens, bytes, mark)?;
    if chart {
        put_chart(&mut scene, course, steps, &begins)?;
    } else {
        put_course(&mut scene, pool, course, steps, &begins)?;
    }
    Ok(scene.out)
}

// What is told of these steps beside this opponent.
fn beside(
    alloc: Global,
    file: &File,
    opponent: &Process,
    steps: &[Step],
    tokens: &[Token],
    bytes: &[u8],
    chart: bool,
) -> Result<Account, NoMemory>
    requires sized { IsSized bytes.now }
    requires names { file.now.process.names ≡ opponent.now.names }
    requires few { file.now.process.names + length steps.now < 2 ^ 32 - 1 }
    ensures course { IfOk result (λ account. (last : Pooled)
        × IsCourse (course_pool file.now.process opponent.now) (map step_of steps.now) account.course last) }
    ensures few { IfOk result (λ account. length account.course.events.items < 2 ^ 32) }
{
    let mut pool = Pool::start(alloc, &file.process, opponent, PLACES)?;
    let course = take_all(alloc, &mut pool, steps)?;
    let text = written(
        alloc, file, opponent, steps, &pool, &course, tokens, bytes, chart,
    )?;
    Ok(Account { course, text })
}

/// What is told of the file's schedule beside its opponent: its course, and the text or the Mermaid chart of it. The tokens
/// and the bytes are those of the file. The conditions are that process and opponent have the same number of free names,
/// and that with the steps there are few of them.
pub fn course_text(
    alloc: Global,
    file: &File,
    tokens: &[Token],
    bytes: &[u8],
    chart: bool,
) -> Result<Account, Untold>
    requires sized { IsSized bytes.now }
    requires fit { IsFit (meant file.now) }
    ensures course { IfOk result (λ account. IsCourseOf (meant file.now) account.course) }
    ensures few { IfOk result (λ account. length account.course.events.items < 2 ^ 32) }
    ensures err { IfErr result (IsUntold (meant file.now)) }
{
    match &file.opponent {
        None => Err(Untold::NoOpponent),
        Some(opponent) => match &file.schedule {
            None => Err(Untold::NoSchedule),
            Some(steps) => match is_opponent(opponent) {
                Err(fault) => Err(Untold::NotOpponent { node: fault.node }),
                Ok(()) => Ok(beside(alloc, file, opponent, steps, tokens, bytes, chart)?),
            },
        },
    }
}
