// From bytes to a trace.
ghost use Rattle.std.specs.Prelude.{◌≡◌, ℕ, ◌≤◌, ◌<◌, ◌^◌, List, length, map, IfOk, Some, None};
ghost use Rattle.spi_run.specs.View.{event as event_of};
ghost use Rattle.spi_scope.specs.Files.{meant};
ghost use Rattle.spi_course.specs.Fit.{IsUntold};
ghost use Rattle.spi_commands.specs.Reading.{IsRead};
ghost use Rattle.spi_commands.specs.Refusals.{IsLineOf, IsMissing, Refuses};
ghost use Rattle.spi_commands.specs.Replaying.{AreEventsJudged};
ghost use Rattle.spi_commands.specs.Beside.{HasOffence};
ghost use Rattle.spi_advice.specs.Tracing.{Traces, EndsWith};

use crate::NoMemory;
use crate::refusing::refusal_line;
use crate::tokens::{LIMIT, list_of};
use spi_commands::{Afterwards, Status, Unread, read, refuse_too_many};
use spi_course::{Account, Course, Untold, course_text};
use spi_report::{Refusal, first_unpaid, refused};
use spi_run::Event;
use spi_scope::File;
use spi_text::Lines;
use spi_trace::{pair_up, paired_is_paid};
use std::alloc::{AllocError, Global};

/// A trace, with the status of `replay`.
#[derive(Drop)]
pub struct Trace {
    /// Yes, no or refused.
    pub status: Status,
    /// The course that is told. None where the output is the line of a refusal.
    pub course: Option<Course>,
    /// The text or the chart of the course, or that line.
    pub output: Vec<u8>,
}

// The trace of what is refused with this line.
fn refused_with(line: Vec<u8>) -> Trace
    ensures status { result.status ≡ Status.Refused }
    ensures course { result.course ≡ None }
    ensures output { result.output.items ≡ line.items }
{
    Trace {
        status: Status::Refused,
        course: None,
        output: line,
    }
}

// Yes where the events are paid, and no elsewhere.
fn judged(alloc: Global, happened: &[Event]) -> Result<Status, NoMemory>
    requires { length happened.now < 2 ^ 32 }
    ensures { IfOk result (AreEventsJudged (map event_of happened.now)) }
{
    paired_is_paid();
    let pairing = pair_up(alloc, happened)?;
    match first_unpaid(happened, &pairing.from) {
        None => Ok(Status::Yes),
        Some(_) => Ok(Status::No),
    }
}

// The status of a course: whether its events are paid, or refused where a step is refused.
fn ending(alloc: Global, course: &Course) -> Result<Status, NoMemory>
    requires { length course.now.events.items < 2 ^ 32 }
    ensures { IfOk result (EndsWith course.now.refused (map event_of course.now.events.items)) }
{
    match &course.refused {
        Some(_) => Ok(Status::Refused),
        None => judged(alloc, &course.events),
    }
}

// The trace of a file of which this is told.
fn told(alloc: Global, account: Account) -> Result<Trace, NoMemory>
    requires { length account.course.events.items < 2 ^ 32 }
    ensures course { IfOk result (λ t. t.course ≡ Some account.course) }
    ensures status { IfOk result
        (λ t. EndsWith account.course.refused (map event_of account.course.events.items) t.status) }
{
    let status = ending(alloc, &account.course)?;
    let Account { course, text } = account;
    Ok(Trace {
        status,
        course: Some(course),
        output: text,
    })
}

// The line of a part that a file lacks.
fn lacking(alloc: Global, part: &[u8], lines: &Lines<'_>) -> Result<Trace, NoMemory>
    ensures refused { IfOk result (λ t. (t.status ≡ Status.Refused) × (t.course ≡ None)) }
    ensures line { IfOk result (λ t. IsLineOf lines.now (IsMissing part.now) t.output.items) }
{
    let r = Refusal {
        number: 38,
        offset: None,
        shown: part.to_vec(alloc)?,
    };
    let line = refused(alloc, lines, &r)?;
    Ok(refused_with(line))
}

// The line of an opponent part of which this is the first node that no opponent has.
fn offending(
    alloc: Global,
    bytes: &[u8],
    file: &File,
    lines: &Lines<'_>,
    node: u32,
) -> Result<Trace, NoMemory>
    requires read { IsRead bytes.now file.now }
    requires lines { lines.now ≡ bytes.now }
    requires untold { IsUntold (meant file.now) (Untold.NotOpponent node) }
    ensures refused { IfOk result (λ t. (t.status ≡ Status.Refused) × (t.course ≡ None)) }
    ensures line { IfOk result (λ t. IsLineOf bytes.now (HasOffence bytes.now) t.output.items) }
{
    let offset = file.opponent_place(node).from;
    let r = Refusal {
        number: 39,
        offset: Some(offset),
        shown: Vec::new(alloc),
    };
    let line = refused(alloc, lines, &r)?;
    Ok(refused_with(line))
}

// The trace of a file of which nothing is told.
fn of_untold(alloc: Global, bytes: &[u8], file: &File, untold: &Untold) -> Result<Trace, NoMemory>
    requires sized { length bytes.now ≤ 16_777_216 }
    requires read { IsRead bytes.now file.now }
    requires untold { IsUntold (meant file.now) untold.now }
    ensures { IfOk result (λ t. Traces bytes.now t.course t.status t.output.items) }
{
    let lines = Lines::of(alloc, bytes)?;
    match untold {
        Untold::NoOpponent => lacking(alloc, b"opponent", &lines),
        Untold::NoSchedule => lacking(alloc, b"schedule", &lines),
        Untold::NotOpponent { node } => offending(alloc, bytes, file, &lines, *node),
        Untold::NoMemory => Err(AllocError),
    }
}

// The trace of the file of these bytes.
fn of_file(alloc: Global, bytes: &[u8], file: &File, chart: bool) -> Result<Trace, NoMemory>
    requires sized { length bytes.now ≤ 16_777_216 }
    requires read { IsRead bytes.now file.now }
    ensures { IfOk result (λ t. Traces bytes.now t.course t.status t.output.items) }
{
    let tokens = list_of(alloc, bytes)?;
    match course_text(alloc, file, &tokens, bytes, chart) {
        Ok(account) => told(alloc, account),
        Err(untold) => of_untold(alloc, bytes, file, &untold),
    }
}

// The trace of bytes that spell no file, for this first reason.
fn of_refusal(alloc: Global, bytes: &[u8], r: &Refusal) -> Result<Trace, NoMemory>
    requires sized { length bytes.now ≤ 16_777_216 }
    requires refuses { Refuses bytes.now r.now.number r.now.offset r.now.shown.items }
    ensures { IfOk result (λ t. Traces bytes.now t.course t.status t.output.items) }
{
    let lines = Lines::of(alloc, bytes)?;
    Ok(refused_with(refusal_line(alloc, &lines, r)?))
}

// The trace of more bytes than a file may have.
fn of_too_many(alloc: Global) -> Result<Trace, NoMemory>
    ensures { IfOk result (λ t. (bytes : List ℕ) → 16_777_216 < length bytes
        → Traces bytes t.course t.status t.output.items) }
{
    let (_, line) = refuse_too_many(alloc)?;
    Ok(refused_with(line))
}

/// The trace of the bytes: the course of their file's schedule, with its text or its chart, or the line with which `replay`
/// refuses them. More than 16,777,216 bytes are refused, as by `replay`.
pub fn traced(alloc: Global, bytes: &[u8], chart: bool) -> Result<Trace, NoMemory>
    ensures { IfOk result (λ t. Traces bytes.now t.course t.status t.output.items) }
{
    if bytes.len() > LIMIT {
        return of_too_many(alloc);
    }
    match read(alloc, Afterwards::GoesOn, bytes) {
        Ok(file) => of_file(alloc, bytes, &file, chart),
        Err(Unread::Refused(r)) => of_refusal(alloc, bytes, &r),
        Err(Unread::NoMemory) => Err(AllocError),
    }
}
