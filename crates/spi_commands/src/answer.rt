// Answers, and why there is none.
ghost use Rattle.std.specs.Prelude.{◌≡◌, ◌<◌, ◌≤◌, length, string_bytes, IfOk, OnErr, IfSome, IsSome, None, Err};
ghost use Rattle.std.specs.Fmt.{decimal};
ghost use Rattle.spi_text.specs.Place.{IsSized};
ghost use Rattle.spi_report.specs.Names.{name_of};
ghost use Rattle.spi_report.specs.Refused.{refused_text};
ghost use Rattle.spi_commands.specs.Refusals.{FitsBehind, IsCause, IsRefusedFor, IsMissing, IsTooMuch};
ghost use Rattle.spi_commands.specs.declared.answer.Stop.TheVariants.{NoMemory};

use crate::status::Status;
use crate::text::LIMIT;
use spi_report::{Refusal, refused};
use spi_text::Lines;
use std::alloc::{AllocError, Global};

/// A status, and what is written with it.
#[derive(Drop)]
pub struct Answer {
    pub status: Status,
    pub output: Vec<u8>,
}

/// Why there is no answer.
#[derive(Clone, Copy, PartialEq, Eq)]
pub enum Stop {
    ReadFault,
    NoMemory,
}

impl From<AllocError> for Stop {
    ghost from_gives = { λ _ e. e ≡ NoMemory };

    fn from(_: AllocError) -> Stop {
        Stop::NoMemory
    }
}

/// This status and this output.
pub fn made(alloc: Global, status: Status, output: &[u8]) -> Result<Answer, Stop>
    ensures ok { IfOk result (λ answer. (answer.status ≡ status) × (answer.output.items ≡ output.now)) }
    ensures err { OnErr result (result ≡ Err Stop.NoMemory) }
{
    Ok(Answer {
        status,
        output: output.to_vec(alloc)?,
    })
}

/// This status with these bytes.
pub fn answer_with(status: Status, output: Vec<u8>) -> Answer
    ensures status { result.status ≡ status }
    ensures output { result.output.items ≡ output.items }
{
    Answer { status, output }
}

/// The refusal with this cause.
pub fn refusal(alloc: Global, bytes: &[u8], r: &Refusal) -> Result<Answer, Stop>
    requires sized { IsSized bytes.now }
    requires named { IsSome (name_of r.now.number) }
    requires within { IfSome r.now.offset (λ offset. offset ≤ length bytes.now) }
    ensures ok { IfOk result
        (λ answer. (answer.status ≡ Status.Refused) × (answer.output.items ≡ refused_text bytes.now r.now)) }
    ensures err { OnErr result (result ≡ Err Stop.NoMemory) }
{
    let output = refusal_line(alloc, bytes, r)?;
    Ok(answer_with(Status::Refused, output))
}

/// The line of that refusal.
pub fn refusal_line(alloc: Global, bytes: &[u8], r: &Refusal) -> Result<Vec<u8>, AllocError>
    requires sized { IsSized bytes.now }
    requires named { IsSome (name_of r.now.number) }
    requires within { IfSome r.now.offset (λ offset. offset ≤ length bytes.now) }
    ensures { IfOk result (λ line. line.items ≡ refused_text bytes.now r.now) }
{
    let lines = Lines::for_few(bytes);
    refused(alloc, &lines, r)
}

/// The refusal without a place that shows this text.
pub fn placeless(alloc: Global, bytes: &[u8], number: u32, shown: String) -> Result<Answer, Stop>
    requires sized { length bytes.now ≤ 16_777_216 }
    requires named { IsSome (name_of number) }
    ensures ok { IfOk result (IsRefusedFor bytes.now (IsCause number None (string_bytes shown))) }
    ensures err { OnErr result (result ≡ Err Stop.NoMemory) }
{
    let r = Refusal {
        number,
        offset: None,
        shown: shown.into_bytes(),
    };
    refusal(alloc, bytes, &r)
}

/// The refusal without a place that shows a count.
pub fn refused_count(alloc: Global, bytes: &[u8], number: u32, count: u64) -> Result<Answer, Stop>
    requires sized { length bytes.now ≤ 16_777_216 }
    requires named { IsSome (name_of number) }
    ensures ok { IfOk result (IsRefusedFor bytes.now (IsCause number None (decimal count))) }
    ensures err { OnErr result (result ≡ Err Stop.NoMemory) }
{
    let shown = format!(in alloc; "{count}")?;
    placeless(alloc, bytes, number, shown)
}

/// The refusal of a text that would have so many bytes, which are more than a file may have.
pub fn too_much(alloc: Global, bytes: &[u8], count: u64) -> Result<Answer, Stop>
    requires sized { length bytes.now ≤ 16_777_216 }
    requires much { 16_777_216 < count }
    ensures ok { IfOk result (IsRefusedFor bytes.now (IsTooMuch count)) }
    ensures err { OnErr result (result ≡ Err Stop.NoMemory) }
{
    refused_count(alloc, bytes, 80, count)
}

/// This text as an answer, or its refusal where it is too long to stand behind the file of these bytes.
pub fn within_limit(alloc: Global, bytes: &[u8], output: Vec<u8>) -> Result<Answer, Stop>
    requires { length bytes.now ≤ 16_777_216 }
    ensures ok { IfOk result
        (λ answer. FitsBehind bytes.now output.items answer.status answer.output.items) }
    ensures err { OnErr result (result ≡ Err Stop.NoMemory) }
{
    let count = bytes.len() as u64 + 1 + output.len() as u64;
    if count <= LIMIT as u64 {
        Ok(Answer {
            status: Status::Yes,
            output,
        })
    } else {
        too_much(alloc, bytes, count)
    }
}

/// The refusal of a file that lacks a part.
pub fn missing(alloc: Global, bytes: &[u8], part: &[u8]) -> Result<Answer, Stop>
    requires { length bytes.now ≤ 16_777_216 }
    ensures ok { IfOk result (IsRefusedFor bytes.now (IsMissing part.now)) }
    ensures err { OnErr result (result ≡ Err Stop.NoMemory) }
{
    let shown = part.to_vec(alloc)?;
    let r = Refusal {
        number: 38,
        offset: None,
        shown,
    };
    refusal(alloc, bytes, &r)
}
