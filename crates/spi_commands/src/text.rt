// The text of an input: the bytes that a source has left, where they are no more than an input may have.
ghost use Rattle.std.specs.Prelude.{◌≡◌, ◌+◌, ◌<◌, ◌≤◌, ℕ, List, length, IfOk, IfSome, OnOk, OnErr, IsErrOf, Err};
ghost use Rattle.spi_io.specs.Causes.{Rose, TakesUpTo};
ghost use Rattle.spi_commands.specs.Spelled.{limit};
ghost use Rattle.spi_commands.specs.Refusals.{IsLineOf, IsUnlexed};
ghost use Rattle.spi_commands.specs.Reading.{IsText, GivesText};
ghost use Rattle.spi_commands.specs.Run.{TakesInput};

use crate::answer::{Stop, refusal_line};
use spi_io::{Source, Taken, take_all};
use spi_report::Refusal;
use std::alloc::{AllocError, Global};

/// How many bytes an input may have.
pub const LIMIT: usize = 16_777_216;

/// The text of an input.
#[derive(Drop)]
pub enum Text {
    /// Its bytes, which are no more than an input may have.
    Bytes(Vec<u8>),
    /// The line of the refusal of bytes that are too many.
    Refused(Vec<u8>),
}

/// Takes the bytes that are left, and gives their text. `ReadFault` comes only where the source's count of faults rose.
pub fn take_text<S: Source>(alloc: Global, source: &mut S) -> Result<Text, Stop>
    ensures text { IfOk result (λ text. IsText text) }
    ensures gives { IfOk result (λ text. IfSome (S.left source.old) (λ bytes. GivesText bytes text)) }
    ensures whole { OnOk result (TakesInput (S.left source.old) (S.left source.new)) }
    ensures read_fault { IsErrOf result Stop.ReadFault → Rose (S.faults source.old) (S.faults source.new) }
    ensures failed_reads { ¬ IsErrOf result Stop.ReadFault
        → S.failed_reads source.new ≡ S.failed_reads source.old }
    ensures taken { TakesUpTo (S.left source.old) (S.left source.new) (limit + 1) }
    ensures reads { S.reads source.new ≤ S.reads source.old + limit + 2 }
{
    match take_all(alloc, source, LIMIT) {
        Ok(bytes) => Ok(Text::Bytes(bytes)),
        Err(Taken::TooLong) => too_long(alloc),
        Err(Taken::ReadFault) => Err(Stop::ReadFault),
        Err(Taken::NoMemory) => Err(Stop::NoMemory),
    }
}

/// The refusal of more bytes than an input may have, and its line.
pub fn refuse_too_many(alloc: Global) -> Result<(Refusal, Vec<u8>), AllocError>
    ensures { IfOk result (λ r. (bytes : List ℕ) → limit < length bytes
        → IsLineOf bytes (IsUnlexed bytes) r.1.items) }
{
    let count = LIMIT + 1;
    let shown = format!(in alloc; "{count}")?.into_bytes();
    let r = Refusal {
        number: 2,
        offset: None,
        shown,
    };
    let line = refusal_line(alloc, b"", &r)?;
    Ok((r, line))
}

/// The refusal of more bytes than that.
fn too_long(alloc: Global) -> Result<Text, Stop>
    ensures text { IfOk result (λ text. IsText text) }
    ensures gives { IfOk result (λ text. (bytes : List ℕ) → limit < length bytes → GivesText bytes text) }
    ensures err { OnErr result (result ≡ Err Stop.NoMemory) }
{
    let (_, line) = refuse_too_many(alloc)?;
    Ok(Text::Refused(line))
}
