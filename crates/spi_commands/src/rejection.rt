// The yes or no of a file's process.
ghost use Rattle.std.specs.Prelude.{◌≡◌, ◌≤◌, length, reverse, IfOk, OnErr, Err};
ghost use Rattle.spi_scope.specs.Chains.{chain_at};
ghost use Rattle.spi_scope.specs.Files.{meant};
ghost use Rattle.spi_scope.specs.Places.{place_in};
ghost use Rattle.spi_fault.specs.Faults.{IsFault, told};
ghost use Rattle.spi_report.specs.Fault.{fault_text};
ghost use Rattle.spi_commands.specs.NoLine.{IsNo, IsVerdict};
ghost use Rattle.spi_commands.specs.Reading.{IsRead};

use crate::answer::{Answer, Stop, answer_with, made};
use crate::status::Status;
use spi_fault::{Fault, explain};
use spi_infer::infer;
use spi_report::{no_fault, yes};
use spi_scope::File;
use spi_text::Lines;
use std::alloc::Global;

/// The verdict on a file's process: yes where it is derivable with the empty effect, and else its no.
pub fn judged(alloc: Global, bytes: &[u8], file: &File) -> Result<Answer, Stop>
    requires sized { length bytes.now ≤ 16_777_216 }
    requires read { IsRead bytes.now file.now }
    ensures ok { IfOk result
        (λ answer. IsVerdict bytes.now (meant file.now) answer.status answer.output.items) }
    ensures err { OnErr result (result ≡ Err Stop.NoMemory) }
{
    let inferred = infer(alloc, &file.process)?;
    match explain(alloc, file, &inferred)? {
        None => made(alloc, Status::Yes, yes()),
        Some(fault) => rejected(alloc, bytes, file, &fault),
    }
}

/// The no of a file's process, which has this fault.
fn rejected(alloc: Global, bytes: &[u8], file: &File, fault: &Fault) -> Result<Answer, Stop>
    requires sized { length bytes.now ≤ 16_777_216 }
    requires read { IsRead bytes.now file.now }
    requires fault { IsFault (λ i. reverse (chain_at file.now.marks.scopes i)) file.now.process.names
        file.now.process.process (told fault.now) }
    ensures ok { IfOk result (λ answer. (answer.status ≡ Status.No) × IsNo bytes.now answer.output.items) }
    ensures err { OnErr result (result ≡ Err Stop.NoMemory) }
{
    fault_line(alloc, bytes, file, fault)
}

/// The line of a fault.
pub fn fault_line(alloc: Global, bytes: &[u8], file: &File, fault: &Fault) -> Result<Answer, Stop>
    requires sized { length bytes.now ≤ 16_777_216 }
    requires read { IsRead bytes.now file.now }
    ensures ok { IfOk result
        (λ answer. (answer.status ≡ Status.No)
        × (answer.output.items
        ≡ fault_text bytes.now (λ i. place_in file.now.marks.process.items i)
        (λ i. reverse (chain_at file.now.marks.scopes i)) (told fault.now))) }
    ensures err { OnErr result (result ≡ Err Stop.NoMemory) }
{
    let lines = Lines::for_few(bytes);
    let output = no_fault(alloc, file, &lines, fault)?;
    Ok(answer_with(Status::No, output))
}
