// The command `verify`.
ghost use Rattle.std.specs.Prelude.{◌≡◌, ◌≤◌, List, length, Some, IfOk, OnErr, Err};
ghost use Rattle.spi_term.specs.View.{effect as effect_of};
ghost use Rattle.spi_rules.specs.Deriv.{rule_uses};
ghost use Rattle.spi_rules.specs.Derivations.{RuleUse};
ghost use Rattle.spi_rules.specs.Environment.{untrusted};
ghost use Rattle.spi_scope.specs.Files.{uses_of};
ghost use Rattle.spi_audit.specs.Audit.{IsWrongAt, LeavesUnpaid};
ghost use Rattle.spi_commands.specs.Verifying.{VerifiesTo, IsUnprovedLine};
ghost use Rattle.spi_commands.specs.Reading.{IsRead};

use crate::answer::{Answer, Stop, answer_with, made, missing};
use crate::rejection::fault_line;
use crate::status::Status;
use spi_audit::{Audited, audit, one_audit};
use spi_fault::unpaid;
use spi_report::{wrong_step, yes};
use spi_rules::Deriv;
use spi_scope::File;
use spi_term::Effect;
use spi_text::Lines;
use std::alloc::Global;

/// What `verify` answers on the file of these bytes.
pub fn verified(alloc: Global, bytes: &[u8], file: &File) -> Result<Answer, Stop>
    requires sized { length bytes.now ≤ 16_777_216 }
    requires read { IsRead bytes.now file.now }
    ensures ok { IfOk result (λ answer. VerifiesTo bytes.now answer.status answer.output.items) }
    ensures err { OnErr result (result ≡ Err Stop.NoMemory) }
{
    match &file.derivation {
        Some(d) => audited(alloc, bytes, file, d),
        None => missing(alloc, bytes, b"derivation"),
    }
}

/// What `verify` answers on a file with this derivation.
fn audited(alloc: Global, bytes: &[u8], file: &File, d: &Deriv) -> Result<Answer, Stop>
    requires sized { length bytes.now ≤ 16_777_216 }
    requires read { IsRead bytes.now file.now }
    requires derivation { uses_of file.now.derivation ≡ Some (rule_uses d.now) }
    ensures ok { IfOk result (λ answer. VerifiesTo bytes.now answer.status answer.output.items) }
    ensures err { OnErr result (result ≡ Err Stop.NoMemory) }
{
    one_audit();
    match audit(alloc, &file.process, d)? {
        Audited::Proved => made(alloc, Status::Yes, yes()),
        Audited::WrongStep { index } => wrong(alloc, bytes, file, index),
        Audited::Unpaid { effect } => left_unpaid(alloc, bytes, file, &effect),
    }
}

/// The line of a wrong step.
fn wrong(alloc: Global, bytes: &[u8], file: &File, index: u32) -> Result<Answer, Stop>
    requires sized { length bytes.now ≤ 16_777_216 }
    requires read { IsRead bytes.now file.now }
    requires wrong { (us : List RuleUse) × (uses_of file.now.derivation ≡ Some us)
        × IsWrongAt (untrusted file.now.process.names) file.now.process.process us index }
    ensures ok { IfOk result
        (λ answer. (answer.status ≡ Status.No) × IsUnprovedLine bytes.now answer.output.items) }
    ensures err { OnErr result (result ≡ Err Stop.NoMemory) }
{
    let lines = Lines::for_few(bytes);
    let output = wrong_step(alloc, file, &lines, index)?;
    Ok(answer_with(Status::No, output))
}

/// The line of an effect that the derivation leaves unpaid.
fn left_unpaid(alloc: Global, bytes: &[u8], file: &File, effect: &Effect) -> Result<Answer, Stop>
    requires sized { length bytes.now ≤ 16_777_216 }
    requires read { IsRead bytes.now file.now }
    requires left { (us : List RuleUse) × (uses_of file.now.derivation ≡ Some us)
        × LeavesUnpaid (untrusted file.now.process.names) file.now.process.process us (effect_of effect.now) }
    ensures ok { IfOk result
        (λ answer. (answer.status ≡ Status.No) × IsUnprovedLine bytes.now answer.output.items) }
    ensures err { OnErr result (result ≡ Err Stop.NoMemory) }
{
    match unpaid(alloc, file, effect)? {
        Some(fault) => fault_line(alloc, bytes, file, &fault),
        // nothing is left unpaid
        None => made(alloc, Status::Yes, yes()),
    }
}
