// The command `derive`.
ghost use Rattle.std.specs.Prelude.{◌≡◌, ◌≤◌, length, IfOk, OnErr, Err};
ghost use Rattle.spi_rules.specs.Deriv.{rule_uses};
ghost use Rattle.spi_deriv.specs.Canonical.{Canonical};
ghost use Rattle.spi_commands.specs.Deriving.{DerivesTo};
ghost use Rattle.spi_commands.specs.Reading.{IsRead};

use crate::answer::{Answer, Stop, within_limit};
use crate::rejection::judged;
use spi_deriv::{derive, write};
use spi_rules::Deriv;
use spi_scope::File;
use std::alloc::Global;

/// What `derive` answers on the file of these bytes: the no of `check` where there is no derivation.
pub fn derived(alloc: Global, bytes: &[u8], file: &File) -> Result<Answer, Stop>
    requires sized { length bytes.now ≤ 16_777_216 }
    requires read { IsRead bytes.now file.now }
    ensures ok { IfOk result (λ answer. DerivesTo bytes.now answer.status answer.output.items) }
    ensures err { OnErr result (result ≡ Err Stop.NoMemory) }
{
    match derive(alloc, &file.process)? {
        Some(d) => listed(alloc, bytes, file, &d),
        None => judged(alloc, bytes, file),
    }
}

/// The listing of the file's derivation, where it isn't too long to stand behind the file.
fn listed(alloc: Global, bytes: &[u8], file: &File, d: &Deriv) -> Result<Answer, Stop>
    requires sized { length bytes.now ≤ 16_777_216 }
    requires read { IsRead bytes.now file.now }
    requires canonical { Canonical (rule_uses d.now) file.now.process.names file.now.process.process }
    ensures ok { IfOk result (λ answer. DerivesTo bytes.now answer.status answer.output.items) }
    ensures err { OnErr result (result ≡ Err Stop.NoMemory) }
{
    let output = write(alloc, d)?;
    within_limit(alloc, bytes, output)
}
