//! The honest schedule of a narration.

ghost use Rattle.std.specs.Prelude.{◌≡◌, ◌⊎◌, IfOk, IfErr};
ghost use Rattle.spi_scope.specs.Files.{meant};
ghost use Rattle.spi_narrate.specs.Views.{narration_of};
ghost use Rattle.spi_honest.specs.Roles.{IsTellable, NamesChannels, WeavesTo};
ghost use Rattle.spi_honest.specs.Honest.{IsHonest, HasHonestFault};

use crate::fault::HonestFault;
use crate::free::FreeNames;
use crate::honest::Honest;
use crate::lines::tell;
use crate::opening::open;
use spi_narrate::Narration;
use spi_scope::File;
use std::alloc::Global;

/// The steps by which a narration goes, and its events. The file is the one that its woven tree stands for, each role of its
/// lines is declared once, and each word after `on` is a free name.
///
/// The first line that has no value is `LineNotReady`. The first line that binds or reports a message of more than 1,000 nodes
/// is `NarratedTooLarge`. The earlier line counts, and at one line `LineNotReady` comes first. The last error is `NoMemory`.
pub fn schedule_of(alloc: Global, n: &Narration, file: &File) -> Result<Honest, HonestFault>
    requires tellable { IsTellable (narration_of n.now) }
    requires channels { NamesChannels (narration_of n.now) }
    requires file { WeavesTo (narration_of n.now) (meant file.now) }
    ensures honest { IfOk result (λ h. IsHonest (narration_of n.now) (meant file.now) h) }
    ensures fault { IfErr result (λ e. (e ≡ HonestFault.NoMemory) ⊎ HasHonestFault (narration_of n.now) e) }
{
    let Ok(names) = FreeNames::of(alloc, &n.decls) else {
        return Err(HonestFault::NoMemory);
    };
    let Ok(mut stage) = open(alloc, n, file) else {
        return Err(HonestFault::NoMemory);
    };
    for at in 0..n.lines.len() {
        tell(&mut stage, n, file, &names, at)?;
    }
    Ok(stage.played())
}
