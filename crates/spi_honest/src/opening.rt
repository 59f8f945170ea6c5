//! The start of a narration: the shared names are made, and the roles are taken apart.

ghost use Rattle.std.specs.Prelude.{◌≡◌, length, Some, IfOk, OnOk};
ghost use Rattle.spi_scope.specs.Files.{meant};
ghost use Rattle.spi_narrate.specs.Views.{narration_of};
ghost use Rattle.spi_honest.specs.Roles.{IsTellable, WeavesTo};
ghost use Rattle.spi_honest.specs.Stages.{SharesTo, SpreadsTo, ToldTo};

use crate::NoMemory;
use crate::roles::{first_place, first_places};
use crate::stage::{Stage, must};
use spi_narrate::Narration;
use spi_replay::Pool;
use spi_run::Step;
use spi_scope::File;
use spi_term::Process;
use std::alloc::Global;

/// The most places of a replay.
const PLACES: u32 = 5_000;

fn start<'p>(
    alloc: Global,
    n: &Narration,
    file: &'p File,
    opponent: &'p Process,
) -> Result<Stage<'p>, NoMemory>
    requires file { WeavesTo (narration_of n.now) (meant file.now) }
    requires opponent { file.now.opponent ≡ Some opponent.now }
    ensures shares { IfOk result (λ stage. SharesTo (narration_of n.now) (meant file.entry.now) 0 stage) }
{
    // The nodes are asked for what their answer says: a process has few names.
    let _ = file.process.len();
    Ok(Stage {
        pool: Pool::start(alloc, &file.process, opponent, PLACES)?,
        steps: Vec::new(alloc),
        events: Vec::new(alloc),
        places: Vec::new(alloc),
    })
}

// One act for each shared name.
fn share(stage: &mut Stage<'_>, n: &Narration, file: &File) -> Result<(), NoMemory>
    requires tellable { IsTellable (narration_of n.now) }
    requires shares { SharesTo (narration_of n.now) (meant file.now) 0 stage.old }
    ensures shares { OnOk result
        (SharesTo (narration_of n.now) (meant file.now) (length n.now.shared.items) stage.new) }
{
    for _i in 0..n.shared.len() {
        must(stage, Step::Act(0))?;
    }
    Ok(())
}

// One act for each parallel composition of roles.
fn spread(stage: &mut Stage<'_>, n: &Narration, file: &File) -> Result<(), NoMemory>
    requires tellable { IsTellable (narration_of n.now) }
    requires spreads { SpreadsTo (narration_of n.now) (meant file.now) 0 stage.old }
    ensures spreads { OnOk result
        (SpreadsTo (narration_of n.now) (meant file.now) (length n.now.more.items) stage.new) }
{
    for i in 0..n.more.len() {
        must(stage, Step::Act(first_place(i)))?;
    }
    Ok(())
}

/// The roles stand at their places, and no line was told.
pub fn open<'p>(alloc: Global, n: &Narration, file: &'p File) -> Result<Stage<'p>, NoMemory>
    requires tellable { IsTellable (narration_of n.now) }
    requires file { WeavesTo (narration_of n.now) (meant file.now) }
    ensures told { IfOk result (λ stage. ToldTo (narration_of n.now) (meant file.entry.now) 0 stage) }
{
    match &file.opponent {
        None => unreachable!(),
        Some(opponent) => {
            let mut stage = start(alloc, n, file, opponent)?;
            share(&mut stage, n, file)?;
            spread(&mut stage, n, file)?;
            stage.places = first_places(alloc, n.more.len() + 1)?;
            Ok(stage)
        }
    }
}
