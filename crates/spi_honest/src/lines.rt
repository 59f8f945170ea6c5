//! Lines, told one by one.

ghost use Rattle.std.specs.Prelude.{◌≡◌, ◌⊎◌, ◌+◌, ◌<◌, length, IfOk, IfErr, OnOk};
ghost use Rattle.spi_scope.specs.Files.{meant};
ghost use Rattle.spi_narrate.specs.Views.{narration_of};
ghost use Rattle.spi_honest.specs.Free.{NumbersFree};
ghost use Rattle.spi_honest.specs.Roles.{IsTellable, NamesChannels};
ghost use Rattle.spi_honest.specs.Honest.{HasHonestFault};
ghost use Rattle.spi_honest.specs.Stages.{ToldTo, IsLocalAt, IsPassAt, IsParted};

use crate::NoMemory;
use crate::fault::HonestFault;
use crate::free::{FreeNames, name_number};
use crate::roles::role_number;
use crate::stage::{Stage, attempt, meets, must};
use spi_narrate::{Line, Narration};
use spi_run::Step;
use spi_scope::File;

// A line of one role.
fn local(
    stage: &mut Stage<'_>,
    n: &Narration,
    file: &File,
    at: usize,
    role: usize,
) -> Result<(), HonestFault>
    requires tellable { IsTellable (narration_of n.now) }
    requires line { IsLocalAt (narration_of n.now) at role }
    requires told { ToldTo (narration_of n.now) (meant file.now) at stage.old }
    ensures told { OnOk result (ToldTo (narration_of n.now) (meant file.now) (at + 1) stage.new) }
    ensures fault { IfErr result (λ e. (e ≡ HonestFault.NoMemory) ⊎ HasHonestFault (narration_of n.now) e) }
{
    let place = stage.places[role];
    attempt(stage, Step::Act(place), at as u32)
}

// The output of a message and the sender's further process come apart: the place of the output.
fn part(
    stage: &mut Stage<'_>,
    n: &Narration,
    file: &File,
    at: usize,
    from: usize,
    to: usize,
    channel: u32,
) -> Result<u32, NoMemory>
    requires tellable { IsTellable (narration_of n.now) }
    requires line { IsPassAt (narration_of n.now) at from to channel }
    requires told { ToldTo (narration_of n.now) (meant file.now) at stage.old }
    ensures parted { IfOk result
        (λ out. IsParted (narration_of n.now) (meant file.now) at from to channel out stage.new) }
{
    let out = stage.places[from];
    let rest = stage.pool.places();
    must(stage, Step::Act(out))?;
    stage.places[from] = rest;
    Ok(out)
}

// The output and the receiver's input meet.
fn meet(
    stage: &mut Stage<'_>,
    n: &Narration,
    file: &File,
    at: usize,
    from: usize,
    to: usize,
    channel: u32,
    out: u32,
) -> Result<(), HonestFault>
    requires tellable { IsTellable (narration_of n.now) }
    requires parted { IsParted (narration_of n.now) (meant file.now) at from to channel out stage.old }
    ensures told { OnOk result (ToldTo (narration_of n.now) (meant file.now) (at + 1) stage.new) }
    ensures fault { IfErr result (λ e. (e ≡ HonestFault.NoMemory) ⊎ HasHonestFault (narration_of n.now) e) }
{
    let inp = stage.places[to];
    if !meets(&stage.pool, channel, out, inp) {
        return Err(HonestFault::LineNotReady { line: at as u32 });
    }
    attempt(stage, Step::Talk(out, inp), at as u32)
}

/// The line with this number, told.
pub fn tell(
    stage: &mut Stage<'_>,
    n: &Narration,
    file: &File,
    names: &FreeNames<'_>,
    at: usize,
) -> Result<(), HonestFault>
    requires tellable { IsTellable (narration_of n.now) }
    requires channels { NamesChannels (narration_of n.now) }
    requires names { NumbersFree names.now (narration_of n.now) }
    requires at { at < length n.now.lines.items }
    requires told { ToldTo (narration_of n.now) (meant file.now) at stage.old }
    ensures told { OnOk result (ToldTo (narration_of n.now) (meant file.now) (at + 1) stage.new) }
    ensures fault { IfErr result (λ e. (e ≡ HonestFault.NoMemory) ⊎ HasHonestFault (narration_of n.now) e) }
{
    match &n.lines[at] {
        Line::Local { role, .. } => {
            let role = role_number(&n.first, &n.more, role);
            local(stage, n, file, at, role)
        }
        Line::Pass {
            from,
            to,
            channel,
            ..
        } => {
            let from = role_number(&n.first, &n.more, from);
            let to = role_number(&n.first, &n.more, to);
            let channel = name_number(names, channel);
            match part(stage, n, file, at, from, to, channel) {
                Ok(out) => meet(stage, n, file, at, from, to, channel, out),
                Err(_) => Err(HonestFault::NoMemory),
            }
        }
    }
}
