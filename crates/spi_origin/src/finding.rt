// The nodes that block, and the origins of an atom.

ghost use Rattle.std.specs.Prelude.{◌≡◌, ◌<◌, ℕ, IfOk, OnOk};
ghost use Rattle.spi_count.specs.Keeping.{with_keys, AreKept, GrowsTo};
ghost use Rattle.spi_count.specs.Sums.{name_bound, key_of};
ghost use Rattle.spi_infer.specs.Accounts.{IsNoted};
ghost use Rattle.spi_origin.specs.Listing.{AreAll};
ghost use Rattle.spi_origin.specs.Origins.{IsOriginIn};
ghost use Rattle.spi_rules.specs.Blocking.{Blocks};
ghost use Rattle.spi_rules.specs.Environment.{untrusted};
ghost use Rattle.spi_term.specs.Term.{process_size};
ghost use Rattle.spi_term.specs.View.{message, atom as atom_of};
ghost use Rattle.spi_intern.specs.Parts.{message_of};

use crate::NoMemory;
use crate::gathering::{Aim, gathered_from};
use spi_count::{Keys, keep_message};
use spi_infer::{Noted, Steps, own_notes};
use spi_message::Judge;
use spi_term::{Atom, Msg, Process};
use std::alloc::Global;
use std::marker::Brand;
use std::sync::ledger::{Blank, Ledger};

// What is kept of the nodes where the free names are untrusted, and the judge whose numbers it has.
fn noted_over<L: Ledger>(
    alloc: Global,
    process: &Process,
    blank: Blank,
) -> Result<(Judge, Noted), NoMemory>
    requires name { blank.name ≡ L.name }
    requires parts { blank.parts ≡ L.parts }
    requires some { 0 < blank.parts }
    ensures { IfOk result
        (λ r. IsNoted r.0.store r.1 process.now.names process.now.process (untrusted process.now.names)) }
{
    let _ = process.len();
    let mut steps = Steps::<L>::new(blank);
    let mut judge = Judge::new(alloc, process.names())?;
    let noted = own_notes(alloc, &mut judge, process, &mut steps)?;
    Ok((judge, noted))
}

fn message_in(a: &Atom) -> &Msg
    ensures { message result.now ≡ message_of (atom_of a.now) }
{
    match a {
        Atom::End(m) => m,
        Atom::Check(m) => m,
        Atom::Many(m) => m,
    }
}

// The key of the message, which is kept among the others.
fn key_of_message(judge: &mut Judge, keys: &mut Keys, m: &Msg) -> Result<u64, NoMemory>
    requires { AreKept judge.old.store keys.old }
    ensures key { IfOk result (λ k. (i : ℕ) × with_keys judge.new.store keys.new i (message m.now)
        × (k ≡ key_of (name_bound (message m.now)) i)) }
    ensures grows { OnOk result (GrowsTo judge.old.store keys.old judge.new.store keys.new) }
{
    let id = keep_message(judge, keys, m)?;
    match keys.key(id) {
        Some(key) => Ok(key),
        None => unreachable!(),
    }
}

/// The nodes of the process that block, by their numbers, the least first. There are none exactly where an effect is
/// derivable.
pub fn blocked(alloc: Global, process: &Process) -> Result<Vec<u32>, NoMemory>
    ensures { IfOk result (λ v. AreAll (Blocks (untrusted process.now.names) process.now.process) v.items) }
{
    let _ = process.len();
    let (judge, noted) = noted_over::<Brand>(alloc, process, Blank::new(1))?;
    gathered_from(alloc, process, &noted, judge.store(), 0, &Aim::Blocking)
}

/// The nodes that put the atom in the least effect of the process of `node`, by their numbers, the least first. There are
/// none where the atom doesn't stand in that effect, or that process has none.
pub fn origins(
    alloc: Global,
    process: &Process,
    node: u32,
    atom: &Atom,
) -> Result<Vec<u32>, NoMemory>
    requires { node < process_size process.now.process }
    ensures { IfOk result
        (λ v. AreAll (IsOriginIn process.now.names process.now.process node (atom_of atom.now)) v.items) }
{
    let _ = process.len();
    let (judge, noted) = noted_over::<Brand>(alloc, process, Blank::new(1))?;
    let mut judge = judge;
    let mut noted = noted;
    let key = key_of_message(&mut judge, &mut noted.keys, message_in(atom))?;
    let aim = Aim::Origins(atom.copy(alloc)?, key);
    gathered_from(alloc, process, &noted, judge.store(), node, &aim)
}
