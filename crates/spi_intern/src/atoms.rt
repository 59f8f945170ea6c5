// Atoms with numbers for their messages, and lists of them in order.

ghost use Rattle.std.specs.Prelude.{◌≡◌, ◌&&◌, ◌<◌, IfOk, OnOk, if◌then◌else◌, ◌++◌, ◌∷◌, [], length, drop};
ghost use Rattle.std.specs.List.Sorted.{IsPermutation};
ghost use Rattle.spi_term.specs.View.{atom, effect};
ghost use Rattle.spi_intern.specs.Table.{KeepsAll, TellsAll};
ghost use Rattle.spi_intern.specs.Growing.{AddsMessages};
ghost use Rattle.spi_intern.specs.Parts.{PartOf, InEffect, message_of};
ghost use Rattle.spi_intern.specs.Atoms.{SaysAtom, InOrder, IsCutTo, is_many, same_id_atom, repeats, without_repeats};

use crate::NoMemory;
use crate::messages::{Messages, MsgId};
use spi_term::{Atom, Effect};
use std::alloc::Global;

/// An atom of an effect, with the number of its message.
#[derive(Clone, Copy, PartialEq, Eq, PartialOrd, Ord, Hash)]
pub enum AtomId {
    End(MsgId),
    Check(MsgId),
    Many(MsgId),
}

/// The number of an atom's message.
pub fn atom_id(messages: &mut Messages, a: &Atom) -> Result<AtomId, NoMemory>
    ensures at { IfOk result (λ id. SaysAtom messages.new id (atom a.now)) }
    ensures grows { IfOk result
        (λ id. AddsMessages messages.old messages.new (λ x. PartOf x (message_of (atom a.now)))) }
    ensures kept { KeepsAll messages.old messages.new }
{
    match a {
        Atom::End(m) => {
            let id = messages.intern(m)?;
            Ok(AtomId::End(id))
        }
        Atom::Check(m) => {
            let id = messages.intern(m)?;
            Ok(AtomId::Check(id))
        }
        Atom::Many(m) => {
            let id = messages.intern(m)?;
            Ok(AtomId::Many(id))
        }
    }
}

/// The atoms of an effect, as they are written.
pub fn atom_ids(alloc: Global, messages: &mut Messages, e: &Effect) -> Result<Vec<AtomId>, NoMemory>
    ensures at { IfOk result (λ ids. TellsAll (SaysAtom messages.new) ids.items (effect e.now)) }
    ensures grows { IfOk result
        (λ ids. AddsMessages messages.old messages.new (λ x. InEffect x (effect e.now))) }
    ensures kept { KeepsAll messages.old messages.new }
{
    let mut ids = Vec::new(alloc);
    for a in &e.atoms {
        let id = atom_id(messages, a)?;
        ids.push(id)?;
    }
    Ok(ids)
}

// Whether both are the same `many`.
fn is_same_many(a: AtomId, b: AtomId) -> bool
    ensures { result ≡ (is_many a && same_id_atom a b) }
{
    match a {
        AtomId::End(_) => false,
        AtomId::Check(_) => false,
        AtomId::Many(m) => match b {
            AtomId::End(_) => false,
            AtomId::Check(_) => false,
            AtomId::Many(n) => m == n,
        },
    }
}

// Whether the atom at this place is a `many` that stands next again.
fn is_repeated(ids: &[AtomId], place: usize) -> bool
    requires { place < length ids.now }
    ensures { result ≡ repeats (drop place ids.now) }
{
    match ids.get(place + 1) {
        Some(next) => is_same_many(ids[place], *next),
        None => false,
    }
}

// Adds an atom that isn't to be left out.
fn keep_unless(kept: &mut Vec<AtomId>, left_out: bool, a: AtomId) -> Result<(), NoMemory>
    ensures { OnOk result (kept.new.items ≡ (if left_out then kept.old.items else kept.old.items ++ a ∷ [])) }
{
    if !left_out {
        kept.push(a)?;
    }
    Ok(())
}

// The atoms without each `many` that stands next again.
fn without_repeated(alloc: Global, ids: &[AtomId]) -> Result<Vec<AtomId>, NoMemory>
    ensures { IfOk result (λ kept. kept.items ≡ without_repeats ids.now) }
{
    let mut kept = Vec::new(alloc);
    for place in 0..ids.len() {
        let repeated = is_repeated(ids, place);
        keep_unless(&mut kept, repeated, ids[place])?;
    }
    Ok(kept)
}

/// The atoms in order, with each `many` once.
pub fn canonical(alloc: Global, mut ids: Vec<AtomId>) -> Result<Vec<AtomId>, NoMemory>
    ensures order { IfOk result (λ kept. InOrder kept.items) }
    ensures counts { IfOk result (λ kept. IsCutTo ids.items kept.items) }
{
    if ids.len() < 2 {
        return Ok(ids);
    }
    ids.sort()?;
    without_repeated(alloc, &ids)
}
