// Messages for the binders that a type stands under, over shared terms.

ghost use Rattle.std.specs.Prelude.{◌≡◌, ℕ, suc, ◌≤◌, ◌<◌, ◌^◌, IfOk, OnOk, length};
ghost use Rattle.spi_intern.specs.Given.{IsGiven};
ghost use Rattle.spi_intern.specs.Meaning.{Keeps};
ghost use Rattle.spi_message.specs.Filling.{value_of, message_in, AreIdsBelow, AtomsAreBelow, IsDepth, FillsMessage, FillsAtom, FillsAtoms, FillsTy};
ghost use Rattle.spi_message.specs.Added.{MessageIsAdded, AtomsAreAdded, TypeIsAdded};

use crate::NoMemory;
use spi_intern::{AtomId, MsgId, MsgPart, Store, TyId, TyPart};
use std::alloc::Global;

// One more binder: past 2 ^ 32 no index can name it, so the count stands still there.
fn deeper(depth: u64) -> u64
    requires { depth ≤ 2 ^ 32 }
    ensures limit { result ≤ 2 ^ 32 }
    ensures next { (d : ℕ) → IsDepth d depth → IsDepth (suc d) result }
{
    if depth < 4_294_967_296 {
        depth + 1
    } else {
        depth
    }
}

// The value for an index, if it leads past the inner binders.
fn value_for(values: &[MsgId], depth: u64, index: u32) -> Option<MsgId>
    requires { depth ≤ 2 ^ 32 }
    ensures { (d : ℕ) → IsDepth d depth → result ≡ value_of values.now d index }
{
    if (index as u64) < depth {
        return None;
    }
    let behind = (index as u64 - depth) as usize;
    if behind < values.len() {
        Some(values[values.len() - 1 - behind])
    } else {
        None
    }
}

/// The message with the values for its indices. What has no such index keeps its number.
pub fn filled_message(
    store: &mut Store,
    values: &[MsgId],
    depth: u64,
    m: MsgId,
) -> Result<MsgId, NoMemory>
    requires depth { depth ≤ 2 ^ 32 }
    requires message { m.place < length store.old.messages }
    requires values { AreIdsBelow values.now (length store.old.messages) }
    ensures at { IfOk result (FillsMessage store.old.messages store.new.messages values.now depth m) }
    ensures adds { OnOk result (MessageIsAdded store.old store.new values.now depth m) }
    ensures kept { Keeps store.old store.new }
{
    match store.part(m) {
        MsgPart::Bound(i) => match value_for(values, depth, i) {
            Some(value) => Ok(value),
            None => Ok(m),
        },
        MsgPart::Name(_) => Ok(m),
        MsgPart::Unit => Ok(m),
        MsgPart::Pair(a, b) => {
            let first = filled_message(store, values, depth, a)?;
            let second = filled_message(store, values, depth, b)?;
            store.message_over(MsgPart::Pair(first, second))
        }
        MsgPart::Inl(a) => {
            let part = filled_message(store, values, depth, a)?;
            store.message_over(MsgPart::Inl(part))
        }
        MsgPart::Inr(a) => {
            let part = filled_message(store, values, depth, a)?;
            store.message_over(MsgPart::Inr(part))
        }
        MsgPart::Enc(a, b) => {
            let body = filled_message(store, values, depth, a)?;
            let key = filled_message(store, values, depth, b)?;
            store.message_over(MsgPart::Enc(body, key))
        }
        MsgPart::Hash(a) => {
            let part = filled_message(store, values, depth, a)?;
            store.message_over(MsgPart::Hash(part))
        }
    }
}

/// The message in an atom.
pub fn message_of(a: AtomId) -> MsgId
    ensures { result ≡ message_in a }
{
    match a {
        AtomId::End(m) => m,
        AtomId::Check(m) => m,
        AtomId::Many(m) => m,
    }
}

fn filled_atom(
    store: &mut Store,
    values: &[MsgId],
    depth: u64,
    a: AtomId,
) -> Result<AtomId, NoMemory>
    requires depth { depth ≤ 2 ^ 32 }
    requires message { (message_in a).place < length store.old.messages }
    requires values { AreIdsBelow values.now (length store.old.messages) }
    ensures at { IfOk result (FillsAtom store.old.messages store.new.messages values.now depth a) }
    ensures adds { OnOk result (MessageIsAdded store.old store.new values.now depth (message_in a)) }
    ensures kept { Keeps store.old store.new }
{
    let filled = filled_message(store, values, depth, message_of(a))?;
    match a {
        AtomId::End(_) => Ok(AtomId::End(filled)),
        AtomId::Check(_) => Ok(AtomId::Check(filled)),
        AtomId::Many(_) => Ok(AtomId::Many(filled)),
    }
}

fn filled_atoms(
    alloc: Global,
    store: &mut Store,
    values: &[MsgId],
    depth: u64,
    atoms: &[AtomId],
) -> Result<Vec<AtomId>, NoMemory>
    requires depth { depth ≤ 2 ^ 32 }
    requires atoms { AtomsAreBelow atoms.now (length store.old.messages) }
    requires values { AreIdsBelow values.now (length store.old.messages) }
    ensures at { IfOk result
        (λ rs. FillsAtoms store.old.messages store.new.messages values.now depth atoms.now rs.items) }
    ensures adds { OnOk result (AtomsAreAdded store.old store.new values.now depth atoms.now) }
    ensures kept { Keeps store.old store.new }
{
    let mut filled = Vec::new(alloc);
    for a in atoms {
        let id = filled_atom(store, values, depth, *a)?;
        filled.push(id)?;
    }
    Ok(filled)
}

/// The type with the values for its indices. What has no such index keeps its number.
pub fn filled_type(
    alloc: Global,
    store: &mut Store,
    values: &[MsgId],
    depth: u64,
    t: TyId,
) -> Result<TyId, NoMemory>
    requires depth { depth ≤ 2 ^ 32 }
    requires ty { IsGiven store.old t.place }
    requires values { AreIdsBelow values.now (length store.old.messages) }
    ensures at { IfOk result (FillsTy store.old store.new values.now depth t) }
    ensures adds { OnOk result (TypeIsAdded store.old store.new values.now depth t) }
    ensures kept { Keeps store.old store.new }
{
    match store.ty_part(t) {
        TyPart::Un => Ok(t),
        TyPart::Unit => Ok(t),
        TyPart::Pair(a, b) => {
            let first = filled_type(alloc, store, values, depth, a)?;
            let second = filled_type(alloc, store, values, deeper(depth), b)?;
            store.pair_over(first, second)
        }
        TyPart::Sum(a, b) => {
            let left = filled_type(alloc, store, values, depth, a)?;
            let right = filled_type(alloc, store, values, depth, b)?;
            store.sum_over(left, right)
        }
        TyPart::Key(a) => {
            let payload = filled_type(alloc, store, values, depth, a)?;
            store.key_over(payload)
        }
        TyPart::Nonce(atoms) => {
            let atoms = atoms.to_vec(alloc)?;
            let filled = filled_atoms(alloc, store, values, depth, &atoms)?;
            store.nonce_over(alloc, filled)
        }
    }
}
