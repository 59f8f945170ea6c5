// Atoms that go into counts and out of them, by the keys of their messages.
ghost use Rattle.std.specs.Prelude.{◌≡◌, ◌-◌, ◌<◌, ℕ, ◌++◌, length, Some, None, OnOk, nat_eq};
ghost use Rattle.indexmap.specs.IndexMap.{get};
ghost use Rattle.spi_term.specs.Term.{Effect, Ty};
ghost use Rattle.spi_effect.specs.Made.{minus};
ghost use Rattle.spi_intern.specs.Meaning.{Means};
ghost use Rattle.spi_count.specs.Counts.{count_of};
ghost use Rattle.spi_count.specs.Sums.{part, one_more, Puts};
ghost use Rattle.spi_message.specs.Forms.{cast_effect_of};
ghost use Rattle.spi_count.specs.Keeping.{IsKeyed, HaveKeys};
ghost use Rattle.spi_count.specs.Adding.{SumOf, AddsAtom, TakesAtom, AddsAll, TakesAll};

use crate::NoMemory;
use crate::keys::Keys;
use crate::sum::{AtomKind, Sum};
use spi_intern::{AtomId, MsgId, Store, TyId, TyPart};

fn add_keyed(keys: &Keys, kind: AtomKind, id: MsgId, sum: &mut Sum) -> Result<(), NoMemory>
    ensures { OnOk result
        ((k : ℕ) → get nat_eq keys.now.keys id.place ≡ Some k
        → Puts kind sum.old sum.new k (one_more kind (count_of (part kind sum.old) k))) }
{
    match keys.key(id) {
        Some(key) => sum.add(kind, key),
        None => Ok(()),
    }
}

fn take_keyed(keys: &Keys, kind: AtomKind, id: MsgId, sum: &mut Sum)
    ensures taken { (k : ℕ) → get nat_eq keys.now.keys id.place ≡ Some k
        → Puts kind sum.old sum.new k (count_of (part kind sum.old) k - 1) }
    ensures absent { get nat_eq keys.now.keys id.place ≡ None → sum.new ≡ sum.old }
{
    if let Some(key) = keys.key(id) {
        sum.take(kind, key);
    }
}

/// An atom whose message has a key goes in. An error is want of memory.
pub fn add_atom(keys: &Keys, a: AtomId, sum: &mut Sum) -> Result<(), NoMemory>
    ensures { OnOk result (AddsAtom keys.now a sum.old sum.new) }
{
    match a {
        AtomId::End(id) => add_keyed(keys, AtomKind::End, id, sum),
        AtomId::Check(id) => add_keyed(keys, AtomKind::Check, id, sum),
        AtomId::Many(id) => add_keyed(keys, AtomKind::Many, id, sum),
    }
}

/// An atom goes out, where it stands there.
pub fn take_atom(keys: &Keys, a: AtomId, sum: &mut Sum)
    ensures { TakesAtom keys.now a sum.old sum.new }
{
    match a {
        AtomId::End(id) => take_keyed(keys, AtomKind::End, id, sum),
        AtomId::Check(id) => take_keyed(keys, AtomKind::Check, id, sum),
        AtomId::Many(id) => take_keyed(keys, AtomKind::Many, id, sum),
    }
}

/// Atoms whose messages have keys go in. An error is want of memory.
pub fn add_atoms(keys: &Keys, ids: &[AtomId], sum: &mut Sum) -> Result<(), NoMemory>
    ensures { OnOk result (AddsAll keys.now ids.now sum.old sum.new) }
{
    for a in ids {
        add_atom(keys, *a, sum)?;
    }
    Ok(())
}

// Atoms go out, each where it stands there.
pub(crate) fn take_atoms(keys: &Keys, ids: &[AtomId], sum: &mut Sum)
    ensures { TakesAll keys.now ids.now sum.old sum.new }
{
    for a in ids {
        take_atom(keys, *a, sum);
    }
}

/// The effect of a type that is cast to goes in. An error is want of memory.
pub fn add_type(store: &Store, keys: &Keys, t: TyId, sum: &mut Sum) -> Result<(), NoMemory>
    requires { t.place < length store.now.types }
    ensures { OnOk result
        ((u : Ty) (es : Effect) → IsKeyed store.now keys.now → Means store.now t.place u
        → HaveKeys store.now keys.now (cast_effect_of u) → SumOf store.now keys.now sum.old es
        → SumOf store.now keys.now sum.new (es ++ cast_effect_of u)) }
{
    match store.ty_part(t) {
        TyPart::Nonce(ids) => add_atoms(keys, ids, sum),
        TyPart::Un => Ok(()),
        TyPart::Unit => Ok(()),
        TyPart::Pair(_, _) => Ok(()),
        TyPart::Sum(_, _) => Ok(()),
        TyPart::Key(_) => Ok(()),
    }
}

/// The effect of the type of a nonce goes out.
pub fn take_type(store: &Store, keys: &Keys, t: TyId, sum: &mut Sum)
    requires { t.place < length store.now.types }
    ensures { (u : Ty) (es : Effect) → IsKeyed store.now keys.now → Means store.now t.place u
        → SumOf store.now keys.now sum.old es
        → SumOf store.now keys.now sum.new (minus es (cast_effect_of u)) }
{
    match store.ty_part(t) {
        TyPart::Nonce(ids) => take_atoms(keys, ids, sum),
        TyPart::Un => {}
        TyPart::Unit => {}
        TyPart::Pair(_, _) => {}
        TyPart::Sum(_, _) => {}
        TyPart::Key(_) => {}
    }
}
