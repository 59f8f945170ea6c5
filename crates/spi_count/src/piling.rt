// Atoms that go into effects of which atoms wait, and out of them, by the keys of their messages.
ghost use Rattle.std.specs.Prelude.{◌≡◌, ◌-◌, ◌<◌, ℕ, ◌++◌, length, Some, None, OnOk, nat_eq};
ghost use Rattle.indexmap.specs.IndexMap.{get};
ghost use Rattle.spi_term.specs.Term.{Effect, Ty};
ghost use Rattle.spi_effect.specs.Made.{minus};
ghost use Rattle.spi_intern.specs.Meaning.{Means};
ghost use Rattle.spi_count.specs.Sums.{both_counts};
ghost use Rattle.spi_count.specs.Piles.{once, piled};
ghost use Rattle.spi_message.specs.Forms.{cast_effect_of};
ghost use Rattle.spi_count.specs.Keeping.{IsKeyed, HaveKeys};
ghost use Rattle.spi_count.specs.Adding.{PileOf, AddsTo, TakesFrom, AddsAllTo, TakesAllFrom};
ghost use Rattle.spi_count.specs.declared.sum.AtomKind as Kinds;

use crate::NoMemory;
use crate::atoms::take_atoms;
use crate::keys::Keys;
use crate::pile::{Pile, SHORT};
use crate::sum::AtomKind;
use spi_intern::{AtomId, MsgId, Store, TyId, TyPart};

fn put_keyed(keys: &Keys, kind: AtomKind, id: MsgId, pile: &mut Pile) -> Result<(), NoMemory>
    ensures { OnOk result
        ((k : ℕ) → get nat_eq keys.now.keys id.place ≡ Some k → (l : Kinds.AtomKind) (q : ℕ)
        → piled l pile.new q ≡ both_counts l (piled l pile.old q) (once kind k l q)) }
{
    match keys.key(id) {
        Some(key) => pile.add(kind, key),
        None => Ok(()),
    }
}

fn drop_keyed(keys: &Keys, kind: AtomKind, id: MsgId, pile: &mut Pile) -> Result<(), NoMemory>
    ensures taken { OnOk result
        ((k : ℕ) → get nat_eq keys.now.keys id.place ≡ Some k → (l : Kinds.AtomKind) (q : ℕ)
        → piled l pile.new q ≡ piled l pile.old q - once kind k l q) }
    ensures absent { get nat_eq keys.now.keys id.place ≡ None → pile.new ≡ pile.old }
{
    match keys.key(id) {
        Some(key) => pile.take(kind, key),
        None => Ok(()),
    }
}

/// An atom whose message has a key comes to it, and waits. An error is want of memory.
pub fn put_atom(keys: &Keys, a: AtomId, pile: &mut Pile) -> Result<(), NoMemory>
    ensures { OnOk result (AddsTo keys.now a pile.old pile.new) }
{
    match a {
        AtomId::End(id) => put_keyed(keys, AtomKind::End, id, pile),
        AtomId::Check(id) => put_keyed(keys, AtomKind::Check, id, pile),
        AtomId::Many(id) => put_keyed(keys, AtomKind::Many, id, pile),
    }
}

/// An atom goes out, where it stands there. An error is want of memory.
pub fn drop_atom(keys: &Keys, a: AtomId, pile: &mut Pile) -> Result<(), NoMemory>
    ensures { OnOk result (TakesFrom keys.now a pile.old pile.new) }
{
    match a {
        AtomId::End(id) => drop_keyed(keys, AtomKind::End, id, pile),
        AtomId::Check(id) => drop_keyed(keys, AtomKind::Check, id, pile),
        AtomId::Many(id) => drop_keyed(keys, AtomKind::Many, id, pile),
    }
}

// Atoms whose messages have keys come to it, and wait.
fn put_atoms(keys: &Keys, ids: &[AtomId], pile: &mut Pile) -> Result<(), NoMemory>
    ensures { OnOk result (AddsAllTo keys.now ids.now pile.old pile.new) }
{
    for a in ids {
        put_atom(keys, *a, pile)?;
    }
    Ok(())
}

// Atoms go out, each where it stands there.
fn drop_each(keys: &Keys, ids: &[AtomId], pile: &mut Pile) -> Result<(), NoMemory>
    ensures { OnOk result (TakesAllFrom keys.now ids.now pile.old pile.new) }
{
    for a in ids {
        drop_atom(keys, *a, pile)?;
    }
    Ok(())
}

// Atoms go out, each where it stands there. Where they are many, none waits meanwhile.
fn drop_atoms(keys: &Keys, ids: &[AtomId], pile: &mut Pile) -> Result<(), NoMemory>
    ensures { OnOk result (TakesAllFrom keys.now ids.now pile.old pile.new) }
{
    if ids.len() <= SHORT {
        return drop_each(keys, ids, pile);
    }
    pile.settle()?;
    take_atoms(keys, ids, &mut pile.sum);
    Ok(())
}

/// The effect of a type that is cast to goes in. An error is want of memory.
pub fn put_type(store: &Store, keys: &Keys, t: TyId, pile: &mut Pile) -> Result<(), NoMemory>
    requires { t.place < length store.now.types }
    ensures { OnOk result
        ((u : Ty) (es : Effect) → IsKeyed store.now keys.now → Means store.now t.place u
        → HaveKeys store.now keys.now (cast_effect_of u) → PileOf store.now keys.now pile.old es
        → PileOf store.now keys.now pile.new (es ++ cast_effect_of u)) }
{
    match store.ty_part(t) {
        TyPart::Nonce(ids) => put_atoms(keys, ids, pile),
        TyPart::Un => Ok(()),
        TyPart::Unit => Ok(()),
        TyPart::Pair(_, _) => Ok(()),
        TyPart::Sum(_, _) => Ok(()),
        TyPart::Key(_) => Ok(()),
    }
}

/// The effect of the type of a nonce goes out. An error is want of memory.
pub fn drop_type(store: &Store, keys: &Keys, t: TyId, pile: &mut Pile) -> Result<(), NoMemory>
    requires { t.place < length store.now.types }
    ensures { OnOk result
        ((u : Ty) (es : Effect) → IsKeyed store.now keys.now → Means store.now t.place u
        → PileOf store.now keys.now pile.old es
        → PileOf store.now keys.now pile.new (minus es (cast_effect_of u))) }
{
    match store.ty_part(t) {
        TyPart::Nonce(ids) => drop_atoms(keys, ids, pile),
        TyPart::Un => Ok(()),
        TyPart::Unit => Ok(()),
        TyPart::Pair(_, _) => Ok(()),
        TyPart::Sum(_, _) => Ok(()),
        TyPart::Key(_) => Ok(()),
    }
}
