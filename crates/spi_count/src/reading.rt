// Effects read back from counts.
ghost use Rattle.std.specs.Prelude.{◌≡◌, ℕ, ◌<◌, ◌+◌, ◌++◌, length, map, replicate, slice_get, Some, IfOk, OnOk};
ghost use Rattle.spi_term.specs.Term as Term;
ghost use Rattle.spi_term.specs.Counts.{SameEffect};
ghost use Rattle.spi_term.specs.View.{message, atom, effect};
ghost use Rattle.spi_count.specs.Sums.{name_bound, key_of};
ghost use Rattle.spi_count.specs.Keeping.{with_keys, IsKeyed};
ghost use Rattle.spi_count.specs.Adding.{IsKey, SumOf, PileOf, AreKeyed, AreRead, atom_of_kind};
ghost use Rattle.spi_count.specs.declared.keys.Keys as Declared;

use crate::NoMemory;
use crate::keys::Keys;
use crate::pile::{Late, Pile};
use crate::sum::{AtomKind, Sum};
use spi_intern::{MsgId, Store, message_of};
use spi_term::{Atom, Effect, Msg};
use std::alloc::Global;

// The message with a number of the store.
fn read_message(alloc: Global, store: &Store, id: MsgId) -> Result<Msg, NoMemory>
    requires { id.place < length store.now.messages }
    ensures { IfOk result (λ m. slice_get store.now.messages id.place ≡ Some (message m)) }
{
    message_of(alloc, store, id)
}

fn atom_over(kind: AtomKind, m: Msg) -> Atom
    ensures { atom result ≡ atom_of_kind kind (message m) }
{
    match kind {
        AtomKind::End => Atom::End(m),
        AtomKind::Check => Atom::Check(m),
        AtomKind::Many => Atom::Many(m),
    }
}

// An atom of one kind over a message, and as many more.
fn push_atoms(
    alloc: Global,
    kind: AtomKind,
    m: Msg,
    more: u64,
    atoms: &mut Vec<Atom>,
) -> Result<(), NoMemory>
    ensures { OnOk result
        (map atom atoms.new.items ≡ map atom atoms.old.items
        ++ replicate (more + 1) (atom_of_kind kind (message m))) }
{
    for i in 0..more {
        let copy = m.copy(alloc)?;
        atoms.push(atom_over(kind, copy))?;
    }
    atoms.push(atom_over(kind, m))?;
    Ok(())
}

// All atoms of one kind over the message with a key.
fn read_atoms(
    alloc: Global,
    store: &Store,
    kind: AtomKind,
    key: u64,
    count: u64,
    atoms: &mut Vec<Atom>,
) -> Result<(), NoMemory>
    requires { 0 < count → (keys : Declared.Keys) × IsKey store.now keys key }
    ensures some { OnOk result
        ((keys : Declared.Keys) (i : ℕ) (m : Term.Message) → 0 < count → with_keys store.now keys i m
        → key ≡ key_of (name_bound m) i
        → map atom atoms.new.items ≡ map atom atoms.old.items ++ replicate count (atom_of_kind kind m)) }
    ensures none { OnOk result (count ≡ 0 → atoms.new.items ≡ atoms.old.items) }
{
    if count == 0 {
        return Ok(());
    }
    let id = MsgId::at((key % 4_294_967_296) as usize);
    let m = read_message(alloc, store, id)?;
    push_atoms(alloc, kind, m, count - 1, atoms)
}

// The atoms that wait.
fn read_late(alloc: Global, store: &Store, late: &[Late]) -> Result<Vec<Atom>, NoMemory>
    requires { (keys : Declared.Keys) × AreKeyed store.now keys late.now }
    ensures { IfOk result
        (λ v. (keys : Declared.Keys) → IsKeyed store.now keys → AreKeyed store.now keys late.now
        → AreRead store.now keys late.now (map atom v.items)) }
{
    let mut atoms = Vec::new(alloc);
    for wait in late {
        read_atoms(alloc, store, wait.kind, wait.key, wait.count, &mut atoms)?;
    }
    Ok(atoms)
}

/// The effect with these counts and atoms that wait, by the numbers and keys that they stand for. An error is want of
/// memory.
pub fn effect_of_pile(
    alloc: Global,
    store: &Store,
    keys: &Keys,
    pile: Pile,
) -> Result<Effect, NoMemory>
    requires { (es : Term.Effect) × IsKeyed store.now keys.now × PileOf store.now keys.now pile es }
    ensures { IfOk result
        (λ e. (es : Term.Effect) → PileOf store.now keys.now pile es → SameEffect (effect e) es) }
{
    let mut whole = pile;
    whole.settle_lasting()?;
    let Pile { sum, late } = whole;
    let mut waiting = late;
    sum.put_off(&mut waiting)?;
    let atoms = read_late(alloc, store, &waiting)?;
    Ok(Effect { atoms })
}

/// The effect with these counts, by the numbers and keys that they stand for. An error is want of memory.
pub fn effect_of_sum(
    alloc: Global,
    store: &Store,
    keys: &Keys,
    sum: Sum,
) -> Result<Effect, NoMemory>
    requires { (es : Term.Effect) × IsKeyed store.now keys.now × SumOf store.now keys.now sum es }
    ensures { IfOk result
        (λ e. (es : Term.Effect) → SumOf store.now keys.now sum es → SameEffect (effect e) es) }
{
    let late = Vec::new(alloc);
    effect_of_pile(alloc, store, keys, Pile { sum, late })
}
