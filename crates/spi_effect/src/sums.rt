// Sums, differences and greatest counts.

ghost use Rattle.std.specs.Prelude.{◌≡◌, ◌++◌, IfOk, OnOk, length, map};
ghost use Rattle.std.specs.List.Sorted.{IsPermutation};
ghost use Rattle.spi_term.specs.Looking.{IsInOrder};
ghost use Rattle.spi_term.specs.View.{atom, effect, pointed};
ghost use Rattle.spi_effect.specs.Effect.{IsSum, IsDifference, IsGreater};
ghost use Rattle.spi_effect.specs.Made.{atom_is_many};
ghost use Rattle.spi_effect.specs.Rest.{IsMet};

use crate::NoMemory;
use spi_term::{Atom, Effect, place_of, sort_atoms, tally_each};
use std::alloc::Global;

// Equal atoms go to the end of a list.
fn push_copies(alloc: Global, to: &mut Vec<Atom>, from: &[Atom]) -> Result<(), NoMemory>
    ensures { OnOk result (map atom to.new.items ≡ map atom to.old.items ++ map atom from.now) }
{
    for a in from {
        to.push(a.copy(alloc)?)?;
    }
    Ok(())
}

/// An effect in which the count of each atom is the sum of its counts in both. The sum of the
/// counts of a `many` stops at 1. Its only error is NoMemory.
pub fn add(alloc: Global, a: &Effect, b: &Effect) -> Result<Effect, NoMemory>
    ensures { IfOk result (λ r. IsSum (effect r) (effect a.now) (effect b.now)) }
{
    let mut sum = a.copy(alloc)?;
    push_copies(alloc, &mut sum.atoms, &b.atoms)?;
    Ok(sum)
}

// A reference to each atom.
fn references(alloc: Global, atoms: &[Atom]) -> Result<Vec<&Atom>, NoMemory>
    ensures { IfOk result (λ v. pointed v.items ≡ map atom atoms.now) }
{
    let mut all = Vec::new(alloc);
    for a in atoms {
        all.push(a)?;
    }
    Ok(all)
}

// Whether an atom is a `many`.
fn is_many_atom(a: &Atom) -> bool
    ensures { result ≡ atom_is_many (atom a.now) }
{
    match a {
        Atom::End(_) => false,
        Atom::Check(_) => false,
        Atom::Many(_) => true,
    }
}

// Whether one more of an atom is left out, by what is left at its place.
fn is_left_out(sorted: &[&Atom], a: &Atom, left: &mut [usize]) -> bool
    requires order { IsInOrder (pointed sorted.now) }
    requires room { length left.old ≡ length sorted.now }
    ensures { IsMet (pointed sorted.now) (atom a.now) left.old left.new result }
{
    let Some(place) = place_of(sorted, a) else {
        return false;
    };
    if left[place] == 0 {
        return false;
    }
    if is_many_atom(a) {
        return true;
    }
    left[place] -= 1;
    true
}

// The atoms of `es` without those of `fs`, of which `sorted` are the references in order, and
// `left` is room.
fn rest_of(
    alloc: Global,
    es: &[Atom],
    fs: &[Atom],
    sorted: &[&Atom],
    left: &mut [usize],
) -> Result<Vec<Atom>, NoMemory>
    requires same { IsPermutation (map atom fs.now) (pointed sorted.now) }
    requires order { IsInOrder (pointed sorted.now) }
    requires room { length left.old ≡ length sorted.now }
    ensures { IfOk result (λ v. IsDifference (map atom v.items) (map atom es.now) (map atom fs.now)) }
{
    tally_each(sorted, fs, left);
    let mut atoms = Vec::new(alloc);
    for x in es {
        if !is_left_out(sorted, x, left) {
            atoms.push(x.copy(alloc)?)?;
        }
    }
    Ok(atoms)
}

/// An effect in which the count of each atom is its count in `a` less its count in `b`, and 0
/// where that is the greater. The atoms stay in the order of `a`. Effects of n and m atoms take
/// about n log m + m log m steps. Its only error is NoMemory.
pub fn minus(alloc: Global, a: &Effect, b: &Effect) -> Result<Effect, NoMemory>
    ensures { IfOk result (λ r. IsDifference (effect r) (effect a.now) (effect b.now)) }
{
    let mut sorted = references(alloc, &b.atoms)?;
    sort_atoms(&mut sorted);
    let mut left = vec![in alloc; 0usize; sorted.len()]?;
    let atoms = rest_of(alloc, &a.atoms, &b.atoms, &sorted, &mut left)?;
    Ok(Effect { atoms })
}

/// An effect in which the count of each atom is the greater of its counts in both.
/// Its only error is NoMemory.
pub fn join(alloc: Global, a: &Effect, b: &Effect) -> Result<Effect, NoMemory>
    ensures { IfOk result (λ r. IsGreater (effect r) (effect a.now) (effect b.now)) }
{
    let more = minus(alloc, b, a)?;
    let mut both = a.copy(alloc)?;
    push_copies(alloc, &mut both.atoms, &more.atoms)?;
    Ok(both)
}
