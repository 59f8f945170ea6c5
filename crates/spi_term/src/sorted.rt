// Atoms in order, by reference: where an atom stands, and counts at these places.

ghost use Rattle.std.specs.Prelude.{◌≡◌, ◌+◌, ◌^◌, ◌<◌, ◌≤◌, length, map, All, IfSome};
ghost use Rattle.std.specs.List.Sorted.{IsPermutation};
ghost use Rattle.spi_term.specs.Looking.{IsInOrder, IsCut, IsFirstPlace, IsTally, IsRaised};
ghost use Rattle.spi_term.specs.View.{atom, pointed};

use crate::compare::compare_atoms;
use crate::same::is_same_atom;
use crate::term::Atom;

/// Sorts atoms by a total order in which only equal ones tie, in place.
pub fn sort_atoms(atoms: &mut [&Atom])
    ensures same { IsPermutation (pointed atoms.old) (pointed atoms.new) }
    ensures order { IsInOrder (pointed atoms.new) }
{
    atoms.sort_unstable_by(|a, b| compare_atoms(a, b));
}

// How many of the sorted atoms are before an atom.
fn cut_of(sorted: &[&Atom], a: &Atom) -> usize
    requires { IsInOrder (pointed sorted.now) }
    ensures bound { result ≤ length sorted.now }
    ensures cut { IsCut (atom a.now) (pointed sorted.now) result }
{
    sorted.partition_point(|b| compare_atoms(b, a).is_lt())
}

/// The first place of an atom among sorted ones, by binary search.
pub fn place_of(sorted: &[&Atom], a: &Atom) -> Option<usize>
    requires { IsInOrder (pointed sorted.now) }
    ensures bound { IfSome result (λ i. i < length sorted.now) }
    ensures place { IsFirstPlace (atom a.now) (pointed sorted.now) result }
{
    let place = cut_of(sorted, a);
    if place == sorted.len() {
        return None;
    }
    if is_same_atom(sorted[place], a) {
        return Some(place);
    }
    None
}

// One more at the place of an atom, if it has one.
fn raise(sorted: &[&Atom], a: &Atom, counts: &mut [usize])
    requires order { IsInOrder (pointed sorted.now) }
    requires room { length counts.old ≡ length sorted.now }
    requires small { All (λ n. n + 1 < 2 ^ 64) counts.old }
    ensures { IsRaised (pointed sorted.now) (atom a.now) counts.old counts.new }
{
    let Some(place) = place_of(sorted, a) else {
        return;
    };
    counts[place] += 1;
}

/// Writes how often each of the sorted atoms stands in `es`, at its first place.
pub fn tally_each(sorted: &[&Atom], es: &[Atom], counts: &mut [usize])
    requires order { IsInOrder (pointed sorted.now) }
    requires room { length counts.old ≡ length sorted.now }
    ensures { IsTally (pointed sorted.now) (map atom es.now) counts.new }
{
    counts.fill(0);
    for a in es {
        raise(sorted, a, counts);
    }
}
