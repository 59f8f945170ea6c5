// Counts of atoms, and whether those of one effect are within those of another.

ghost use Rattle.std.specs.Prelude.{◌≡◌, ◌↔◌, ◌<◌, ◌≤◌, ◌-◌, IsTrue, length, map};
ghost use Rattle.spi_term.specs.Counts.{tally, cut, count};
ghost use Rattle.spi_term.specs.Tests.{is_within};
ghost use Rattle.spi_term.specs.Looking.{IsInOrder, AreFewer, AllWithin};
ghost use Rattle.spi_term.specs.View.{atom, pointed};

use crate::same::is_same_atom;
use crate::sorted::{place_of, sort_atoms, tally_each};
use crate::term::Atom;

// So many atoms are sorted at a time where no memory may be taken.
const CHUNK: usize = 512;

// Effects of up to so many atoms are compared by scanning.
const FEW: usize = 8;

// How often an atom stands there.
fn tally_of(es: &[Atom], a: &Atom) -> usize
    ensures { result ≡ tally (atom a.now) (map atom es.now) }
{
    let mut n: usize = 0;
    for b in es {
        if is_same_atom(a, b) {
            n += 1;
        }
    }
    n
}

// A count of an atom from how often it stands in a list.
fn cut_at(a: &Atom, n: usize) -> usize
    ensures { result ≡ cut (atom a.now) n }
{
    match a {
        Atom::End(_) => n,
        Atom::Check(_) => n,
        Atom::Many(_) => n.min(1),
    }
}

/// The count of an atom: how often it stands there, or 1 for a `many` that stands there at all.
pub fn count_in(es: &[Atom], a: &Atom) -> usize
    ensures { result ≡ count (atom a.now) (map atom es.now) }
{
    cut_at(a, tally_of(es, a))
}

fn is_within_by_scan(es: &[Atom], fs: &[Atom]) -> bool
    ensures { result ≡ is_within (map atom es.now) (map atom fs.now) }
{
    for a in es {
        if count_in(es, a) > count_in(fs, a) {
            return false;
        }
    }
    true
}

// At the place of each sorted atom, the first count is at most the second.
fn are_fewer(sorted: &[&Atom], ours: &[usize], theirs: &[usize]) -> bool
    requires order { IsInOrder (pointed sorted.now) }
    requires ours { length ours.now ≡ length sorted.now }
    requires theirs { length theirs.now ≡ length sorted.now }
    ensures { IsTrue result ↔ AreFewer (pointed sorted.now) ours.now theirs.now }
{
    for a in sorted {
        match place_of(sorted, a) {
            None => return false,
            Some(place) => {
                if cut_at(a, ours[place]) > cut_at(a, theirs[place]) {
                    return false;
                }
            }
        }
    }
    true
}

// No count of the sorted atoms in `es` is above that in `fs`; `ours` and `theirs` are room.
fn are_sorted_within(
    sorted: &[&Atom],
    es: &[Atom],
    fs: &[Atom],
    ours: &mut [usize],
    theirs: &mut [usize],
) -> bool
    requires order { IsInOrder (pointed sorted.now) }
    requires ours { length ours.old ≡ length sorted.now }
    requires theirs { length theirs.old ≡ length sorted.now }
    ensures { IsTrue result ↔ AllWithin (pointed sorted.now) (map atom es.now) (map atom fs.now) }
{
    tally_each(sorted, es, ours);
    tally_each(sorted, fs, theirs);
    are_fewer(sorted, ours, theirs)
}

// Lets each reference point to the atom at its place.
fn point<'a>(references: &mut [&'a Atom], atoms: &'a [Atom])
    requires { length references.old ≡ length atoms.now }
    ensures { pointed references.new ≡ map atom atoms.now }
{
    for (i, a) in atoms.iter().enumerate() {
        references[i] = a;
    }
}

// No atom of a chunk has a count in `es` above that in `fs`.
fn is_chunk_within(chunk: &[Atom], es: &[Atom], fs: &[Atom]) -> bool
    requires some { 0 < length chunk.now }
    requires room { length chunk.now ≤ CHUNK }
    ensures { IsTrue result ↔ AllWithin (map atom chunk.now) (map atom es.now) (map atom fs.now) }
{
    let n = chunk.len();
    let mut references = [&chunk[0]; CHUNK];
    let sorted = &mut references[..n];
    point(sorted, chunk);
    sort_atoms(sorted);
    let mut ours = [0; CHUNK];
    let mut theirs = [0; CHUNK];
    are_sorted_within(sorted, es, fs, &mut ours[..n], &mut theirs[..n])
}

// Where the chunk from `start` on ends.
fn chunk_end(start: usize, len: usize) -> usize
    requires { start < len }
    ensures later { start < result }
    ensures within { result ≤ len }
    ensures room { result - start ≤ CHUNK }
{
    if len - start < CHUNK {
        len
    } else {
        start + CHUNK
    }
}

fn is_within_by_chunks(es: &[Atom], fs: &[Atom]) -> bool
    ensures { result ≡ is_within (map atom es.now) (map atom fs.now) }
{
    let mut start = 0;
    while start < es.len() {
        let end = chunk_end(start, es.len());
        if !is_chunk_within(&es[start..end], es, fs) {
            return false;
        }
        start = end;
    }
    true
}

/// Whether no atom's count in the first is above that in the second. It takes no memory: atoms
/// are sorted by reference, 512 at a time, so n and m atoms take about n log n + m log n steps
/// where n is at most 512, and n / 512 times as many where it is more.
pub fn is_effect_within(es: &[Atom], fs: &[Atom]) -> bool
    ensures { result ≡ is_within (map atom es.now) (map atom fs.now) }
{
    if es.len() <= FEW {
        is_within_by_scan(es, fs)
    } else {
        is_within_by_chunks(es, fs)
    }
}
