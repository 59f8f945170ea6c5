// Effects by example: those of the types of `new (x: Nonce [..]); new (y: Nonce [..]); out .. ..`.

use super::samples::{MISSING, NoMemory, Sample, SampleQuestion, each};
use spi_effect::{add, count_of, join, mentions, minus, within};
use spi_term::{
    Atom, Effect, Ty, compare_atoms, count_in, is_effect_within, is_name_in_effect, is_same_atom,
    place_of, sort_atoms, tally_each,
};
use std::alloc::Global;

/// What is asked of two effects, and of the first atom of the second.
#[derive(Clone, Copy)]
enum OfEffects {
    Added,
    Joined,
    Left,
    Within,
    Counted,
    Mentioned,
    Equal,
}

/// Whether a copy of the atom is the same.
fn is_copied(alloc: Global, atom: &Atom) -> Result<bool, NoMemory> {
    let copy = atom.copy(alloc)?;
    Ok(is_same_atom(&copy, atom))
}

fn answer_over(
    alloc: Global,
    question: OfEffects,
    one: &Effect,
    other: &Effect,
    atom: &Atom,
) -> Result<u64, NoMemory> {
    match question {
        OfEffects::Added => Ok(add(alloc, one, other)?.atoms.len() as u64),
        OfEffects::Joined => Ok(join(alloc, one, other)?.atoms.len() as u64),
        OfEffects::Left => Ok(minus(alloc, one, other)?.atoms.len() as u64),
        OfEffects::Within => {
            Ok((within(one, other) && is_effect_within(&one.atoms, &other.atoms)) as u64)
        }
        OfEffects::Counted => Ok(
            count_of(one, atom).saturating_add(count_in(&one.atoms, atom)) as u64,
        ),
        OfEffects::Mentioned => Ok((mentions(one, 0) && is_name_in_effect(0, &one.atoms)) as u64),
        OfEffects::Equal => Ok(is_copied(alloc, atom)? as u64),
    }
}

impl SampleQuestion for OfEffects {
    fn answer_of(self, alloc: Global, parts: &Sample<'_>) -> Result<u64, NoMemory> {
        match (parts.first, parts.second) {
            (Ty::Nonce(one), Ty::Nonce(other)) => match other.atoms.as_slice() {
                [atom, ..] => answer_over(alloc, self, one, other, atom),
                [] => Ok(MISSING),
            },
            _ => Ok(MISSING),
        }
    }
}

const TWICE: &str =
    "free a, b; process new (x: Nonce [end a, end a, check b]); new (y: Nonce [end a]); out a a";

const ONCE: &str =
    "free a, b; process new (x: Nonce [end b]); new (y: Nonce [end a, end b]); out a a";

const MANY: &str =
    "version 2; free a; process new (x: Nonce [many a, many a]); new (y: Nonce [many a]); out a a";

#[test]
fn counts_are_added_and_taken(rt: HostRuntime) {
    each(&rt, OfEffects::Added, &[(TWICE, 4), (ONCE, 3)]);
    each(&rt, OfEffects::Joined, &[(TWICE, 3), (ONCE, 2)]);
    each(&rt, OfEffects::Left, &[(TWICE, 2), (ONCE, 0), (MANY, 0)]);
}

#[test]
fn effects_are_compared_and_searched(rt: HostRuntime) {
    each(&rt, OfEffects::Within, &[(TWICE, 0), (ONCE, 1), (MANY, 1)]);
    each(&rt, OfEffects::Counted, &[(TWICE, 4), (ONCE, 0), (MANY, 2)]);
    each(&rt, OfEffects::Mentioned, &[(TWICE, 1), (ONCE, 0)]);
    each(&rt, OfEffects::Equal, &[(TWICE, 1), (MANY, 1)]);
}

/// Where the last of three atoms stands once they are sorted, and how often.
#[derive(Clone, Copy)]
struct Sorted;

impl SampleQuestion for Sorted {
    fn answer_of(self, _alloc: Global, parts: &Sample<'_>) -> Result<u64, NoMemory> {
        let Ty::Nonce(effect) = parts.first else {
            return Ok(MISSING);
        };
        match effect.atoms.as_slice() {
            [one, two, three] => Ok(place_and_count(&effect.atoms, one, two, three)),
            _ => Ok(MISSING),
        }
    }
}

fn place_and_count(atoms: &[Atom], one: &Atom, two: &Atom, three: &Atom) -> u64 {
    let mut sorted = [one, two, three];
    sort_atoms(&mut sorted);
    let mut counts = [0; 3];
    tally_each(&sorted, atoms, &mut counts);
    match place_of(&sorted, three) {
        Some(place) if compare_atoms(one, three).is_gt() => (10 * place).saturating_add(
            counts[place],
        ) as u64,
        _ => MISSING,
    }
}

#[test]
fn sorted_atoms_are_found_and_tallied(rt: HostRuntime) {
    let twice = "free a, b; process new (x: Nonce [end b, end a, end a]); new (y: Un); out a a";
    let last = "free a, b; process new (x: Nonce [check a, end a, end b]); new (y: Un); out a a";
    each(&rt, Sorted, &[(twice, 2), (last, 11)]);
}
