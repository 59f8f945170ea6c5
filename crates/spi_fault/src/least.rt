// The atom that is shown: of those of a kind, one whose report form is least by its bytes.
ghost use Rattle.std.specs.Prelude.{◌≡◌, ◌+◌, ◌^◌, ◌<◌, ◌↔◌, [], ◌∷◌, ◌++◌, Some, map, slice_get, IfOk, OnOk, IsTrue};
ghost use Rattle.spi_term.specs.Term.{Effect};
ghost use Rattle.spi_term.specs.Names.{OfAtom, Avoids};
ghost use Rattle.spi_term.specs.View.{atom};
ghost use Rattle.spi_effect.specs.Effect.{IsMany};
ghost use Rattle.spi_fault.specs.Passing.{HasBoundName};
ghost use Rattle.spi_fault.specs.Trying.{IsOf, IsBest, IsBetter, CanBe, IsPlaceOfLeast, tried_place};

use crate::NoMemory;
use spi_show::{is_before, show_atom};
use spi_term::{Atom, free_in};
use spi_text::Text;
use std::alloc::Global;

/// Which atoms come into question.
#[derive(Clone, Copy)]
pub enum Kind {
    /// Each.
    Any,
    /// Those that aren't a `many`.
    NotMany,
    /// Those in which one of so many names from a number on is free.
    Naming(u32, u32),
}

fn is_many(a: &Atom) -> bool
    ensures { IsTrue result ↔ IsMany (atom a.now) }
{
    match a {
        Atom::End(_) => false,
        Atom::Check(_) => false,
        Atom::Many(_) => true,
    }
}

fn is_free_in(x: u32, a: &Atom) -> bool
    ensures { IsTrue result ↔ (OfAtom (Avoids x) (atom a.now) → ⊥) }
{
    match a {
        Atom::End(m) => free_in(x, m),
        Atom::Check(m) => free_in(x, m),
        Atom::Many(m) => free_in(x, m),
    }
}

fn has_bound(from: u32, names: u32, a: &Atom) -> bool
    requires { from + names < 2 ^ 32 }
    ensures { IsTrue result ↔ HasBoundName from names (atom a.now) }
{
    for x in from..from + names {
        if is_free_in(x, a) {
            return true;
        }
    }
    false
}

fn is_of(kind: Kind, a: &Atom) -> bool
    requires { CanBe kind }
    ensures { IsTrue result ↔ IsOf kind (atom a.now) }
{
    match kind {
        Kind::Any => true,
        Kind::NotMany => !is_many(a),
        Kind::Naming(from, names) => has_bound(from, names, a),
    }
}

// Whether an atom is of the kind and its text comes before that of the best so far.
fn is_better(names: &[Text], kind: Kind, best: &Option<(usize, Vec<u8>)>, a: &Atom) -> bool
    requires { CanBe kind }
    ensures { IsTrue result ↔ IsBetter names.now (IsOf kind) best.now (atom a.now) }
{
    if !is_of(kind, a) {
        return false;
    }
    match best {
        None => true,
        Some((_, least)) => is_before(least, names, a),
    }
}

// An atom that is better than the best so far is kept with its place among all.
fn keep_better(
    alloc: Global,
    names: &[Text],
    kind: Kind,
    best: &mut Option<(usize, Vec<u8>)>,
    i: usize,
    a: &Atom,
) -> Result<(), NoMemory>
    requires { CanBe kind }
    ensures { OnOk result
        ((all es : Effect) → slice_get all i ≡ Some (atom a.now)
        → IsBest names.now (IsOf kind) all es best.old
        → IsBest names.now (IsOf kind) all (es ++ atom a.now ∷ []) best.new) }
{
    if !is_better(names, kind, best, a) {
        return Ok(());
    }
    let text = show_atom(alloc, names, a)?;
    *best = Some((i, text));
    Ok(())
}

// The last atom, where it is of the kind. Where the texts rise or fall, the first or the last is the least.
fn last_of(
    alloc: Global,
    names: &[Text],
    kind: Kind,
    atoms: &[Atom],
) -> Result<Option<(usize, Vec<u8>)>, NoMemory>
    requires { CanBe kind }
    ensures { IfOk result (IsBest names.now (IsOf kind) (map atom atoms.now) []) }
{
    if atoms.is_empty() {
        return Ok(None);
    }
    let i = atoms.len() - 1;
    let a = &atoms[i];
    if !is_of(kind, a) {
        return Ok(None);
    }
    let text = show_atom(alloc, names, a)?;
    Ok(Some((i, text)))
}

fn place_in(best: Option<(usize, Vec<u8>)>) -> Option<usize>
    ensures { result ≡ tried_place best }
{
    match best {
        Some((i, _)) => Some(i),
        None => None,
    }
}

/// The place of an atom of this kind whose report form is least by its bytes, where there is one. The last
/// atom is rendered, and then each whose text comes before those of all that were looked at.
pub fn least_text(
    alloc: Global,
    names: &[Text],
    kind: Kind,
    atoms: &[Atom],
) -> Result<Option<usize>, NoMemory>
    requires { CanBe kind }
    ensures { IfOk result (λ o. IsPlaceOfLeast names.now (IsOf kind) (map atom atoms.now) o) }
{
    let mut best = last_of(alloc, names, kind, atoms)?;
    let mut i = 0;
    while i < atoms.len() {
        keep_better(alloc, names, kind, &mut best, i, &atoms[i])?;
        i += 1;
    }
    Ok(place_in(best))
}
