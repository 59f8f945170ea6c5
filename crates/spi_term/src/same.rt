// Equality of messages and of atoms, and sameness of types.

ghost use Rattle.std.specs.Prelude.{◌≡◌, ◌↔◌, IsTrue};
ghost use Rattle.spi_term.specs.Term.{same_atom};
ghost use Rattle.spi_term.specs.SameTy.{SameTy};
ghost use Rattle.spi_term.specs.Tests.{same_ty};
ghost use Rattle.spi_term.specs.View.{message, atom, ty};

use crate::count::is_effect_within;
use crate::term::{Atom, Msg, Ty};

/// Whether two messages are equal.
pub fn same_message(a: &Msg, b: &Msg) -> bool
    ensures { IsTrue result ↔ message a.now ≡ message b.now }
{
    match (a, b) {
        (Msg::Bound(i), Msg::Bound(j)) => *i == *j,
        (Msg::Name(x), Msg::Name(y)) => *x == *y,
        (Msg::Unit, Msg::Unit) => true,
        (Msg::Pair(p), Msg::Pair(q)) => same_message(&p.first, &q.first)
            && same_message(&p.second, &q.second),
        (Msg::Inl(a), Msg::Inl(b)) => same_message(a, b),
        (Msg::Inr(a), Msg::Inr(b)) => same_message(a, b),
        (Msg::Enc(p), Msg::Enc(q)) => same_message(&p.body, &q.body)
            && same_message(&p.key, &q.key),
        (Msg::Hash(a), Msg::Hash(b)) => same_message(a, b),
        _ => false,
    }
}

fn are_equal(a: &Atom, b: &Atom) -> bool
    ensures { IsTrue result ↔ atom a.now ≡ atom b.now }
{
    match (a, b) {
        (Atom::End(m), Atom::End(n)) => same_message(m, n),
        (Atom::Check(m), Atom::Check(n)) => same_message(m, n),
        (Atom::Many(m), Atom::Many(n)) => same_message(m, n),
        _ => false,
    }
}

/// Whether two atoms are equal.
#[tactic(auto, using(crate::proofs::Counting::same_is))]
pub fn is_same_atom(a: &Atom, b: &Atom) -> bool
    ensures { result ≡ same_atom (atom a.now) (atom b.now) }
{
    are_equal(a, b)
}

/// Whether two types are the same, as `same_type`, by the test that proofs compute with.
pub fn is_same_type(t: &Ty, u: &Ty) -> bool
    ensures { result ≡ same_ty (ty t.now) (ty u.now) }
{
    match (t, u) {
        (Ty::Un, Ty::Un) => true,
        (Ty::Unit, Ty::Unit) => true,
        (Ty::Pair(p), Ty::Pair(q)) => is_same_type(&p.first, &q.first)
            && is_same_type(&p.second, &q.second),
        (Ty::Sum(p), Ty::Sum(q)) => is_same_type(&p.first, &q.first)
            && is_same_type(&p.second, &q.second),
        (Ty::Key(a), Ty::Key(b)) => is_same_type(a, b),
        (Ty::Nonce(e), Ty::Nonce(f)) => {
            is_effect_within(&e.atoms, &f.atoms) && is_effect_within(&f.atoms, &e.atoms)
        }
        _ => false,
    }
}

/// Whether two types are equal up to equal counts of atoms within each Nonce. In a count a `many`
/// that stands in the effect at all stands there once. It takes no memory.
pub fn same_type(a: &Ty, b: &Ty) -> bool
    ensures { IsTrue result ↔ SameTy (ty a.now) (ty b.now) }
{
    is_same_type(a, b)
}
