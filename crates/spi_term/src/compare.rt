// A total order of messages and of atoms.

ghost use Rattle.std.specs.Prelude.{◌≡◌};
ghost use Rattle.spi_term.specs.Order.{message_rank, message_cmp, atom_rank, atom_cmp};
ghost use Rattle.spi_term.specs.View.{message, atom};

use crate::term::{Atom, Msg};
use std::cmp::Ordering;

fn rank_of(m: &Msg) -> u8
    ensures { result ≡ message_rank (message m.now) }
{
    match m {
        Msg::Bound(_) => 0,
        Msg::Name(_) => 1,
        Msg::Unit => 2,
        Msg::Pair(_) => 3,
        Msg::Inl(_) => 4,
        Msg::Inr(_) => 5,
        Msg::Enc(_) => 6,
        Msg::Hash(_) => 7,
    }
}

fn compare_messages(a: &Msg, b: &Msg) -> Ordering
    ensures { result ≡ message_cmp (message a.now) (message b.now) }
{
    match (a, b) {
        (Msg::Bound(i), Msg::Bound(j)) => i.cmp(j),
        (Msg::Name(x), Msg::Name(y)) => x.cmp(y),
        (Msg::Unit, Msg::Unit) => Ordering::Equal,
        (Msg::Pair(p), Msg::Pair(q)) => match compare_messages(&p.first, &q.first) {
            Ordering::Equal => compare_messages(&p.second, &q.second),
            other => other,
        },
        (Msg::Inl(a), Msg::Inl(b)) => compare_messages(a, b),
        (Msg::Inr(a), Msg::Inr(b)) => compare_messages(a, b),
        (Msg::Enc(p), Msg::Enc(q)) => match compare_messages(&p.body, &q.body) {
            Ordering::Equal => compare_messages(&p.key, &q.key),
            other => other,
        },
        (Msg::Hash(a), Msg::Hash(b)) => compare_messages(a, b),
        _ => rank_of(a).cmp(&rank_of(b)),
    }
}

fn atom_rank_of(a: &Atom) -> u8
    ensures { result ≡ atom_rank (atom a.now) }
{
    match a {
        Atom::End(_) => 0,
        Atom::Check(_) => 1,
        Atom::Many(_) => 2,
    }
}

/// A total order of atoms, in which only equal atoms tie.
pub fn compare_atoms(a: &Atom, b: &Atom) -> Ordering
    ensures { result ≡ atom_cmp (atom a.now) (atom b.now) }
{
    match (a, b) {
        (Atom::End(m), Atom::End(n)) => compare_messages(m, n),
        (Atom::Check(m), Atom::Check(n)) => compare_messages(m, n),
        (Atom::Many(m), Atom::Many(n)) => compare_messages(m, n),
        _ => atom_rank_of(a).cmp(&atom_rank_of(b)),
    }
}
