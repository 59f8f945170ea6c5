// How many nodes a term has.

ghost use Rattle.std.specs.Prelude.{◌≡◌, ◌+◌};
ghost use Rattle.spi_term.specs.Term.{message_size};
ghost use Rattle.spi_term.specs.Spelling.{atom_nodes, effect_nodes, ty_nodes, stopped};
ghost use Rattle.spi_term.specs.View.{message, atom, effect, ty};

use crate::term::{Atom, Effect, Msg, Ty};

// A node over what has so many.
fn one_more(below: u64) -> u64
    ensures { result ≡ stopped (1 + below) }
{
    below.saturating_add(1)
}

/// How many nodes a message has: one for a name, a bound name and unit, and one more than its
/// parts for each other form. The count stops at u64's greatest value.
pub fn nodes(m: &Msg) -> u64
    ensures { result ≡ stopped (message_size (message m.now)) }
{
    match m {
        Msg::Bound(_) => 1,
        Msg::Name(_) => 1,
        Msg::Unit => 1,
        Msg::Pair(two) => one_more(nodes(&two.first).saturating_add(nodes(&two.second))),
        Msg::Inl(a) => one_more(nodes(a)),
        Msg::Inr(a) => one_more(nodes(a)),
        Msg::Enc(sealed) => one_more(nodes(&sealed.body).saturating_add(nodes(&sealed.key))),
        Msg::Hash(a) => one_more(nodes(a)),
    }
}

fn atom_count(a: &Atom) -> u64
    ensures { result ≡ stopped (atom_nodes (atom a.now)) }
{
    match a {
        Atom::End(m) => one_more(nodes(m)),
        Atom::Check(m) => one_more(nodes(m)),
        Atom::Many(m) => one_more(nodes(m)),
    }
}

fn effect_count(e: &Effect) -> u64
    ensures { result ≡ stopped (effect_nodes (effect e.now)) }
{
    let mut count: u64 = 0;
    for a in &e.atoms {
        count = count.saturating_add(atom_count(a));
    }
    count
}

/// How many nodes a type has: one for `Un` and unit, and one more than its parts for each other
/// form. The parts of a Nonce are its atoms, and an atom has one more than its message.
/// The count stops at u64's greatest value.
pub fn type_nodes(t: &Ty) -> u64
    ensures { result ≡ stopped (ty_nodes (ty t.now)) }
{
    match t {
        Ty::Un => 1,
        Ty::Unit => 1,
        Ty::Pair(two) => one_more(type_nodes(&two.first).saturating_add(type_nodes(&two.second))),
        Ty::Sum(two) => one_more(type_nodes(&two.first).saturating_add(type_nodes(&two.second))),
        Ty::Key(a) => one_more(type_nodes(a)),
        Ty::Nonce(e) => one_more(effect_count(e)),
    }
}
