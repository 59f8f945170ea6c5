// Which names are free in a term.

ghost use Rattle.std.specs.Prelude.{◌≡◌, ◌↔◌, IsTrue, map};
ghost use Rattle.spi_term.specs.Names.{Avoids, TyAvoids};
ghost use Rattle.spi_term.specs.Tests.{is_free, is_free_at, mentions, is_free_ty};
ghost use Rattle.spi_term.specs.View.{message, atom, ty};

use crate::term::{Atom, Msg, Ty};

fn is_name_in(x: u32, m: &Msg) -> bool
    ensures { result ≡ is_free x (message m.now) }
{
    match m {
        Msg::Bound(_) => false,
        Msg::Name(y) => x == *y,
        Msg::Unit => false,
        Msg::Pair(two) => is_name_in(x, &two.first) || is_name_in(x, &two.second),
        Msg::Inl(a) => is_name_in(x, a),
        Msg::Inr(a) => is_name_in(x, a),
        Msg::Enc(sealed) => is_name_in(x, &sealed.body) || is_name_in(x, &sealed.key),
        Msg::Hash(a) => is_name_in(x, a),
    }
}

fn is_name_in_atom(x: u32, a: &Atom) -> bool
    ensures { result ≡ is_free_at x (atom a.now) }
{
    match a {
        Atom::End(m) => is_name_in(x, m),
        Atom::Check(m) => is_name_in(x, m),
        Atom::Many(m) => is_name_in(x, m),
    }
}

/// Whether a name is free in some atom. It visits each node at most once.
pub fn is_name_in_effect(x: u32, es: &[Atom]) -> bool
    ensures { result ≡ mentions x (map atom es.now) }
{
    for a in es {
        if is_name_in_atom(x, a) {
            return true;
        }
    }
    false
}

fn is_name_in_type(x: u32, t: &Ty) -> bool
    ensures { result ≡ is_free_ty x (ty t.now) }
{
    match t {
        Ty::Un => false,
        Ty::Unit => false,
        Ty::Pair(two) => is_name_in_type(x, &two.first) || is_name_in_type(x, &two.second),
        Ty::Sum(two) => is_name_in_type(x, &two.first) || is_name_in_type(x, &two.second),
        Ty::Key(a) => is_name_in_type(x, a),
        Ty::Nonce(e) => is_name_in_effect(x, &e.atoms),
    }
}

/// Whether a name is free in a message. It visits each node at most once.
pub fn free_in(name: u32, m: &Msg) -> bool
    ensures { IsTrue result ↔ (Avoids name (message m.now) → ⊥) }
{
    is_name_in(name, m)
}

/// Whether a name is free in a type. It visits each node at most once.
pub fn free_in_type(name: u32, t: &Ty) -> bool
    ensures { IsTrue result ↔ (TyAvoids name (ty t.now) → ⊥) }
{
    is_name_in_type(name, t)
}
