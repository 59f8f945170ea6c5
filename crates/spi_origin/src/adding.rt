// Whether a node's form adds an atom, and whether an atom stands in an effect.

ghost use Rattle.std.specs.Prelude.{◌≡◌, ◌<◌, ℕ, Option, Some, IsTrue, ◌↔◌, is_some};
ghost use Rattle.spi_count.specs.Keeping.{with_keys};
ghost use Rattle.spi_count.specs.Sums.{kind_of_atom, name_bound, key_of};
ghost use Rattle.spi_count.specs.declared.keys.Keys as Declared;
ghost use Rattle.spi_infer.specs.Own.{IsOwnOf};
ghost use Rattle.spi_count.specs.Adding.{SumOf};
ghost use Rattle.spi_intern.specs.declared.messages.MsgId as Ids;
ghost use Rattle.spi_intern.specs.declared.store.Store.{Store};
ghost use Rattle.spi_intern.specs.declared.types.TyId as Types;
ghost use Rattle.spi_message.specs.Forms.{cast_effect_of};
ghost use Rattle.spi_origin.specs.Gathering.{adds_at, has_left};
ghost use Rattle.spi_term.specs.Counts.{count};
ghost use Rattle.spi_term.specs.Term as Term;
ghost use Rattle.spi_term.specs.Term.{same_atom, ends, checks, many};
ghost use Rattle.spi_term.specs.View.{message, atom, ty as type_of, shape_of};
ghost use Rattle.spi_intern.specs.Parts.{message_of};

use spi_count::{AtomKind, Sum};
use spi_infer::Own;
use spi_term::{Atom, Form, Msg, Node, Ty, count_in, same_message};

fn is_end(a: &Atom, m: &Msg) -> bool
    ensures { result ≡ same_atom (atom a.now) (ends (message m.now)) }
{
    match a {
        Atom::End(n) => same_message(n, m),
        Atom::Check(_) => false,
        Atom::Many(_) => false,
    }
}

fn is_check(a: &Atom, m: &Msg) -> bool
    ensures { result ≡ same_atom (atom a.now) (checks (message m.now)) }
{
    match a {
        Atom::End(_) => false,
        Atom::Check(n) => same_message(n, m),
        Atom::Many(_) => false,
    }
}

fn is_many(a: &Atom, m: &Msg) -> bool
    ensures { result ≡ same_atom (atom a.now) (many (message m.now)) }
{
    match a {
        Atom::End(_) => false,
        Atom::Check(_) => false,
        Atom::Many(n) => same_message(n, m),
    }
}

// A cast to the type adds the atom.
fn is_cast(a: &Atom, t: &Ty) -> bool
    ensures { IsTrue result ↔ 0 < count (atom a.now) (cast_effect_of (type_of t.now)) }
{
    match t {
        Ty::Nonce(e) => count_in(&e.atoms, a) > 0,
        _ => false,
    }
}

// A check of a nonce whose type is kept.
fn is_paid(own: Own) -> bool
    ensures { (m : Ids.MsgId) (t : Option Types.TyId) → own ≡ Own.Checked m t → result ≡ is_some t }
{
    match own {
        Own::Checked(_, Some(_)) => true,
        _ => false,
    }
}

/// Whether the rule for the node's form adds the atom, where what is kept of the node fits.
pub fn adds(a: &Atom, node: &Node, own: Own) -> bool
    ensures { (s : Store) (keys : Declared.Keys) (paid : Option Term.Effect)
        → IsOwnOf s (with_keys s keys) (shape_of node.now) paid own
        → result ≡ adds_at (atom a.now) (shape_of node.now) paid }
{
    match &node.form {
        Form::Check { whole, .. } => is_paid(own) && is_check(a, whole),
        Form::End { label, .. } => is_end(a, label),
        Form::EndMany { label, .. } => is_many(a, label),
        Form::Cast { ty, .. } => is_cast(a, ty),
        _ => false,
    }
}

fn kind(a: &Atom) -> AtomKind
    ensures { result ≡ kind_of_atom (atom a.now) }
{
    match a {
        Atom::End(_) => AtomKind::End,
        Atom::Check(_) => AtomKind::Check,
        Atom::Many(_) => AtomKind::Many,
    }
}

/// Whether the atom stands in the effect of these counts, where its message has this key.
pub fn is_left(a: &Atom, key: u64, sum: &Sum) -> bool
    ensures { (s : Store) (keys : Declared.Keys) (i : ℕ) (es : Term.Effect)
        → with_keys s keys i (message_of (atom a.now))
        → key ≡ key_of (name_bound (message_of (atom a.now))) i → SumOf s keys sum.now es
        → result ≡ has_left (atom a.now) (Some es) }
{
    sum.count(kind(a), key) > 0
}
