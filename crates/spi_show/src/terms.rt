// The canonical texts of messages, effects and types.

ghost use Rattle.std.specs.Prelude.{◌≡◌, suc, ◌+◌, ◌-◌, ◌++◌, ◌<◌, ◌^◌, map, codes, OnOk};
ghost use Rattle.spi_term.specs.Spelling.{ty_nodes};
ghost use Rattle.spi_term.specs.View.{message, atom, effect, ty as type_of};
ghost use Rattle.spi_show.specs.Spells.{spelling};
ghost use Rattle.spi_show.specs.Terms.{message_text, tuple_text, atom_text, more_text, effect_text, typed_text, type_text, tuple_type_text};

use crate::NoMemory;
use crate::spell::{Spell, put_name};
use spi_term::{Atom, Effect, Msg, Ty};

// The name that the index i stands for, where n names are in scope.
fn put_bound(spell: &Spell, n: u32, i: u32, out: &mut Vec<u8>) -> Result<(), NoMemory>
    ensures { OnOk result (out.new.items ≡ out.old.items ++ spelling spell.now (n - suc i)) }
{
    let x = n.saturating_sub(i).saturating_sub(1);
    put_name(spell, x, out)
}

/// Appends a word, a message, and what closes it.
#[cycle(text)]
pub fn put_worded(
    spell: &Spell,
    n: u32,
    word: &[u8],
    m: &Msg,
    close: &[u8],
    out: &mut Vec<u8>,
) -> Result<(), NoMemory>
    ensures { OnOk result
        (out.new.items ≡ out.old.items
        ++ (word.now ++ (message_text (spelling spell.now) n (message m.now) ++ close.now))) }
{
    out.extend_from_slice(word)?;
    put_message(spell, n, m, out)?;
    out.extend_from_slice(close)
}

#[cycle(text)]
fn put_enc(spell: &Spell, n: u32, body: &Msg, key: &Msg, out: &mut Vec<u8>) -> Result<(), NoMemory>
    ensures { OnOk result
        (out.new.items ≡ out.old.items
        ++ (codes "{"
        ++ (message_text (spelling spell.now) n (message body.now)
        ++ (codes "}" ++ message_text (spelling spell.now) n (message key.now))))) }
{
    out.extend_from_slice(b"{")?;
    put_message(spell, n, body, out)?;
    out.extend_from_slice(b"}")?;
    put_message(spell, n, key, out)
}

/// Appends a message, where n names are in scope.
#[cycle(text)]
pub fn put_message(spell: &Spell, n: u32, m: &Msg, out: &mut Vec<u8>) -> Result<(), NoMemory>
    ensures { OnOk result
        (out.new.items ≡ out.old.items ++ message_text (spelling spell.now) n (message m.now)) }
{
    match m {
        Msg::Bound(i) => put_bound(spell, n, *i, out),
        Msg::Name(x) => put_name(spell, *x, out),
        Msg::Unit => out.extend_from_slice(b"()"),
        Msg::Pair(two) => {
            out.extend_from_slice(b"(")?;
            put_tuple(spell, n, &two.first, &two.second, out)?;
            out.extend_from_slice(b")")
        }
        Msg::Inl(part) => put_worded(spell, n, b"inl ", part, b"", out),
        Msg::Inr(part) => put_worded(spell, n, b"inr ", part, b"", out),
        Msg::Enc(sealed) => put_enc(spell, n, &sealed.body, &sealed.key, out),
        Msg::Hash(part) => put_worded(spell, n, b"hash(", part, b")", out),
    }
}

// The parts of a tuple: its first, and those behind it.
#[cycle(text)]
fn put_tuple(
    spell: &Spell,
    n: u32,
    first: &Msg,
    rest: &Msg,
    out: &mut Vec<u8>,
) -> Result<(), NoMemory>
    ensures { OnOk result
        (out.new.items ≡ out.old.items
        ++ (message_text (spelling spell.now) n (message first.now)
        ++ (codes ", " ++ tuple_text (spelling spell.now) n (message rest.now)))) }
{
    put_message(spell, n, first, out)?;
    out.extend_from_slice(b", ")?;
    match rest {
        Msg::Pair(two) => put_tuple(spell, n, &two.first, &two.second, out),
        _ => put_message(spell, n, rest, out),
    }
}

fn put_atom(spell: &Spell, n: u32, a: &Atom, out: &mut Vec<u8>) -> Result<(), NoMemory>
    ensures { OnOk result (out.new.items ≡ out.old.items ++ atom_text (spelling spell.now) n (atom a.now)) }
{
    match a {
        Atom::End(m) => put_worded(spell, n, b"end ", m, b"", out),
        Atom::Check(m) => put_worded(spell, n, b"check ", m, b"", out),
        Atom::Many(m) => put_worded(spell, n, b"many ", m, b"", out),
    }
}

// The further atoms of an effect, each behind a comma.
fn put_more(spell: &Spell, n: u32, atoms: &[Atom], out: &mut Vec<u8>) -> Result<(), NoMemory>
    ensures { OnOk result
        (out.new.items ≡ out.old.items ++ more_text (spelling spell.now) n (map atom atoms.now)) }
{
    for a in atoms {
        out.extend_from_slice(b", ")?;
        put_atom(spell, n, a, out)?;
    }
    Ok(())
}

/// Appends an effect, where n names are in scope.
pub fn put_effect(spell: &Spell, n: u32, e: &Effect, out: &mut Vec<u8>) -> Result<(), NoMemory>
    ensures { OnOk result
        (out.new.items ≡ out.old.items ++ effect_text (spelling spell.now) n (effect e.now)) }
{
    match e.atoms.as_slice() {
        [] => out.extend_from_slice(b"[]"),
        [first, rest @ ..] => {
            out.extend_from_slice(b"[")?;
            put_atom(spell, n, first, out)?;
            put_more(spell, n, rest, out)?;
            out.extend_from_slice(b"]")
        }
    }
}

/// Appends a name with its type, where n names are in scope, and that is its number.
#[cycle(types)]
pub fn put_typed(spell: &Spell, n: u32, t: &Ty, out: &mut Vec<u8>) -> Result<(), NoMemory>
    requires { n + ty_nodes (type_of t.now) < 2 ^ 32 }
    ensures { OnOk result
        (out.new.items ≡ out.old.items
        ++ typed_text (spelling spell.now) n (type_text (spelling spell.now) n (type_of t.now))) }
{
    put_name(spell, n, out)?;
    out.extend_from_slice(b": ")?;
    put_type(spell, n, t, out)
}

#[cycle(types)]
fn put_sum(spell: &Spell, n: u32, left: &Ty, right: &Ty, out: &mut Vec<u8>) -> Result<(), NoMemory>
    requires { n + (ty_nodes (type_of left.now) + ty_nodes (type_of right.now)) < 2 ^ 32 }
    ensures { OnOk result
        (out.new.items ≡ out.old.items
        ++ (codes "("
        ++ (type_text (spelling spell.now) n (type_of left.now)
        ++ (codes " + " ++ (type_text (spelling spell.now) n (type_of right.now) ++ codes ")"))))) }
{
    out.extend_from_slice(b"(")?;
    put_type(spell, n, left, out)?;
    out.extend_from_slice(b" + ")?;
    put_type(spell, n, right, out)?;
    out.extend_from_slice(b")")
}

#[cycle(types)]
fn put_key(spell: &Spell, n: u32, payload: &Ty, out: &mut Vec<u8>) -> Result<(), NoMemory>
    requires { n + ty_nodes (type_of payload.now) < 2 ^ 32 }
    ensures { OnOk result
        (out.new.items ≡ out.old.items
        ++ (codes "Key(" ++ (type_text (spelling spell.now) n (type_of payload.now) ++ codes ")"))) }
{
    out.extend_from_slice(b"Key(")?;
    put_type(spell, n, payload, out)?;
    out.extend_from_slice(b")")
}

fn put_nonce(spell: &Spell, n: u32, e: &Effect, out: &mut Vec<u8>) -> Result<(), NoMemory>
    ensures { OnOk result
        (out.new.items ≡ out.old.items
        ++ (codes "Nonce " ++ effect_text (spelling spell.now) n (effect e.now))) }
{
    out.extend_from_slice(b"Nonce ")?;
    put_effect(spell, n, e, out)
}

/// Appends a type, where n names are in scope.
#[cycle(types)]
pub fn put_type(spell: &Spell, n: u32, t: &Ty, out: &mut Vec<u8>) -> Result<(), NoMemory>
    requires { n + ty_nodes (type_of t.now) < 2 ^ 32 }
    ensures { OnOk result
        (out.new.items ≡ out.old.items ++ type_text (spelling spell.now) n (type_of t.now)) }
{
    match t {
        Ty::Un => out.extend_from_slice(b"Un"),
        Ty::Unit => out.extend_from_slice(b"()"),
        Ty::Pair(two) => {
            out.extend_from_slice(b"(")?;
            put_typed(spell, n, &two.first, out)?;
            out.extend_from_slice(b", ")?;
            put_tuple_type(spell, n + 1, &two.second, out)?;
            out.extend_from_slice(b")")
        }
        Ty::Sum(two) => put_sum(spell, n, &two.first, &two.second, out),
        Ty::Key(payload) => put_key(spell, n, payload, out),
        Ty::Nonce(e) => put_nonce(spell, n, e, out),
    }
}

// The parts of a tuple type behind its first, the last without a name.
#[cycle(types)]
fn put_tuple_type(spell: &Spell, n: u32, t: &Ty, out: &mut Vec<u8>) -> Result<(), NoMemory>
    requires { n + ty_nodes (type_of t.now) < 2 ^ 32 }
    ensures { OnOk result
        (out.new.items ≡ out.old.items ++ tuple_type_text (spelling spell.now) n (type_of t.now)) }
{
    match t {
        Ty::Pair(two) => {
            put_typed(spell, n, &two.first, out)?;
            out.extend_from_slice(b", ")?;
            put_tuple_type(spell, n + 1, &two.second, out)
        }
        _ => put_type(spell, n, t, out),
    }
}
