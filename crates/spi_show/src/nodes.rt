// The text of a node up to the first process in it.

ghost use Rattle.std.specs.Prelude.{◌≡◌, ◌+◌, ◌<◌, ◌≤◌, ◌^◌, ◌++◌, codes, OnOk};
ghost use Rattle.spi_term.specs.Term.{Selects, Decrypts, Checks, Freshes};
ghost use Rattle.spi_term.specs.Spelling.{ty_nodes, HasSmallParts};
ghost use Rattle.spi_term.specs.View.{message, ty as type_of, shape_of};
ghost use Rattle.spi_show.specs.Spells.{spelling};
ghost use Rattle.spi_show.specs.Terms.{message_text, type_text, typed_text};
ghost use Rattle.spi_show.specs.Processes.{prefix_text};
ghost use Rattle.spi_show.specs.Pieces.{standing, open_text, head_text};

use crate::NoMemory;
use crate::pieces::Place;
use crate::spell::{Spell, put_name};
use crate::terms::{put_message, put_type, put_typed, put_worded};
use spi_term::{Form, Msg, Node, Ty};

// A word, a message, what stands between, and another message.
fn put_paired(
    spell: &Spell,
    n: u32,
    word: &[u8],
    m: &Msg,
    between: &[u8],
    other: &Msg,
    out: &mut Vec<u8>,
) -> Result<(), NoMemory>
    ensures { OnOk result
        (out.new.items ≡ out.old.items
        ++ (word.now ++ (message_text (spelling spell.now) n (message m.now)
        ++ (between.now ++ message_text (spelling spell.now) n (message other.now))))) }
{
    put_worded(spell, n, word, m, between, out)?;
    put_message(spell, n, other, out)
}

// A word, a message, what opens before a name, the name with its type, and what stands behind that.
fn put_binder(
    spell: &Spell,
    n: u32,
    word: &[u8],
    m: &Msg,
    open: &[u8],
    t: &Ty,
    close: &[u8],
    out: &mut Vec<u8>,
) -> Result<(), NoMemory>
    requires { n + ty_nodes (type_of t.now) < 2 ^ 32 }
    ensures { OnOk result
        (out.new.items ≡ out.old.items
        ++ (word.now ++ (message_text (spelling spell.now) n (message m.now)
        ++ (open.now ++ (typed_text (spelling spell.now) n (type_text (spelling spell.now) n (type_of t.now))
        ++ close.now))))) }
{
    put_worded(spell, n, word, m, open, out)?;
    put_typed(spell, n, t, out)?;
    out.extend_from_slice(close)
}

// The second name of a form, which is the number x, with its type, where n names are in scope.
fn put_second(spell: &Spell, x: u32, n: u32, second: &Ty, out: &mut Vec<u8>) -> Result<(), NoMemory>
    requires { n + ty_nodes (type_of second.now) < 2 ^ 32 }
    ensures { OnOk result
        (out.new.items ≡ out.old.items
        ++ (typed_text (spelling spell.now) x (type_text (spelling spell.now) n (type_of second.now))
        ++ codes "); ")) }
{
    put_name(spell, x, out)?;
    out.extend_from_slice(b": ")?;
    put_type(spell, n, second, out)?;
    out.extend_from_slice(b"); ")
}

fn put_match(
    spell: &Spell,
    n: u32,
    m: &Msg,
    first: &Ty,
    equal: &Msg,
    second: &Ty,
    out: &mut Vec<u8>,
) -> Result<(), NoMemory>
    requires first { n + ty_nodes (type_of first.now) < 2 ^ 32 }
    requires second { n + 1 + ty_nodes (type_of second.now) < 2 ^ 32 }
    ensures { OnOk result
        (out.new.items ≡ out.old.items
        ++ prefix_text (spelling spell.now) n
        (Selects (message m.now) (type_of first.now) (message equal.now) (type_of second.now))) }
{
    put_binder(spell, n, b"match ", m, b" is (", first, b" = ", out)?;
    put_worded(spell, n, b"", equal, b", ", out)?;
    put_second(spell, n, n + 1, second, out)
}

fn put_decrypt(
    spell: &Spell,
    n: u32,
    m: &Msg,
    t: &Ty,
    key: &Msg,
    out: &mut Vec<u8>,
) -> Result<(), NoMemory>
    requires { n + ty_nodes (type_of t.now) < 2 ^ 32 }
    ensures { OnOk result
        (out.new.items ≡ out.old.items
        ++ prefix_text (spelling spell.now) n (Decrypts (message m.now) (type_of t.now) (message key.now))) }
{
    put_binder(spell, n, b"decrypt ", m, b" is {", t, b"}", out)?;
    put_worded(spell, n, b"", key, b"; ", out)
}

fn put_check(spell: &Spell, n: u32, m: &Msg, nonce: &Msg, out: &mut Vec<u8>) -> Result<(), NoMemory>
    ensures { OnOk result
        (out.new.items ≡ out.old.items
        ++ prefix_text (spelling spell.now) n (Checks (message m.now) (message nonce.now))) }
{
    put_paired(spell, n, b"check ", m, b" is ", nonce, out)?;
    out.extend_from_slice(b"; ")
}

fn put_new(spell: &Spell, n: u32, t: &Ty, out: &mut Vec<u8>) -> Result<(), NoMemory>
    requires { n + ty_nodes (type_of t.now) < 2 ^ 32 }
    ensures { OnOk result
        (out.new.items ≡ out.old.items ++ prefix_text (spelling spell.now) n (Freshes (type_of t.now))) }
{
    out.extend_from_slice(b"new (")?;
    put_typed(spell, n, t, out)?;
    out.extend_from_slice(b"); ")
}

// What a parallel composition begins with, whose first process is an output or isn't.
fn put_open(at: Place, output: bool, out: &mut Vec<u8>) -> Result<(), NoMemory>
    ensures { OnOk result (out.new.items ≡ out.old.items ++ open_text (standing at) output) }
{
    match at {
        Place::Alone => Ok(()),
        Place::Sequel => {
            if output {
                Ok(())
            } else {
                out.extend_from_slice(b"(")
            }
        }
    }
}

/// Appends the text of a node up to the first process in it. In a parallel composition that process is an output or isn't.
pub fn put_head(
    spell: &Spell,
    node: &Node,
    at: Place,
    output: bool,
    out: &mut Vec<u8>,
) -> Result<(), NoMemory>
    requires small { HasSmallParts (shape_of node.now) }
    requires few { node.now.scope ≤ 300000 }
    ensures { OnOk result
        (out.new.items ≡ out.old.items
        ++ head_text (spelling spell.now) (standing at) output (shape_of node.now)) }
{
    let n = node.scope;
    match &node.form {
        Form::Send { channel, datum } => put_paired(spell, n, b"out ", channel, b" ", datum, out),
        Form::Recv { channel, ty, .. } => put_binder(
            spell, n, b"inp ", channel, b" (", ty, b"); ", out,
        ),
        Form::Serve { channel, ty, .. } => {
            put_binder(spell, n, b"repeat inp ", channel, b" (", ty, b"); ", out)
        }
        Form::Split {
            whole,
            first,
            second,
            ..
        } => {
            put_binder(spell, n, b"split ", whole, b" is (", first, b", ", out)?;
            put_second(spell, n + 1, n + 1, second, out)
        }
        Form::Select {
            whole,
            first,
            equal,
            second,
            ..
        } => put_match(spell, n, whole, first, equal, second, out),
        Form::Branch { whole, left, .. } => {
            put_binder(spell, n, b"case ", whole, b" is inl (", left, b"); ", out)
        }
        Form::Decrypt { whole, ty, key, .. } => put_decrypt(spell, n, whole, ty, key, out),
        Form::Check { whole, nonce, .. } => put_check(spell, n, whole, nonce, out),
        Form::Begin { label, .. } => put_worded(spell, n, b"begin ", label, b"; ", out),
        Form::End { label, .. } => put_worded(spell, n, b"end ", label, b"; ", out),
        Form::EndMany { label, .. } => put_worded(spell, n, b"endmany ", label, b"; ", out),
        Form::Cast { whole, ty, .. } => put_binder(
            spell, n, b"cast ", whole, b" is (", ty, b"); ", out,
        ),
        Form::Fresh { ty, .. } => put_new(spell, n, ty, out),
        Form::Par { .. } => put_open(at, output, out),
        Form::Stop => out.extend_from_slice(b"stop"),
    }
}
