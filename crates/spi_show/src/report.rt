// The report form of messages and atoms.
ghost use Rattle.std.specs.Prelude.{◌≡◌, ◌++◌, IfOk, OnOk, codes, slice_get};
ghost use Rattle.std.specs.Fmt.{decimal};
ghost use Rattle.spi_term.specs.View.{message, atom};
ghost use Rattle.spi_show.specs.Report.{reported_name, message_text, reported_atom};

use crate::NoMemory;
use itoa::Buffer;
use spi_term::{Atom, Msg};
use spi_text::Text;
use std::alloc::Global;

// Appends `#` and a number.
fn put_numbered(out: &mut Vec<u8>, x: u32) -> Result<(), NoMemory>
    ensures { OnOk result (out.new.items ≡ out.old.items ++ codes "#" ++ decimal x) }
{
    let mut buffer = Buffer::new();
    out.push(b'#')?;
    out.extend_from_slice(buffer.format(x).as_bytes())
}

// Appends a name.
#[inline(never)]
fn put_name(alloc: Global, out: &mut Vec<u8>, names: &[Text], x: u32) -> Result<(), NoMemory>
    ensures { OnOk result (out.new.items ≡ out.old.items ++ reported_name (slice_get names.now x) x) }
{
    match names.get(x as usize) {
        Some(spelling) => out.extend_from_slice(spelling.as_str().as_bytes()),
        None => put_numbered(out, x),
    }
}

/// Appends a word and the report form of a message.
#[cycle(reported)]
pub fn put_reported(
    alloc: Global,
    out: &mut Vec<u8>,
    names: &[Text],
    word: &[u8],
    m: &Msg,
) -> Result<(), NoMemory>
    ensures { OnOk result
        (out.new.items ≡ out.old.items ++ (word.now ++ message_text names.now (message m.now))) }
{
    out.extend_from_slice(word)?;
    put_message(alloc, out, names, m)
}

// Appends a part of a message: a name without going into it.
#[cycle(reported)]
#[inline(always)]
fn put_part(alloc: Global, out: &mut Vec<u8>, names: &[Text], m: &Msg) -> Result<(), NoMemory>
    ensures { OnOk result (out.new.items ≡ out.old.items ++ message_text names.now (message m.now)) }
{
    match m {
        Msg::Name(x) => put_name(alloc, out, names, *x),
        _ => put_message(alloc, out, names, m),
    }
}

// Appends a message.
#[cycle(reported)]
fn put_message(alloc: Global, out: &mut Vec<u8>, names: &[Text], m: &Msg) -> Result<(), NoMemory>
    ensures { OnOk result (out.new.items ≡ out.old.items ++ message_text names.now (message m.now)) }
{
    match m {
        Msg::Bound(_) => Ok(()),
        Msg::Name(x) => put_name(alloc, out, names, *x),
        Msg::Unit => out.extend_from_slice(b"()"),
        Msg::Pair(two) => {
            out.push(b'(')?;
            put_part(alloc, out, names, &two.first)?;
            out.push(b',')?;
            out.push(b' ')?;
            put_part(alloc, out, names, &two.second)?;
            out.push(b')')?;
            Ok(())
        }
        Msg::Inl(part) => put_reported(alloc, out, names, b"inl ", part),
        Msg::Inr(part) => put_reported(alloc, out, names, b"inr ", part),
        Msg::Enc(sealed) => {
            out.extend_from_slice(b"{")?;
            put_message(alloc, out, names, &sealed.body)?;
            out.extend_from_slice(b"}")?;
            put_message(alloc, out, names, &sealed.key)
        }
        Msg::Hash(part) => {
            out.extend_from_slice(b"hash(")?;
            put_message(alloc, out, names, part)?;
            out.extend_from_slice(b")")
        }
    }
}

/// The report form of a message: a name below the number of given names by its spelling, every other by `#` and its
/// number; `()`, `(M, N)`, `inl M`, `inr M`, `{M}N` and `hash(M)`. A pair in a pair keeps its own parentheses. The message
/// of a process has no place of a binder; in a type's such a place has no text.
pub fn show_message(alloc: Global, names: &[Text], m: &Msg) -> Result<Vec<u8>, NoMemory>
    ensures { IfOk result (λ v. v.items ≡ message_text names.now (message m.now)) }
{
    let mut out = Vec::new(alloc);
    put_message(alloc, &mut out, names, m)?;
    Ok(out)
}

/// The report form of an atom: `end M`, `check M` or `many M`, with the report form of its message.
pub fn show_atom(alloc: Global, names: &[Text], a: &Atom) -> Result<Vec<u8>, NoMemory>
    ensures { IfOk result (λ v. v.items ≡ reported_atom names.now (atom a.now)) }
{
    let mut out = Vec::new(alloc);
    match a {
        Atom::End(m) => put_reported(alloc, &mut out, names, b"end ", m)?,
        Atom::Check(m) => put_reported(alloc, &mut out, names, b"check ", m)?,
        Atom::Many(m) => put_reported(alloc, &mut out, names, b"many ", m)?,
    }
    Ok(out)
}
