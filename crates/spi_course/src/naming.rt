// How names are spelled, and messages.

use crate::NoMemory;
use spi_term::Msg;
use spi_text::Text;
use std::alloc::Global;

/// The spellings of the free names, those of the binders of the names that were made, in their order, and what stands
/// between a spelling and a number.
#[derive(Drop)]
pub struct Naming<'f> {
    pub free: &'f [Text],
    pub made: Vec<&'f str>,
    pub mark: &'static str,
}

/// Appends a text.
pub fn put(out: &mut Vec<u8>, text: &str) -> Result<(), NoMemory> {
    out.extend_from_slice(text.as_bytes())
}

/// Appends a number.
pub fn put_number(alloc: Global, out: &mut Vec<u8>, number: u64) -> Result<(), NoMemory> {
    out.extend_from_slice(format!(in alloc; "{number}")?.as_bytes())
}

// The spelling of the binder of a name that was made.
fn made_by<'f>(names: &Naming<'f>, x: u32) -> &'f str {
    let place = (x as usize).saturating_sub(names.free.len());
    match names.made.get(place) {
        Some(word) => word,
        None => "",
    }
}

/// Appends a name: a free one by its spelling, and every other by its binder's spelling and its number.
pub fn put_name(
    alloc: Global,
    out: &mut Vec<u8>,
    names: &Naming<'_>,
    x: u32,
) -> Result<(), NoMemory> {
    match names.free.get(x as usize) {
        Some(word) => put(out, word.as_str()),
        None => {
            put(out, made_by(names, x))?;
            put(out, names.mark)?;
            put_number(alloc, out, x as u64)
        }
    }
}

/// Appends a message as a file writes it.
#[cycle(messages)]
pub fn put_message(
    alloc: Global,
    out: &mut Vec<u8>,
    names: &Naming<'_>,
    m: &Msg,
) -> Result<(), NoMemory> {
    match m {
        Msg::Bound(_) => Ok(()),
        Msg::Name(x) => put_name(alloc, out, names, *x),
        Msg::Unit => put(out, "()"),
        Msg::Pair(two) => {
            put(out, "(")?;
            put_message(alloc, out, names, &two.first)?;
            put(out, ", ")?;
            put_rest(alloc, out, names, &two.second)?;
            put(out, ")")
        }
        Msg::Inl(a) => {
            put(out, "inl ")?;
            put_message(alloc, out, names, a)
        }
        Msg::Inr(a) => {
            put(out, "inr ")?;
            put_message(alloc, out, names, a)
        }
        Msg::Enc(sealed) => {
            put(out, "{")?;
            put_message(alloc, out, names, &sealed.body)?;
            put(out, "}")?;
            put_message(alloc, out, names, &sealed.key)
        }
        Msg::Hash(a) => {
            put(out, "hash(")?;
            put_message(alloc, out, names, a)?;
            put(out, ")")
        }
    }
}

// The parts of a tuple behind its first.
#[cycle(messages)]
fn put_rest(alloc: Global, out: &mut Vec<u8>, names: &Naming<'_>, m: &Msg) -> Result<(), NoMemory> {
    match m {
        Msg::Pair(two) => {
            put_message(alloc, out, names, &two.first)?;
            put(out, ", ")?;
            put_rest(alloc, out, names, &two.second)
        }
        _ => put_message(alloc, out, names, m),
    }
}
