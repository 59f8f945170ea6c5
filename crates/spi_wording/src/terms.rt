// Messages, atoms and types as they are reported: names as the file spells them, pairs with their own parentheses.
use crate::NoMemory;
use crate::page::Page;
use spi_scope::File;
use spi_term::{Atom, Effect, Msg, Ty};
use spi_text::Text;
use std::alloc::Global;

/// The letters for the names that a type binds, which aren't kept.
const LETTERS: [&str; 6] = ["x", "y", "z", "u", "v", "w"];

/// The spellings of the names in scope at a node.
#[derive(Drop)]
pub struct Names {
    spelled: Vec<Text>,
    is_taken: [bool; 6],
}

fn is_taken(names: &[Text], letter: &str) -> bool {
    names.iter().any(|name| name.as_str() == letter)
}

impl Names {
    /// Those in scope at this node of the file's process.
    pub fn at(alloc: Global, file: &File, node: u32) -> Result<Names, NoMemory> {
        let spelled = file.scope_names(alloc, node)?;
        let is_taken = [
            is_taken(&spelled, LETTERS[0]),
            is_taken(&spelled, LETTERS[1]),
            is_taken(&spelled, LETTERS[2]),
            is_taken(&spelled, LETTERS[3]),
            is_taken(&spelled, LETTERS[4]),
            is_taken(&spelled, LETTERS[5]),
        ];
        Ok(Names { spelled, is_taken })
    }
}

/// The name with this number.
pub fn put_name(page: &mut Page, names: &Names, x: u32) {
    match names.spelled.get(x as usize) {
        Some(spelling) => page.put(spelling.as_str()),
        None => {
            page.put("#");
            page.put_number(x as usize);
        }
    }
}

// The name that so many binders stand over: the next letter that no name in scope has.
fn put_binder(page: &mut Page, names: &Names, depth: u32) {
    let mut free: u32 = 0;
    for (letter, taken) in LETTERS.iter().zip(names.is_taken.iter()) {
        if !*taken {
            if free == depth {
                page.put(letter);
                return;
            }
            free = free.saturating_add(1);
        }
    }
    page.put("x_");
    page.put_number(depth as usize);
}

/// A message, where so many binders stand over it.
pub fn put_message(page: &mut Page, names: &Names, depth: u32, m: &Msg) {
    match m {
        Msg::Bound(i) => put_binder(page, names, depth.saturating_sub(*i).saturating_sub(1)),
        Msg::Name(x) => put_name(page, names, *x),
        Msg::Unit => page.put("()"),
        Msg::Pair(two) => {
            page.put("(");
            put_message(page, names, depth, &two.first);
            page.put(", ");
            put_message(page, names, depth, &two.second);
            page.put(")");
        }
        Msg::Inl(part) => {
            page.put("inl ");
            put_message(page, names, depth, part);
        }
        Msg::Inr(part) => {
            page.put("inr ");
            put_message(page, names, depth, part);
        }
        Msg::Enc(sealed) => {
            page.put("{");
            put_message(page, names, depth, &sealed.body);
            page.put("}");
            put_message(page, names, depth, &sealed.key);
        }
        Msg::Hash(part) => {
            page.put("hash(");
            put_message(page, names, depth, part);
            page.put(")");
        }
    }
}

/// An atom, where so many binders stand over it.
pub fn put_atom(page: &mut Page, names: &Names, depth: u32, a: &Atom) {
    let (word, label) = match a {
        Atom::End(m) => ("end ", m),
        Atom::Check(m) => ("check ", m),
        Atom::Many(m) => ("many ", m),
    };
    page.put(word);
    put_message(page, names, depth, label);
}

/// An effect, where so many binders stand over it.
pub fn put_effect(page: &mut Page, names: &Names, depth: u32, e: &Effect) {
    page.put("[");
    let mut comma = "";
    for a in &e.atoms {
        page.put(comma);
        put_atom(page, names, depth, a);
        comma = ", ";
    }
    page.put("]");
}

/// A type, where so many binders stand over it, or the parts of a tuple type behind its first.
pub fn put_types(page: &mut Page, names: &Names, depth: u32, t: &Ty, is_behind: bool) {
    match t {
        Ty::Un => page.put("Un"),
        Ty::Unit => page.put("()"),
        Ty::Pair(two) => {
            if !is_behind {
                page.put("(");
            }
            put_binder(page, names, depth);
            page.put(": ");
            put_types(page, names, depth, &two.first, false);
            page.put(", ");
            put_types(page, names, depth.saturating_add(1), &two.second, true);
            if !is_behind {
                page.put(")");
            }
        }
        Ty::Sum(two) => {
            page.put("(");
            put_types(page, names, depth, &two.first, false);
            page.put(" + ");
            put_types(page, names, depth, &two.second, false);
            page.put(")");
        }
        Ty::Key(payload) => {
            page.put("Key(");
            put_types(page, names, depth, payload, false);
            page.put(")");
        }
        Ty::Nonce(e) => {
            page.put("Nonce ");
            put_effect(page, names, depth, e);
        }
    }
}

/// A type between backquotes.
pub fn quote_type(page: &mut Page, names: &Names, t: &Ty) {
    page.put("`");
    put_types(page, names, 0, t, false);
    page.put("`");
}

/// A message between backquotes.
pub fn quote_message(page: &mut Page, names: &Names, m: &Msg) {
    page.put("`");
    put_message(page, names, 0, m);
    page.put("`");
}

/// An atom between backquotes.
pub fn quote_atom(page: &mut Page, names: &Names, a: &Atom) {
    page.put("`");
    put_atom(page, names, 0, a);
    page.put("`");
}

/// A name between backquotes.
pub fn quote_name(page: &mut Page, names: &Names, x: u32) {
    page.put("`");
    put_name(page, names, x);
    page.put("`");
}
