//! The tokens of messages and types.

ghost use Rattle.std.specs.Prelude.{◌≡◌, ◌++◌, map, OnOk};
ghost use Rattle.spi_tree.specs.Views.{msg_of, atom_of, ty_of, last_of, field_of};
ghost use Rattle.spi_tree.specs.Listed.{joined, msg_list, more_list, atom_list, more_atom_list, effect_list, ty_list, field_list, last_list, named_list};

use crate::list::{put_literal, put_mark, put_numbered, put_parens, put_reserved, put_word};
use crate::{Last, NoMemory, SAtom, SField, SMsg, STy, SWord};
use spi_lex::{Kind, Mark, Reserved};
use std::alloc::Global;

/// Puts the tokens of a message.
#[cycle(messages)]
pub fn put_message(alloc: Global, out: &mut Vec<Kind>, message: &SMsg) -> Result<(), NoMemory>
    ensures { OnOk result (out.new.items ≡ out.old.items ++ msg_list (msg_of message.now)) }
{
    match message {
        SMsg::Name { word, .. } => put_literal(alloc, out, word.as_str()),
        SMsg::Placed { name } => put_word(alloc, out, name),
        SMsg::Unit { .. } => put_parens(out),
        SMsg::Tuple { parts, .. } => {
            put_mark(out, Mark::ParenOpen)?;
            put_message(alloc, out, &parts.first)?;
            put_mark(out, Mark::Comma)?;
            put_message(alloc, out, &parts.second)?;
            put_messages(alloc, out, parts.more)?;
            put_mark(out, Mark::ParenClose)?;
            Ok(())
        }
        SMsg::Inl { part, .. } => {
            put_reserved(out, Reserved::Inl)?;
            put_message(alloc, out, part)
        }
        SMsg::Inr { part, .. } => {
            put_reserved(out, Reserved::Inr)?;
            put_message(alloc, out, part)
        }
        SMsg::Enc { parts, .. } => {
            put_mark(out, Mark::BraceOpen)?;
            put_message(alloc, out, &parts.body)?;
            put_mark(out, Mark::BraceClose)?;
            put_message(alloc, out, &parts.key)
        }
        SMsg::Hash { part, .. } => {
            put_reserved(out, Reserved::Hash)?;
            put_mark(out, Mark::ParenOpen)?;
            put_message(alloc, out, part)?;
            put_mark(out, Mark::ParenClose)
        }
        SMsg::Num { number, .. } => put_numbered(out, *number),
    }
}

#[cycle(messages)]
fn put_messages(alloc: Global, out: &mut Vec<Kind>, messages: &[SMsg]) -> Result<(), NoMemory>
    ensures { OnOk result (out.new.items ≡ out.old.items ++ joined more_list (map msg_of messages.now)) }
{
    for message in messages {
        put_mark(out, Mark::Comma)?;
        put_message(alloc, out, message)?;
    }
    Ok(())
}

fn put_atom(alloc: Global, out: &mut Vec<Kind>, atom: &SAtom) -> Result<(), NoMemory>
    ensures { OnOk result (out.new.items ≡ out.old.items ++ atom_list (atom_of atom.now)) }
{
    match atom {
        SAtom::End { label, .. } => {
            put_reserved(out, Reserved::End)?;
            put_message(alloc, out, label)
        }
        SAtom::Check { nonce, .. } => {
            put_reserved(out, Reserved::Check)?;
            put_message(alloc, out, nonce)
        }
        SAtom::Many { label, .. } => {
            put_reserved(out, Reserved::Many)?;
            put_message(alloc, out, label)
        }
    }
}

fn put_atoms(alloc: Global, out: &mut Vec<Kind>, atoms: &[SAtom]) -> Result<(), NoMemory>
    ensures { OnOk result (out.new.items ≡ out.old.items ++ joined more_atom_list (map atom_of atoms.now)) }
{
    for atom in atoms {
        put_mark(out, Mark::Comma)?;
        put_atom(alloc, out, atom)?;
    }
    Ok(())
}

/// Puts the tokens of an effect.
pub fn put_effect(alloc: Global, out: &mut Vec<Kind>, atoms: &[SAtom]) -> Result<(), NoMemory>
    ensures { OnOk result (out.new.items ≡ out.old.items ++ effect_list (map atom_of atoms.now)) }
{
    put_mark(out, Mark::BracketOpen)?;
    if let [first, more @ ..] = atoms {
        put_atom(alloc, out, first)?;
        put_atoms(alloc, out, more)?;
        put_mark(out, Mark::BracketClose)
    } else {
        put_mark(out, Mark::BracketClose)
    }
}

/// Puts the tokens of a type.
#[cycle(types)]
pub fn put_type(alloc: Global, out: &mut Vec<Kind>, ty: &STy) -> Result<(), NoMemory>
    ensures { OnOk result (out.new.items ≡ out.old.items ++ ty_list (ty_of ty.now)) }
{
    match ty {
        STy::Un { .. } => put_reserved(out, Reserved::Un),
        STy::Unit { .. } => put_parens(out),
        STy::Tuple { parts, .. } => {
            put_mark(out, Mark::ParenOpen)?;
            put_word(alloc, out, &parts.name)?;
            put_mark(out, Mark::Colon)?;
            put_type(alloc, out, &parts.first)?;
            put_mark(out, Mark::Comma)?;
            put_fields(alloc, out, parts.more)?;
            put_last(alloc, out, &parts.last)?;
            put_mark(out, Mark::ParenClose)?;
            Ok(())
        }
        STy::Sum { parts, .. } => {
            put_mark(out, Mark::ParenOpen)?;
            put_type(alloc, out, &parts.left)?;
            put_mark(out, Mark::Plus)?;
            put_type(alloc, out, &parts.right)?;
            put_mark(out, Mark::ParenClose)
        }
        STy::Key { part, .. } => {
            put_reserved(out, Reserved::Key)?;
            put_mark(out, Mark::ParenOpen)?;
            put_type(alloc, out, part)?;
            put_mark(out, Mark::ParenClose)
        }
        STy::Nonce { effect, .. } => {
            put_reserved(out, Reserved::Nonce)?;
            put_effect(alloc, out, effect.atoms)
        }
        STy::Abbr { word, .. } => put_literal(alloc, out, word.as_str()),
        STy::Placed { name } => put_word(alloc, out, name),
    }
}

#[cycle(types)]
fn put_fields(alloc: Global, out: &mut Vec<Kind>, fields: &[SField]) -> Result<(), NoMemory>
    ensures { OnOk result (out.new.items ≡ out.old.items ++ joined field_list (map field_of fields.now)) }
{
    for field in fields {
        put_word(alloc, out, &field.name)?;
        put_mark(out, Mark::Colon)?;
        put_type(alloc, out, &field.ty)?;
        put_mark(out, Mark::Comma)?;
    }
    Ok(())
}

#[cycle(types)]
fn put_last(alloc: Global, out: &mut Vec<Kind>, last: &Last) -> Result<(), NoMemory>
    ensures { OnOk result (out.new.items ≡ out.old.items ++ last_list (last_of last.now)) }
{
    match last {
        Last::Bare(ty) => put_type(alloc, out, ty),
        Last::Named(name, ty) => {
            put_word(alloc, out, name)?;
            put_mark(out, Mark::Colon)?;
            put_type(alloc, out, ty)
        }
    }
}

/// A name with its type.
pub fn put_named(alloc: Global, out: &mut Vec<Kind>, name: &SWord, ty: &STy) -> Result<(), NoMemory>
    ensures { OnOk result (out.new.items ≡ out.old.items ++ named_list name.now (ty_of ty.now)) }
{
    put_word(alloc, out, name)?;
    put_mark(out, Mark::Colon)?;
    put_type(alloc, out, ty)
}
