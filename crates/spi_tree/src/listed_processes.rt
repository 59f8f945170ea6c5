//! The tokens of processes.

ghost use Rattle.std.specs.Prelude.{◌≡◌, ◌++◌, OnOk};
ghost use Rattle.spi_tree.specs.Views.{msg_of, ty_of, proc_of};
ghost use Rattle.spi_tree.specs.Listed.{binder_list, first_list, second_list, both_list, matched_list, side_list, open_list, about_list, ended_list, opening_list, binding_list, leading_list, proc_list};

use crate::list::{put_mark, put_reserved};
use crate::listed_types::{put_message, put_named};
use crate::{NoMemory, SMsg, SProc, STy, SWord};
use spi_lex::{Kind, Mark, Reserved};
use std::alloc::Global;

/// A name with its type in parentheses, and the semicolon.
fn put_binder(alloc: Global, out: &mut Vec<Kind>, name: &SWord, ty: &STy) -> Result<(), NoMemory>
    ensures { OnOk result (out.new.items ≡ out.old.items ++ binder_list name.now (ty_of ty.now)) }
{
    put_mark(out, Mark::ParenOpen)?;
    put_named(alloc, out, name, ty)?;
    put_mark(out, Mark::ParenClose)?;
    put_mark(out, Mark::Semicolon)
}

/// The second of two names with its type, and the rest of the head.
fn put_second(alloc: Global, out: &mut Vec<Kind>, name: &SWord, ty: &STy) -> Result<(), NoMemory>
    ensures { OnOk result (out.new.items ≡ out.old.items ++ second_list name.now (ty_of ty.now)) }
{
    put_mark(out, Mark::Comma)?;
    put_named(alloc, out, name, ty)?;
    put_mark(out, Mark::ParenClose)?;
    put_mark(out, Mark::Semicolon)
}

/// The first of two names with its type.
fn put_first(alloc: Global, out: &mut Vec<Kind>, name: &SWord, ty: &STy) -> Result<(), NoMemory>
    ensures { OnOk result (out.new.items ≡ out.old.items ++ first_list name.now (ty_of ty.now)) }
{
    put_reserved(out, Reserved::Is)?;
    put_mark(out, Mark::ParenOpen)?;
    put_named(alloc, out, name, ty)
}

/// Two names with their types.
fn put_both(
    alloc: Global,
    out: &mut Vec<Kind>,
    left: &SWord,
    left_ty: &STy,
    right: &SWord,
    right_ty: &STy,
) -> Result<(), NoMemory>
    ensures { OnOk result
        (out.new.items ≡ out.old.items
        ++ both_list left.now (ty_of left_ty.now) right.now (ty_of right_ty.now)) }
{
    put_first(alloc, out, left, left_ty)?;
    put_second(alloc, out, right, right_ty)
}

/// Two names with their types, the first of them equal to a message.
fn put_matched(
    alloc: Global,
    out: &mut Vec<Kind>,
    left: &SWord,
    left_ty: &STy,
    equal: &SMsg,
    right: &SWord,
    right_ty: &STy,
) -> Result<(), NoMemory>
    ensures { OnOk result
        (out.new.items ≡ out.old.items
        ++ matched_list left.now (ty_of left_ty.now) (msg_of equal.now) right.now (ty_of right_ty.now)) }
{
    put_first(alloc, out, left, left_ty)?;
    put_mark(out, Mark::Equals)?;
    put_message(alloc, out, equal)?;
    put_second(alloc, out, right, right_ty)
}

fn put_side(
    alloc: Global,
    out: &mut Vec<Kind>,
    side: Reserved,
    name: &SWord,
    ty: &STy,
) -> Result<(), NoMemory>
    ensures { OnOk result (out.new.items ≡ out.old.items ++ side_list side name.now (ty_of ty.now)) }
{
    put_reserved(out, Reserved::Is)?;
    put_reserved(out, side)?;
    put_binder(alloc, out, name, ty)
}

fn put_open(
    alloc: Global,
    out: &mut Vec<Kind>,
    name: &SWord,
    ty: &STy,
    key: &SMsg,
) -> Result<(), NoMemory>
    ensures { OnOk result
        (out.new.items ≡ out.old.items ++ open_list name.now (ty_of ty.now) (msg_of key.now)) }
{
    put_reserved(out, Reserved::Is)?;
    put_mark(out, Mark::BraceOpen)?;
    put_named(alloc, out, name, ty)?;
    put_mark(out, Mark::BraceClose)?;
    put_message(alloc, out, key)?;
    put_mark(out, Mark::Semicolon)
}

/// A word, and the message that it is about.
fn put_about(
    alloc: Global,
    out: &mut Vec<Kind>,
    word: Reserved,
    message: &SMsg,
) -> Result<(), NoMemory>
    ensures { OnOk result (out.new.items ≡ out.old.items ++ about_list word (msg_of message.now)) }
{
    put_reserved(out, word)?;
    put_message(alloc, out, message)
}

/// A message and the semicolon.
fn put_ended(alloc: Global, out: &mut Vec<Kind>, message: &SMsg) -> Result<(), NoMemory>
    ensures { OnOk result (out.new.items ≡ out.old.items ++ ended_list (msg_of message.now)) }
{
    put_message(alloc, out, message)?;
    put_mark(out, Mark::Semicolon)
}

/// The word that a process begins with, and the message that it is about.
fn put_opening(alloc: Global, out: &mut Vec<Kind>, process: &SProc) -> Result<(), NoMemory>
    ensures { OnOk result (out.new.items ≡ out.old.items ++ opening_list (proc_of process.now)) }
{
    match process {
        SProc::Par { .. } => Ok(()),
        SProc::Out { parts, .. } => put_about(alloc, out, Reserved::Out, &parts.channel),
        SProc::OutThen { parts, .. } => put_about(alloc, out, Reserved::Out, &parts.channel),
        SProc::Inp { parts, .. } => put_about(alloc, out, Reserved::Inp, &parts.channel),
        SProc::Repeat { parts, .. } => {
            put_reserved(out, Reserved::Repeat)?;
            put_about(alloc, out, Reserved::Inp, &parts.channel)
        }
        SProc::Split { parts, .. } => put_about(alloc, out, Reserved::Split, &parts.whole),
        SProc::Match { parts, .. } => put_about(alloc, out, Reserved::Match, &parts.whole),
        SProc::Case { parts, .. } => put_about(alloc, out, Reserved::Case, &parts.whole),
        SProc::Decrypt { parts, .. } => put_about(alloc, out, Reserved::Decrypt, &parts.whole),
        SProc::Check { parts, .. } => put_about(alloc, out, Reserved::Check, &parts.whole),
        SProc::Begin { parts, .. } => put_about(alloc, out, Reserved::Begin, &parts.label),
        SProc::End { parts, .. } => put_about(alloc, out, Reserved::End, &parts.label),
        SProc::EndMany { parts, .. } => put_about(alloc, out, Reserved::EndMany, &parts.label),
        SProc::Cast { parts, .. } => put_about(alloc, out, Reserved::Cast, &parts.whole),
        SProc::New { .. } => put_reserved(out, Reserved::New),
        SProc::Stop { .. } => put_reserved(out, Reserved::Stop),
        SProc::Group { .. } => put_mark(out, Mark::ParenOpen),
    }
}

/// What stands behind the opening: the names that the first process may use, or what the process sends or compares.
fn put_binding(alloc: Global, out: &mut Vec<Kind>, process: &SProc) -> Result<(), NoMemory>
    ensures { OnOk result (out.new.items ≡ out.old.items ++ binding_list (proc_of process.now)) }
{
    match process {
        SProc::Par { .. } => Ok(()),
        SProc::Out { parts, .. } => put_message(alloc, out, &parts.datum),
        SProc::OutThen { parts, .. } => put_ended(alloc, out, &parts.datum),
        SProc::Inp { parts, .. } => put_binder(alloc, out, &parts.name, &parts.ty),
        SProc::Repeat { parts, .. } => put_binder(alloc, out, &parts.name, &parts.ty),
        SProc::Split { parts, .. } => put_both(
            alloc,
            out,
            &parts.left,
            &parts.left_ty,
            &parts.right,
            &parts.right_ty,
        ),
        SProc::Match { parts, .. } => put_matched(
            alloc,
            out,
            &parts.left,
            &parts.left_ty,
            &parts.equal,
            &parts.right,
            &parts.right_ty,
        ),
        SProc::Case { parts, .. } => put_side(
            alloc,
            out,
            Reserved::Inl,
            &parts.left,
            &parts.left_ty,
        ),
        SProc::Decrypt { parts, .. } => put_open(alloc, out, &parts.name, &parts.ty, &parts.key),
        SProc::Check { parts, .. } => {
            put_reserved(out, Reserved::Is)?;
            put_ended(alloc, out, &parts.nonce)
        }
        SProc::Begin { .. } => put_mark(out, Mark::Semicolon),
        SProc::End { .. } => put_mark(out, Mark::Semicolon),
        SProc::EndMany { .. } => put_mark(out, Mark::Semicolon),
        SProc::Cast { parts, .. } => {
            put_reserved(out, Reserved::Is)?;
            put_binder(alloc, out, &parts.name, &parts.ty)
        }
        SProc::New { parts, .. } => put_binder(alloc, out, &parts.name, &parts.ty),
        SProc::Stop { .. } => Ok(()),
        SProc::Group { .. } => Ok(()),
    }
}

/// What stands in front of the first process within a process.
fn put_leading(alloc: Global, out: &mut Vec<Kind>, process: &SProc) -> Result<(), NoMemory>
    ensures { OnOk result (out.new.items ≡ out.old.items ++ leading_list (proc_of process.now)) }
{
    put_opening(alloc, out, process)?;
    put_binding(alloc, out, process)
}

/// Puts the tokens of a process.
pub fn put_process(alloc: Global, out: &mut Vec<Kind>, process: &SProc) -> Result<(), NoMemory>
    ensures { OnOk result (out.new.items ≡ out.old.items ++ proc_list (proc_of process.now)) }
{
    put_leading(alloc, out, process)?;
    match process {
        SProc::Par { parts, .. } => {
            put_process(alloc, out, &parts.first)?;
            put_mark(out, Mark::Bar)?;
            put_process(alloc, out, &parts.rest)
        }
        SProc::Out { .. } => Ok(()),
        SProc::OutThen { parts, .. } => put_process(alloc, out, &parts.then),
        SProc::Inp { parts, .. } => put_process(alloc, out, &parts.then),
        SProc::Repeat { parts, .. } => put_process(alloc, out, &parts.then),
        SProc::Split { parts, .. } => put_process(alloc, out, &parts.then),
        SProc::Match { parts, .. } => put_process(alloc, out, &parts.then),
        SProc::Case { parts, .. } => {
            put_process(alloc, out, &parts.on_left)?;
            put_side(alloc, out, Reserved::Inr, &parts.right, &parts.right_ty)?;
            put_process(alloc, out, &parts.on_right)
        }
        SProc::Decrypt { parts, .. } => put_process(alloc, out, &parts.then),
        SProc::Check { parts, .. } => put_process(alloc, out, &parts.then),
        SProc::Begin { parts, .. } => put_process(alloc, out, &parts.then),
        SProc::End { parts, .. } => put_process(alloc, out, &parts.then),
        SProc::EndMany { parts, .. } => put_process(alloc, out, &parts.then),
        SProc::Cast { parts, .. } => put_process(alloc, out, &parts.then),
        SProc::New { parts, .. } => put_process(alloc, out, &parts.then),
        SProc::Stop { .. } => Ok(()),
        SProc::Group { parts, .. } => {
            put_process(alloc, out, &parts.first)?;
            put_mark(out, Mark::Bar)?;
            put_process(alloc, out, &parts.rest)?;
            put_mark(out, Mark::ParenClose)
        }
    }
}
