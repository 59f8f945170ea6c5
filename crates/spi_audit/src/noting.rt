// What is kept of a use: what it does to effects, with the keys of the messages in it.
ghost use Rattle.std.specs.Prelude.{◌≡◌, ℕ, IfOk, OnOk, length};
ghost use Rattle.spi_term.specs.Term as Term;
ghost use Rattle.spi_term.specs.View.{message, atom, effect, ty as type_of, shape_of};
ghost use Rattle.spi_rules.specs.Environment.{Env};
ghost use Rattle.spi_message.specs.Judging.{IsKept, Stands};
ghost use Rattle.spi_message.specs.Tests.{nonce_of};
ghost use Rattle.spi_count.specs.declared.keys.Keys.{Keys};
ghost use Rattle.spi_count.specs.Keeping.{AreKept, GrowsTo};
ghost use Rattle.spi_audit.specs.Changes.{check_change, cast_change, ended, ended_many, begun, made};
ghost use Rattle.spi_audit.specs.Notes.{NotedAs, NotesNode, TakesEffect, TakesAtomic, TakesLabelled, TakesUn};

use crate::NoMemory;
use crate::notes::Note;
use spi_count::{Keys, keep_atoms, keep_message};
use spi_intern::{AtomId, MsgId};
use spi_message::{Judge, nonce_at};
use spi_rules::Rule;
use spi_term::{Atom, Effect, Form, Msg, Node, Ty};
use std::alloc::Global;

// What a cast to a Nonce type adds.
#[tactic(auto, using(spi_message::proofs::Tested::kept_more))]
fn note_cast(
    alloc: Global,
    judge: &mut Judge,
    keys: &mut Keys,
    scope: u32,
    t: &Ty,
    e: &Effect,
) -> Result<Note, NoMemory>
    requires keys { AreKept judge.old.store keys.old }
    requires nonce { type_of t.now ≡ Term.nonce (effect e.now) }
    ensures note { IfOk result
        (NotedAs judge.new.store keys.new (cast_change Rule.ProcCast scope (type_of t.now))) }
    ensures grows { OnOk result (GrowsTo judge.old.store keys.old judge.new.store keys.new) }
    ensures kept { IsKept judge.old judge.new }
{
    let id = judge.ty(alloc, t)?;
    keep_atoms(judge, keys, e)?;
    Ok(Note::Cast(scope, id))
}

#[tactic(auto, using(spi_message::proofs::Tested::kept_same, spi_count::proofs::Kept::grows_same))]
fn note_cast_typed(
    alloc: Global,
    judge: &mut Judge,
    keys: &mut Keys,
    scope: u32,
    t: &Ty,
) -> Result<Note, NoMemory>
    requires { AreKept judge.old.store keys.old }
    ensures note { IfOk result
        (NotedAs judge.new.store keys.new (cast_change Rule.ProcCast scope (type_of t.now))) }
    ensures grows { OnOk result (GrowsTo judge.old.store keys.old judge.new.store keys.new) }
    ensures kept { IsKept judge.old judge.new }
{
    match t {
        Ty::Un => Ok(Note::LeaveOne(scope)),
        Ty::Unit => Ok(Note::LeaveOne(scope)),
        Ty::Pair(_) => Ok(Note::LeaveOne(scope)),
        Ty::Sum(_) => Ok(Note::LeaveOne(scope)),
        Ty::Key(_) => Ok(Note::LeaveOne(scope)),
        Ty::Nonce(e) => note_cast(alloc, judge, keys, scope, t, e),
    }
}

#[tactic(auto, using(spi_message::proofs::Tested::kept_same, spi_count::proofs::Kept::grows_same))]
fn note_casts(
    alloc: Global,
    judge: &mut Judge,
    keys: &mut Keys,
    rule: Rule,
    scope: u32,
    t: &Ty,
) -> Result<Note, NoMemory>
    requires { AreKept judge.old.store keys.old }
    ensures note { IfOk result (NotedAs judge.new.store keys.new (cast_change rule scope (type_of t.now))) }
    ensures grows { OnOk result (GrowsTo judge.old.store keys.old judge.new.store keys.new) }
    ensures kept { IsKept judge.old judge.new }
{
    match rule {
        Rule::ProcCast => note_cast_typed(alloc, judge, keys, scope, t),
        _ => Ok(Note::LeaveOne(scope)),
    }
}

// What a check takes off and adds, where k names are in scope.
#[tactic(auto, using(spi_message::proofs::Tested::kept_same, spi_count::proofs::Kept::grows_same))]
fn note_check(judge: &mut Judge, keys: &mut Keys, m: &Msg, nonce: &Msg) -> Result<Note, NoMemory>
    requires keys { AreKept judge.old.store keys.old }
    ensures note { IfOk result
        (λ o. (e : Env) (k : ℕ) → Stands judge.old e
        → NotedAs judge.new.store keys.new
        (check_change Rule.ProcCheck k (message m.now) (nonce_of e (message nonce.now))) o) }
    ensures grows { OnOk result (GrowsTo judge.old.store keys.old judge.new.store keys.new) }
    ensures kept { IsKept judge.old judge.new }
{
    judge.stands_for_one();
    match nonce_at(judge, nonce) {
        None => Ok(Note::Same),
        Some(t) => {
            let id = keep_message(judge, keys, m)?;
            Ok(Note::Check(id, t))
        }
    }
}

#[tactic(auto, using(spi_message::proofs::Tested::kept_same, spi_count::proofs::Kept::grows_same))]
fn note_checks(
    judge: &mut Judge,
    keys: &mut Keys,
    rule: Rule,
    m: &Msg,
    nonce: &Msg,
) -> Result<Note, NoMemory>
    requires keys { AreKept judge.old.store keys.old }
    ensures note { IfOk result
        (λ o. (e : Env) (k : ℕ) → Stands judge.old e
        → NotedAs judge.new.store keys.new
        (check_change rule k (message m.now) (nonce_of e (message nonce.now))) o) }
    ensures grows { OnOk result (GrowsTo judge.old.store keys.old judge.new.store keys.new) }
    ensures kept { IsKept judge.old judge.new }
{
    match rule {
        Rule::ProcCheck => note_check(judge, keys, m, nonce),
        _ => Ok(Note::Same),
    }
}

// What a `begin` takes off.
fn note_begin(judge: &mut Judge, m: &Msg) -> Result<Note, NoMemory>
    ensures note { IfOk result
        (λ o. (keys : Keys) (k : ℕ) → NotedAs judge.new.store keys (begun k (message m.now)) o) }
    ensures kept { IsKept judge.old judge.new }
{
    let id = judge.message(m)?;
    Ok(Note::Begin(id))
}

fn note_end(judge: &mut Judge, keys: &mut Keys, m: &Msg) -> Result<Note, NoMemory>
    requires { AreKept judge.old.store keys.old }
    ensures note { IfOk result (λ o. (k : ℕ) → NotedAs judge.new.store keys.new (ended k (message m.now)) o) }
    ensures grows { OnOk result (GrowsTo judge.old.store keys.old judge.new.store keys.new) }
    ensures kept { IsKept judge.old judge.new }
{
    let id = keep_message(judge, keys, m)?;
    Ok(Note::End(id))
}

fn note_end_many(judge: &mut Judge, keys: &mut Keys, m: &Msg) -> Result<Note, NoMemory>
    requires { AreKept judge.old.store keys.old }
    ensures note { IfOk result
        (λ o. (k : ℕ) → NotedAs judge.new.store keys.new (ended_many k (message m.now)) o) }
    ensures grows { OnOk result (GrowsTo judge.old.store keys.old judge.new.store keys.new) }
    ensures kept { IsKept judge.old judge.new }
{
    let id = keep_message(judge, keys, m)?;
    Ok(Note::EndMany(id))
}

// What a new name takes off.
fn note_make(judge: &mut Judge, scope: u32) -> Result<Note, NoMemory>
    ensures note { IfOk result (λ o. (keys : Keys) → NotedAs judge.new.store keys (made scope) o) }
    ensures kept { IsKept judge.old judge.new }
{
    let name = Msg::Name(scope);
    let id = judge.message(&name)?;
    Ok(Note::Make(scope, id))
}

/// What is kept of a use that is asked of the process at a node, and isn't one of `ProcSub`.
#[tactic(auto, using(spi_message::proofs::Tested::kept_same, spi_count::proofs::Kept::grows_same))]
pub fn note_node(
    alloc: Global,
    judge: &mut Judge,
    keys: &mut Keys,
    rule: Rule,
    node: &Node,
) -> Result<Note, NoMemory>
    requires keys { AreKept judge.old.store keys.old }
    requires scope { node.now.scope ≡ length judge.old.types }
    ensures note { IfOk result (NotesNode judge.old judge.new keys.new rule (shape_of node.now)) }
    ensures grows { OnOk result (GrowsTo judge.old.store keys.old judge.new.store keys.new) }
    ensures kept { IsKept judge.old judge.new }
{
    let scope = node.scope;
    match &node.form {
        Form::Send { .. } => Ok(Note::Empty),
        Form::Stop => Ok(Note::Empty),
        Form::Recv { .. } => Ok(Note::LeaveOne(scope)),
        Form::Serve { .. } => Ok(Note::Serve(scope)),
        Form::Split { .. } => Ok(Note::LeaveTwo(scope)),
        Form::Select { .. } => Ok(Note::LeaveOne(scope)),
        Form::Decrypt { .. } => Ok(Note::LeaveOne(scope)),
        Form::Branch { .. } => Ok(Note::Case(scope)),
        Form::Par { .. } => Ok(Note::Both),
        Form::Check { whole, nonce, .. } => note_checks(judge, keys, rule, whole, nonce),
        Form::Begin { label, .. } => note_begin(judge, label),
        Form::End { label, .. } => note_end(judge, keys, label),
        Form::EndMany { label, .. } => note_end_many(judge, keys, label),
        Form::Cast { ty, .. } => note_casts(alloc, judge, keys, rule, scope, ty),
        Form::Fresh { .. } => note_make(judge, scope),
    }
}

// The number of a label's message, with its key, where it is one.
fn take_label(
    alloc: Global,
    judge: &mut Judge,
    keys: &mut Keys,
    m: &Msg,
) -> Result<Option<MsgId>, NoMemory>
    requires { AreKept judge.old.store keys.old }
    ensures taken { IfOk result (TakesLabelled judge.old judge.new keys.new (message m.now)) }
    ensures grows { OnOk result (GrowsTo judge.old.store keys.old judge.new.store keys.new) }
    ensures kept { IsKept judge.old judge.new }
{
    let id = judge.message(m)?;
    if judge.is_label(alloc, id)? {
        keys.keep(id, m)?;
        Ok(Some(id))
    } else {
        Ok(None)
    }
}

// The number of a message, with its key, where it has type Un.
fn take_untrusted(
    alloc: Global,
    judge: &mut Judge,
    keys: &mut Keys,
    m: &Msg,
) -> Result<Option<MsgId>, NoMemory>
    requires { AreKept judge.old.store keys.old }
    ensures taken { IfOk result (TakesUn judge.old judge.new keys.new (message m.now)) }
    ensures grows { OnOk result (GrowsTo judge.old.store keys.old judge.new.store keys.new) }
    ensures kept { IsKept judge.old judge.new }
{
    let un = judge.ty(alloc, &Ty::Un)?;
    let id = judge.message(m)?;
    if judge.has_type(alloc, id, un)? {
        keys.keep(id, m)?;
        Ok(Some(id))
    } else {
        Ok(None)
    }
}

// An atom by numbers, where it is good.
fn take_atom(
    alloc: Global,
    judge: &mut Judge,
    keys: &mut Keys,
    a: &Atom,
) -> Result<Option<AtomId>, NoMemory>
    requires { AreKept judge.old.store keys.old }
    ensures taken { IfOk result (TakesAtomic judge.old judge.new keys.new (atom a.now)) }
    ensures grows { OnOk result (GrowsTo judge.old.store keys.old judge.new.store keys.new) }
    ensures kept { IsKept judge.old judge.new }
{
    match a {
        Atom::End(m) => match take_label(alloc, judge, keys, m)? {
            Some(id) => Ok(Some(AtomId::End(id))),
            None => Ok(None),
        },
        Atom::Check(m) => match take_untrusted(alloc, judge, keys, m)? {
            Some(id) => Ok(Some(AtomId::Check(id))),
            None => Ok(None),
        },
        Atom::Many(m) => match take_label(alloc, judge, keys, m)? {
            Some(id) => Ok(Some(AtomId::Many(id))),
            None => Ok(None),
        },
    }
}

/// The atoms of an effect by numbers, where it is good.
#[tactic(auto, using(spi_message::proofs::Tested::kept_more, spi_message::proofs::Tested::kept_same))]
pub fn take_effect(
    alloc: Global,
    judge: &mut Judge,
    keys: &mut Keys,
    e: &Effect,
) -> Result<Option<Vec<AtomId>>, NoMemory>
    requires { AreKept judge.old.store keys.old }
    ensures taken { IfOk result (TakesEffect judge.old judge.new keys.new (effect e.now)) }
    ensures grows { OnOk result (GrowsTo judge.old.store keys.old judge.new.store keys.new) }
    ensures kept { IsKept judge.old judge.new }
{
    let mut ids = Vec::new(alloc);
    for a in &e.atoms {
        match take_atom(alloc, judge, keys, a)? {
            Some(id) => ids.push(id)?,
            None => return Ok(None),
        }
    }
    Ok(Some(ids))
}
