// The forward pass: each use is held against what it is asked of.
ghost use Rattle.std.specs.Prelude.{◌≡◌, ◌<◌, ◌≤◌, ◌^◌, List, [], take, length, IfOk, OnOk, IfSome, IfNone, vec_len};
ghost use Rattle.spi_term.specs.Term.{process_size};
ghost use Rattle.spi_term.specs.Spelling.{Shape, spelled};
ghost use Rattle.spi_term.specs.View.{effect};
ghost use Rattle.spi_rules.specs.Environment.{Env, untrusted};
ghost use Rattle.spi_rules.specs.Deriv.{rule_use, rule_uses, IsUse, IsTree};
ghost use Rattle.spi_intern.specs.Given.{IsGiven};
ghost use Rattle.spi_message.specs.Judging.{IsKept, Stands};
ghost use Rattle.spi_audit.specs.Fits.{Subject, of_process, plain, subsumed};
ghost use Rattle.spi_audit.specs.Asked.{Bound};
ghost use Rattle.spi_count.specs.Keeping.{AreKept, GrowsTo};
ghost use Rattle.spi_audit.specs.Notes.{IsSmallNote};
ghost use Rattle.spi_audit.specs.Walking.{Settles, IsPlaced, FitsMessage, FitsNode, FitsNext, IsWalkState, IsOpen, Misfits, Steps, IsWalked};

use crate::NoMemory;
use crate::asked::{Asked, Binding, Premises, push_premises};
use crate::forms::node_premises;
use crate::messages::message_premises;
use crate::notes::Note;
use crate::noting::{note_node, take_effect};
use crate::opening::begun;
use spi_count::Keys;
use spi_intern::{MsgId, TyId};
use spi_message::{Judge, cut_to};
use spi_rules::{Deriv, Rule, RuleUse};
use spi_term::{Effect, Process};
use std::alloc::Global;

/// A use that fits: what its premises are asked of, and what is kept of it.
#[derive(Drop)]
pub struct Fit {
    pub premises: Premises,
    pub note: Note,
}

/// What the forward pass finds.
#[derive(Drop)]
pub enum Walk {
    /// Each use fits, and this is kept of them.
    Fitting(Vec<Note>),
    /// The use with this index is the first that doesn't fit.
    Misfit(u32),
}

fn bind_names(judge: &mut Judge, names: Binding) -> Result<(), NoMemory>
    requires given { (types : Env) × Bound judge.old.store names types }
    requires room { length judge.old.types ≤ 300000 }
    ensures turned { OnOk result (Settles judge.old judge.new names (λ e. e)) }
    ensures store { judge.new.store ≡ judge.old.store }
    ensures free { judge.new.free ≡ judge.old.free }
{
    match names {
        Binding::Nothing => Ok(()),
        Binding::OneName(t) => judge.bind(t),
        Binding::TwoNames(t, u) => {
            judge.bind(t)?;
            judge.bind(u)
        }
    }
}

// The environment is cut back, and some names are bound.
fn settle(judge: &mut Judge, scope: u32, names: Binding) -> Result<(), NoMemory>
    requires low { judge.old.free ≤ scope }
    requires few { scope ≤ 300000 }
    requires given { (types : Env) × Bound judge.old.store names types }
    ensures turned { OnOk result (Settles judge.old judge.new names (λ e. take scope e)) }
    ensures store { judge.new.store ≡ judge.old.store }
    ensures free { judge.new.free ≡ judge.old.free }
{
    cut_to(judge, scope);
    bind_names(judge, names)
}

// A use that is asked whether a message has a type.
fn message_use(
    alloc: Global,
    judge: &mut Judge,
    u: &RuleUse,
    m: MsgId,
    t: TyId,
) -> Result<Option<Fit>, NoMemory>
    requires message { m.place < length judge.old.store.messages }
    requires ty { IsGiven judge.old.store t.place }
    requires usage { IsUse (rule_use u.now) }
    ensures answer { IfOk result (FitsMessage judge.old judge.new (rule_use u.now) m t) }
    ensures kept { IsKept judge.old judge.new }
{
    match &u.taken {
        Some(_) => Ok(None),
        None => match message_premises(alloc, judge, u.rule, m, t)? {
            Some(premises) => Ok(Some(Fit {
                premises,
                note: Note::Nothing,
            })),
            None => Ok(None),
        },
    }
}

// A use of `ProcSub` that is asked of the process at a node.
fn sub_use(
    alloc: Global,
    judge: &mut Judge,
    keys: &mut Keys,
    e: &Effect,
    id: u32,
) -> Result<Option<Fit>, NoMemory>
    requires { AreKept judge.old.store keys.old }
    ensures answer { IfOk result
        (λ r. (ss : List Shape) → FitsNode judge.old judge.new keys.new ss (subsumed (effect e.now)) id r) }
    ensures grows { OnOk result (GrowsTo judge.old.store keys.old judge.new.store keys.new) }
    ensures kept { IsKept judge.old judge.new }
{
    match take_effect(alloc, judge, keys, e)? {
        None => Ok(None),
        Some(ids) => {
            let next = begun(judge, id);
            Ok(Some(Fit {
                premises: Premises::OnePremise(next),
                note: Note::Taken(ids),
            }))
        }
    }
}

// Any other use that is asked of the process at a node.
fn node_use(
    alloc: Global,
    judge: &mut Judge,
    keys: &mut Keys,
    process: &Process,
    rule: Rule,
    id: u32,
) -> Result<Option<Fit>, NoMemory>
    requires keys { AreKept judge.old.store keys.old }
    requires node { id < process_size process.now.process }
    requires placed { IsPlaced judge.old (spelled process.now.names process.now.process) id }
    ensures answer { IfOk result
        (FitsNode judge.old judge.new keys.new (spelled process.now.names process.now.process) (plain rule)
        id) }
    ensures grows { OnOk result (GrowsTo judge.old.store keys.old judge.new.store keys.new) }
    ensures kept { IsKept judge.old judge.new }
{
    let _ = process.len();
    let node = process.node(id);
    match node_premises(alloc, judge, rule, node)? {
        None => Ok(None),
        Some(premises) => {
            let note = note_node(alloc, judge, keys, rule, node)?;
            Ok(Some(Fit { premises, note }))
        }
    }
}

// Holds a use against what is asked next.
fn held_against(
    alloc: Global,
    judge: &mut Judge,
    keys: &mut Keys,
    process: &Process,
    u: &RuleUse,
    next: Asked,
) -> Result<Option<Fit>, NoMemory>
    requires keys { AreKept judge.old.store keys.old }
    requires usage { IsUse (rule_use u.now) }
    requires next { IsOpen judge.old (spelled process.now.names process.now.process) next }
    ensures answer { IfOk result
        (FitsNext judge.old judge.new keys.new (spelled process.now.names process.now.process)
        (rule_use u.now) next) }
    ensures grows { OnOk result (GrowsTo judge.old.store keys.old judge.new.store keys.new) }
    ensures free { judge.new.free ≡ judge.old.free }
{
    let _ = process.len();
    match next {
        Asked::Message(m, t) => message_use(alloc, judge, u, m, t),
        Asked::Process(id, scope, names) => {
            settle(judge, scope, names)?;
            match &u.taken {
                Some(e) => sub_use(alloc, judge, keys, e, id),
                None => node_use(alloc, judge, keys, process, u.rule, id),
            }
        }
    }
}

// One use: what is kept of it, where it fits.
fn step(
    alloc: Global,
    judge: &mut Judge,
    keys: &mut Keys,
    process: &Process,
    u: &RuleUse,
    asked: &mut Vec<Asked>,
) -> Result<Option<Note>, NoMemory>
    requires keys { AreKept judge.old.store keys.old }
    requires usage { IsUse (rule_use u.now) }
    requires state { (ts : List Subject)
        × IsWalkState judge.old (spelled process.now.names process.now.process) asked.old.items ts
        × (0 < length ts) }
    ensures misfit { IfOk result
        (λ r. IfNone r
        ((ts : List Subject)
        → IsWalkState judge.old (spelled process.now.names process.now.process) asked.old.items ts
        → Misfits (rule_use u.now) ts)) }
    ensures fit { IfOk result
        (λ r. IfSome r
        (λ o. (ts : List Subject)
        → IsWalkState judge.old (spelled process.now.names process.now.process) asked.old.items ts
        → Steps judge.new keys.new (spelled process.now.names process.now.process) (rule_use u.now)
        asked.new.items ts o)) }
    ensures small { IfOk result (λ r. IfSome r IsSmallNote) }
    ensures grows { OnOk result (GrowsTo judge.old.store keys.old judge.new.store keys.new) }
    ensures free { judge.new.free ≡ judge.old.free }
{
    match asked.pop() {
        None => unreachable!(),
        Some(next) => match held_against(alloc, judge, keys, process, u, next)? {
            None => Ok(None),
            Some(found) => {
                push_premises(asked, found.premises)?;
                Ok(Some(found.note))
            }
        },
    }
}

/// Holds each use against what it is asked of, from the root of the process on, until one doesn't fit.
pub fn walk_uses(
    alloc: Global,
    judge: &mut Judge,
    keys: &mut Keys,
    process: &Process,
    d: &Deriv,
) -> Result<Walk, NoMemory>
    requires few { vec_len d.now.uses < 2 ^ 32 }
    requires tree { IsTree (rule_uses d.now) }
    requires keys { AreKept judge.old.store keys.old }
    requires names { Stands judge.old (untrusted process.now.names) }
    requires free { judge.old.free ≡ process.now.names }
    ensures walked { IfOk result
        (IsWalked judge.new.store keys.new (of_process (untrusted process.now.names) process.now.process)
        (rule_uses d.now)) }
    ensures kept { OnOk result (AreKept judge.new.store keys.new) }
{
    let _ = process.len();
    let mut asked = Vec::new(alloc);
    asked.push(Asked::Process(0, judge.len(), Binding::Nothing))?;
    let mut notes = Vec::with_capacity(alloc, d.uses.len())?;
    for i in 0..d.uses.len() {
        let u = &d.uses[i];
        match step(alloc, judge, keys, process, u, &mut asked)? {
            Some(note) => notes.push(note)?,
            None => return Ok(Walk::Misfit(i as u32)),
        }
    }
    Ok(Walk::Fitting(notes))
}
