// The backward pass by counts: a stack of the effects of processes, where a process has one.
ghost use Rattle.std.specs.Prelude.{◌≡◌, ◌≤◌, ◌<◌, not, true, length, drop, List, Option, Some, [], ◌∷◌, IfOk, OnOk};
ghost use Rattle.spi_term.specs.Term.{Effect, Process as ProcessTerm, process_size};
ghost use Rattle.spi_term.specs.View.{shape_of};
ghost use Rattle.spi_term.specs.Arena.{scope_of};
ghost use Rattle.spi_term.specs.Spelling.{spelled, numbered};
ghost use Rattle.spi_rules.specs.Environment.{Env};
ghost use Rattle.spi_rules.specs.Blocking.{NodeOf};
ghost use Rattle.spi_intern.specs.declared.store.Store.{Store};
ghost use Rattle.spi_intern.specs.Meaning.{NoneTwice};
ghost use Rattle.spi_count.specs.declared.keys.Keys.{Keys};
ghost use Rattle.spi_count.specs.Keeping.{with_keys, IsKeyed};
ghost use Rattle.spi_infer.specs.Own.{PileFor};
ghost use Rattle.spi_infer.specs.Forms.{by_effects, keep, effect_of};
ghost use Rattle.spi_infer.specs.Passes.{Note, scan, act, act_by, act_both, stuck_top_by, stuck_both, stuck_two_by, is_stuck, first_stuck, after_shape, both_shape};
ghost use Rattle.spi_infer.specs.Accounts.{Tops, MayBelowIn, BothBelowIn, IsBeforeNode, NoteGiven, IsNoted};

use crate::own::{Noted, OwnNote};
use crate::sums::{after_form, both_form};
use spi_count::{Keys, NoMemory, Pile};
use spi_intern::Store;
use spi_term::{Form, Node, Process};
use std::alloc::Global;

/// One node with no process in it. Whether it has no effect.
pub fn act_on_none(
    alloc: Global,
    fine: bool,
    stack: &mut Vec<Option<Pile>>,
) -> Result<bool, NoMemory>
    ensures stack { OnOk result
        ((s : Store) (keys : Keys) (st : List (Option Effect)) → IsKeyed s keys
        → Tops s keys stack.old.items st → Tops s keys stack.new.items (keep fine (Some []) ∷ st)) }
    ensures stuck { IfOk result (λ b. b ≡ not fine) }
{
    if fine {
        stack.push(Some(Pile::new(alloc)))?;
        Ok(false)
    } else {
        stack.push(None)?;
        Ok(true)
    }
}

/// One node with one process in it, whose effect is on top of the stack. Whether it has none where its
/// process has one.
pub fn act_on_one(
    store: &Store,
    keys: &Keys,
    node: &Node,
    note: &OwnNote,
    stack: &mut Vec<Option<Pile>>,
) -> Result<bool, NoMemory>
    requires scope { scope_of (shape_of node.now) ≤ 300000 }
    requires own { NoteGiven store.now (shape_of node.now) note.now }
    ensures stack { OnOk result
        ((n : Note) (st : List (Option Effect))
        → IsBeforeNode store.now keys.now (shape_of node.now) note.now stack.old.items n st
        → Tops store.now keys.now stack.new.items
        (act_by (after_shape (shape_of node.now) n.paid) n.fine st)) }
    ensures stuck { IfOk result
        (λ b. (n : Note) (st : List (Option Effect))
        → IsBeforeNode store.now keys.now (shape_of node.now) note.now stack.old.items n st
        → b ≡ stuck_top_by (after_shape (shape_of node.now) n.paid) n.fine st) }
{
    match stack.pop() {
        None => Ok(false),
        Some(None) => {
            stack.push(None)?;
            Ok(false)
        }
        Some(Some(pile)) => {
            if !note.fine {
                stack.push(None)?;
                return Ok(true);
            }
            let mut whole = pile;
            let stays = after_form(store, keys, node, note.own, &mut whole)?;
            if stays {
                stack.push(Some(whole))?;
                Ok(false)
            } else {
                stack.push(None)?;
                Ok(true)
            }
        }
    }
}

/// The effect of a node from those of its two processes, and whether it has none where both have one.
pub fn both_of(
    node: &Node,
    fine: bool,
    a: Option<Pile>,
    b: Option<Pile>,
) -> Result<(Option<Pile>, bool), NoMemory>
    requires { scope_of (shape_of node.now) ≤ 300000 }
    ensures effect { IfOk result
        (λ r. (s : Store) (keys : Keys) (e f : Option Effect) → IsKeyed s keys
        → PileFor (with_keys s keys) a e → PileFor (with_keys s keys) b f
        → MayBelowIn (shape_of node.now) e → MayBelowIn (shape_of node.now) f
        → PileFor (with_keys s keys) r.0 (keep fine (by_effects (both_shape (shape_of node.now)) e f))) }
    ensures stuck { IfOk result
        (λ r. (s : Store) (keys : Keys) (e f : Option Effect) → IsKeyed s keys
        → PileFor (with_keys s keys) a e → PileFor (with_keys s keys) b f
        → MayBelowIn (shape_of node.now) e → MayBelowIn (shape_of node.now) f
        → r.1 ≡ stuck_two_by (both_shape (shape_of node.now)) fine e f) }
{
    match a {
        None => Ok((None, false)),
        Some(a) => match b {
            None => Ok((None, false)),
            Some(b) => {
                if !fine {
                    return Ok((None, true));
                }
                let mut whole = b;
                let stays = both_form(node, a, &mut whole)?;
                if stays {
                    Ok((Some(whole), false))
                } else {
                    Ok((None, true))
                }
            }
        },
    }
}

/// One node with two processes in it, whose effects are on top of the stack. Whether it has none where both
/// have one.
pub fn act_on_two(node: &Node, fine: bool, stack: &mut Vec<Option<Pile>>) -> Result<bool, NoMemory>
    requires { scope_of (shape_of node.now) ≤ 300000 }
    ensures stack { OnOk result
        ((s : Store) (keys : Keys) (st : List (Option Effect)) → IsKeyed s keys
        → BothBelowIn (shape_of node.now) st → Tops s keys stack.old.items st
        → Tops s keys stack.new.items (act_both (both_shape (shape_of node.now)) fine st)) }
    ensures stuck { IfOk result
        (λ b. (s : Store) (keys : Keys) (st : List (Option Effect)) → IsKeyed s keys
        → BothBelowIn (shape_of node.now) st → Tops s keys stack.old.items st
        → b ≡ stuck_both (both_shape (shape_of node.now)) fine st) }
{
    match stack.pop() {
        None => Ok(false),
        Some(a) => match stack.pop() {
            None => Ok(false),
            Some(b) => {
                let (next, is_stuck) = both_of(node, fine, a, b)?;
                stack.push(next)?;
                Ok(is_stuck)
            }
        },
    }
}

/// One node of the backward pass. Whether it has no effect where each process in it has one.
pub fn act_on(
    alloc: Global,
    store: &Store,
    keys: &Keys,
    node: &Node,
    note: &OwnNote,
    stack: &mut Vec<Option<Pile>>,
) -> Result<bool, NoMemory>
    requires scope { scope_of (shape_of node.now) ≤ 300000 }
    requires own { NoteGiven store.now (shape_of node.now) note.now }
    ensures stack { OnOk result
        ((n : Note) (st : List (Option Effect))
        → IsBeforeNode store.now keys.now (shape_of node.now) note.now stack.old.items n st
        → Tops store.now keys.now stack.new.items (act (shape_of node.now) n st)) }
    ensures stuck { IfOk result
        (λ b. (n : Note) (st : List (Option Effect))
        → IsBeforeNode store.now keys.now (shape_of node.now) note.now stack.old.items n st
        → b ≡ is_stuck (shape_of node.now) n st) }
{
    match &node.form {
        Form::Send { .. } => act_on_none(alloc, note.fine, stack),
        Form::Stop => act_on_none(alloc, note.fine, stack),
        Form::Branch { .. } => act_on_two(node, note.fine, stack),
        Form::Par { .. } => act_on_two(node, note.fine, stack),
        _ => act_on_one(store, keys, node, note, stack),
    }
}

/// The least effect of a node's process by counts, where it has one, and the first node from there on in preorder that has
/// none though each process in it has one. `noted` is what is kept of the nodes, by the numbers of the store.
pub fn account(
    alloc: Global,
    process: &Process,
    noted: &Noted,
    store: &Store,
    from: u32,
) -> Result<(Option<Pile>, Option<u32>), NoMemory>
    requires noted { (env : Env) × IsNoted store.now noted.now process.now.names process.now.process env }
    requires from { from < process_size process.now.process }
    ensures effect { IfOk result
        (λ r. (env e : Env) (q : ProcessTerm)
        → IsNoted store.now noted.now process.now.names process.now.process env
        → NodeOf env process.now.process from e q
        → PileFor (with_keys store.now noted.now.keys) r.0 (effect_of (numbered [] (length e) q) e)) }
    ensures stuck { IfOk result
        (λ r. (env : Env) → IsNoted store.now noted.now process.now.names process.now.process env
        → r.1 ≡ first_stuck from (drop from (spelled process.now.names process.now.process))
        (drop from (scan 0 env [] (spelled process.now.names process.now.process)))) }
    ensures once { NoneTwice store.now }
{
    // The count is asked for what its answer says: nothing has two numbers.
    let _ = store.distinct();
    let mut stack = Vec::new(alloc);
    let mut stuck = None;
    for id in (from..process.len()).rev() {
        let node = process.node(id);
        let note = &noted.notes[id as usize];
        if act_on(alloc, store, &noted.keys, node, note, &mut stack)? {
            stuck = Some(id);
        }
    }
    match stack.pop() {
        Some(pile) => Ok((pile, stuck)),
        None => Ok((None, stuck)),
    }
}
