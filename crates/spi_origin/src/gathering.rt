// Backward over the nodes, and what is gathered on the way.

ghost use Rattle.std.specs.Prelude.{◌≡◌, ◌<◌, ℕ, List, Option, OnOk, IfOk, length, true, [], ◌∷◌};
ghost use Rattle.spi_count.specs.Keeping.{with_keys};
ghost use Rattle.spi_count.specs.declared.keys.Keys as Keys;
ghost use Rattle.spi_infer.specs.Accounts.{IsNoted, Tops};
ghost use Rattle.spi_infer.specs.Own.{FormNotedAs};
ghost use Rattle.spi_infer.specs.Passes.{Note, act, is_stuck};
ghost use Rattle.spi_intern.specs.declared.store.Store as Stores;
ghost use Rattle.spi_origin.specs.Gathering.{aim_of, HasAimKey, keeps, picks, joined_lists, at_top, with_node, top_sum, picked, MarkedStacks};
ghost use Rattle.spi_rules.specs.Blocking.{NodeOf};
ghost use Rattle.spi_rules.specs.Environment as Rules;
ghost use Rattle.spi_term.specs.Spelling.{numbered};
ghost use Rattle.spi_term.specs.Term as Term;
ghost use Rattle.spi_term.specs.Term.{process_size};
ghost use Rattle.spi_term.specs.View.{shape_of};

use crate::NoMemory;
use crate::adding::{adds, is_left};
use spi_count::Pile;
use spi_infer::{Noted, OwnNote, act_on};
use spi_intern::Store;
use spi_term::{Atom, Form, Node, Process};
use std::alloc::Global;

/// Which nodes are gathered: those that block, or those that put an atom in an effect. The number is the key of the atom's
/// message.
pub enum Aim {
    Blocking,
    Origins(Atom, u64),
}

impl Drop for Aim {
    fn drop(self) {
        match self {
            Aim::Blocking => {}
            Aim::Origins(_, _) => {}
        }
    }
}

// What is gathered in the process that begins first is kept. No atom of its effect waits to be counted afterwards.
fn is_kept(aim: &Aim, stack: &mut Vec<Option<Pile>>) -> Result<bool, NoMemory>
    ensures kept { IfOk result
        (λ b. (s : Stores.Store) (keys : Keys.Keys) (st : List (Option Term.Effect))
        → HasAimKey s keys aim.now → Tops s keys stack.old.items st
        → b ≡ keeps (aim_of aim.now) (top_sum st)) }
    ensures stack { OnOk result
        ((s : Stores.Store) (keys : Keys.Keys) (st : List (Option Term.Effect))
        → Tops s keys stack.old.items st → Tops s keys stack.new.items st) }
{
    match aim {
        Aim::Blocking => Ok(true),
        Aim::Origins(atom, key) => match stack.pop() {
            None => Ok(false),
            Some(None) => {
                stack.push(None)?;
                Ok(false)
            }
            Some(Some(pile)) => {
                let mut settled = pile;
                settled.settle()?;
                let left = is_left(atom, *key, &settled.sum);
                stack.push(Some(settled))?;
                Ok(left)
            }
        },
    }
}

// The node is itself one of those, where what is gathered in its process is kept. `stuck`: the node blocks.
fn is_picked(aim: &Aim, node: &Node, note: &OwnNote, stuck: bool) -> bool
    ensures { (s : Stores.Store) (keys : Keys.Keys) (n : Note) (st : List (Option Term.Effect))
        → FormNotedAs s (with_keys s keys) (shape_of node.now) n note.now
        → stuck ≡ is_stuck (shape_of node.now) n st
        → keeps (aim_of aim.now) (top_sum (act (shape_of node.now) n st)) ≡ true
        → result ≡ picks (aim_of aim.now) (shape_of node.now) n st }
{
    match aim {
        Aim::Blocking => stuck,
        Aim::Origins(atom, _) => adds(atom, node, note.own),
    }
}

// The lists of the node's processes become one. There are `end` numbers in all.
fn join(node: &Node, marks: &mut Vec<usize>, end: usize) -> Result<(), NoMemory>
    ensures { OnOk result ((found : List ℕ) (ls : List (List ℕ)) → length found ≡ end
        → MarkedStacks marks.old.items found ls
        → MarkedStacks marks.new.items found (joined_lists (shape_of node.now) ls)) }
{
    match &node.form {
        Form::Send { .. } => marks.push(end)?,
        Form::Stop => marks.push(end)?,
        Form::Branch { .. } => {
            let _ = marks.pop();
        }
        Form::Par { .. } => {
            let _ = marks.pop();
        }
        _ => {}
    }
    Ok(())
}

// What is gathered in the process that begins first, with its own node.
fn add_node(
    found: &mut Vec<u32>,
    marks: &[usize],
    id: u32,
    kept: bool,
    picked: bool,
) -> Result<(), NoMemory>
    ensures { OnOk result ((ls : List (List ℕ)) → MarkedStacks marks.now found.old.items ls
        → MarkedStacks marks.now found.new.items (at_top (with_node kept picked id) ls)) }
{
    if !kept {
        if let Some(mark) = marks.last() {
            found.truncate(*mark);
        }
        return Ok(());
    }
    if picked {
        found.push(id)?;
    }
    Ok(())
}

// The list of the process that begins first.
fn first_list(found: Vec<u32>, marks: &[usize]) -> Vec<u32>
    ensures { (l : List ℕ) (ls : List (List ℕ)) → MarkedStacks marks.now found.items (l ∷ ls)
        → result.items ≡ l }
{
    let mark = match marks.last() {
        Some(mark) => *mark,
        None => 0,
    };
    let length = found.len().saturating_sub(mark);
    let mut list = found;
    list.reverse();
    list.truncate(length);
    list
}

/// What is gathered in the process of the node `from`. `noted` is what is kept of the nodes, by the numbers of the store.
pub fn gathered_from(
    alloc: Global,
    process: &Process,
    noted: &Noted,
    store: &Store,
    from: u32,
    aim: &Aim,
) -> Result<Vec<u32>, NoMemory>
    requires noted { (env : Rules.Env)
        × IsNoted store.now noted.now process.now.names process.now.process env }
    requires from { from < process_size process.now.process }
    requires key { HasAimKey store.now noted.now.keys aim.now }
    ensures { IfOk result (λ v. (env e : Rules.Env) (q : Term.Process)
        → IsNoted store.now noted.now process.now.names process.now.process env
        → NodeOf env process.now.process from e q
        → v.items ≡ picked (aim_of aim.now) (numbered [] (length e) q) e from) }
{
    // The count is asked for what its answer says: nothing has two numbers.
    let _ = store.distinct();
    let mut stack = Vec::new(alloc);
    let mut marks = Vec::new(alloc);
    let mut found = Vec::new(alloc);
    for id in (from..process.len()).rev() {
        let node = process.node(id);
        let note = &noted.notes[id as usize];
        let stuck = act_on(alloc, store, &noted.keys, node, note, &mut stack)?;
        let kept = is_kept(aim, &mut stack)?;
        let picked = is_picked(aim, node, note, stuck);
        join(node, &mut marks, found.len())?;
        add_node(&mut found, &marks, id, kept, picked)?;
    }
    Ok(first_list(found, &marks))
}
