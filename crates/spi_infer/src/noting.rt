// The forward pass: what is kept of each node in its reached environment, over a judge.
ghost use Rattle.std.specs.Prelude.{◌≡◌, ◌+◌, ◌≤◌, List, [], IfOk, OnOk, OnErr, length};
ghost use Rattle.spi_term.specs.Term.{process_size};
ghost use Rattle.spi_term.specs.Spelling.{HasSmallParts, spelled};
ghost use Rattle.spi_term.specs.View.{shape_of};
ghost use Rattle.spi_rules.specs.Environment.{Env};
ghost use Rattle.spi_message.specs.Asking.{IsEnvironment};
ghost use Rattle.spi_message.specs.Judging.{Numbered, IsJudge, IsKept, Stands};
ghost use Rattle.spi_infer.specs.Own.{AreFormsNoted};
ghost use Rattle.spi_count.specs.Keeping.{with_keys, AreKept, GrowsTo};
ghost use Rattle.spi_infer.specs.Passes.{Wait, left_waiting, waiting, scan};
ghost use Rattle.spi_infer.specs.Waiting.{Queued, CanReach};
ghost use Rattle.spi_infer.specs.Walking.{IsAbove, IsNodePassed};

use crate::binding::{enter, settle};
use crate::keeping::own_note;
use crate::own::{Noted, OwnNote};
use crate::steps::Steps;
use crate::terms::terms_of;
use crate::waiting::{Pending, put_off};
use spi_count::Keys;
use spi_message::{Judge, NoMemory, cut_to};
use spi_term::{Node, Process};
use std::alloc::Global;
use std::sync::ledger::Ledger;

// What is kept of the node with this number. The environment is cut back to its scope first, and what the node binds in its
// first process is bound at last.
fn visit(
    alloc: Global,
    judge: &mut Judge,
    keys: &mut Keys,
    node: &Node,
    id: u32,
    pending: &mut Vec<Pending>,
) -> Result<OwnNote, NoMemory>
    requires small { HasSmallParts (shape_of node.now) }
    requires few { node.now.scope ≤ 300000 }
    requires low { CanReach judge.old.free id node.now.scope judge.old.store pending.old.items }
    requires keys { AreKept judge.old.store keys.old }
    requires names { IsEnvironment judge.old.store judge.old.types }
    ensures note { IfOk result
        (λ o. (ws : List Wait) → Queued judge.old.store pending.old.items ws
        → IsNodePassed judge.old judge.new keys.new id node.now.scope (shape_of node.now) ws o) }
    ensures rest { OnOk result
        ((ws : List Wait) → Queued judge.old.store pending.old.items ws
        → Queued judge.new.store pending.new.items (waiting (left_waiting id ws) (shape_of node.now))) }
    ensures grows { OnOk result (GrowsTo judge.old.store keys.old judge.new.store keys.new) }
    ensures above { (first : Numbered) → IsAbove first judge.old
        → CanReach (length first.types) id node.now.scope judge.old.store pending.old.items
        → IsAbove first judge.new }
{
    settle(judge, id, node.scope, pending)?;
    let terms = terms_of(alloc, judge, node)?;
    let note = own_note(alloc, judge, keys, node, terms)?;
    enter(alloc, judge, node, terms)?;
    put_off(node, terms, pending)?;
    Ok(note)
}

// Forward over the nodes. A visit of a node is a step.
fn walk<L: Ledger>(
    alloc: Global,
    judge: &mut Judge,
    process: &Process,
    steps: &mut Steps<L>,
) -> Result<Noted, NoMemory>
    requires judge { IsJudge judge.old.store judge.old.free judge.old.types }
    requires names { length judge.old.types ≡ process.now.names }
    ensures notes { IfOk result
        (λ n. (e : Env) → Stands judge.old e
        → AreFormsNoted judge.new.store (with_keys judge.new.store n.keys)
        (spelled process.now.names process.now.process)
        (scan 0 e [] (spelled process.now.names process.now.process)) n.notes.items) }
    ensures keys { IfOk result (λ n. AreKept judge.new.store n.keys) }
    ensures above { IsAbove judge.old judge.new }
    ensures counted { OnOk result (steps.new ≡ steps.old + process_size process.now.process) }
    ensures fewer { OnErr result
        ((steps.old ≤ steps.new) × (steps.new ≤ steps.old + process_size process.now.process)) }
{
    let mut keys = Keys::new(alloc);
    let mut pending = Vec::new(alloc);
    let mut notes = Vec::with_capacity(alloc, process.len() as usize)?;
    for id in 0..process.len() {
        steps.tick();
        let node = process.node(id);
        let note = visit(alloc, judge, &mut keys, node, id, &mut pending)?;
        notes.push(note)?;
    }
    Ok(Noted { notes, keys })
}

/// What is kept of each node, in the judge's environment. Afterwards the judge stands for what it stood for. A visit of a
/// node is a step; where memory runs out, there were at most so many.
pub fn own_notes<L: Ledger>(
    alloc: Global,
    judge: &mut Judge,
    process: &Process,
    steps: &mut Steps<L>,
) -> Result<Noted, NoMemory>
    requires judge { IsJudge judge.old.store judge.old.free judge.old.types }
    requires names { length judge.old.types ≡ process.now.names }
    ensures notes { IfOk result
        (λ n. (e : Env) → Stands judge.old e
        → AreFormsNoted judge.new.store (with_keys judge.new.store n.keys)
        (spelled process.now.names process.now.process)
        (scan 0 e [] (spelled process.now.names process.now.process)) n.notes.items) }
    ensures keys { IfOk result (λ n. AreKept judge.new.store n.keys) }
    ensures kept { IsKept judge.old judge.new }
    ensures counted { OnOk result (steps.new ≡ steps.old + process_size process.now.process) }
    ensures fewer { OnErr result
        ((steps.old ≤ steps.new) × (steps.new ≤ steps.old + process_size process.now.process)) }
{
    let count = judge.len();
    let noted = walk(alloc, judge, process, steps);
    cut_to(judge, count);
    noted
}
