// Both passes, and what they come to.
ghost use Rattle.std.specs.Prelude.{◌≡◌, ◌+◌, ◌<◌, ◌≤◌, [], drop, length, Option, IfOk, OnOk, OnErr};
ghost use Rattle.spi_term.specs.Term.{Effect as EffectTerm, Process as ProcessTerm, process_size};
ghost use Rattle.spi_term.specs.Names.{ProcessOver};
ghost use Rattle.spi_term.specs.Spelling.{spelled};
ghost use Rattle.spi_rules.specs.Environment.{Env};
ghost use Rattle.spi_rules.specs.Blocking.{NodeOf};
ghost use Rattle.spi_message.specs.Judging.{IsJudge, IsKept, Stands};
ghost use Rattle.spi_count.specs.Keeping.{with_keys, IsKeyed};
ghost use Rattle.spi_infer.specs.Own.{PileFor};
ghost use Rattle.spi_infer.specs.Passes.{scan, first_stuck};
ghost use Rattle.spi_infer.specs.Accounts.{IsReadAs};
ghost use Rattle.spi_infer.specs.Inferring.{IsLeast, AnswersIn, AnswersOver, IsLeastAt};

use crate::accounts::account;
use crate::noting::own_notes;
use crate::steps::Steps;
use crate::{Inferred, NoMemory};
use spi_count::{Keys, Pile, effect_of_pile};
use spi_intern::Store;
use spi_message::Judge;
use spi_term::{Effect, Process};
use std::alloc::Global;
use std::marker::Brand;
use std::sync::ledger::{Blank, Ledger};

// The effect with these counts, where there is one.
fn read_back(
    alloc: Global,
    store: &Store,
    keys: &Keys,
    pile: Option<Pile>,
) -> Result<Option<Effect>, NoMemory>
    requires { (es : Option EffectTerm) × IsKeyed store.now keys.now
        × PileFor (with_keys store.now keys.now) pile es }
    ensures { IfOk result
        (λ r. (es : Option EffectTerm) → PileFor (with_keys store.now keys.now) pile es → IsReadAs r es) }
{
    match pile {
        None => Ok(None),
        Some(pile) => Ok(Some(effect_of_pile(alloc, store, keys, pile)?)),
    }
}

// The least effect of the node's process in its reached environment, where it has one, and the first node from there on in
// preorder that has none though each process in it has one.
fn least_from<L: Ledger>(
    alloc: Global,
    judge: &mut Judge,
    process: &Process,
    node: u32,
    steps: &mut Steps<L>,
) -> Result<(Option<Effect>, Option<u32>), NoMemory>
    requires names { length judge.old.types ≡ process.now.names }
    requires node { node < process_size process.now.process }
    ensures effect { IfOk result
        (λ r. (env e : Env) (q : ProcessTerm) → Stands judge.old env → NodeOf env process.now.process node e q
        → IsLeast e q r.0) }
    ensures stuck { IfOk result
        (λ r. (env : Env) → Stands judge.old env
        → r.1 ≡ first_stuck node (drop node (spelled process.now.names process.now.process))
        (drop node (scan 0 env [] (spelled process.now.names process.now.process)))) }
    ensures judge { IsJudge judge.old.store judge.old.free judge.old.types }
    ensures over { ProcessOver process.now.names process.now.process }
    ensures kept { IsKept judge.old judge.new }
    ensures counted { OnOk result (steps.new ≡ steps.old + process_size process.now.process) }
    ensures fewer { OnErr result
        ((steps.old ≤ steps.new) × (steps.new ≤ steps.old + process_size process.now.process)) }
{
    judge.stands_for_one();
    let _ = process.len();
    let noted = own_notes(alloc, judge, process, steps)?;
    let store = judge.store();
    let (pile, stuck) = account(alloc, process, &noted, store, node)?;
    let effect = read_back(alloc, store, &noted.keys, pile)?;
    Ok((effect, stuck))
}

/// The least effect of the process in the judge's environment, or its first node in preorder that blocks there, where no
/// effect is derivable. The process is over as many names as the judge has. Afterwards the judge's environment is as
/// before, and each number means what it meant. A step is a visit of a node, and each node is visited once; where memory
/// runs out, there were at most so many.
pub fn infer_in<L: Ledger>(
    alloc: Global,
    judge: &mut Judge,
    process: &Process,
    steps: &mut Steps<L>,
) -> Result<Inferred, NoMemory>
    requires { length judge.old.types ≡ process.now.names }
    ensures answer { IfOk result
        (λ r. (env : Env) → Stands judge.old env → AnswersIn env process.now.process r) }
    ensures kept { IsKept judge.old judge.new }
    ensures counted { OnOk result (steps.new ≡ steps.old + process_size process.now.process) }
    ensures fewer { OnErr result
        ((steps.old ≤ steps.new) × (steps.new ≤ steps.old + process_size process.now.process)) }
{
    let (effect, stuck) = least_from(alloc, judge, process, 0, steps)?;
    match effect {
        Some(effect) => Ok(Inferred::Least(effect)),
        None => match stuck {
            Some(id) => Ok(Inferred::Blocked(id)),
            None => unreachable!(),
        },
    }
}

/// What `infer` answers, with its steps counted in a book of its own on the ledger that the blank is of. The blank has at
/// least one part.
pub fn infer_over<L: Ledger>(
    alloc: Global,
    process: &Process,
    blank: Blank,
) -> Result<Inferred, NoMemory>
    requires name { blank.name ≡ L.name }
    requires parts { blank.parts ≡ L.parts }
    requires some { 0 < blank.parts }
    ensures { IfOk result (AnswersOver process.now.names process.now.process) }
{
    let _ = process.len();
    let mut steps = Steps::<L>::new(blank);
    let mut judge = Judge::new(alloc, process.names())?;
    infer_in(alloc, &mut judge, process, &mut steps)
}

// The least effect at a node where the free names are untrusted, with a counter of its own.
fn effect_over<L: Ledger>(
    alloc: Global,
    process: &Process,
    node: u32,
    blank: Blank,
) -> Result<Option<Effect>, NoMemory>
    requires node { node < process_size process.now.process }
    requires name { blank.name ≡ L.name }
    requires parts { blank.parts ≡ L.parts }
    requires some { 0 < blank.parts }
    ensures { IfOk result (IsLeastAt process.now.names process.now.process node) }
{
    let _ = process.len();
    let mut steps = Steps::<L>::new(blank);
    let mut judge = Judge::new(alloc, process.names())?;
    let (effect, _) = least_from(alloc, &mut judge, process, node, &mut steps)?;
    Ok(effect)
}

/// The least effect of the process over its untrusted names, or its first node in preorder that blocks, where no effect
/// is derivable.
pub fn infer(alloc: Global, process: &Process) -> Result<Inferred, NoMemory>
    ensures { IfOk result (AnswersOver process.now.names process.now.process) }
{
    infer_over::<Brand>(alloc, process, Blank::new(1))
}

/// The least effect of the node's process in its reached environment, where the free names are untrusted. `None` where no
/// effect is derivable for it there.
pub fn effect_at(alloc: Global, process: &Process, node: u32) -> Result<Option<Effect>, NoMemory>
    requires { node < process_size process.now.process }
    ensures { IfOk result (IsLeastAt process.now.names process.now.process node) }
{
    effect_over::<Brand>(alloc, process, node, Blank::new(1))
}
