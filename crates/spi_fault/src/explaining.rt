// The fault of a file's process.
ghost use Rattle.std.specs.Prelude.{◌≡◌, ◌≤◌, ◌↔◌, [], map, length, reverse, IfOk, IsNone};
ghost use Rattle.spi_term.specs.Lists.{In};
ghost use Rattle.spi_term.specs.Term as Term;
ghost use Rattle.spi_term.specs.View.{effect as effect_of};
ghost use Rattle.spi_rules.specs.Environment.{untrusted};
ghost use Rattle.spi_rules.specs.Derivations.{Derivable};
ghost use Rattle.spi_rules.specs.Least.{Least};
ghost use Rattle.spi_rules.specs.Blocking.{NodeOf, BlocksAt};
ghost use Rattle.spi_scope.specs.Chains.{chain_at};
ghost use Rattle.spi_infer.specs.Inferring.{AnswersOver};
ghost use Rattle.spi_fault.specs.Checks as Checks;
ghost use Rattle.spi_fault.specs.Checks.{checks as checks_in};
ghost use Rattle.spi_fault.specs.Faults.{FirstBlocks, IsFault, TellsUnpaid, Explains, told};
ghost use Rattle.spi_fault.specs.Trying.{check as check_of, CanBeCounted, IsBlamed};

use crate::check::{Check, checks_of};
use crate::deciding::{failing, shown_atom};
use crate::least::Kind;
use crate::{Fault, NoMemory, Reason};
use spi_infer::{Inferred, reached};
use spi_rules::Env;
use spi_scope::File;
use spi_term::Effect;
use std::alloc::Global;

/// The fault of an effect that the file's process has and that nothing pays for: `Unpaid` at the root, with the atom whose
/// report form is least by its bytes. `None` exactly where the effect has no atom.
pub fn unpaid(alloc: Global, file: &File, effect: &Effect) -> Result<Option<Fault>, NoMemory>
    ensures { IfOk result
        (TellsUnpaid (λ i. reverse (chain_at file.now.marks.scopes i)) (effect_of effect.now)) }
{
    match shown_atom(alloc, file, 0, Kind::Any, effect)? {
        Some(found) => Ok(Some(Fault {
            reason: Reason::Unpaid,
            node: 0,
            scope_of: 0,
            shown: found.shown,
        })),
        None => Ok(None),
    }
}

// The fault of a process with this least effect, where the effect isn't empty.
fn left_over(alloc: Global, file: &File, effect: &Effect) -> Result<Option<Fault>, NoMemory>
    requires { Least (untrusted file.now.process.names) file.now.process.process (effect_of effect.now) }
    ensures { IfOk result
        (Explains (λ i. reverse (chain_at file.now.marks.scopes i)) file.now.process.names
        file.now.process.process) }
{
    unpaid(alloc, file, effect)
}

// The first of a node's checks that fails.
fn first_failing(
    alloc: Global,
    file: &File,
    node: u32,
    env: &Env,
    checks: &[Check],
) -> Result<Option<Fault>, NoMemory>
    requires few { length env.now ≤ 300000 }
    requires fits { (c : Checks.Check) → In c (map check_of checks.now) → CanBeCounted (length env.now) c }
    requires node { (q : Term.Process)
        × NodeOf (untrusted file.now.process.names) file.now.process.process node env.now q
        × BlocksAt env.now q × (map check_of checks.now ≡ checks_in q) }
    ensures { IfOk result
        (λ r. (q : Term.Process)
        → NodeOf (untrusted file.now.process.names) file.now.process.process node env.now q
        → IsBlamed (λ i. reverse (chain_at file.now.marks.scopes i)) node env.now q r) }
{
    let mut i = 0;
    while i < checks.len() {
        let check = &checks[i];
        if let Some(found) = failing(alloc, file, node, env, check)? {
            return Ok(Some(Fault {
                reason: check.reason(),
                node,
                scope_of: found.scope_of,
                shown: found.shown,
            }));
        }
        i += 1;
    }
    Ok(None)
}

// The fault of the first node that blocks.
fn blocked(alloc: Global, file: &File, node: u32) -> Result<Fault, NoMemory>
    requires { FirstBlocks (untrusted file.now.process.names) file.now.process.process node }
    ensures { IfOk result
        (λ f. IsFault (λ i. reverse (chain_at file.now.marks.scopes i)) file.now.process.names
        file.now.process.process (told f)) }
{
    let _ = file.process.len();
    let env = reached(alloc, &file.process, node)?;
    let checks = checks_of(alloc, node, file.process.node(node))?;
    match first_failing(alloc, file, node, &env, &checks)? {
        Some(fault) => Ok(fault),
        None => unreachable!(),
    }
}

/// Why a file's process isn't derivable with the empty effect, and `None` exactly where it is. `inferred` is the answer of
/// `infer` for this process. Where nothing is derivable for it, the checks of the form of the first blocking node are tried
/// in their order, and the first that fails is the reason; else the reason is `Unpaid` at the root. Of several atoms the
/// one is shown whose report form is least by its bytes, with names as the file spells them.
pub fn explain(alloc: Global, file: &File, inferred: &Inferred) -> Result<Option<Fault>, NoMemory>
    requires { AnswersOver file.now.process.names file.now.process.process inferred.now }
    ensures explained { IfOk result
        (Explains (λ i. reverse (chain_at file.now.marks.scopes i)) file.now.process.names
        file.now.process.process) }
    ensures exact { IfOk result
        (λ r. IsNone r ↔ Derivable (untrusted file.now.process.names) file.now.process.process []) }
{
    match inferred {
        Inferred::Least(effect) => left_over(alloc, file, effect),
        Inferred::Blocked(node) => Ok(Some(blocked(alloc, file, *node)?)),
    }
}
