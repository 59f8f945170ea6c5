// The canonical derivation of a process.

ghost use Rattle.std.specs.Prelude.{◌≡◌, ◌↔◌, IsTrue, List, [], ◌∷◌, map, replicate, IfOk, OnOk, IfSome, IsSome};
ghost use Rattle.spi_term.specs.Term as Term;
ghost use Rattle.spi_term.specs.Term.{un};
ghost use Rattle.spi_term.specs.View.{effect, shape_of, ty as type_of};
ghost use Rattle.spi_term.specs.Spelling.{numbered};
ghost use Rattle.spi_rules.specs.Environment.{untrusted};
ghost use Rattle.spi_rules.specs.Derivations.{Derivable};
ghost use Rattle.spi_rules.specs.Deriv.{rule_use, rule_uses};
ghost use Rattle.spi_rules.specs.Least.{Least};
ghost use Rattle.spi_deriv.specs.Agenda.{types_of, top_types, IsPassed};
ghost use Rattle.spi_deriv.specs.Canonical.{Canonical};
ghost use Rattle.spi_deriv.specs.Text.{derivation_text};
ghost use Rattle.spi_deriv.specs.Uses.{process_uses};

use crate::NoMemory;
use crate::agenda::{Binding, put_off, settle};
use crate::choosing::push_uses;
use spi_infer::{Inferred, infer};
use spi_rules::{Deriv, RuleUse};
use spi_show::show_derivation;
use spi_term::{Effect, Node, Process, Ty};
use std::alloc::Global;

// So many times the same type.
fn repeated<'a>(alloc: Global, t: &'a Ty, count: u32) -> Result<Vec<&'a Ty>, NoMemory>
    ensures { IfOk result (λ v. types_of v.items ≡ replicate count (type_of t.now)) }
{
    let mut types = Vec::new(alloc);
    for name in 0..count {
        let _ = name;
        types.push(t)?;
    }
    Ok(types)
}

// A node is passed: its uses are pushed, and the processes in it are to be done.
fn visit<'a>(
    node: &'a Node,
    types: &mut Vec<&'a Ty>,
    pending: &mut Vec<Binding<'a>>,
    out: &mut Vec<RuleUse>,
) -> Result<(), NoMemory>
    ensures { OnOk result
        ((b : List Term.Ty) (rest : List (List Term.Ty)) → top_types pending.old.items ≡ b ∷ rest
        → IsPassed node.now.scope (shape_of node.now) b rest (types_of types.old.items)
        (types_of types.new.items) (top_types pending.new.items) (map rule_use out.old.items)
        (map rule_use out.new.items)) }
{
    settle(node.scope, pending, types)?;
    push_uses(node, types, out)?;
    put_off(node, pending)
}

// The uses of a process that has some effect over its untrusted names.
fn all_uses<'a>(alloc: Global, process: &'a Process, t: &'a Ty) -> Result<Vec<RuleUse>, NoMemory>
    requires { type_of t.now ≡ un }
    ensures { IfOk result
        (λ v. map rule_use v.items
        ≡ process_uses (numbered [] process.now.names process.now.process) (untrusted process.now.names)) }
{
    let mut types = repeated(alloc, t, process.names())?;
    let mut pending = Vec::new(alloc);
    pending.push(Binding::None)?;
    let mut out = Vec::new(alloc);
    for id in 0..process.len() {
        visit(process.node(id), &mut types, &mut pending, &mut out)?;
    }
    Ok(out)
}

// The same, with a type Un of its own.
fn uses_over(alloc: Global, process: &Process) -> Result<Vec<RuleUse>, NoMemory>
    ensures { IfOk result
        (λ v. map rule_use v.items
        ≡ process_uses (numbered [] process.now.names process.now.process) (untrusted process.now.names)) }
{
    let un = Ty::Un;
    all_uses(alloc, process, &un)
}

fn has_no_atom(e: &Effect) -> bool
    ensures { IsTrue result ↔ (effect e.now ≡ []) }
{
    match e.atoms.as_slice() {
        [] => true,
        [_, ..] => false,
    }
}

// By the least effect over the untrusted names.
fn derive_by(alloc: Global, process: &Process, least: &Effect) -> Result<Option<Deriv>, NoMemory>
    requires { Least (untrusted process.now.names) process.now.process (effect least.now) }
    ensures some { IfOk result
        (λ d. IsSome d ↔ Derivable (untrusted process.now.names) process.now.process []) }
    ensures canonical { IfOk result
        (λ d. IfSome d (λ d. Canonical (rule_uses d) process.now.names process.now.process)) }
{
    if has_no_atom(least) {
        let uses = uses_over(alloc, process)?;
        Ok(Some(Deriv { uses }))
    } else {
        Ok(None)
    }
}

/// The canonical derivation that the process, whose free names are untrusted, has the empty effect, and none exactly
/// where there is no derivation of that. It has no use of `ProcSub`. Inference comes first, and then one visit of each
/// node. Its only error is NoMemory.
pub fn derive(alloc: Global, process: &Process) -> Result<Option<Deriv>, NoMemory>
    ensures some { IfOk result
        (λ d. IsSome d ↔ Derivable (untrusted process.now.names) process.now.process []) }
    ensures canonical { IfOk result
        (λ d. IfSome d (λ d. Canonical (rule_uses d) process.now.names process.now.process)) }
{
    match infer(alloc, process)? {
        Inferred::Blocked(_) => Ok(None),
        Inferred::Least(least) => derive_by(alloc, process, &least),
    }
}

/// The text of a derivation: the line `derivation`, and a line for each rule use, in preorder. A use of `ProcSub` has its
/// effect behind a space, as `ProcSub [end #0, check (#1, #2)]`, with `#` and its number for each name. Its only error is
/// NoMemory.
pub fn write(alloc: Global, d: &Deriv) -> Result<Vec<u8>, NoMemory>
    ensures { IfOk result (λ text. text.items ≡ derivation_text (rule_uses d.now)) }
{
    show_derivation(alloc, d)
}
