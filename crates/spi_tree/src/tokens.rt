ghost use Rattle.std.specs.Prelude.{◌≡◌, ◌++◌, map, IfOk, OnOk, []};
ghost use Rattle.spi_tree.specs.Views.{ty_of, proc_of, decl_of, step_of, tree_effect, deriv_of, opponent_of, schedule_of, derivation_of, file_of};
ghost use Rattle.spi_tree.specs.Pieces.{tokens_of};
ghost use Rattle.spi_tree.specs.Listed.{joined, more_word_list, decl_list, step_list, written_list, deriv_list, version_list, opponent_list, schedule_list, derivation_list};

use crate::list::{put_literal, put_mark, put_number, put_reserved, put_word};
use crate::listed_processes::put_process;
use crate::listed_types::{put_effect, put_type};
use crate::{Decl, NoMemory, SDeriv, SEffect, SProc, SStep, STy, SWord, Tree};
use spi_lex::{Kind, Mark, Reserved};
use std::alloc::Global;

fn put_words(alloc: Global, out: &mut Vec<Kind>, words: &[SWord]) -> Result<(), NoMemory>
    ensures { OnOk result (out.new.items ≡ out.old.items ++ joined more_word_list words.now) }
{
    for word in words {
        put_mark(out, Mark::Comma)?;
        put_word(alloc, out, word)?;
    }
    Ok(())
}

fn put_declaration(alloc: Global, out: &mut Vec<Kind>, declaration: &Decl) -> Result<(), NoMemory>
    ensures { OnOk result (out.new.items ≡ out.old.items ++ decl_list (decl_of declaration.now)) }
{
    match declaration {
        Decl::Free { first, more, .. } => {
            put_reserved(out, Reserved::Free)?;
            put_word(alloc, out, first)?;
            put_words(alloc, out, more)?;
            put_mark(out, Mark::Semicolon)
        }
        Decl::Abbr { name, ty, .. } => {
            put_reserved(out, Reserved::TypeWord)?;
            put_word(alloc, out, name)?;
            put_mark(out, Mark::Equals)?;
            put_type(alloc, out, ty)?;
            put_mark(out, Mark::Semicolon)
        }
    }
}

fn put_declarations(alloc: Global, out: &mut Vec<Kind>, decls: &[Decl]) -> Result<(), NoMemory>
    ensures { OnOk result (out.new.items ≡ out.old.items ++ joined decl_list (map decl_of decls.now)) }
{
    for declaration in decls {
        put_declaration(alloc, out, declaration)?;
    }
    Ok(())
}

fn put_step(alloc: Global, out: &mut Vec<Kind>, step: &SStep) -> Result<(), NoMemory>
    ensures { OnOk result (out.new.items ≡ out.old.items ++ step_list (step_of step.now)) }
{
    match step {
        SStep::Act { place, .. } => {
            put_literal(alloc, out, "act")?;
            put_number(out, *place)?;
            put_mark(out, Mark::Semicolon)
        }
        SStep::Talk { from, to, .. } => {
            put_literal(alloc, out, "talk")?;
            put_number(out, *from)?;
            put_number(out, *to)?;
            put_mark(out, Mark::Semicolon)
        }
    }
}

fn put_steps(alloc: Global, out: &mut Vec<Kind>, steps: &[SStep]) -> Result<(), NoMemory>
    ensures { OnOk result (out.new.items ≡ out.old.items ++ joined step_list (map step_of steps.now)) }
{
    for step in steps {
        put_step(alloc, out, step)?;
    }
    Ok(())
}

fn put_written(
    alloc: Global,
    out: &mut Vec<Kind>,
    effect: &Option<&SEffect>,
) -> Result<(), NoMemory>
    ensures { OnOk result (out.new.items ≡ out.old.items ++ written_list (tree_effect effect.now)) }
{
    match effect {
        None => Ok(()),
        Some(effect) => put_effect(alloc, out, effect.atoms),
    }
}

#[cycle(derivations)]
fn put_derivation(alloc: Global, out: &mut Vec<Kind>, derivation: &SDeriv) -> Result<(), NoMemory>
    ensures { OnOk result (out.new.items ≡ out.old.items ++ deriv_list (deriv_of derivation.now)) }
{
    put_word(alloc, out, &derivation.rule)?;
    put_written(alloc, out, &derivation.effect)?;
    put_premises(alloc, out, &derivation.premises)?;
    Ok(())
}

#[cycle(derivations)]
fn put_premises(alloc: Global, out: &mut Vec<Kind>, premises: &[SDeriv]) -> Result<(), NoMemory>
    ensures { OnOk result (out.new.items ≡ out.old.items ++ joined deriv_list (map deriv_of premises.now)) }
{
    for premise in premises {
        put_derivation(alloc, out, premise)?;
    }
    Ok(())
}

fn put_version(alloc: Global, out: &mut Vec<Kind>, version: u32) -> Result<(), NoMemory>
    ensures { OnOk result (out.new.items ≡ out.old.items ++ version_list version) }
{
    if version == 2 {
        put_literal(alloc, out, "version")?;
        put_number(out, 2)?;
        put_mark(out, Mark::Semicolon)?;
    }
    Ok(())
}

fn put_opponent(
    alloc: Global,
    out: &mut Vec<Kind>,
    opponent: &Option<SProc>,
) -> Result<(), NoMemory>
    ensures { OnOk result (out.new.items ≡ out.old.items ++ opponent_list (opponent_of opponent.now)) }
{
    match opponent {
        None => Ok(()),
        Some(process) => {
            put_reserved(out, Reserved::Opponent)?;
            put_process(alloc, out, process)
        }
    }
}

fn put_schedule(
    alloc: Global,
    out: &mut Vec<Kind>,
    schedule: &Option<Vec<SStep>>,
) -> Result<(), NoMemory>
    ensures { OnOk result (out.new.items ≡ out.old.items ++ schedule_list (schedule_of schedule.now)) }
{
    match schedule {
        None => Ok(()),
        Some(steps) => {
            put_reserved(out, Reserved::Schedule)?;
            put_steps(alloc, out, steps)
        }
    }
}

fn put_proof(
    alloc: Global,
    out: &mut Vec<Kind>,
    derivation: &Option<SDeriv>,
) -> Result<(), NoMemory>
    ensures { OnOk result (out.new.items ≡ out.old.items ++ derivation_list (derivation_of derivation.now)) }
{
    match derivation {
        None => Ok(()),
        Some(root) => {
            put_reserved(out, Reserved::Derivation)?;
            put_derivation(alloc, out, root)
        }
    }
}

/// The tokens that spell the tree.
pub fn tokens_of(alloc: Global, tree: &Tree) -> Result<Vec<Kind>, NoMemory>
    ensures { IfOk result (λ kinds. kinds.items ≡ tokens_of (file_of tree.now)) }
{
    let mut out = Vec::new(alloc);
    put_version(alloc, &mut out, tree.version)?;
    put_declarations(alloc, &mut out, &tree.decls)?;
    put_reserved(&mut out, Reserved::Process)?;
    put_process(alloc, &mut out, &tree.process)?;
    put_opponent(alloc, &mut out, &tree.opponent)?;
    put_schedule(alloc, &mut out, &tree.schedule)?;
    put_proof(alloc, &mut out, &tree.derivation)?;
    Ok(out)
}
