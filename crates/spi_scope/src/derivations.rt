//! Derivations.

ghost use Rattle.std.specs.Prelude.{◌≡◌, ◌+◌, ◌≤◌, ◌++◌, map, IfOk, OnOk, Some};
ghost use Rattle.spi_tree.specs.Trees.{msgs_of_list, derivs_of_list};
ghost use Rattle.spi_tree.specs.Views.{msg_of, atom_of, tree_effect, deriv_of};
ghost use Rattle.spi_term.specs.Term.{message_size};
ghost use Rattle.spi_term.specs.Spelling.{stopped};
ghost use Rattle.spi_term.specs.View.{message, atom};
ghost use Rattle.spi_rules.specs.Deriv.{effect_written, rule_use};
ghost use Rattle.spi_scope.specs.Parts.{numbered_message, numbered_messages, numbered_atom, numbered_effect, rule_named, uses_in, all_uses_in, use_places, all_use_places};
ghost use Rattle.spi_scope.specs.Points.{msg_span, numbered_points, numbered_atom_points, numbered_atoms_points, written_points, deriv_points, derivs_points};
ghost use Rattle.spi_scope.specs.Gives.{GivesMeant, run};
ghost use Rattle.spi_scope.specs.Leads.{LeadsTo};
ghost use Rattle.spi_scope.specs.State.{row_nodes};

use crate::fault::ScopeFault;
use crate::messages::nest;
use crate::small::{keep, room_for};
use crate::types::message_place;
use crate::{NoMemory, small};
use spi_rules::{Rule, RuleUse};
use spi_term::{Atom, Effect, Msg};
use spi_text::Span;
use spi_tree::{SAtom, SDeriv, SEffect, SMsg};
use std::alloc::Global;

/// A message with numbers for names, with its nodes counted on. Where there are more than 1,000 nodes the message
/// means nothing.
#[cycle(numbered)]
fn read_numbered(alloc: Global, spent: u64, m: &SMsg) -> Result<(Msg, u64), NoMemory>
    ensures counted { IfOk result
        (λ x. x.1 ≡ stopped (spent + message_size (numbered_message (msg_of m.now)))) }
    ensures read { IfOk result (λ x. x.1 ≤ 1000 → message x.0 ≡ numbered_message (msg_of m.now)) }
{
    match m {
        SMsg::Name { .. } => Ok((Msg::Unit, spent.saturating_add(1))),
        SMsg::Placed { .. } => Ok((Msg::Unit, spent.saturating_add(1))),
        SMsg::Unit { .. } => Ok((Msg::Unit, spent.saturating_add(1))),
        SMsg::Tuple { parts, .. } => {
            let (first, total) = read_numbered(alloc, spent, &parts.first)?;
            let (second, total) = read_numbered(alloc, total.saturating_add(1), &parts.second)?;
            let (more, total) = read_all_numbered(alloc, total, parts.more)?;
            let whole = nest(alloc, total, first, second, more)?;
            Ok((whole, total))
        }
        SMsg::Inl { part, .. } => {
            let (part, total) = read_numbered(alloc, spent.saturating_add(1), part)?;
            let whole = small::left(alloc, total, part)?;
            Ok((whole, total))
        }
        SMsg::Inr { part, .. } => {
            let (part, total) = read_numbered(alloc, spent.saturating_add(1), part)?;
            let whole = small::right(alloc, total, part)?;
            Ok((whole, total))
        }
        SMsg::Enc { parts, .. } => {
            let (body, total) = read_numbered(alloc, spent.saturating_add(1), &parts.body)?;
            let (key, total) = read_numbered(alloc, total, &parts.key)?;
            let whole = small::sealed(alloc, total, body, key)?;
            Ok((whole, total))
        }
        SMsg::Hash { part, .. } => {
            let (part, total) = read_numbered(alloc, spent.saturating_add(1), part)?;
            let whole = small::hashed(alloc, total, part)?;
            Ok((whole, total))
        }
        SMsg::Num { number, .. } => Ok((Msg::Name(*number), spent.saturating_add(1))),
    }
}

/// The components of a tuple but the first two, with their nodes and those of the pairs counted on. Where there are
/// more than 1,000 nodes only the first components are kept.
#[cycle(numbered)]
fn read_all_numbered(alloc: Global, spent: u64, ms: &[SMsg]) -> Result<(Vec<Msg>, u64), NoMemory>
    ensures counted { IfOk result
        (λ x. x.1 ≡ stopped (spent + row_nodes (numbered_messages (msgs_of_list (map msg_of ms.now))))) }
    ensures read { IfOk result
        (λ x. x.1 ≤ 1000 → map message x.0.items ≡ numbered_messages (msgs_of_list (map msg_of ms.now))) }
{
    let mut read = room_for(alloc, ms.len())?;
    let mut total = spent;
    for m in ms {
        let (part, so_far) = read_numbered(alloc, total.saturating_add(1), m)?;
        total = so_far;
        keep(total, &mut read, part)?;
    }
    Ok((read, total))
}

/// The message of an atom: of 200 nodes at most.
fn read_small(alloc: Global, count: u64, m: &SMsg) -> Result<Msg, ScopeFault>
    ensures { GivesMeant message result (run (numbered_points (msg_of m.now)) count) count
        (numbered_message (msg_of m.now)) }
{
    let span = message_place(m);
    let (read, nodes) = read_numbered(alloc, 0, m)?;
    if nodes > 200 {
        return Err(ScopeFault::MessageTooLarge { span, count: nodes });
    }
    Ok(read)
}

fn read_atom(alloc: Global, count: u64, a: &SAtom) -> Result<Atom, ScopeFault>
    ensures { GivesMeant atom result (run (numbered_atom_points (atom_of a.now)) count) count
        (numbered_atom (atom_of a.now)) }
{
    match a {
        SAtom::End { label, .. } => Ok(Atom::End(read_small(alloc, count, label)?)),
        SAtom::Check { nonce, .. } => Ok(Atom::Check(read_small(alloc, count, nonce)?)),
        SAtom::Many { label, .. } => Ok(Atom::Many(read_small(alloc, count, label)?)),
    }
}

fn read_atoms(alloc: Global, count: u64, es: &[SAtom]) -> Result<Vec<Atom>, ScopeFault>
    ensures { GivesMeant (λ v. map atom v.items) result
        (run (numbered_atoms_points (map atom_of es.now)) count)
        count (map numbered_atom (map atom_of es.now)) }
{
    let mut read = room_for(alloc, es.len())?;
    for a in es {
        let atom = read_atom(alloc, count, a)?;
        read.push(atom)?;
    }
    Ok(read)
}

/// The effect that a rule writes.
fn read_written(
    alloc: Global,
    count: u64,
    effect: &Option<&SEffect>,
) -> Result<Option<Effect>, ScopeFault>
    ensures { GivesMeant effect_written result (run (written_points (tree_effect effect.now)) count) count
        (numbered_effect (tree_effect effect.now)) }
{
    match effect {
        None => Ok(None),
        Some(effect) => read_effect(alloc, count, effect.atoms),
    }
}

/// An effect that is written.
#[inline(never)]
fn read_effect(alloc: Global, count: u64, es: &[SAtom]) -> Result<Option<Effect>, ScopeFault>
    ensures { GivesMeant effect_written result
        (run (written_points (Some (map atom_of es.now))) count) count
        (numbered_effect (Some (map atom_of es.now))) }
{
    let atoms = read_atoms(alloc, count, es)?;
    Ok(Some(Effect { atoms }))
}

/// The rule with this name. Each word of a rule names one in a formed tree.
fn rule_of(word: &str) -> Rule
    ensures { result ≡ rule_named word.now }
{
    match Rule::of_word(word) {
        Some(rule) => rule,
        None => Rule::MsgUnit,
    }
}

/// The uses of a derivation in preorder, and where they stand.
#[derive(Drop)]
pub struct Uses {
    pub uses: Vec<RuleUse>,
    pub places: Vec<Span>,
}

/// The uses of a derivation, behind those that are there.
#[cycle(uses)]
pub fn read_derivation(
    alloc: Global,
    count: u64,
    uses: &mut Uses,
    d: &SDeriv,
) -> Result<(), ScopeFault>
    ensures gives { LeadsTo result (run (deriv_points (deriv_of d.now)) count) count }
    ensures uses { OnOk result
        (map rule_use uses.new.uses.items ≡ map rule_use uses.old.uses.items ++ uses_in (deriv_of d.now)) }
    ensures places { OnOk result
        (uses.new.places.items ≡ uses.old.places.items ++ use_places (deriv_of d.now)) }
{
    let rule = rule_of(d.rule.word.as_str());
    let taken = read_written(alloc, count, &d.effect)?;
    uses.uses.push(RuleUse { rule, taken })?;
    uses.places.push(d.span)?;
    read_premises(alloc, count, uses, &d.premises)?;
    Ok(())
}

#[cycle(uses)]
fn read_premises(
    alloc: Global,
    count: u64,
    uses: &mut Uses,
    ds: &[SDeriv],
) -> Result<(), ScopeFault>
    ensures gives { LeadsTo result (run (derivs_points (derivs_of_list (map deriv_of ds.now))) count) count }
    ensures uses { OnOk result
        (map rule_use uses.new.uses.items ≡ map rule_use uses.old.uses.items
        ++ all_uses_in (derivs_of_list (map deriv_of ds.now))) }
    ensures places { OnOk result
        (uses.new.places.items ≡ uses.old.places.items
        ++ all_use_places (derivs_of_list (map deriv_of ds.now))) }
{
    for d in ds {
        read_derivation(alloc, count, uses, d)?;
    }
    Ok(())
}
