//! Types.

ghost use Rattle.std.specs.Prelude.{◌≡◌, ◌+◌, ◌≤◌, ◌∷◌, map, IfOk, OnOk};
ghost use Rattle.spi_tree.specs.Trees.{key, fields_of_list, nowhere};
ghost use Rattle.spi_tree.specs.Views.{msg_of, atom_of, ty_of, field_of, last_of};
ghost use Rattle.spi_term.specs.Term.{message_size, nonce};
ghost use Rattle.spi_term.specs.Spelling.{atom_nodes, effect_nodes, ty_nodes};
ghost use Rattle.spi_term.specs.View.{message, atom, ty};
ghost use Rattle.spi_scope.specs.Scope.{type_of};
ghost use Rattle.spi_scope.specs.Meaning.{message_in, atom_in, effect_in, type_in, fields_in, last_in, behind, nested_types, known};
ghost use Rattle.spi_scope.specs.Points.{msg_span, msg_nodes, one, uses_type, message_points_whole, atom_points, atoms_points, type_points, fields_points, last_points};
ghost use Rattle.spi_scope.specs.Gives.{GivesMeant, CountsOn, run};
ghost use Rattle.spi_scope.specs.State.{abbreviations, type_row_nodes};
ghost use Rattle.spi_scope.specs.Table.{with_names};
ghost use Rattle.spi_scope.specs.Forms.{type_form, tuple_ty_form, sum_form};

use crate::fault::ScopeFault;
use crate::messages::read_message;
use crate::scope::Scope;
use crate::small;
use crate::small::{keep, room_for};
use spi_term::{Atom, Msg, Ty};
use spi_text::{Span, Text};
use spi_tree::{Last, SAtom, SField, SMsg, STy, place_to};
use std::alloc::{AllocError, Global};

/// Where a message stands.
pub fn message_place(m: &SMsg) -> Span
    ensures { result ≡ msg_span (msg_of m.now) }
{
    match m {
        SMsg::Name { to, word } => place_to(*to, word),
        SMsg::Placed { name } => name.span,
        SMsg::Unit { span } => *span,
        SMsg::Tuple { span, .. } => *span,
        SMsg::Inl { span, .. } => *span,
        SMsg::Inr { span, .. } => *span,
        SMsg::Enc { span, .. } => *span,
        SMsg::Hash { span, .. } => *span,
        SMsg::Num { span, .. } => *span,
    }
}

/// An outermost message, or that of an atom, with its nodes: 200 at most.
#[inline(always)]
pub fn read_whole(
    alloc: Global,
    scope: &Scope,
    base: u32,
    m: &SMsg,
    span: Span,
) -> Result<(Msg, u64), ScopeFault>
    requires { span ≡ msg_span (msg_of m.now) }
    ensures gives { GivesMeant (λ x. message x.0) result
        (run (message_points_whole scope.now.held.names (msg_of m.now)) scope.now.count) scope.now.count
        (message_in base scope.now.held.names (msg_of m.now)) }
    ensures nodes { IfOk result
        (λ x. (x.1 ≡ msg_nodes scope.now.held.names (msg_of m.now))
        × (x.1 ≡ message_size (message_in base scope.now.held.names (msg_of m.now))) × (x.1 ≤ 200)) }
{
    let (read, count) = read_message(alloc, scope, base, 0, m)?;
    if count > 200 {
        return Err(ScopeFault::MessageTooLarge { span, count });
    }
    Ok((read, count))
}

/// An atom, with the nodes of its message.
fn read_atom(alloc: Global, scope: &Scope, base: u32, a: &SAtom) -> Result<(Atom, u64), ScopeFault>
    ensures gives { GivesMeant (λ x. atom x.0) result
        (run (atom_points scope.now.held.names (atom_of a.now)) scope.now.count) scope.now.count
        (atom_in base scope.now.held.names (atom_of a.now)) }
    ensures nodes { IfOk result
        (λ x. (x.1 + 1 ≡ atom_nodes (atom_in base scope.now.held.names (atom_of a.now))) × (x.1 ≤ 200)) }
{
    match a {
        SAtom::End { label, .. } => {
            let (m, count) = read_whole(alloc, scope, base, label, message_place(label))?;
            Ok((Atom::End(m), count))
        }
        SAtom::Check { nonce, .. } => {
            let (m, count) = read_whole(alloc, scope, base, nonce, message_place(nonce))?;
            Ok((Atom::Check(m), count))
        }
        SAtom::Many { label, .. } => {
            let (m, count) = read_whole(alloc, scope, base, label, message_place(label))?;
            Ok((Atom::Many(m), count))
        }
    }
}

/// The atoms of an effect, with their nodes counted on. Where there are more than 1,000 nodes only the first atoms are
/// kept.
fn read_atoms(
    alloc: Global,
    scope: &Scope,
    base: u32,
    spent: u64,
    es: &[SAtom],
) -> Result<(Vec<Atom>, u64), ScopeFault>
    ensures { CountsOn (λ v. map atom v.items) effect_nodes result
        (run (atoms_points scope.now.held.names (map atom_of es.now)) scope.now.count) scope.now.count spent
        (effect_in base scope.now.held.names (map atom_of es.now)) }
{
    let mut read = room_for(alloc, es.len())?;
    let mut total = spent;
    for a in es {
        let (atom, count) = read_atom(alloc, scope, base, a)?;
        total = total.saturating_add(count + 1);
        keep(total, &mut read, atom)?;
    }
    Ok((read, total))
}

/// The type of nonces with this effect.
fn read_nonce(
    alloc: Global,
    scope: &Scope,
    base: u32,
    spent: u64,
    es: &[SAtom],
) -> Result<(Ty, u64), ScopeFault>
    ensures { CountsOn ty ty_nodes result
        (run (atoms_points scope.now.held.names (map atom_of es.now)) scope.now.count) scope.now.count spent
        (nonce (effect_in base scope.now.held.names (map atom_of es.now))) }
{
    let (atoms, total) = read_atoms(alloc, scope, base, spent.saturating_add(1), es)?;
    Ok((small::nonce(alloc, total, atoms)?, total))
}

/// The type of an abbreviation, which is copied only where it fits.
fn read_abbreviation(
    alloc: Global,
    scope: &Scope,
    spent: u64,
    span: Span,
    word: &Text,
) -> Result<(Ty, u64), ScopeFault>
    ensures { CountsOn ty ty_nodes result
        (run (one (uses_type (abbreviations scope.now.types) (record { word = word.now; span = span })))
        scope.now.count) scope.now.count spent
        (known (type_of (abbreviations scope.now.types) word.now)) }
{
    let text = word.as_str();
    match scope.types.get(&text) {
        None => Err(ScopeFault::UnknownType {
            span,
            word: Text::of(alloc, text)?,
        }),
        Some(abbr) => {
            let total = spent.saturating_add(abbr.nodes);
            if total <= 1000 {
                Ok((abbr.ty.copy(alloc)?, total))
            } else {
                Ok((Ty::Un, total))
            }
        }
    }
}

/// The components of a tuple type, nested to the right where there are few enough nodes.
fn nest_types(
    alloc: Global,
    total: u64,
    first: Ty,
    more: Vec<Ty>,
    last: Ty,
) -> Result<Ty, AllocError>
    ensures { IfOk result (λ t. total ≤ 1000 → ty t ≡ nested_types (ty first ∷ map ty more.items) (ty last)) }
{
    if total > 1000 {
        return Ok(Ty::Un);
    }
    let rest = nest_rest_types(alloc, more, last)?;
    Ty::paired(alloc, first, rest)
}

fn nest_rest_types(alloc: Global, mut more: Vec<Ty>, mut last: Ty) -> Result<Ty, AllocError>
    ensures { IfOk result (λ t. ty t ≡ nested_types (map ty more.items) (ty last)) }
{
    while let Some(part) = more.pop() {
        last = Ty::paired(alloc, part, last)?;
    }
    Ok(last)
}

/// The type that this one stands for, with its nodes counted on. Names below `base` are written by their numbers.
/// Where there are more than 1,000 nodes the type means nothing.
#[cycle(types)]
pub fn read_type<'t>(
    alloc: Global,
    scope: &mut Scope<'t>,
    base: u32,
    spent: u64,
    t: &'t STy,
) -> Result<(Ty, u64), ScopeFault>
    ensures gives { CountsOn ty ty_nodes result
        (run (type_points (abbreviations scope.old.types) scope.old.held.names (ty_of t.entry.now))
        scope.old.count) scope.old.count spent
        (type_in base (abbreviations scope.old.types) scope.old.held.names (ty_of t.entry.now)) }
    ensures scope { OnOk result (scope.new ≡ scope.old) }
{
    match t {
        STy::Un { .. } => Ok((Ty::Un, spent.saturating_add(1))),
        STy::Unit { .. } => Ok((Ty::Unit, spent.saturating_add(1))),
        STy::Tuple { .. } => read_tuple(alloc, scope, base, spent, t),
        STy::Sum { .. } => read_sum(alloc, scope, base, spent, t),
        STy::Key { part, .. } => read_key(alloc, scope, base, spent, part),
        STy::Nonce { effect, .. } => read_nonce(alloc, scope, base, spent, effect.atoms),
        STy::Abbr { to, word } => {
            read_abbreviation(alloc, scope, spent, place_to(*to, word), word)
        }
        STy::Placed { name } => read_abbreviation(alloc, scope, spent, name.span, &name.word),
    }
}

/// The type that a tuple type stands for, with its nodes counted on.
#[cycle(types)]
fn read_tuple<'t>(
    alloc: Global,
    scope: &mut Scope<'t>,
    base: u32,
    spent: u64,
    t: &'t STy,
) -> Result<(Ty, u64), ScopeFault>
    requires { type_form (ty_of t.now) ≡ tuple_ty_form }
    ensures gives { CountsOn ty ty_nodes result
        (run (type_points (abbreviations scope.old.types) scope.old.held.names (ty_of t.entry.now))
        scope.old.count) scope.old.count spent
        (type_in base (abbreviations scope.old.types) scope.old.held.names (ty_of t.entry.now)) }
    ensures scope { OnOk result (scope.new ≡ scope.old) }
{
    match t {
        STy::Tuple { parts, .. } => {
            let len = scope.held.len();
            let (head, total) = read_type(
                alloc,
                scope,
                base,
                spent.saturating_add(1),
                &parts.first,
            )?;
            scope.held.bind_in_type(&parts.name.word)?;
            let (fields, total) = read_fields(alloc, scope, base, total, parts.more)?;
            let (tail, total) = read_last(alloc, scope, base, total, &parts.last)?;
            scope.held.cut(len);
            let ty = nest_types(alloc, total, head, fields, tail)?;
            Ok((ty, total))
        }
        _ => unreachable!(),
    }
}

/// The type that a sum type stands for, with its nodes counted on.
#[cycle(types)]
fn read_sum<'t>(
    alloc: Global,
    scope: &mut Scope<'t>,
    base: u32,
    spent: u64,
    t: &'t STy,
) -> Result<(Ty, u64), ScopeFault>
    requires { type_form (ty_of t.now) ≡ sum_form }
    ensures gives { CountsOn ty ty_nodes result
        (run (type_points (abbreviations scope.old.types) scope.old.held.names (ty_of t.entry.now))
        scope.old.count) scope.old.count spent
        (type_in base (abbreviations scope.old.types) scope.old.held.names (ty_of t.entry.now)) }
    ensures scope { OnOk result (scope.new ≡ scope.old) }
{
    match t {
        STy::Sum { parts, .. } => {
            let left = &parts.left;
            let (left, total) = read_type(alloc, scope, base, spent.saturating_add(1), left)?;
            let (right, total) = read_type(alloc, scope, base, total, &parts.right)?;
            let whole = small::summed(alloc, total, left, right)?;
            Ok((whole, total))
        }
        STy::Tuple { .. } => unreachable!(),
        STy::Un { .. } | STy::Unit { .. } | STy::Key { .. } => unreachable!(),
        STy::Nonce { .. } | STy::Abbr { .. } | STy::Placed { .. } => unreachable!(),
    }
}

/// The type that `Key(T)` stands for, of this `T`.
#[cycle(types)]
fn read_key<'t>(
    alloc: Global,
    scope: &mut Scope<'t>,
    base: u32,
    spent: u64,
    part: &'t STy,
) -> Result<(Ty, u64), ScopeFault>
    ensures gives { CountsOn ty ty_nodes result
        (run (type_points (abbreviations scope.old.types) scope.old.held.names
        (key nowhere (ty_of part.entry.now))) scope.old.count) scope.old.count spent
        (type_in base (abbreviations scope.old.types) scope.old.held.names
        (key nowhere (ty_of part.entry.now))) }
    ensures scope { OnOk result (scope.new ≡ scope.old) }
{
    let (part, total) = read_type(alloc, scope, base, spent.saturating_add(1), part)?;
    let whole = small::key(alloc, total, part)?;
    Ok((whole, total))
}

/// The components of a tuple type between the first and the last. Their names stay in scope.
#[cycle(types)]
fn read_fields<'t>(
    alloc: Global,
    scope: &mut Scope<'t>,
    base: u32,
    spent: u64,
    fs: &'t [SField],
) -> Result<(Vec<Ty>, u64), ScopeFault>
    ensures gives { CountsOn (λ v. map ty v.items) type_row_nodes result
        (run (fields_points (abbreviations scope.old.types) scope.old.held.names
        (fields_of_list (map field_of fs.entry.now))) scope.old.count) scope.old.count spent
        (fields_in base (abbreviations scope.old.types) scope.old.held.names
        (fields_of_list (map field_of fs.entry.now))) }
    ensures scope { OnOk result
        (scope.new ≡ record scope.old {
          held = with_names scope.old.held
              (behind scope.old.held.names (fields_of_list (map field_of fs.entry.now)));
        }) }
{
    let mut read = room_for(alloc, fs.len())?;
    let mut total = spent;
    for f in fs {
        let (ty, so_far) = read_type(alloc, scope, base, total.saturating_add(1), &f.ty)?;
        total = so_far;
        keep(total, &mut read, ty)?;
        scope.held.bind_in_type(&f.name.word)?;
    }
    Ok((read, total))
}

/// The last component of a tuple type.
#[cycle(types)]
fn read_last<'t>(
    alloc: Global,
    scope: &mut Scope<'t>,
    base: u32,
    spent: u64,
    end: &'t Last,
) -> Result<(Ty, u64), ScopeFault>
    ensures gives { CountsOn ty ty_nodes result
        (run (last_points (abbreviations scope.old.types) scope.old.held.names (last_of end.entry.now))
        scope.old.count) scope.old.count spent
        (last_in base (abbreviations scope.old.types) scope.old.held.names (last_of end.entry.now)) }
    ensures scope { OnOk result (scope.new ≡ scope.old) }
{
    match end {
        Last::Bare(ty) => read_type(alloc, scope, base, spent, ty),
        Last::Named(_, ty) => read_type(alloc, scope, base, spent, ty),
    }
}
