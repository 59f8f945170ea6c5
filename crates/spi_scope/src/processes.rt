//! Processes.

ghost use Rattle.std.specs.Prelude.{◌≡◌, ◌≤◌, ◌∷◌, OnOk};
ghost use Rattle.spi_tree.specs.Trees.{stop, par, out, out_then, case};
ghost use Rattle.spi_tree.specs.Views.{msg_of, ty_of, proc_of};
ghost use Rattle.spi_scope.specs.Leads.{LeadsTo};
ghost use Rattle.spi_scope.specs.Forms.{process_run, AddsProcess, form_kind, messages_form, typed_form, opening_form, pair_form};

use crate::arena::{Arena, close, close_pair, here, push};
use crate::fault::ScopeFault;
use crate::forms::{
    begin, cast, check, decrypt, end, end_many, fresh, receive, select, serve, split,
};
use crate::heads::{add, read_annotation, read_messages_head, read_typed_head};
use crate::scope::Scope;
use spi_term::Form;
use spi_text::Span;
use spi_tree::{SMsg, SProc, STy, SWord};
use std::alloc::Global;

/// The node of a process that does nothing.
fn stop(scope: &mut Scope, arena: &mut Arena, span: Span) -> Result<(), ScopeFault>
    requires few { scope.old.count ≤ 100000 }
    ensures gives { LeadsTo result (process_run scope.old scope.old.held.names (stop span)) scope.new.count }
    ensures adds { OnOk result
        (AddsProcess scope.old scope.new arena.old arena.new scope.old.held.names (stop span)) }
{
    let base = scope.held.len();
    add(scope, 1, span)?;
    push(scope, arena, base, Form::Stop, span)
}

/// The node of an output.
fn send(
    alloc: Global,
    scope: &mut Scope,
    arena: &mut Arena,
    channel: &SMsg,
    datum: &SMsg,
    span: Span,
) -> Result<(), ScopeFault>
    requires few { scope.old.count ≤ 100000 }
    ensures gives { LeadsTo result
        (process_run scope.old scope.old.held.names (out span (msg_of channel.now) (msg_of datum.now)))
        scope.new.count }
    ensures adds { OnOk result
        (AddsProcess scope.old scope.new arena.old arena.new scope.old.held.names
        (out span (msg_of channel.now) (msg_of datum.now))) }
{
    let base = scope.held.len();
    let (channel, datum) = read_messages_head(alloc, scope, base, span, channel, datum)?;
    push(scope, arena, base, Form::Send { channel, datum }, span)
}

/// The nodes of a process, behind those that are there.
#[cycle(processes)]
pub fn read_process<'t>(
    alloc: Global,
    scope: &mut Scope<'t>,
    arena: &mut Arena,
    p: &'t SProc,
) -> Result<(), ScopeFault>
    requires few { scope.old.count ≤ 100000 }
    ensures gives { LeadsTo result (process_run scope.old scope.old.held.names (proc_of p.entry.now))
        scope.new.count }
    ensures adds { OnOk result
        (AddsProcess scope.old scope.new arena.old arena.new scope.old.held.names (proc_of p.entry.now)) }
{
    match p {
        SProc::Stop { span } => stop(scope, arena, *span),
        SProc::Out { parts, span } => {
            send(alloc, scope, arena, &parts.channel, &parts.datum, *span)
        }
        SProc::OutThen { parts, span } => {
            let channel = &parts.channel;
            let then = &parts.then;
            send_then(alloc, scope, arena, channel, &parts.datum, then, *span)
        }
        SProc::Check { .. } => read_messages_form(alloc, scope, arena, p),
        SProc::Begin { .. } => read_messages_form(alloc, scope, arena, p),
        SProc::End { .. } => read_messages_form(alloc, scope, arena, p),
        SProc::EndMany { .. } => read_messages_form(alloc, scope, arena, p),
        SProc::Inp { .. } => read_typed_form(alloc, scope, arena, p),
        SProc::Repeat { .. } => read_typed_form(alloc, scope, arena, p),
        SProc::Cast { .. } => read_typed_form(alloc, scope, arena, p),
        SProc::Decrypt { .. } => read_opening_form(alloc, scope, arena, p),
        SProc::New { .. } => read_opening_form(alloc, scope, arena, p),
        SProc::Split { .. } => read_pair_form(alloc, scope, arena, p),
        SProc::Match { .. } => read_pair_form(alloc, scope, arena, p),
        SProc::Case { parts, span } => {
            let (whole, first, second) = (&parts.whole, &parts.on_left, &parts.on_right);
            let (left, left_ty) = (&parts.left, &parts.left_ty);
            let (other, right_ty) = (&parts.right, &parts.right_ty);
            branch(
                alloc, scope, arena, whole, left, left_ty, first, other, right_ty, second, *span,
            )
        }
        SProc::Par { parts, span } => {
            compose(alloc, scope, arena, &parts.first, &parts.rest, *span)
        }
        SProc::Group { parts, span } => {
            compose(alloc, scope, arena, &parts.first, &parts.rest, *span)
        }
    }
}

/// A form with messages alone before the process behind it, but for an output.
#[cycle(processes)]
fn read_messages_form<'t>(
    alloc: Global,
    scope: &mut Scope<'t>,
    arena: &mut Arena,
    p: &'t SProc,
) -> Result<(), ScopeFault>
    requires few { scope.old.count ≤ 100000 }
    requires is { form_kind (proc_of p.now) ≡ messages_form }
    ensures gives { LeadsTo result (process_run scope.old scope.old.held.names (proc_of p.entry.now))
        scope.new.count }
    ensures adds { OnOk result
        (AddsProcess scope.old scope.new arena.old arena.new scope.old.held.names (proc_of p.entry.now)) }
{
    match p {
        SProc::Check { parts, span } => {
            check(alloc, scope, arena, *span, &parts.whole, &parts.nonce)?;
            read_process(alloc, scope, arena, &parts.then)
        }
        SProc::Begin { parts, span } => {
            begin(alloc, scope, arena, *span, &parts.label)?;
            read_process(alloc, scope, arena, &parts.then)
        }
        SProc::End { parts, span } => {
            end(alloc, scope, arena, *span, &parts.label)?;
            read_process(alloc, scope, arena, &parts.then)
        }
        SProc::EndMany { parts, span } => {
            end_many(alloc, scope, arena, *span, &parts.label)?;
            read_process(alloc, scope, arena, &parts.then)
        }
        _ => unreachable!(),
    }
}

/// A form with a message and the type of a name that the process behind it sees.
#[cycle(processes)]
fn read_typed_form<'t>(
    alloc: Global,
    scope: &mut Scope<'t>,
    arena: &mut Arena,
    p: &'t SProc,
) -> Result<(), ScopeFault>
    requires few { scope.old.count ≤ 100000 }
    requires is { form_kind (proc_of p.now) ≡ typed_form }
    ensures gives { LeadsTo result (process_run scope.old scope.old.held.names (proc_of p.entry.now))
        scope.new.count }
    ensures adds { OnOk result
        (AddsProcess scope.old scope.new arena.old arena.new scope.old.held.names (proc_of p.entry.now)) }
{
    match p {
        SProc::Inp { parts, span } => {
            receive(alloc, scope, arena, *span, &parts.channel, &parts.ty)?;
            read_under(alloc, scope, arena, &parts.name, &parts.then)
        }
        SProc::Repeat { parts, span } => {
            serve(alloc, scope, arena, *span, &parts.channel, &parts.ty)?;
            read_under(alloc, scope, arena, &parts.name, &parts.then)
        }
        SProc::Cast { parts, span } => {
            cast(alloc, scope, arena, *span, &parts.whole, &parts.ty)?;
            read_under(alloc, scope, arena, &parts.name, &parts.then)
        }
        _ => unreachable!(),
    }
}

/// A form that opens a message, or a new name.
#[cycle(processes)]
fn read_opening_form<'t>(
    alloc: Global,
    scope: &mut Scope<'t>,
    arena: &mut Arena,
    p: &'t SProc,
) -> Result<(), ScopeFault>
    requires few { scope.old.count ≤ 100000 }
    requires is { form_kind (proc_of p.now) ≡ opening_form }
    ensures gives { LeadsTo result (process_run scope.old scope.old.held.names (proc_of p.entry.now))
        scope.new.count }
    ensures adds { OnOk result
        (AddsProcess scope.old scope.new arena.old arena.new scope.old.held.names (proc_of p.entry.now)) }
{
    match p {
        SProc::Decrypt { parts, span } => {
            decrypt(
                alloc,
                scope,
                arena,
                *span,
                &parts.whole,
                &parts.ty,
                &parts.key,
            )?;
            read_under(alloc, scope, arena, &parts.name, &parts.then)
        }
        SProc::New { parts, span } => {
            fresh(alloc, scope, arena, *span, &parts.ty)?;
            read_under(alloc, scope, arena, &parts.name, &parts.then)
        }
        _ => unreachable!(),
    }
}

/// A form that takes a pair apart.
#[cycle(processes)]
fn read_pair_form<'t>(
    alloc: Global,
    scope: &mut Scope<'t>,
    arena: &mut Arena,
    p: &'t SProc,
) -> Result<(), ScopeFault>
    requires few { scope.old.count ≤ 100000 }
    requires is { form_kind (proc_of p.now) ≡ pair_form }
    ensures gives { LeadsTo result (process_run scope.old scope.old.held.names (proc_of p.entry.now))
        scope.new.count }
    ensures adds { OnOk result
        (AddsProcess scope.old scope.new arena.old arena.new scope.old.held.names (proc_of p.entry.now)) }
{
    match p {
        SProc::Split { parts, span } => {
            split(
                alloc,
                scope,
                arena,
                *span,
                &parts.whole,
                &parts.left,
                &parts.left_ty,
                &parts.right_ty,
            )?;
            scope.held.bind(&parts.left.word)?;
            read_under(alloc, scope, arena, &parts.right, &parts.then)?;
            scope.held.unbind();
            Ok(())
        }
        SProc::Match { parts, span } => {
            select(
                alloc,
                scope,
                arena,
                *span,
                &parts.whole,
                &parts.left,
                &parts.left_ty,
                &parts.equal,
                &parts.right_ty,
            )?;
            read_under(alloc, scope, arena, &parts.right, &parts.then)
        }
        _ => unreachable!(),
    }
}

/// The nodes of a process that sees one more name.
#[cycle(processes)]
#[inline(always)]
fn read_under<'t>(
    alloc: Global,
    scope: &mut Scope<'t>,
    arena: &mut Arena,
    name: &'t SWord,
    p: &'t SProc,
) -> Result<(), ScopeFault>
    requires few { scope.old.count ≤ 100000 }
    ensures gives { LeadsTo result
        (process_run scope.old (name.entry.now.word ∷ scope.old.held.names)
        (proc_of p.entry.now)) scope.new.count }
    ensures adds { OnOk result
        (AddsProcess scope.old scope.new arena.old arena.new (name.entry.now.word ∷ scope.old.held.names)
        (proc_of p.entry.now)) }
{
    scope.held.bind(&name.word)?;
    read_process(alloc, scope, arena, p)?;
    scope.held.unbind();
    Ok(())
}

/// The nodes of an output and of the process beside it.
#[cycle(processes)]
fn send_then<'t>(
    alloc: Global,
    scope: &mut Scope<'t>,
    arena: &mut Arena,
    channel: &'t SMsg,
    datum: &'t SMsg,
    then: &'t SProc,
    span: Span,
) -> Result<(), ScopeFault>
    requires few { scope.old.count ≤ 100000 }
    ensures gives { LeadsTo result
        (process_run scope.old scope.old.held.names
        (out_then span (msg_of channel.entry.now) (msg_of datum.entry.now) (proc_of then.entry.now)))
        scope.new.count }
    ensures adds { OnOk result
        (AddsProcess scope.old scope.new arena.old arena.new scope.old.held.names
        (out_then span (msg_of channel.entry.now) (msg_of datum.entry.now) (proc_of then.entry.now))) }
{
    let base = scope.held.len();
    let at = here(arena)?;
    let (channel, datum) = read_messages_head(alloc, scope, base, span, channel, datum)?;
    add(scope, 1, span)?;
    let (first, rest) = (at + 1, at + 2);
    push(scope, arena, base, Form::Par { first, rest }, span)?;
    push(scope, arena, base, Form::Send { channel, datum }, span)?;
    read_process(alloc, scope, arena, then)
}

/// The nodes of a case.
#[cycle(processes)]
fn branch<'t>(
    alloc: Global,
    scope: &mut Scope<'t>,
    arena: &mut Arena,
    whole: &'t SMsg,
    left: &'t SWord,
    left_ty: &'t STy,
    first: &'t SProc,
    other: &'t SWord,
    right_ty: &'t STy,
    second: &'t SProc,
    span: Span,
) -> Result<(), ScopeFault>
    requires few { scope.old.count ≤ 100000 }
    ensures gives { LeadsTo result
        (process_run scope.old scope.old.held.names
        (case span (msg_of whole.entry.now) left.entry.now (ty_of left_ty.entry.now) (proc_of first.entry.now)
        other.entry.now (ty_of right_ty.entry.now) (proc_of second.entry.now))) scope.new.count }
    ensures adds { OnOk result
        (AddsProcess scope.old scope.new arena.old arena.new scope.old.held.names
        (case span (msg_of whole.entry.now) left.entry.now (ty_of left_ty.entry.now) (proc_of first.entry.now)
        other.entry.now (ty_of right_ty.entry.now) (proc_of second.entry.now))) }
{
    let base = scope.held.len();
    let at = here(arena)?;
    let (whole, left_ty) = read_typed_head(alloc, scope, base, span, whole, left_ty)?;
    push(scope, arena, base, Form::Stop, span)?;
    read_under(alloc, scope, arena, left, first)?;
    let (right, _) = read_annotation(alloc, scope, base, right_ty)?;
    let on_right = here(arena)?;
    let on_left = at + 1;
    close(
        arena,
        at as usize,
        base,
        Form::Branch {
            whole,
            left: left_ty,
            right,
            on_left,
            on_right,
        },
    );
    read_under(alloc, scope, arena, other, second)
}

/// The nodes of a composition.
#[cycle(processes)]
fn compose<'t>(
    alloc: Global,
    scope: &mut Scope<'t>,
    arena: &mut Arena,
    first: &'t SProc,
    rest: &'t SProc,
    span: Span,
) -> Result<(), ScopeFault>
    requires few { scope.old.count ≤ 100000 }
    ensures gives { LeadsTo result
        (process_run scope.old scope.old.held.names
        (par span (proc_of first.entry.now) (proc_of rest.entry.now))) scope.new.count }
    ensures adds { OnOk result
        (AddsProcess scope.old scope.new arena.old arena.new scope.old.held.names
        (par span (proc_of first.entry.now) (proc_of rest.entry.now))) }
{
    let base = scope.held.len();
    let at = here(arena)?;
    let body = at + 1;
    push(
        scope,
        arena,
        base,
        Form::Par {
            first: body,
            rest: 0,
        },
        span,
    )?;
    read_process(alloc, scope, arena, first)?;
    add(scope, 1, span)?;
    let next = here(arena)?;
    close_pair(arena, at as usize, base, body, next);
    read_process(alloc, scope, arena, rest)
}
