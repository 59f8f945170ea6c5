//! Forms with one process behind them: what stands before it, and their node.

ghost use Rattle.std.specs.Prelude.{◌≤◌, OnOk};
ghost use Rattle.spi_tree.specs.Views.{msg_of, ty_of};
ghost use Rattle.spi_term.specs.Term.{Recvs, Serves, Splits, Selects, Decrypts, Checks, Begins, Ends, EndManys, Casts, Freshes};
ghost use Rattle.spi_scope.specs.Points.{message_head, messages_head, typed_head, new_head, tested_head, split_head, match_head};
ghost use Rattle.spi_scope.specs.Gives.{run};
ghost use Rattle.spi_scope.specs.Leads.{LeadsTo};
ghost use Rattle.spi_scope.specs.State.{abbreviations};
ghost use Rattle.spi_scope.specs.Forms.{AddsForm, message_here, type_here, type_under};

use crate::arena::{Arena, here, push};
use crate::fault::ScopeFault;
use crate::heads::{
    add, read_annotation, read_message_head, read_messages_head, read_part, read_tested_head,
    read_typed_head, read_under,
};
use crate::scope::Scope;
use spi_term::Form;
use spi_text::Span;
use spi_tree::{SMsg, STy, SWord};
use std::alloc::Global;

/// An input.
pub fn receive<'t>(
    alloc: Global,
    scope: &mut Scope<'t>,
    arena: &mut Arena,
    span: Span,
    channel: &SMsg,
    ty: &'t STy,
) -> Result<(), ScopeFault>
    requires few { scope.old.count ≤ 100000 }
    ensures gives { LeadsTo result
        (run (typed_head (abbreviations scope.old.types) scope.old.held.names span (msg_of channel.now)
        (ty_of ty.entry.now)) scope.old.count) scope.new.count }
    ensures adds { OnOk result
        (AddsForm scope.old scope.new arena.old arena.new span
        (Recvs (message_here scope.old (msg_of channel.now)) (type_here scope.old (ty_of ty.entry.now)))) }
{
    let base = scope.held.len();
    let body = here(arena)? + 1;
    let (channel, ty) = read_typed_head(alloc, scope, base, span, channel, ty)?;
    push(scope, arena, base, Form::Recv { channel, ty, body }, span)
}

/// A repeated input.
pub fn serve<'t>(
    alloc: Global,
    scope: &mut Scope<'t>,
    arena: &mut Arena,
    span: Span,
    channel: &SMsg,
    ty: &'t STy,
) -> Result<(), ScopeFault>
    requires few { scope.old.count ≤ 100000 }
    ensures gives { LeadsTo result
        (run (typed_head (abbreviations scope.old.types) scope.old.held.names span (msg_of channel.now)
        (ty_of ty.entry.now)) scope.old.count) scope.new.count }
    ensures adds { OnOk result
        (AddsForm scope.old scope.new arena.old arena.new span
        (Serves (message_here scope.old (msg_of channel.now))
        (type_here scope.old (ty_of ty.entry.now)))) }
{
    let base = scope.held.len();
    let body = here(arena)? + 1;
    let (channel, ty) = read_typed_head(alloc, scope, base, span, channel, ty)?;
    push(scope, arena, base, Form::Serve { channel, ty, body }, span)
}

/// A split.
#[tactic(auto, unfolding(crate::specs::Points::split_head))]
pub fn split<'t>(
    alloc: Global,
    scope: &mut Scope<'t>,
    arena: &mut Arena,
    span: Span,
    whole: &SMsg,
    name: &'t SWord,
    left: &'t STy,
    right: &'t STy,
) -> Result<(), ScopeFault>
    requires few { scope.old.count ≤ 100000 }
    ensures gives { LeadsTo result
        (run (split_head (abbreviations scope.old.types) scope.old.held.names span (msg_of whole.now)
        name.entry.now (ty_of left.entry.now) (ty_of right.entry.now)) scope.old.count) scope.new.count }
    ensures adds { OnOk result
        (AddsForm scope.old scope.new arena.old arena.new span
        (Splits (message_here scope.old (msg_of whole.now)) (type_here scope.old (ty_of left.entry.now))
        (type_under scope.old name.entry.now.word (ty_of right.entry.now)))) }
{
    let base = scope.held.len();
    let body = here(arena)? + 1;
    add(scope, 1, span)?;
    let whole = read_part(alloc, scope, base, whole)?;
    let (first, _) = read_annotation(alloc, scope, base, left)?;
    let second = read_under(alloc, scope, base, name, right)?;
    push(
        scope,
        arena,
        base,
        Form::Split {
            whole,
            first,
            second,
            body,
        },
        span,
    )
}

/// A match.
#[tactic(auto, unfolding(crate::specs::Points::match_head))]
pub fn select<'t>(
    alloc: Global,
    scope: &mut Scope<'t>,
    arena: &mut Arena,
    span: Span,
    whole: &SMsg,
    name: &'t SWord,
    left: &'t STy,
    equal: &SMsg,
    right: &'t STy,
) -> Result<(), ScopeFault>
    requires few { scope.old.count ≤ 100000 }
    ensures gives { LeadsTo result
        (run (match_head (abbreviations scope.old.types) scope.old.held.names span (msg_of whole.now)
        name.entry.now (ty_of left.entry.now) (msg_of equal.now) (ty_of right.entry.now)) scope.old.count)
        scope.new.count }
    ensures adds { OnOk result
        (AddsForm scope.old scope.new arena.old arena.new span
        (Selects (message_here scope.old (msg_of whole.now))
        (type_here scope.old (ty_of left.entry.now)) (message_here scope.old (msg_of equal.now))
        (type_under scope.old name.entry.now.word (ty_of right.entry.now)))) }
{
    let base = scope.held.len();
    let body = here(arena)? + 1;
    let (whole, first, equal) = read_tested_head(alloc, scope, base, span, whole, left, equal)?;
    let second = read_under(alloc, scope, base, name, right)?;
    push(
        scope,
        arena,
        base,
        Form::Select {
            whole,
            first,
            equal: Box::new(alloc, equal)?,
            second: Box::new(alloc, second)?,
            body,
        },
        span,
    )
}

/// A decryption.
pub fn decrypt<'t>(
    alloc: Global,
    scope: &mut Scope<'t>,
    arena: &mut Arena,
    span: Span,
    whole: &SMsg,
    ty: &'t STy,
    key: &SMsg,
) -> Result<(), ScopeFault>
    requires few { scope.old.count ≤ 100000 }
    ensures gives { LeadsTo result
        (run (tested_head (abbreviations scope.old.types) scope.old.held.names span (msg_of whole.now)
        (ty_of ty.entry.now) (msg_of key.now)) scope.old.count) scope.new.count }
    ensures adds { OnOk result
        (AddsForm scope.old scope.new arena.old arena.new span
        (Decrypts (message_here scope.old (msg_of whole.now)) (type_here scope.old (ty_of ty.entry.now))
        (message_here scope.old (msg_of key.now)))) }
{
    let base = scope.held.len();
    let body = here(arena)? + 1;
    let (whole, ty, key) = read_tested_head(alloc, scope, base, span, whole, ty, key)?;
    push(
        scope,
        arena,
        base,
        Form::Decrypt {
            whole,
            ty,
            key,
            body,
        },
        span,
    )
}

/// A check.
pub fn check(
    alloc: Global,
    scope: &mut Scope,
    arena: &mut Arena,
    span: Span,
    whole: &SMsg,
    nonce: &SMsg,
) -> Result<(), ScopeFault>
    requires few { scope.old.count ≤ 100000 }
    ensures gives { LeadsTo result
        (run (messages_head scope.old.held.names span (msg_of whole.now) (msg_of nonce.now)) scope.old.count)
        scope.new.count }
    ensures adds { OnOk result
        (AddsForm scope.old scope.new arena.old arena.new span
        (Checks (message_here scope.old (msg_of whole.now)) (message_here scope.old (msg_of nonce.now)))) }
{
    let base = scope.held.len();
    let body = here(arena)? + 1;
    let (whole, nonce) = read_messages_head(alloc, scope, base, span, whole, nonce)?;
    push(scope, arena, base, Form::Check { whole, nonce, body }, span)
}

/// A begin.
pub fn begin(
    alloc: Global,
    scope: &mut Scope,
    arena: &mut Arena,
    span: Span,
    label: &SMsg,
) -> Result<(), ScopeFault>
    requires few { scope.old.count ≤ 100000 }
    ensures gives { LeadsTo result
        (run (message_head scope.old.held.names span (msg_of label.now)) scope.old.count) scope.new.count }
    ensures adds { OnOk result
        (AddsForm scope.old scope.new arena.old arena.new span
        (Begins (message_here scope.old (msg_of label.now)))) }
{
    let base = scope.held.len();
    let body = here(arena)? + 1;
    let label = read_message_head(alloc, scope, base, span, label)?;
    push(scope, arena, base, Form::Begin { label, body }, span)
}

/// An end.
pub fn end(
    alloc: Global,
    scope: &mut Scope,
    arena: &mut Arena,
    span: Span,
    label: &SMsg,
) -> Result<(), ScopeFault>
    requires few { scope.old.count ≤ 100000 }
    ensures gives { LeadsTo result
        (run (message_head scope.old.held.names span (msg_of label.now)) scope.old.count) scope.new.count }
    ensures adds { OnOk result
        (AddsForm scope.old scope.new arena.old arena.new span
        (Ends (message_here scope.old (msg_of label.now)))) }
{
    let base = scope.held.len();
    let body = here(arena)? + 1;
    let label = read_message_head(alloc, scope, base, span, label)?;
    push(scope, arena, base, Form::End { label, body }, span)
}

/// An end many.
pub fn end_many(
    alloc: Global,
    scope: &mut Scope,
    arena: &mut Arena,
    span: Span,
    label: &SMsg,
) -> Result<(), ScopeFault>
    requires few { scope.old.count ≤ 100000 }
    ensures gives { LeadsTo result
        (run (message_head scope.old.held.names span (msg_of label.now)) scope.old.count) scope.new.count }
    ensures adds { OnOk result
        (AddsForm scope.old scope.new arena.old arena.new span
        (EndManys (message_here scope.old (msg_of label.now)))) }
{
    let base = scope.held.len();
    let body = here(arena)? + 1;
    let label = read_message_head(alloc, scope, base, span, label)?;
    push(scope, arena, base, Form::EndMany { label, body }, span)
}

/// A cast.
pub fn cast<'t>(
    alloc: Global,
    scope: &mut Scope<'t>,
    arena: &mut Arena,
    span: Span,
    whole: &SMsg,
    ty: &'t STy,
) -> Result<(), ScopeFault>
    requires few { scope.old.count ≤ 100000 }
    ensures gives { LeadsTo result
        (run (typed_head (abbreviations scope.old.types) scope.old.held.names span (msg_of whole.now)
        (ty_of ty.entry.now)) scope.old.count) scope.new.count }
    ensures adds { OnOk result
        (AddsForm scope.old scope.new arena.old arena.new span
        (Casts (message_here scope.old (msg_of whole.now)) (type_here scope.old (ty_of ty.entry.now)))) }
{
    let base = scope.held.len();
    let body = here(arena)? + 1;
    let (whole, ty) = read_typed_head(alloc, scope, base, span, whole, ty)?;
    push(scope, arena, base, Form::Cast { whole, ty, body }, span)
}

/// A new name.
#[tactic(auto, unfolding(crate::specs::Points::new_head))]
pub fn fresh<'t>(
    alloc: Global,
    scope: &mut Scope<'t>,
    arena: &mut Arena,
    span: Span,
    ty: &'t STy,
) -> Result<(), ScopeFault>
    requires few { scope.old.count ≤ 100000 }
    ensures gives { LeadsTo result
        (run (new_head (abbreviations scope.old.types) scope.old.held.names span (ty_of ty.entry.now))
        scope.old.count) scope.new.count }
    ensures adds { OnOk result
        (AddsForm scope.old scope.new arena.old arena.new span
        (Freshes (type_here scope.old (ty_of ty.entry.now)))) }
{
    let base = scope.held.len();
    let body = here(arena)? + 1;
    add(scope, 1, span)?;
    let (ty, _) = read_annotation(alloc, scope, base, ty)?;
    push(scope, arena, base, Form::Fresh { ty, body }, span)
}
