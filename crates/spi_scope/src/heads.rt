//! What stands before the processes of a form: messages and annotations, tested and counted.

ghost use Rattle.std.specs.Prelude.{◌≡◌, ◌≤◌, ◌∷◌, IfOk, OnOk};
ghost use Rattle.spi_tree.specs.Trees.{name, un as untrusted};
ghost use Rattle.spi_tree.specs.Views.{msg_of, ty_of, word_to};
ghost use Rattle.spi_term.specs.Term.{un};
ghost use Rattle.spi_term.specs.Spelling.{ty_nodes};
ghost use Rattle.spi_term.specs.View.{message, ty};
ghost use Rattle.spi_scope.specs.Meaning.{message_in, type_in};
ghost use Rattle.spi_scope.specs.Points.{one, adds, part, ty_span, type_nodes, bounded_type, whole_type, message_head, messages_head, typed_head, tested_head};
ghost use Rattle.spi_scope.specs.Gives.{GivesMeant, run};
ghost use Rattle.spi_scope.specs.Leads.{LeadsTo};
ghost use Rattle.spi_scope.specs.State.{abbreviations};
ghost use Rattle.spi_scope.specs.Forms.{KeepsScope};

use crate::fault::ScopeFault;
use crate::messages::{name_at, unknown_to};
use crate::scope::Scope;
use crate::types::{message_place, read_type, read_whole};
use spi_term::{Msg, Ty};
use spi_text::{Span, Text};
use spi_tree::{SMsg, STy, SWord, place_to};
use std::alloc::Global;

/// So many nodes come to the count.
pub fn add(scope: &mut Scope, nodes: u64, span: Span) -> Result<(), ScopeFault>
    requires few { scope.old.count ≤ 100000 }
    requires some { nodes ≤ 1000 }
    ensures gives { LeadsTo result (run (one (adds nodes span)) scope.old.count) scope.new.count }
    ensures kept { OnOk result (KeepsScope scope.old scope.new) }
{
    let count = scope.count + nodes;
    if count > 100_000 {
        return Err(ScopeFault::FileTooLarge { span, count });
    }
    scope.count = count;
    Ok(())
}

/// An outermost message.
#[inline(always)]
pub fn read_part(alloc: Global, scope: &mut Scope, base: u32, m: &SMsg) -> Result<Msg, ScopeFault>
    requires few { scope.old.count ≤ 100000 }
    ensures gives { GivesMeant message result (run (part scope.old.held.names (msg_of m.now)) scope.old.count)
        scope.new.count (message_in base scope.old.held.names (msg_of m.now)) }
    ensures kept { OnOk result (KeepsScope scope.old scope.new) }
{
    match m {
        SMsg::Name { to, word } => read_name_part(alloc, scope, base, *to, word),
        _ => read_large_part(alloc, scope, base, m),
    }
}

/// A name that ends at this offset comes to the count.
#[inline(always)]
fn add_name(scope: &mut Scope, to: u32, word: &Text) -> Result<(), ScopeFault>
    requires few { scope.old.count ≤ 100000 }
    ensures gives { LeadsTo result (run (one (adds 1 (word_to to word.now).span)) scope.old.count)
        scope.new.count }
    ensures kept { OnOk result (KeepsScope scope.old scope.new) }
{
    if scope.count < 100_000 {
        scope.count += 1;
        return Ok(());
    }
    add(scope, 1, place_to(to, word))
}

/// An outermost message that is a name.
#[inline(always)]
fn read_name_part(
    alloc: Global,
    scope: &mut Scope,
    base: u32,
    to: u32,
    word: &Text,
) -> Result<Msg, ScopeFault>
    requires few { scope.old.count ≤ 100000 }
    ensures gives { GivesMeant message result
        (run (part scope.old.held.names (name (word_to to word.now).span (word_to to word.now)))
        scope.old.count) scope.new.count
        (message_in base scope.old.held.names (name (word_to to word.now).span (word_to to word.now))) }
    ensures kept { OnOk result (KeepsScope scope.old scope.new) }
{
    match scope.held.number(word.as_str()) {
        None => Err(unknown_to(alloc, to, word)),
        Some(number) => {
            let len = scope.held.len();
            add_name(scope, to, word)?;
            Ok(name_at(base, len, number))
        }
    }
}

/// An outermost message that is most often no name.
#[tactic(auto, unfolding(crate::specs::Points::part))]
#[inline(never)]
fn read_large_part(alloc: Global, scope: &mut Scope, base: u32, m: &SMsg) -> Result<Msg, ScopeFault>
    requires few { scope.old.count ≤ 100000 }
    ensures gives { GivesMeant message result (run (part scope.old.held.names (msg_of m.now)) scope.old.count)
        scope.new.count (message_in base scope.old.held.names (msg_of m.now)) }
    ensures kept { OnOk result (KeepsScope scope.old scope.new) }
{
    let span = message_place(m);
    let (read, count) = read_whole(alloc, scope, base, m, span)?;
    add(scope, count, span)?;
    Ok(read)
}

/// Where a type stands.
fn type_place(t: &STy) -> Span
    ensures { result ≡ ty_span (ty_of t.now) }
{
    match t {
        STy::Un { span } => *span,
        STy::Unit { span } => *span,
        STy::Tuple { span, .. } => *span,
        STy::Sum { span, .. } => *span,
        STy::Key { span, .. } => *span,
        STy::Nonce { span, .. } => *span,
        STy::Abbr { to, word } => place_to(*to, word),
        STy::Placed { name } => name.span,
    }
}

/// An annotation, or the type of an abbreviation, with its nodes: 1,000 at most.
fn read_bounded<'t>(
    alloc: Global,
    scope: &mut Scope<'t>,
    base: u32,
    t: &'t STy,
    span: Span,
) -> Result<(Ty, u64), ScopeFault>
    requires { span ≡ ty_span (ty_of t.now) }
    ensures gives { GivesMeant (λ x. ty x.0) result
        (run (bounded_type (abbreviations scope.old.types) scope.old.held.names (ty_of t.entry.now))
        scope.old.count) scope.old.count
        (type_in base (abbreviations scope.old.types) scope.old.held.names (ty_of t.entry.now)) }
    ensures nodes { IfOk result
        (λ x. (x.1 ≡ type_nodes (abbreviations scope.old.types) scope.old.held.names (ty_of t.entry.now))
        × (x.1 ≡ ty_nodes (ty x.0)) × (x.1 ≤ 1000)) }
    ensures scope { OnOk result (scope.new ≡ scope.old) }
{
    let (read, count) = read_type(alloc, scope, base, 0, t)?;
    if count > 1000 {
        return Err(ScopeFault::TypeTooLarge { span, count });
    }
    Ok((read, count))
}

/// An annotation, or the type of an abbreviation, with its nodes.
#[inline(always)]
pub fn read_annotation<'t>(
    alloc: Global,
    scope: &mut Scope<'t>,
    base: u32,
    t: &'t STy,
) -> Result<(Ty, u64), ScopeFault>
    requires few { scope.old.count ≤ 100000 }
    ensures gives { GivesMeant (λ x. ty x.0) result
        (run (whole_type (abbreviations scope.old.types) scope.old.held.names (ty_of t.entry.now))
        scope.old.count) scope.new.count
        (type_in base (abbreviations scope.old.types) scope.old.held.names (ty_of t.entry.now)) }
    ensures nodes { IfOk result (λ x. x.1 ≡ ty_nodes (ty x.0)) }
    ensures kept { OnOk result (KeepsScope scope.old scope.new) }
{
    match t {
        STy::Un { span } => read_untrusted(scope, *span),
        _ => read_large_annotation(alloc, scope, base, t),
    }
}

/// The annotation `Un`.
#[inline(always)]
fn read_untrusted(scope: &mut Scope, span: Span) -> Result<(Ty, u64), ScopeFault>
    requires few { scope.old.count ≤ 100000 }
    ensures gives { GivesMeant (λ x. ty x.0) result
        (run (whole_type (abbreviations scope.old.types) scope.old.held.names (untrusted span))
        scope.old.count) scope.new.count un }
    ensures nodes { IfOk result (λ x. x.1 ≡ ty_nodes (ty x.0)) }
    ensures kept { OnOk result (KeepsScope scope.old scope.new) }
{
    add(scope, 1, span)?;
    Ok((Ty::Un, 1))
}

/// An annotation that is most often not `Un`, or the type of an abbreviation, with its nodes.
#[tactic(auto, unfolding(crate::specs::Points::whole_type))]
#[inline(never)]
fn read_large_annotation<'t>(
    alloc: Global,
    scope: &mut Scope<'t>,
    base: u32,
    t: &'t STy,
) -> Result<(Ty, u64), ScopeFault>
    requires few { scope.old.count ≤ 100000 }
    ensures gives { GivesMeant (λ x. ty x.0) result
        (run (whole_type (abbreviations scope.old.types) scope.old.held.names (ty_of t.entry.now))
        scope.old.count) scope.new.count
        (type_in base (abbreviations scope.old.types) scope.old.held.names (ty_of t.entry.now)) }
    ensures nodes { IfOk result (λ x. x.1 ≡ ty_nodes (ty x.0)) }
    ensures kept { OnOk result (KeepsScope scope.old scope.new) }
{
    let span = type_place(t);
    let (read, count) = read_bounded(alloc, scope, base, t, span)?;
    add(scope, count, span)?;
    Ok((read, count))
}

/// A form with one message.
#[tactic(auto, unfolding(crate::specs::Points::message_head))]
pub fn read_message_head(
    alloc: Global,
    scope: &mut Scope,
    base: u32,
    span: Span,
    m: &SMsg,
) -> Result<Msg, ScopeFault>
    requires few { scope.old.count ≤ 100000 }
    ensures gives { GivesMeant message result
        (run (message_head scope.old.held.names span (msg_of m.now)) scope.old.count) scope.new.count
        (message_in base scope.old.held.names (msg_of m.now)) }
    ensures kept { OnOk result (KeepsScope scope.old scope.new) }
{
    add(scope, 1, span)?;
    read_part(alloc, scope, base, m)
}

/// A form with two messages.
#[tactic(auto, unfolding(crate::specs::Points::messages_head))]
pub fn read_messages_head(
    alloc: Global,
    scope: &mut Scope,
    base: u32,
    span: Span,
    m: &SMsg,
    n: &SMsg,
) -> Result<(Msg, Msg), ScopeFault>
    requires few { scope.old.count ≤ 100000 }
    ensures gives { LeadsTo result
        (run (messages_head scope.old.held.names span (msg_of m.now) (msg_of n.now)) scope.old.count)
        scope.new.count }
    ensures read { IfOk result
        (λ x. (message x.0 ≡ message_in base scope.old.held.names (msg_of m.now))
        × (message x.1 ≡ message_in base scope.old.held.names (msg_of n.now))) }
    ensures kept { OnOk result (KeepsScope scope.old scope.new) }
{
    add(scope, 1, span)?;
    let first = read_part(alloc, scope, base, m)?;
    let second = read_part(alloc, scope, base, n)?;
    Ok((first, second))
}

/// A form with a message and an annotation.
#[tactic(auto, unfolding(crate::specs::Points::typed_head))]
pub fn read_typed_head<'t>(
    alloc: Global,
    scope: &mut Scope<'t>,
    base: u32,
    span: Span,
    m: &SMsg,
    a: &'t STy,
) -> Result<(Msg, Ty), ScopeFault>
    requires few { scope.old.count ≤ 100000 }
    ensures gives { LeadsTo result
        (run (typed_head (abbreviations scope.old.types) scope.old.held.names span (msg_of m.now)
        (ty_of a.entry.now)) scope.old.count) scope.new.count }
    ensures read { IfOk result
        (λ x. (message x.0 ≡ message_in base scope.old.held.names (msg_of m.now))
        × (ty x.1 ≡ type_in base (abbreviations scope.old.types) scope.old.held.names (ty_of a.entry.now))) }
    ensures kept { OnOk result (KeepsScope scope.old scope.new) }
{
    add(scope, 1, span)?;
    let first = read_part(alloc, scope, base, m)?;
    let (ty, _) = read_annotation(alloc, scope, base, a)?;
    Ok((first, ty))
}

/// A message, an annotation, and a second message.
#[tactic(auto, unfolding(crate::specs::Points::tested_head))]
pub fn read_tested_head<'t>(
    alloc: Global,
    scope: &mut Scope<'t>,
    base: u32,
    span: Span,
    m: &SMsg,
    a: &'t STy,
    n: &SMsg,
) -> Result<(Msg, Ty, Msg), ScopeFault>
    requires few { scope.old.count ≤ 100000 }
    ensures gives { LeadsTo result
        (run (tested_head (abbreviations scope.old.types) scope.old.held.names span (msg_of m.now)
        (ty_of a.entry.now) (msg_of n.now)) scope.old.count) scope.new.count }
    ensures read { IfOk result
        (λ x. (message x.0 ≡ message_in base scope.old.held.names (msg_of m.now))
        × (ty x.1 ≡ type_in base (abbreviations scope.old.types) scope.old.held.names (ty_of a.entry.now))
        × (message x.2 ≡ message_in base scope.old.held.names (msg_of n.now))) }
    ensures kept { OnOk result (KeepsScope scope.old scope.new) }
{
    add(scope, 1, span)?;
    let whole = read_part(alloc, scope, base, m)?;
    let (ty, _) = read_annotation(alloc, scope, base, a)?;
    let second = read_part(alloc, scope, base, n)?;
    Ok((whole, ty, second))
}

/// An annotation that sees one more name.
pub fn read_under<'t>(
    alloc: Global,
    scope: &mut Scope<'t>,
    base: u32,
    name: &'t SWord,
    a: &'t STy,
) -> Result<Ty, ScopeFault>
    requires few { scope.old.count ≤ 100000 }
    ensures gives { GivesMeant ty result
        (run (whole_type (abbreviations scope.old.types) (name.entry.now.word ∷ scope.old.held.names)
        (ty_of a.entry.now)) scope.old.count) scope.new.count
        (type_in base (abbreviations scope.old.types) (name.entry.now.word ∷ scope.old.held.names)
        (ty_of a.entry.now)) }
    ensures kept { OnOk result (KeepsScope scope.old scope.new) }
{
    scope.held.bind(&name.word)?;
    let (ty, _) = read_annotation(alloc, scope, base, a)?;
    scope.held.unbind();
    Ok(ty)
}
