//! Messages.

ghost use Rattle.std.specs.Prelude.{◌≡◌, ◌⊎◌, ◌<◌, ◌≤◌, ◌∷◌, map, length, IfOk, Some};
ghost use Rattle.spi_tree.specs.Views.{msg_of, word_to};
ghost use Rattle.spi_tree.specs.Trees.{inl, inr, hash, no_msgs, more_msgs, msgs_of_list, nowhere};
ghost use Rattle.spi_term.specs.Term.{message_size};
ghost use Rattle.spi_term.specs.View.{message};
ghost use Rattle.spi_scope.specs.declared.fault.ScopeFault.TheVariants.{NoMemory as OutOfMemory, UnknownName};
ghost use Rattle.spi_scope.specs.Scope.{number_of};
ghost use Rattle.spi_scope.specs.Meaning.{name_meant, nested, message_in, messages_in};
ghost use Rattle.spi_scope.specs.Points.{one, uses_name, message_points, messages_points};
ghost use Rattle.spi_scope.specs.Gives.{CountsOn, run};
ghost use Rattle.spi_scope.specs.State.{row_nodes};
ghost use Rattle.spi_scope.specs.Forms.{message_form, tuple_form, enc_form};

use crate::fault::ScopeFault;
use crate::scope::Scope;
use crate::small;
use crate::small::{keep, room_for};
use spi_term::Msg;
use spi_text::{Span, Text};
use spi_tree::{SMsg, SWord, place_to};
use std::alloc::{AllocError, Global};

/// The name with this number, of so many in scope.
#[inline(always)]
pub fn name_at(base: u32, scope: u32, number: u32) -> Msg
    requires { number < scope }
    ensures { message result ≡ name_meant base scope (Some number) }
{
    if number < base {
        Msg::Name(number)
    } else {
        Msg::Bound(scope - 1 - number)
    }
}

/// The name with this spelling, which ends at this offset. It is one node.
#[inline(always)]
fn read_name(
    alloc: Global,
    scope: &Scope,
    base: u32,
    spent: u64,
    to: u32,
    word: &Text,
) -> Result<(Msg, u64), ScopeFault>
    ensures { CountsOn message message_size result
        (run (one (uses_name scope.now.held.names (word_to to word.now))) scope.now.count)
        scope.now.count spent
        (name_meant base (length scope.now.held.names) (number_of scope.now.held.names word.now)) }
{
    match scope.held.number(word.as_str()) {
        Some(number) => Ok((
            name_at(base, scope.held.len(), number),
            spent.saturating_add(1),
        )),
        None => Err(unknown_to(alloc, to, word)),
    }
}

/// The name with this spelling, which stands anywhere. It is one node.
#[inline(never)]
fn read_placed(
    alloc: Global,
    scope: &Scope,
    base: u32,
    spent: u64,
    name: &SWord,
) -> Result<(Msg, u64), ScopeFault>
    ensures { CountsOn message message_size result
        (run (one (uses_name scope.now.held.names name.now)) scope.now.count) scope.now.count spent
        (name_meant base (length scope.now.held.names) (number_of scope.now.held.names name.now.word)) }
{
    match scope.held.number(name.word.as_str()) {
        Some(number) => Ok((
            name_at(base, scope.held.len(), number),
            spent.saturating_add(1),
        )),
        None => Err(unknown(alloc, name.span, &name.word)),
    }
}

/// What is told of a name that isn't in scope, and that ends at this offset.
#[inline(never)]
pub fn unknown_to(alloc: Global, to: u32, word: &Text) -> ScopeFault
    ensures { (result ≡ OutOfMemory) ⊎ (result ≡ UnknownName (word_to to word.now).span word.now) }
{
    unknown(alloc, place_to(to, word), word)
}

/// What is told of a name that isn't in scope, and that stands here.
#[inline(never)]
fn unknown(alloc: Global, span: Span, word: &Text) -> ScopeFault
    ensures { (result ≡ OutOfMemory) ⊎ (result ≡ UnknownName span word.now) }
{
    match word.copy(alloc) {
        Ok(word) => ScopeFault::UnknownName { span, word },
        Err(_) => ScopeFault::NoMemory,
    }
}

/// The components of a tuple, nested to the right where there are few enough nodes.
pub fn nest(
    alloc: Global,
    total: u64,
    first: Msg,
    second: Msg,
    more: Vec<Msg>,
) -> Result<Msg, AllocError>
    ensures { IfOk result
        (λ m. total ≤ 1000 → message m ≡ nested (message first) (message second ∷ map message more.items)) }
{
    let rest = nest_small(alloc, total, second, more)?;
    small::paired(alloc, total, first, rest)
}

/// A message and what is behind it, nested to the right where there are few enough nodes.
fn nest_small(alloc: Global, total: u64, first: Msg, more: Vec<Msg>) -> Result<Msg, AllocError>
    ensures { IfOk result (λ m. total ≤ 1000 → message m ≡ nested (message first) (map message more.items)) }
{
    if total > 1000 {
        return Ok(Msg::Unit);
    }
    nest_rest(alloc, first, more)
}

fn nest_rest(alloc: Global, first: Msg, mut more: Vec<Msg>) -> Result<Msg, AllocError>
    ensures { IfOk result (λ m. message m ≡ nested (message first) (map message more.items)) }
{
    let Some(mut last) = more.pop() else {
        return Ok(first);
    };
    while let Some(part) = more.pop() {
        last = Msg::paired(alloc, part, last)?;
    }
    Msg::paired(alloc, first, last)
}

/// The message that this one stands for, with its nodes counted on. Names below `base` are written by their numbers.
/// Where there are more than 1,000 nodes the message means nothing.
#[cycle(messages)]
#[inline(always)]
pub fn read_message(
    alloc: Global,
    scope: &Scope,
    base: u32,
    spent: u64,
    m: &SMsg,
) -> Result<(Msg, u64), ScopeFault>
    ensures { CountsOn message message_size result
        (run (message_points scope.now.held.names (msg_of m.now)) scope.now.count) scope.now.count spent
        (message_in base scope.now.held.names (msg_of m.now)) }
{
    match m {
        SMsg::Name { to, word } => read_name(alloc, scope, base, spent, *to, word),
        _ => read_term(alloc, scope, base, spent, m),
    }
}

/// The same of a message that is most often no name.
#[cycle(messages)]
fn read_term(
    alloc: Global,
    scope: &Scope,
    base: u32,
    spent: u64,
    m: &SMsg,
) -> Result<(Msg, u64), ScopeFault>
    ensures { CountsOn message message_size result
        (run (message_points scope.now.held.names (msg_of m.now)) scope.now.count) scope.now.count spent
        (message_in base scope.now.held.names (msg_of m.now)) }
{
    match m {
        SMsg::Name { to, word } => read_name(alloc, scope, base, spent, *to, word),
        SMsg::Placed { name } => read_placed(alloc, scope, base, spent, name),
        SMsg::Unit { .. } => Ok((Msg::Unit, spent.saturating_add(1))),
        SMsg::Tuple { .. } => read_tuple(alloc, scope, base, spent, m),
        SMsg::Inl { part, .. } => read_inl(alloc, scope, base, spent, part),
        SMsg::Inr { part, .. } => read_inr(alloc, scope, base, spent, part),
        SMsg::Enc { .. } => read_enc(alloc, scope, base, spent, m),
        SMsg::Hash { part, .. } => read_hash(alloc, scope, base, spent, part),
        SMsg::Num { .. } => Ok((Msg::Unit, spent.saturating_add(1))),
    }
}

/// The message that a tuple stands for, with its nodes counted on.
#[cycle(messages)]
fn read_tuple(
    alloc: Global,
    scope: &Scope,
    base: u32,
    spent: u64,
    m: &SMsg,
) -> Result<(Msg, u64), ScopeFault>
    requires { message_form (msg_of m.now) ≡ tuple_form }
    ensures { CountsOn message message_size result
        (run (message_points scope.now.held.names (msg_of m.now)) scope.now.count) scope.now.count spent
        (message_in base scope.now.held.names (msg_of m.now)) }
{
    match m {
        SMsg::Tuple { parts, .. } => {
            let (first, total) = read_message(alloc, scope, base, spent, &parts.first)?;
            let second = &parts.second;
            let (next, total) = read_message(alloc, scope, base, total.saturating_add(1), second)?;
            let (rest, total) = read_more(alloc, scope, base, total, parts.more, next)?;
            let whole = small::paired(alloc, total, first, rest)?;
            Ok((whole, total))
        }
        SMsg::Name { .. } | SMsg::Placed { .. } => unreachable!(),
        SMsg::Unit { .. } | SMsg::Num { .. } => unreachable!(),
        SMsg::Inl { .. } | SMsg::Inr { .. } => unreachable!(),
        SMsg::Enc { .. } | SMsg::Hash { .. } => unreachable!(),
    }
}

/// The message that `inl M` stands for, of this `M`.
#[cycle(messages)]
fn read_inl(
    alloc: Global,
    scope: &Scope,
    base: u32,
    spent: u64,
    part: &SMsg,
) -> Result<(Msg, u64), ScopeFault>
    ensures { CountsOn message message_size result
        (run (message_points scope.now.held.names (inl nowhere (msg_of part.now))) scope.now.count)
        scope.now.count spent (message_in base scope.now.held.names (inl nowhere (msg_of part.now))) }
{
    let (part, total) = read_message(alloc, scope, base, spent.saturating_add(1), part)?;
    let whole = small::left(alloc, total, part)?;
    Ok((whole, total))
}

/// The message that `inr M` stands for, of this `M`.
#[cycle(messages)]
fn read_inr(
    alloc: Global,
    scope: &Scope,
    base: u32,
    spent: u64,
    part: &SMsg,
) -> Result<(Msg, u64), ScopeFault>
    ensures { CountsOn message message_size result
        (run (message_points scope.now.held.names (inr nowhere (msg_of part.now))) scope.now.count)
        scope.now.count spent (message_in base scope.now.held.names (inr nowhere (msg_of part.now))) }
{
    let (part, total) = read_message(alloc, scope, base, spent.saturating_add(1), part)?;
    let whole = small::right(alloc, total, part)?;
    Ok((whole, total))
}

/// The message that `{M}N` stands for, with its nodes counted on.
#[cycle(messages)]
fn read_enc(
    alloc: Global,
    scope: &Scope,
    base: u32,
    spent: u64,
    m: &SMsg,
) -> Result<(Msg, u64), ScopeFault>
    requires { message_form (msg_of m.now) ≡ enc_form }
    ensures { CountsOn message message_size result
        (run (message_points scope.now.held.names (msg_of m.now)) scope.now.count) scope.now.count spent
        (message_in base scope.now.held.names (msg_of m.now)) }
{
    match m {
        SMsg::Enc { parts, .. } => {
            let body = &parts.body;
            let (body, total) = read_message(alloc, scope, base, spent.saturating_add(1), body)?;
            let (key, total) = read_message(alloc, scope, base, total, &parts.key)?;
            let whole = small::sealed(alloc, total, body, key)?;
            Ok((whole, total))
        }
        SMsg::Name { .. } | SMsg::Placed { .. } => unreachable!(),
        SMsg::Unit { .. } | SMsg::Num { .. } => unreachable!(),
        SMsg::Inl { .. } | SMsg::Inr { .. } => unreachable!(),
        SMsg::Tuple { .. } | SMsg::Hash { .. } => unreachable!(),
    }
}

/// The message that `hash(M)` stands for, of this `M`.
#[cycle(messages)]
fn read_hash(
    alloc: Global,
    scope: &Scope,
    base: u32,
    spent: u64,
    part: &SMsg,
) -> Result<(Msg, u64), ScopeFault>
    ensures { CountsOn message message_size result
        (run (message_points scope.now.held.names (hash nowhere (msg_of part.now))) scope.now.count)
        scope.now.count spent (message_in base scope.now.held.names (hash nowhere (msg_of part.now))) }
{
    let (part, total) = read_message(alloc, scope, base, spent.saturating_add(1), part)?;
    let whole = small::hashed(alloc, total, part)?;
    Ok((whole, total))
}

/// The second component of a tuple with those behind it, nested to the right, with the nodes of these and of the pairs
/// counted on.
#[cycle(messages)]
fn read_more(
    alloc: Global,
    scope: &Scope,
    base: u32,
    spent: u64,
    more: &[SMsg],
    next: Msg,
) -> Result<(Msg, u64), ScopeFault>
    ensures { CountsOn message
        (λ _. row_nodes (messages_in base scope.now.held.names (msgs_of_list (map msg_of more.now)))) result
        (run (messages_points scope.now.held.names (msgs_of_list (map msg_of more.now))) scope.now.count)
        scope.now.count spent
        (nested (message next) (messages_in base scope.now.held.names (msgs_of_list (map msg_of more.now)))) }
{
    match more {
        [] => Ok((next, spent)),
        [last] => read_last(alloc, scope, base, spent, last, next),
        _ => read_rest(alloc, scope, base, spent, more, next),
    }
}

/// The pair of the second component of a tuple and the last, which is right behind it.
#[cycle(messages)]
fn read_last(
    alloc: Global,
    scope: &Scope,
    base: u32,
    spent: u64,
    last: &SMsg,
    next: Msg,
) -> Result<(Msg, u64), ScopeFault>
    ensures { CountsOn message
        (λ _. row_nodes (messages_in base scope.now.held.names (more_msgs (msg_of last.now) no_msgs))) result
        (run (messages_points scope.now.held.names (more_msgs (msg_of last.now) no_msgs)) scope.now.count)
        scope.now.count spent
        (nested (message next)
        (messages_in base scope.now.held.names (more_msgs (msg_of last.now) no_msgs))) }
{
    let (last, total) = read_message(alloc, scope, base, spent.saturating_add(1), last)?;
    let whole = small::paired(alloc, total, next, last)?;
    Ok((whole, total))
}

/// The second component of a tuple with those behind it, of which there are several.
#[cycle(messages)]
fn read_rest(
    alloc: Global,
    scope: &Scope,
    base: u32,
    spent: u64,
    more: &[SMsg],
    next: Msg,
) -> Result<(Msg, u64), ScopeFault>
    ensures { CountsOn message
        (λ _. row_nodes (messages_in base scope.now.held.names (msgs_of_list (map msg_of more.now)))) result
        (run (messages_points scope.now.held.names (msgs_of_list (map msg_of more.now))) scope.now.count)
        scope.now.count spent
        (nested (message next) (messages_in base scope.now.held.names (msgs_of_list (map msg_of more.now)))) }
{
    let (read, total) = read_messages(alloc, scope, base, spent, more)?;
    let whole = nest_small(alloc, total, next, read)?;
    Ok((whole, total))
}

/// The components of a tuple but the first two, with their nodes and those of the pairs counted on. Where there are
/// more than 1,000 nodes only the first components are kept, so that a long tuple takes little memory.
#[cycle(messages)]
fn read_messages(
    alloc: Global,
    scope: &Scope,
    base: u32,
    spent: u64,
    ms: &[SMsg],
) -> Result<(Vec<Msg>, u64), ScopeFault>
    ensures { CountsOn (λ v. map message v.items) row_nodes result
        (run (messages_points scope.now.held.names (msgs_of_list (map msg_of ms.now))) scope.now.count)
        scope.now.count spent (messages_in base scope.now.held.names (msgs_of_list (map msg_of ms.now))) }
{
    let mut read = room_for(alloc, ms.len())?;
    let mut total = spent;
    for m in ms {
        let (part, so_far) = read_message(alloc, scope, base, total.saturating_add(1), m)?;
        total = so_far;
        keep(total, &mut read, part)?;
    }
    Ok((read, total))
}
