// How many nodes messages of a store have.

ghost use Rattle.std.specs.Prelude.{◌≡◌, ◌+◌, ◌<◌, length};
ghost use Rattle.spi_term.specs.Term.{message_size};
ghost use Rattle.spi_term.specs.Spelling.{stopped};
ghost use Rattle.spi_intern.specs.Messages.{message_at};
ghost use Rattle.spi_replay.specs.Waiting.{wait_within, wait_largest};

use crate::waits::Wait;
use spi_intern::{MsgId, MsgPart, Store};

// How many nodes there are after so many, with those of a part: a name isn't gone into.
#[cycle(nodes)]
#[inline(always)]
fn nodes_after_part(store: &Store, id: MsgId, before: u64) -> u64
    requires { id.place < length store.now.messages }
    ensures { result ≡ stopped (before + message_size (message_at store.now.messages id)) }
{
    match store.part(id) {
        MsgPart::Name(_) => before.saturating_add(1),
        _ => nodes_after(store, id, before),
    }
}

// How many nodes there are after so many, with those of the message with a number.
#[cycle(nodes)]
fn nodes_after(store: &Store, id: MsgId, before: u64) -> u64
    requires { id.place < length store.now.messages }
    ensures { result ≡ stopped (before + message_size (message_at store.now.messages id)) }
{
    let here = before.saturating_add(1);
    match store.part(id) {
        MsgPart::Bound(_) | MsgPart::Name(_) | MsgPart::Unit => here,
        MsgPart::Pair(a, b) | MsgPart::Enc(a, b) => {
            let first = nodes_after_part(store, a, here);
            nodes_after_part(store, b, first)
        }
        MsgPart::Inl(a) | MsgPart::Inr(a) | MsgPart::Hash(a) => nodes_after(store, a, here),
    }
}

/// How many nodes the message with a number has. The count stops at u64's greatest value.
pub fn nodes_of(store: &Store, id: MsgId) -> u64
    requires { id.place < length store.now.messages }
    ensures { result ≡ stopped (message_size (message_at store.now.messages id)) }
{
    nodes_after(store, id, 0)
}

/// The nodes of the largest message that an act binds to a name or shows.
pub fn largest_of(store: &Store, wait: Wait) -> u64
    requires { wait_within (length store.now.messages) wait }
    ensures { result ≡ wait_largest store.now.messages wait }
{
    match wait {
        Wait::Stays => 0,
        Wait::Puts(_, _) => 0,
        Wait::Takes(_, _) => 0,
        Wait::TakesAgain(_, _) => 0,
        Wait::BindsOne(value, _) => nodes_of(store, value),
        Wait::BindsTwo(first, second, _) => nodes_of(store, first).max(nodes_of(store, second)),
        Wait::GoesOn(_) => 0,
        Wait::Shows(_, label, _) => nodes_of(store, label),
        Wait::Freshes(_) => 1,
        Wait::Forks(_, _) => 0,
    }
}
