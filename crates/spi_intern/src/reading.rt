// Messages of a store, by their numbers.

ghost use Rattle.std.specs.Prelude.{◌≡◌, ◌<◌, IfOk, Ok, length};
ghost use Rattle.spi_term.specs.View.{message};
ghost use Rattle.spi_intern.specs.Messages.{message_at};

use crate::NoMemory;
use crate::messages::{MsgId, MsgPart};
use crate::store::Store;
use spi_term::Msg;
use std::alloc::Global;

// The message in a box, where there is one.
fn boxed(alloc: Global, m: Result<Msg, NoMemory>) -> Result<Box<Msg>, NoMemory>
    ensures { IfOk result (λ b. m ≡ Ok b.value) }
{
    Ok(Box::new(alloc, m?)?)
}

// A part of a message: a name, as most are, is read in line.
#[cycle(reading)]
#[inline(always)]
fn part_of(alloc: Global, store: &Store, id: MsgId) -> Result<Msg, NoMemory>
    requires { id.place < length store.now.messages }
    ensures { IfOk result (λ m. message m ≡ message_at store.now.messages id) }
{
    match store.part(id) {
        MsgPart::Name(x) => Ok(Msg::Name(x)),
        _ => message_of(alloc, store, id),
    }
}

/// The message with a number. The time is linear in its nodes, and its only error is NoMemory.
#[cycle(reading)]
pub fn message_of(alloc: Global, store: &Store, id: MsgId) -> Result<Msg, NoMemory>
    requires { id.place < length store.now.messages }
    ensures { IfOk result (λ m. message m ≡ message_at store.now.messages id) }
{
    match store.part(id) {
        MsgPart::Bound(i) => Ok(Msg::Bound(i)),
        MsgPart::Name(x) => Ok(Msg::Name(x)),
        MsgPart::Unit => Ok(Msg::Unit),
        MsgPart::Pair(a, b) => {
            let first = part_of(alloc, store, a)?;
            let second = part_of(alloc, store, b)?;
            Msg::paired(alloc, first, second)
        }
        MsgPart::Inl(a) => {
            let part = boxed(alloc, message_of(alloc, store, a))?;
            Ok(Msg::Inl(part))
        }
        MsgPart::Inr(a) => {
            let part = boxed(alloc, message_of(alloc, store, a))?;
            Ok(Msg::Inr(part))
        }
        MsgPart::Enc(a, b) => {
            let body = message_of(alloc, store, a)?;
            let key = message_of(alloc, store, b)?;
            Msg::sealed(alloc, body, key)
        }
        MsgPart::Hash(a) => {
            let part = boxed(alloc, message_of(alloc, store, a))?;
            Ok(Msg::Hash(part))
        }
    }
}
