// Questions that are answered at once, without a look at what is kept.

ghost use Rattle.std.specs.Prelude.{IsTrue, true, IfSome, [], length};
ghost use Rattle.spi_term.specs.Term.{name};
ghost use Rattle.spi_message.specs.declared.answers.Asked.TheVariants as questions;
ghost use Rattle.spi_message.specs.Answered.{TellsTest, CanAsk};
ghost use Rattle.spi_message.specs.Asking.{IsEnvironment, IsAsked, IsTyped};

use crate::plain::{is_plain, is_plain_type};
use spi_intern::{MsgId, MsgPart, Store, TyId};

// Whether the name has a type that stands under no binder.
#[inline(always)]
fn is_name_of(store: &Store, types: &[TyId], x: u32, t: TyId) -> bool
    requires { IsAsked store.now types.now t [] }
    ensures { IsTyped store.now types.now (name x) t [] result }
{
    // The count is asked for what its answer says: types with two numbers aren't the same.
    let _ = store.distinct();
    match types.get(x as usize) {
        Some(known) => *known == t,
        None => false,
    }
}

/// Whether the message has the type, where it is a name.
#[inline(always)]
pub fn told_type(store: &Store, types: &[TyId], m: MsgId, t: TyId) -> Option<bool>
    requires names { IsEnvironment store.now types.now }
    requires asked { CanAsk store.now (length types.now) (questions.Typed m t) }
    ensures { IfSome result (TellsTest store.now types.now (questions.Typed m t)) }
{
    match store.part(m) {
        MsgPart::Name(x) => Some(is_name_of(store, types, x, t)),
        _ => None,
    }
}

/// Whether it is told that the message is a label.
#[inline(always)]
pub fn is_told_label(store: &Store, types: &[TyId], m: MsgId) -> bool
    requires { CanAsk store.now (length types.now) (questions.Labelled m) }
    ensures { IsTrue result → TellsTest store.now types.now (questions.Labelled m) true }
{
    is_plain(store, types.len(), 0, m)
}

/// Whether it is told that the type is good.
#[inline(always)]
pub fn is_told_good(store: &Store, types: &[TyId], t: TyId) -> bool
    requires { CanAsk store.now (length types.now) (questions.Good t) }
    ensures { IsTrue result → TellsTest store.now types.now (questions.Good t) true }
{
    is_plain_type(store, types.len(), 0, t)
}
