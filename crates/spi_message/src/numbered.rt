// Tests that are asked of a judge by the numbers of its messages and types.

ghost use Rattle.std.specs.Prelude.{◌<◌, length, IfOk};
ghost use Rattle.spi_term.specs.Term as Term;
ghost use Rattle.spi_intern.specs.Given.{IsGiven};
ghost use Rattle.spi_message.specs.Judging.{IsKept, IsGivenSmall};
ghost use Rattle.spi_message.specs.Tested.{IsTest, NumbersMessage, NumbersType};
ghost use Rattle.spi_message.specs.Tests.{typed, labelled, good};

use crate::{Judge, NoMemory};
use spi_intern::{MsgId, TyId};
use std::alloc::Global;

/// Whether the message with a number has the type with another. An error is want of memory.
pub fn is_typed(alloc: Global, judge: &mut Judge, m: MsgId, t: TyId) -> Result<bool, NoMemory>
    requires message { m.place < length judge.old.store.messages }
    requires ty { IsGiven judge.old.store t.place }
    ensures answer { IfOk result
        (λ b. (n : Term.Message) (u : Term.Ty) → NumbersMessage judge.old m n → NumbersType judge.old t u
        → IsTest judge.old (λ e. typed n e u) b) }
    ensures kept { IsKept judge.old judge.new }
{
    judge.has_type(alloc, m, t)
}

/// Whether the message with this number is a label. An error is want of memory.
pub fn is_labelled(alloc: Global, judge: &mut Judge, m: MsgId) -> Result<bool, NoMemory>
    requires { m.place < length judge.old.store.messages }
    ensures answer { IfOk result
        (λ b. (n : Term.Message) → NumbersMessage judge.old m n → IsTest judge.old (labelled n) b) }
    ensures kept { IsKept judge.old judge.new }
{
    judge.is_label(alloc, m)
}

/// Whether the type with this number is good. The names in scope and the nodes of the type are at most 4,294,967,295
/// together. An error is want of memory.
pub fn is_good(alloc: Global, judge: &mut Judge, t: TyId) -> Result<bool, NoMemory>
    requires { IsGivenSmall judge.old.store t.place (length judge.old.types) }
    ensures answer { IfOk result
        (λ b. (u : Term.Ty) → NumbersType judge.old t u → IsTest judge.old (λ e. good e u) b) }
    ensures kept { IsKept judge.old judge.new }
{
    judge.good_type(alloc, t)
}
