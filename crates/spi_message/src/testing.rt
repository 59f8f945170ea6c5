// Tests that are asked of a judge: an answer is so in each environment that the judge stands for.

ghost use Rattle.std.specs.Prelude.{◌+◌, ◌^◌, ◌<◌, length, IfOk, IfSome, IfNone};
ghost use Rattle.spi_term.specs.Term as Term;
ghost use Rattle.spi_term.specs.Spelling.{ty_nodes};
ghost use Rattle.spi_term.specs.View.{message, ty as type_of};
ghost use Rattle.spi_message.specs.Asking.{IsEnvironment};
ghost use Rattle.spi_message.specs.Judging.{IsKept};
ghost use Rattle.spi_message.specs.Tested.{IsTest, IsNonceAt, IsNoNonce};
ghost use Rattle.spi_message.specs.Tests.{labelled, good};

use crate::heads::is_nonce_type;
use crate::{Judge, NoMemory};
use spi_intern::TyId;
use spi_term::{Msg, Ty};
use std::alloc::Global;

/// Whether the message is a label. An error is want of memory.
#[tactic(auto, using(crate::proofs::Tested::kept_more))]
pub fn is_labelled(alloc: Global, judge: &mut Judge, m: &Msg) -> Result<bool, NoMemory>
    ensures answer { IfOk result (IsTest judge.old (labelled (message m.now))) }
    ensures kept { IsKept judge.old judge.new }
{
    let id = judge.message(m)?;
    judge.is_label(alloc, id)
}

/// Whether the type is good. The names in scope and the nodes of the type are at most 4,294,967,295 together. An error is
/// want of memory.
#[tactic(auto, using(crate::proofs::Tested::kept_more))]
pub fn is_good(alloc: Global, judge: &mut Judge, t: &Ty) -> Result<bool, NoMemory>
    requires { length judge.old.types + ty_nodes (type_of t.now) < 2 ^ 32 }
    ensures answer { IfOk result (IsTest judge.old (λ e. good e (type_of t.now))) }
    ensures kept { IsKept judge.old judge.new }
{
    let id = judge.ty(alloc, t)?;
    judge.good_type(alloc, id)
}

// The type of this name, where it is a Nonce type.
fn nonce_at_name(judge: &Judge, x: u32) -> Option<TyId>
    requires { IsEnvironment judge.now.store judge.now.types }
    ensures some { IfSome result (IsNonceAt judge.now (Term.name x)) }
    ensures none { IfNone result (IsNoNonce judge.now (Term.name x)) }
{
    if x >= judge.len() {
        return None;
    }
    let t = judge.at(x);
    let store = judge.store();
    if is_nonce_type(store, t) {
        Some(t)
    } else {
        None
    }
}

/// The type of the message, where it is a name of a Nonce type.
pub fn nonce_at(judge: &Judge, m: &Msg) -> Option<TyId>
    requires { IsEnvironment judge.now.store judge.now.types }
    ensures some { IfSome result (IsNonceAt judge.now (message m.now)) }
    ensures none { IfNone result (IsNoNonce judge.now (message m.now)) }
{
    match m {
        Msg::Name(x) => nonce_at_name(judge, *x),
        _ => None,
    }
}
