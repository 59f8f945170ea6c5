// What premises are asked of: a message's type, and a process with the names that a form binds.
ghost use Rattle.std.specs.Prelude.{[], ◌∷◌, length, IfOk};
ghost use Rattle.spi_term.specs.Term.{name, Ty as TypeTerm};
ghost use Rattle.spi_term.specs.Term as Term;
ghost use Rattle.spi_term.specs.Substitution.{ty_put};
ghost use Rattle.spi_term.specs.View.{message, ty as type_of};
ghost use Rattle.spi_intern.specs.Given.{IsGiven};
ghost use Rattle.spi_message.specs.Judging.{IsKept};
ghost use Rattle.spi_message.specs.Tested.{NumbersType};
ghost use Rattle.spi_audit.specs.Asked.{IsTypeAsked, BeginsWalk};

use crate::NoMemory;
use crate::asked::{Asked, Binding};
use spi_intern::TyId;
use spi_message::Judge;
use spi_term::{Msg, Ty};
use std::alloc::Global;

/// Whether the message has the type with this number.
#[inline(always)]
pub fn asked_at(judge: &mut Judge, m: &Msg, t: TyId) -> Result<Asked, NoMemory>
    ensures at { IfOk result
        (λ a. (u : TypeTerm) → NumbersType judge.old t u
        → IsTypeAsked judge.new.store a (message m.now) u) }
    ensures kept { IsKept judge.old judge.new }
{
    let id = judge.message(m)?;
    Ok(Asked::Message(id, t))
}

/// Whether the message has type `Un`.
#[tactic(auto, using(spi_message::proofs::Tested::kept_more))]
pub fn asked_untrusted(alloc: Global, judge: &mut Judge, m: &Msg) -> Result<Asked, NoMemory>
    ensures at { IfOk result (λ a. IsTypeAsked judge.new.store a (message m.now) Term.un) }
    ensures kept { IsKept judge.old judge.new }
{
    let un = judge.ty(alloc, &Ty::Un)?;
    asked_at(judge, m, un)
}

/// The process that begins at `body`, with no name more.
pub fn begun(judge: &Judge, body: u32) -> Asked
    ensures { BeginsWalk judge.now judge.now body (λ e. []) result }
{
    Asked::Process(body, judge.len(), Binding::Nothing)
}

/// The process that begins at `body`, with one name of this type more.
pub fn begun_one(alloc: Global, judge: &mut Judge, t: &Ty, body: u32) -> Result<Asked, NoMemory>
    ensures begins { IfOk result (BeginsWalk judge.old judge.new body (λ e. type_of t.now ∷ [])) }
    ensures kept { IsKept judge.old judge.new }
{
    let scope = judge.len();
    let id = judge.ty(alloc, t)?;
    Ok(Asked::Process(body, scope, Binding::OneName(id)))
}

/// The process that begins at `body`, with one name of the type with this number more.
#[inline(always)]
pub fn begun_one_at(judge: &Judge, t: TyId, body: u32) -> Asked
    ensures { (u : TypeTerm) → NumbersType judge.now t u
        → BeginsWalk judge.now judge.now body (λ e. u ∷ []) result }
{
    Asked::Process(body, judge.len(), Binding::OneName(t))
}

/// The process that begins at `body`, with one name more, of the type with this number, which stands under a binder for
/// which this message stands.
#[tactic(auto, using(spi_message::proofs::Tested::kept_more))]
pub fn begun_opened_at(
    alloc: Global,
    judge: &mut Judge,
    t: TyId,
    value: &Msg,
    body: u32,
) -> Result<Asked, NoMemory>
    requires { IsGiven judge.old.store t.place }
    ensures begins { IfOk result
        (λ a. (u : TypeTerm) → NumbersType judge.old t u
        → BeginsWalk judge.old judge.new body (λ e. ty_put (message value.now) u ∷ []) a) }
    ensures kept { IsKept judge.old judge.new }
{
    let scope = judge.len();
    let m = judge.message(value)?;
    let filled = judge.opened(alloc, t, m)?;
    Ok(Asked::Process(body, scope, Binding::OneName(filled)))
}

/// The process that begins at `body`, with two names more, of the types with these numbers, of which the second one
/// stands under a binder for the first name.
pub fn begun_two_at(
    alloc: Global,
    judge: &mut Judge,
    first: TyId,
    second: TyId,
    body: u32,
) -> Result<Asked, NoMemory>
    requires { IsGiven judge.old.store second.place }
    ensures begins { IfOk result
        (λ a. (t u : TypeTerm) → NumbersType judge.old first t → NumbersType judge.old second u
        → BeginsWalk judge.old judge.new body (λ e. t ∷ (ty_put (name (length e)) u ∷ [])) a) }
    ensures kept { IsKept judge.old judge.new }
{
    let scope = judge.len();
    let value = Msg::Name(scope);
    let m = judge.message(&value)?;
    let filled = judge.opened(alloc, second, m)?;
    Ok(Asked::Process(body, scope, Binding::TwoNames(first, filled)))
}

/// The process that begins at `body`, with two names more, of which the second one's type stands under a binder for the
/// first.
#[tactic(auto, using(spi_message::proofs::Tested::kept_more))]
pub fn begun_two(
    alloc: Global,
    judge: &mut Judge,
    first: &Ty,
    second: &Ty,
    body: u32,
) -> Result<Asked, NoMemory>
    ensures begins { IfOk result
        (BeginsWalk judge.old judge.new body
        (λ e. type_of first.now ∷ (ty_put (name (length e)) (type_of second.now) ∷ []))) }
    ensures kept { IsKept judge.old judge.new }
{
    let scope = judge.len();
    let value = Msg::Name(scope);
    let a = judge.ty(alloc, first)?;
    let b = judge.ty(alloc, second)?;
    let m = judge.message(&value)?;
    let filled = judge.opened(alloc, b, m)?;
    Ok(Asked::Process(body, scope, Binding::TwoNames(a, filled)))
}
