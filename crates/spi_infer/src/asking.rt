// What each form asks for itself, asked of a judge by the numbers of the form's terms.
ghost use Rattle.std.specs.Prelude.{◌≡◌, ◌+◌, ◌^◌, ◌<◌, ◌≤◌, ◌&&◌, ◌||◌, IfOk, length};
ghost use Rattle.spi_term.specs.Term as Term;
ghost use Rattle.spi_term.specs.Term.{Branches, Splits, Selects, Decrypts, un, key, pair_ty};
ghost use Rattle.spi_term.specs.Spelling.{HasSmallParts, ty_nodes};
ghost use Rattle.spi_term.specs.View.{message, ty as type_of, shape_of};
ghost use Rattle.spi_message.specs.Asking.{IsEnvironment};
ghost use Rattle.spi_message.specs.Judging.{IsKept, IsGivenSmall};
ghost use Rattle.spi_message.specs.Tests.{is_un, is_fresh, nonce_of, typed, good};
ghost use Rattle.spi_infer.specs.Forms.{prefix_ok, fork_ok, cast_ok};
ghost use Rattle.spi_message.specs.Forms.{is_nonce};
ghost use Rattle.spi_infer.specs.Passes.{note_of};
ghost use Rattle.spi_message.specs.Tested.{IsTest, NumbersMessage, NumbersType};
ghost use Rattle.spi_infer.specs.Terms.{IsMessage, IsType, AreTermsOf};

use crate::terms::Terms;
use spi_intern::{MsgId, TyId};
use spi_message::numbered::{is_good, is_labelled, is_typed};
use spi_message::slices::is_un_type;
use spi_message::{Judge, NoMemory, nonce_at};
use spi_term::{Form, Msg, Node, Ty};
use std::alloc::Global;

fn are_un(first: &Ty, second: &Ty) -> bool
    ensures { result ≡ (is_un (type_of first.now) && is_un (type_of second.now)) }
{
    is_un_type(first) && is_un_type(second)
}

// The message has the type, and something else holds.
fn is_typed_where(
    alloc: Global,
    judge: &mut Judge,
    m: MsgId,
    t: TyId,
    holds: bool,
) -> Result<bool, NoMemory>
    requires message { IsMessage judge.old m }
    requires ty { IsType judge.old t }
    ensures answer { IfOk result
        (λ b. (n : Term.Message) (u : Term.Ty) → NumbersMessage judge.old m n → NumbersType judge.old t u
        → IsTest judge.old (λ e. typed n e u && holds) b) }
    ensures kept { IsKept judge.old judge.new }
{
    let typed = is_typed(alloc, judge, m, t)?;
    Ok(typed && holds)
}

// Both messages have type Un.
#[tactic(auto, using(spi_message::proofs::Tested::kept_more))]
fn are_untrusted(alloc: Global, judge: &mut Judge, terms: Terms) -> Result<bool, NoMemory>
    requires un { NumbersType judge.old terms.un un }
    requires message { IsMessage judge.old terms.message }
    requires other { IsMessage judge.old terms.other }
    ensures answer { IfOk result
        (λ b. (m n : Term.Message) → NumbersMessage judge.old terms.message m
        → NumbersMessage judge.old terms.other n → IsTest judge.old (λ e. typed m e un && typed n e un) b) }
    ensures kept { IsKept judge.old judge.new }
{
    let first = is_typed(alloc, judge, terms.message, terms.un)?;
    if first {
        is_typed(alloc, judge, terms.other, terms.un)
    } else {
        Ok(false)
    }
}

// The channel and the name that is bound have type Un.
fn is_input_ok(alloc: Global, judge: &mut Judge, terms: Terms, t: &Ty) -> Result<bool, NoMemory>
    requires un { NumbersType judge.old terms.un un }
    requires message { IsMessage judge.old terms.message }
    ensures answer { IfOk result
        (λ b. (m : Term.Message) → NumbersMessage judge.old terms.message m
        → IsTest judge.old (λ e. typed m e un && is_un (type_of t.now)) b) }
    ensures kept { IsKept judge.old judge.new }
{
    let untrusted = is_un_type(t);
    is_typed_where(alloc, judge, terms.message, terms.un, untrusted)
}

// The message has a type, and the other type is good.
#[tactic(auto, using(spi_message::proofs::Tested::kept_more))]
fn is_typed_over_good(
    alloc: Global,
    judge: &mut Judge,
    m: MsgId,
    t: TyId,
    over: TyId,
) -> Result<bool, NoMemory>
    requires message { IsMessage judge.old m }
    requires ty { IsType judge.old t }
    requires over { IsGivenSmall judge.old.store over.place (length judge.old.types) }
    ensures answer { IfOk result
        (λ b. (n : Term.Message) (u v : Term.Ty) → NumbersMessage judge.old m n → NumbersType judge.old t u
        → NumbersType judge.old over v → IsTest judge.old (λ e. typed n e u && good e v) b) }
    ensures kept { IsKept judge.old judge.new }
{
    let first = is_typed(alloc, judge, m, t)?;
    if first {
        is_good(alloc, judge, over)
    } else {
        Ok(false)
    }
}

// The message has a type and the other type is good, or the message has type Un and something else holds.
#[tactic(auto, using(spi_message::proofs::Tested::kept_more))]
fn is_typed_or_untrusted(
    alloc: Global,
    judge: &mut Judge,
    terms: Terms,
    m: MsgId,
    t: TyId,
    over: TyId,
    holds: bool,
) -> Result<bool, NoMemory>
    requires un { NumbersType judge.old terms.un un }
    requires message { IsMessage judge.old m }
    requires ty { IsType judge.old t }
    requires over { IsGivenSmall judge.old.store over.place (length judge.old.types) }
    ensures answer { IfOk result
        (λ b. (n : Term.Message) (u v : Term.Ty) → NumbersMessage judge.old m n → NumbersType judge.old t u
        → NumbersType judge.old over v
        → IsTest judge.old (λ e. (typed n e u && good e v) || (typed n e un && holds)) b) }
    ensures kept { IsKept judge.old judge.new }
{
    let typed = is_typed_over_good(alloc, judge, m, t, over)?;
    if typed {
        Ok(true)
    } else {
        is_typed_where(alloc, judge, m, terms.un, holds)
    }
}

// A split by the type of the pair.
#[tactic(auto, using(spi_message::proofs::Tested::kept_more))]
fn is_split_ok(
    alloc: Global,
    judge: &mut Judge,
    terms: Terms,
    first: &Ty,
    second: &Ty,
) -> Result<bool, NoMemory>
    requires small { length judge.old.types + ty_nodes (pair_ty (type_of first.now) (type_of second.now))
        < 2 ^ 32 }
    requires un { NumbersType judge.old terms.un un }
    requires message { IsMessage judge.old terms.message }
    requires first { NumbersType judge.old terms.ty (type_of first.now) }
    requires second { NumbersType judge.old terms.second (type_of second.now) }
    ensures answer { IfOk result
        (λ b. (m : Term.Message) → NumbersMessage judge.old terms.message m
        → IsTest judge.old (λ e. prefix_ok e (Splits m (type_of first.now) (type_of second.now))) b) }
    ensures kept { IsKept judge.old judge.new }
{
    let both = judge.pair_over(terms.ty, terms.second)?;
    let untrusted = are_un(first, second);
    is_typed_or_untrusted(alloc, judge, terms, terms.message, both, both, untrusted)
}

// What a select asks where the pair has its type.
#[tactic(auto, using(spi_message::proofs::Tested::kept_more))]
fn is_select_typed(
    alloc: Global,
    judge: &mut Judge,
    terms: Terms,
    both: TyId,
) -> Result<bool, NoMemory>
    requires message { IsMessage judge.old terms.message }
    requires other { IsMessage judge.old terms.other }
    requires ty { IsType judge.old terms.ty }
    requires both { IsGivenSmall judge.old.store both.place (length judge.old.types) }
    ensures answer { IfOk result
        (λ b. (m n : Term.Message) (t p : Term.Ty) → NumbersMessage judge.old terms.message m
        → NumbersMessage judge.old terms.other n → NumbersType judge.old terms.ty t
        → NumbersType judge.old both p
        → IsTest judge.old (λ e. typed m e p && (typed n e t && good e p)) b) }
    ensures kept { IsKept judge.old judge.new }
{
    let whole = is_typed(alloc, judge, terms.message, both)?;
    if whole {
        is_typed_over_good(alloc, judge, terms.other, terms.ty, both)
    } else {
        Ok(false)
    }
}

// What a select asks of untrusted messages, where something else holds.
#[tactic(auto, using(spi_message::proofs::Tested::kept_more))]
fn is_select_untrusted(
    alloc: Global,
    judge: &mut Judge,
    terms: Terms,
    holds: bool,
) -> Result<bool, NoMemory>
    requires un { NumbersType judge.old terms.un un }
    requires message { IsMessage judge.old terms.message }
    requires other { IsMessage judge.old terms.other }
    ensures answer { IfOk result
        (λ b. (m n : Term.Message) → NumbersMessage judge.old terms.message m
        → NumbersMessage judge.old terms.other n
        → IsTest judge.old (λ e. typed m e un && (typed n e un && holds)) b) }
    ensures kept { IsKept judge.old judge.new }
{
    let whole = is_typed(alloc, judge, terms.message, terms.un)?;
    if whole {
        is_typed_where(alloc, judge, terms.other, terms.un, holds)
    } else {
        Ok(false)
    }
}

#[tactic(auto, using(spi_message::proofs::Tested::kept_more))]
fn is_select_ok(
    alloc: Global,
    judge: &mut Judge,
    terms: Terms,
    first: &Ty,
    second: &Ty,
) -> Result<bool, NoMemory>
    requires small { length judge.old.types + ty_nodes (pair_ty (type_of first.now) (type_of second.now))
        < 2 ^ 32 }
    requires un { NumbersType judge.old terms.un un }
    requires message { IsMessage judge.old terms.message }
    requires other { IsMessage judge.old terms.other }
    requires first { NumbersType judge.old terms.ty (type_of first.now) }
    requires second { NumbersType judge.old terms.second (type_of second.now) }
    ensures answer { IfOk result
        (λ b. (m n : Term.Message) → NumbersMessage judge.old terms.message m
        → NumbersMessage judge.old terms.other n
        → IsTest judge.old (λ e. prefix_ok e (Selects m (type_of first.now) n (type_of second.now))) b) }
    ensures kept { IsKept judge.old judge.new }
{
    let both = judge.pair_over(terms.ty, terms.second)?;
    let typed = is_select_typed(alloc, judge, terms, both)?;
    if typed {
        Ok(true)
    } else {
        let untrusted = are_un(first, second);
        is_select_untrusted(alloc, judge, terms, untrusted)
    }
}

// The key has its type, or it and the name that is bound have type Un.
#[tactic(auto, using(spi_message::proofs::Tested::kept_more))]
fn is_key_ok(alloc: Global, judge: &mut Judge, terms: Terms, t: &Ty) -> Result<bool, NoMemory>
    requires small { length judge.old.types + ty_nodes (type_of t.now) < 2 ^ 32 }
    requires un { NumbersType judge.old terms.un un }
    requires other { IsMessage judge.old terms.other }
    requires ty { NumbersType judge.old terms.ty (type_of t.now) }
    ensures answer { IfOk result
        (λ b. (n : Term.Message) → NumbersMessage judge.old terms.other n
        → IsTest judge.old
        (λ e. (typed n e (Term.key (type_of t.now)) && good e (type_of t.now)) ||
        (typed n e un && is_un (type_of t.now))) b) }
    ensures kept { IsKept judge.old judge.new }
{
    let wanted = judge.key_over(terms.ty)?;
    let untrusted = is_un_type(t);
    is_typed_or_untrusted(
        alloc,
        judge,
        terms,
        terms.other,
        wanted,
        terms.ty,
        untrusted,
    )
}

#[tactic(auto, using(spi_message::proofs::Tested::kept_more))]
fn is_decrypt_ok(alloc: Global, judge: &mut Judge, terms: Terms, t: &Ty) -> Result<bool, NoMemory>
    requires small { length judge.old.types + ty_nodes (type_of t.now) < 2 ^ 32 }
    requires un { NumbersType judge.old terms.un un }
    requires message { IsMessage judge.old terms.message }
    requires other { IsMessage judge.old terms.other }
    requires ty { NumbersType judge.old terms.ty (type_of t.now) }
    ensures answer { IfOk result
        (λ b. (m n : Term.Message) → NumbersMessage judge.old terms.message m
        → NumbersMessage judge.old terms.other n
        → IsTest judge.old (λ e. prefix_ok e (Decrypts m (type_of t.now) n)) b) }
    ensures kept { IsKept judge.old judge.new }
{
    let whole = is_typed(alloc, judge, terms.message, terms.un)?;
    if whole {
        is_key_ok(alloc, judge, terms, t)
    } else {
        Ok(false)
    }
}

// Both types are good.
#[tactic(auto, using(spi_message::proofs::Tested::kept_more))]
fn are_good(alloc: Global, judge: &mut Judge, left: TyId, right: TyId) -> Result<bool, NoMemory>
    requires left { IsGivenSmall judge.old.store left.place (length judge.old.types) }
    requires right { IsGivenSmall judge.old.store right.place (length judge.old.types) }
    ensures answer { IfOk result
        (λ b. (t u : Term.Ty) → NumbersType judge.old left t → NumbersType judge.old right u
        → IsTest judge.old (λ e. good e t && good e u) b) }
    ensures kept { IsKept judge.old judge.new }
{
    let first = is_good(alloc, judge, left)?;
    if first {
        is_good(alloc, judge, right)
    } else {
        Ok(false)
    }
}

// What a case asks where the sum has its type.
#[tactic(auto, using(spi_message::proofs::Tested::kept_more))]
fn is_branch_typed(
    alloc: Global,
    judge: &mut Judge,
    terms: Terms,
    both: TyId,
) -> Result<bool, NoMemory>
    requires message { IsMessage judge.old terms.message }
    requires both { IsType judge.old both }
    requires left { IsGivenSmall judge.old.store terms.ty.place (length judge.old.types) }
    requires right { IsGivenSmall judge.old.store terms.second.place (length judge.old.types) }
    ensures answer { IfOk result
        (λ b. (m : Term.Message) (t u s : Term.Ty) → NumbersMessage judge.old terms.message m
        → NumbersType judge.old terms.ty t → NumbersType judge.old terms.second u
        → NumbersType judge.old both s
        → IsTest judge.old (λ e. typed m e s && (good e t && good e u)) b) }
    ensures kept { IsKept judge.old judge.new }
{
    let whole = is_typed(alloc, judge, terms.message, both)?;
    if whole {
        are_good(alloc, judge, terms.ty, terms.second)
    } else {
        Ok(false)
    }
}

#[tactic(auto, using(spi_message::proofs::Tested::kept_more))]
fn is_branch_ok(
    alloc: Global,
    judge: &mut Judge,
    terms: Terms,
    left: &Ty,
    right: &Ty,
) -> Result<bool, NoMemory>
    requires small { length judge.old.types + ty_nodes (Term.sum_ty (type_of left.now) (type_of right.now))
        < 2 ^ 32 }
    requires un { NumbersType judge.old terms.un un }
    requires message { IsMessage judge.old terms.message }
    requires left { NumbersType judge.old terms.ty (type_of left.now) }
    requires right { NumbersType judge.old terms.second (type_of right.now) }
    ensures answer { IfOk result
        (λ b. (m : Term.Message) → NumbersMessage judge.old terms.message m
        → IsTest judge.old (λ e. fork_ok e (Branches m (type_of left.now) (type_of right.now))) b) }
    ensures kept { IsKept judge.old judge.new }
{
    let both = judge.sum_over(terms.ty, terms.second)?;
    let typed = is_branch_typed(alloc, judge, terms, both)?;
    if typed {
        Ok(true)
    } else {
        let untrusted = are_un(left, right);
        is_typed_where(alloc, judge, terms.message, terms.un, untrusted)
    }
}

fn is_nonce_or_untrusted(
    alloc: Global,
    judge: &mut Judge,
    terms: Terms,
    nonce: &Msg,
) -> Result<bool, NoMemory>
    requires names { IsEnvironment judge.old.store judge.old.types }
    requires un { NumbersType judge.old terms.un un }
    requires other { NumbersMessage judge.old terms.other (message nonce.now) }
    ensures answer { IfOk result
        (IsTest judge.old
        (λ e. is_nonce (nonce_of e (message nonce.now)) || typed (message nonce.now) e un)) }
    ensures kept { IsKept judge.old judge.new }
{
    match nonce_at(judge, nonce) {
        Some(_) => Ok(true),
        None => is_typed(alloc, judge, terms.other, terms.un),
    }
}

#[tactic(auto, using(spi_message::proofs::Tested::kept_more))]
fn is_check_ok(
    alloc: Global,
    judge: &mut Judge,
    terms: Terms,
    nonce: &Msg,
) -> Result<bool, NoMemory>
    requires names { IsEnvironment judge.old.store judge.old.types }
    requires un { NumbersType judge.old terms.un un }
    requires message { IsMessage judge.old terms.message }
    requires other { NumbersMessage judge.old terms.other (message nonce.now) }
    ensures answer { IfOk result
        (λ b. (m : Term.Message) → NumbersMessage judge.old terms.message m
        → IsTest judge.old
        (λ e. typed m e un &&
        (is_nonce (nonce_of e (message nonce.now)) || typed (message nonce.now) e un)) b) }
    ensures kept { IsKept judge.old judge.new }
{
    let whole = is_typed(alloc, judge, terms.message, terms.un)?;
    if whole {
        is_nonce_or_untrusted(alloc, judge, terms, nonce)
    } else {
        Ok(false)
    }
}

fn is_cast_type_ok(alloc: Global, judge: &mut Judge, id: TyId, t: &Ty) -> Result<bool, NoMemory>
    requires small { length judge.old.types + ty_nodes (type_of t.now) < 2 ^ 32 }
    requires ty { NumbersType judge.old id (type_of t.now) }
    ensures answer { IfOk result (IsTest judge.old (λ e. cast_ok e (type_of t.now))) }
    ensures kept { IsKept judge.old judge.new }
{
    match t {
        Ty::Un => Ok(true),
        Ty::Nonce(_) => is_good(alloc, judge, id),
        _ => Ok(false),
    }
}

#[tactic(auto, using(spi_message::proofs::Tested::kept_more))]
fn is_cast_ok(alloc: Global, judge: &mut Judge, terms: Terms, t: &Ty) -> Result<bool, NoMemory>
    requires small { length judge.old.types + ty_nodes (type_of t.now) < 2 ^ 32 }
    requires un { NumbersType judge.old terms.un un }
    requires message { IsMessage judge.old terms.message }
    requires ty { NumbersType judge.old terms.ty (type_of t.now) }
    ensures answer { IfOk result
        (λ b. (m : Term.Message) → NumbersMessage judge.old terms.message m
        → IsTest judge.old (λ e. typed m e un && cast_ok e (type_of t.now)) b) }
    ensures kept { IsKept judge.old judge.new }
{
    let whole = is_typed(alloc, judge, terms.message, terms.un)?;
    if whole {
        is_cast_type_ok(alloc, judge, terms.ty, t)
    } else {
        Ok(false)
    }
}

fn is_fresh_ok(alloc: Global, judge: &mut Judge, id: TyId, t: &Ty) -> Result<bool, NoMemory>
    requires small { length judge.old.types + ty_nodes (type_of t.now) < 2 ^ 32 }
    requires ty { NumbersType judge.old id (type_of t.now) }
    ensures answer { IfOk result
        (IsTest judge.old (λ e. is_fresh (type_of t.now) && good e (type_of t.now))) }
    ensures kept { IsKept judge.old judge.new }
{
    match t {
        Ty::Un => Ok(true),
        Ty::Key(_) => is_good(alloc, judge, id),
        _ => Ok(false),
    }
}

/// Whether what the form asks for itself holds, by the numbers of its terms.
pub fn is_form_ok(
    alloc: Global,
    judge: &mut Judge,
    node: &Node,
    terms: Terms,
) -> Result<bool, NoMemory>
    requires small { HasSmallParts (shape_of node.now) }
    requires room { length judge.old.types ≤ 300001 }
    requires names { IsEnvironment judge.old.store judge.old.types }
    requires terms { AreTermsOf judge.old (shape_of node.now) terms }
    ensures answer { IfOk result (IsTest judge.old (λ e. (note_of e (shape_of node.now)).fine)) }
    ensures kept { IsKept judge.old judge.new }
{
    match &node.form {
        Form::Send { .. } => are_untrusted(alloc, judge, terms),
        Form::Recv { ty, .. } => is_input_ok(alloc, judge, terms, ty),
        Form::Serve { ty, .. } => is_input_ok(alloc, judge, terms, ty),
        Form::Split { first, second, .. } => is_split_ok(alloc, judge, terms, first, second),
        Form::Select { first, second, .. } => is_select_ok(alloc, judge, terms, first, second),
        Form::Branch { left, right, .. } => is_branch_ok(alloc, judge, terms, left, right),
        Form::Decrypt { ty, .. } => is_decrypt_ok(alloc, judge, terms, ty),
        Form::Check { nonce, .. } => is_check_ok(alloc, judge, terms, nonce),
        Form::Begin { .. } => is_labelled(alloc, judge, terms.message),
        Form::End { .. } => is_labelled(alloc, judge, terms.message),
        Form::EndMany { .. } => is_labelled(alloc, judge, terms.message),
        Form::Cast { ty, .. } => is_cast_ok(alloc, judge, terms, ty),
        Form::Fresh { ty, .. } => is_fresh_ok(alloc, judge, terms.ty, ty),
        Form::Par { .. } | Form::Stop => Ok(true),
    }
}
