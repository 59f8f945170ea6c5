// Uses of the rules of processes, form by form.
ghost use Rattle.std.specs.Prelude.{◌+◌, ◌^◌, ◌<◌, ◌≤◌, length, IfOk};
ghost use Rattle.spi_term.specs.Term as Term;
ghost use Rattle.spi_term.specs.Spelling.{HasSmallParts, ty_nodes};
ghost use Rattle.spi_term.specs.View.{message, ty as type_of, shape_of};
ghost use Rattle.spi_message.specs.Judging.{IsKept};
ghost use Rattle.spi_audit.specs.Fits.{plain};
ghost use Rattle.spi_audit.specs.Asked.{AnswersLeaf, AnswersPrefix, AnswersFork, AnswersNode, TakesUntrusted, TakesGood, TakesLabel};

use crate::asked::{FittingPremises, Premises};
use crate::opening::{
    asked_at, asked_untrusted, begun, begun_one, begun_one_at, begun_opened_at, begun_two,
    begun_two_at,
};
use spi_message::numbered::is_good;
use spi_message::slices::{is_fresh_type, is_un_type};
use spi_message::{Judge, is_labelled, nonce_at};
use spi_rules::Rule;
use spi_term::{Form, Msg, Node, Ty};
use std::alloc::Global;

// A process under one untrusted name.
#[tactic(auto, using(spi_message::proofs::Tested::kept_more, spi_message::proofs::Tested::kept_same))]
fn takes_untrusted(alloc: Global, judge: &mut Judge, m: &Msg, ty: &Ty, body: u32) -> FittingPremises
    ensures answer { IfOk result (TakesUntrusted judge.old judge.new (message m.now) (type_of ty.now) body) }
    ensures kept { IsKept judge.old judge.new }
{
    if is_un_type(ty) {
        let un = judge.ty(alloc, ty)?;
        let first = asked_at(judge, m, un)?;
        let next = begun_one_at(judge, un, body);
        Ok(Some(Premises::TwoPremises(first, next)))
    } else {
        Ok(None)
    }
}

// A process behind a label.
#[tactic(auto, using(spi_message::proofs::Tested::kept_more))]
fn takes_label(alloc: Global, judge: &mut Judge, m: &Msg, body: u32) -> FittingPremises
    ensures answer { IfOk result (TakesLabel judge.old judge.new (message m.now) body) }
    ensures kept { IsKept judge.old judge.new }
{
    if is_labelled(alloc, judge, m)? {
        let next = begun(judge, body);
        Ok(Some(Premises::OnePremise(next)))
    } else {
        Ok(None)
    }
}

#[tactic(auto, using(spi_message::proofs::Tested::kept_more, spi_message::proofs::Tested::kept_same))]
fn of_send(
    alloc: Global,
    judge: &mut Judge,
    rule: Rule,
    channel: &Msg,
    datum: &Msg,
) -> FittingPremises
    ensures answer { IfOk result
        (AnswersLeaf judge.old judge.new rule (Term.Sends (message channel.now) (message datum.now))) }
    ensures kept { IsKept judge.old judge.new }
{
    match rule {
        Rule::ProcOut => {
            let first = asked_untrusted(alloc, judge, channel)?;
            let next = asked_untrusted(alloc, judge, datum)?;
            Ok(Some(Premises::TwoPremises(first, next)))
        }
        _ => Ok(None),
    }
}

fn of_stop(judge: &Judge, rule: Rule) -> Option<Premises>
    ensures { AnswersLeaf judge.now judge.now rule Term.Stops result }
{
    let _ = judge.len();
    match rule {
        Rule::ProcStop => Some(Premises::NoPremise),
        _ => None,
    }
}

#[tactic(auto, using(spi_message::proofs::Tested::kept_same))]
fn of_recv(
    alloc: Global,
    judge: &mut Judge,
    rule: Rule,
    m: &Msg,
    ty: &Ty,
    body: u32,
) -> FittingPremises
    ensures answer { IfOk result
        (AnswersPrefix judge.old judge.new rule (Term.Recvs (message m.now) (type_of ty.now)) body) }
    ensures kept { IsKept judge.old judge.new }
{
    match rule {
        Rule::ProcIn => takes_untrusted(alloc, judge, m, ty, body),
        _ => Ok(None),
    }
}

#[tactic(auto, using(spi_message::proofs::Tested::kept_same))]
fn of_serve(
    alloc: Global,
    judge: &mut Judge,
    rule: Rule,
    m: &Msg,
    ty: &Ty,
    body: u32,
) -> FittingPremises
    ensures answer { IfOk result
        (AnswersPrefix judge.old judge.new rule (Term.Serves (message m.now) (type_of ty.now)) body) }
    ensures kept { IsKept judge.old judge.new }
{
    match rule {
        Rule::ProcRepeat => takes_untrusted(alloc, judge, m, ty, body),
        _ => Ok(None),
    }
}

#[tactic(auto, using(spi_message::proofs::Tested::kept_more, spi_message::proofs::Tested::kept_same))]
fn split_typed(
    alloc: Global,
    judge: &mut Judge,
    whole: &Msg,
    first: &Ty,
    second: &Ty,
    body: u32,
) -> FittingPremises
    requires { length judge.old.types + (ty_nodes (type_of first.now) + ty_nodes (type_of second.now)) + 1
        < 2 ^ 32 }
    ensures answer { IfOk result
        (AnswersPrefix judge.old judge.new Rule.ProcSplit
        (Term.Splits (message whole.now) (type_of first.now) (type_of second.now)) body) }
    ensures kept { IsKept judge.old judge.new }
{
    let a = judge.ty(alloc, first)?;
    let b = judge.ty(alloc, second)?;
    let both = judge.pair_over(a, b)?;
    if !is_good(alloc, judge, both)? {
        return Ok(None);
    }
    let pair = asked_at(judge, whole, both)?;
    let next = begun_two_at(alloc, judge, a, b, body)?;
    Ok(Some(Premises::TwoPremises(pair, next)))
}

#[tactic(auto, using(spi_message::proofs::Tested::kept_more, spi_message::proofs::Tested::kept_same))]
fn split_untrusted(
    alloc: Global,
    judge: &mut Judge,
    whole: &Msg,
    first: &Ty,
    second: &Ty,
    body: u32,
) -> FittingPremises
    ensures answer { IfOk result
        (AnswersPrefix judge.old judge.new Rule.ProcSplitUn
        (Term.Splits (message whole.now) (type_of first.now) (type_of second.now)) body) }
    ensures kept { IsKept judge.old judge.new }
{
    if !is_un_type(first) {
        return Ok(None);
    }
    if !is_un_type(second) {
        return Ok(None);
    }
    let pair = asked_untrusted(alloc, judge, whole)?;
    let next = begun_two(alloc, judge, first, second, body)?;
    Ok(Some(Premises::TwoPremises(pair, next)))
}

#[tactic(auto, using(spi_message::proofs::Tested::kept_same))]
fn of_split(
    alloc: Global,
    judge: &mut Judge,
    rule: Rule,
    whole: &Msg,
    first: &Ty,
    second: &Ty,
    body: u32,
) -> FittingPremises
    requires { length judge.old.types + (ty_nodes (type_of first.now) + ty_nodes (type_of second.now)) + 1
        < 2 ^ 32 }
    ensures answer { IfOk result
        (AnswersPrefix judge.old judge.new rule
        (Term.Splits (message whole.now) (type_of first.now) (type_of second.now)) body) }
    ensures kept { IsKept judge.old judge.new }
{
    match rule {
        Rule::ProcSplit => split_typed(alloc, judge, whole, first, second, body),
        Rule::ProcSplitUn => split_untrusted(alloc, judge, whole, first, second, body),
        _ => Ok(None),
    }
}

#[tactic(auto, using(spi_message::proofs::Tested::kept_more, spi_message::proofs::Tested::kept_same))]
fn select_typed(
    alloc: Global,
    judge: &mut Judge,
    whole: &Msg,
    first: &Ty,
    equal: &Msg,
    second: &Ty,
    body: u32,
) -> FittingPremises
    requires { length judge.old.types + (ty_nodes (type_of first.now) + ty_nodes (type_of second.now)) + 1
        < 2 ^ 32 }
    ensures answer { IfOk result
        (AnswersPrefix judge.old judge.new Rule.ProcMatch
        (Term.Selects (message whole.now) (type_of first.now) (message equal.now) (type_of second.now))
        body) }
    ensures kept { IsKept judge.old judge.new }
{
    let a = judge.ty(alloc, first)?;
    let b = judge.ty(alloc, second)?;
    let both = judge.pair_over(a, b)?;
    if !is_good(alloc, judge, both)? {
        return Ok(None);
    }
    let pair = asked_at(judge, whole, both)?;
    let part = asked_at(judge, equal, a)?;
    let next = begun_opened_at(alloc, judge, b, equal, body)?;
    Ok(Some(Premises::ThreePremises(pair, part, next)))
}

#[tactic(auto, using(spi_message::proofs::Tested::kept_more, spi_message::proofs::Tested::kept_same))]
fn select_untrusted(
    alloc: Global,
    judge: &mut Judge,
    whole: &Msg,
    first: &Ty,
    equal: &Msg,
    second: &Ty,
    body: u32,
) -> FittingPremises
    ensures answer { IfOk result
        (AnswersPrefix judge.old judge.new Rule.ProcMatchUn
        (Term.Selects (message whole.now) (type_of first.now) (message equal.now) (type_of second.now))
        body) }
    ensures kept { IsKept judge.old judge.new }
{
    if !is_un_type(first) {
        return Ok(None);
    }
    if !is_un_type(second) {
        return Ok(None);
    }
    let pair = asked_untrusted(alloc, judge, whole)?;
    let part = asked_untrusted(alloc, judge, equal)?;
    let next = begun_one(alloc, judge, second, body)?;
    Ok(Some(Premises::ThreePremises(pair, part, next)))
}

#[tactic(auto, using(spi_message::proofs::Tested::kept_same))]
fn of_select(
    alloc: Global,
    judge: &mut Judge,
    rule: Rule,
    whole: &Msg,
    first: &Ty,
    equal: &Msg,
    second: &Ty,
    body: u32,
) -> FittingPremises
    requires { length judge.old.types + (ty_nodes (type_of first.now) + ty_nodes (type_of second.now)) + 1
        < 2 ^ 32 }
    ensures answer { IfOk result
        (AnswersPrefix judge.old judge.new rule
        (Term.Selects (message whole.now) (type_of first.now) (message equal.now) (type_of second.now))
        body) }
    ensures kept { IsKept judge.old judge.new }
{
    match rule {
        Rule::ProcMatch => select_typed(alloc, judge, whole, first, equal, second, body),
        Rule::ProcMatchUn => select_untrusted(alloc, judge, whole, first, equal, second, body),
        _ => Ok(None),
    }
}

#[tactic(auto, using(spi_message::proofs::Tested::kept_more, spi_message::proofs::Tested::kept_same))]
fn branch_typed(
    alloc: Global,
    judge: &mut Judge,
    whole: &Msg,
    left: &Ty,
    on_left: u32,
    right: &Ty,
    on_right: u32,
) -> FittingPremises
    requires { length judge.old.types + (ty_nodes (type_of left.now) + ty_nodes (type_of right.now))
        < 2 ^ 32 }
    ensures answer { IfOk result
        (AnswersFork judge.old judge.new Rule.ProcCase
        (Term.Branches (message whole.now) (type_of left.now) (type_of right.now)) on_left on_right) }
    ensures kept { IsKept judge.old judge.new }
{
    let a = judge.ty(alloc, left)?;
    let b = judge.ty(alloc, right)?;
    if !is_good(alloc, judge, a)? {
        return Ok(None);
    }
    if !is_good(alloc, judge, b)? {
        return Ok(None);
    }
    let both = judge.sum_over(a, b)?;
    let sum = asked_at(judge, whole, both)?;
    let first = begun_one_at(judge, a, on_left);
    let rest = begun_one_at(judge, b, on_right);
    Ok(Some(Premises::ThreePremises(sum, first, rest)))
}

#[tactic(auto, using(spi_message::proofs::Tested::kept_more, spi_message::proofs::Tested::kept_same))]
fn branch_untrusted(
    alloc: Global,
    judge: &mut Judge,
    whole: &Msg,
    left: &Ty,
    on_left: u32,
    right: &Ty,
    on_right: u32,
) -> FittingPremises
    ensures answer { IfOk result
        (AnswersFork judge.old judge.new Rule.ProcCaseUn
        (Term.Branches (message whole.now) (type_of left.now) (type_of right.now)) on_left on_right) }
    ensures kept { IsKept judge.old judge.new }
{
    if !is_un_type(left) {
        return Ok(None);
    }
    if !is_un_type(right) {
        return Ok(None);
    }
    let sum = asked_untrusted(alloc, judge, whole)?;
    let first = begun_one(alloc, judge, left, on_left)?;
    let rest = begun_one(alloc, judge, right, on_right)?;
    Ok(Some(Premises::ThreePremises(sum, first, rest)))
}

#[tactic(auto, using(spi_message::proofs::Tested::kept_same))]
fn of_branch(
    alloc: Global,
    judge: &mut Judge,
    rule: Rule,
    whole: &Msg,
    left: &Ty,
    on_left: u32,
    right: &Ty,
    on_right: u32,
) -> FittingPremises
    requires { length judge.old.types + (ty_nodes (type_of left.now) + ty_nodes (type_of right.now))
        < 2 ^ 32 }
    ensures answer { IfOk result
        (AnswersFork judge.old judge.new rule
        (Term.Branches (message whole.now) (type_of left.now) (type_of right.now)) on_left on_right) }
    ensures kept { IsKept judge.old judge.new }
{
    match rule {
        Rule::ProcCase => branch_typed(alloc, judge, whole, left, on_left, right, on_right),
        Rule::ProcCaseUn => branch_untrusted(alloc, judge, whole, left, on_left, right, on_right),
        _ => Ok(None),
    }
}

fn of_par(judge: &Judge, rule: Rule, first: u32, rest: u32) -> Option<Premises>
    ensures { AnswersFork judge.now judge.now rule Term.Pars first rest result }
{
    match rule {
        Rule::ProcPar => Some(Premises::TwoPremises(begun(judge, first), begun(judge, rest))),
        _ => None,
    }
}

#[tactic(auto, using(spi_message::proofs::Tested::kept_more, spi_message::proofs::Tested::kept_same))]
fn decrypt_typed(
    alloc: Global,
    judge: &mut Judge,
    whole: &Msg,
    ty: &Ty,
    key: &Msg,
    body: u32,
) -> FittingPremises
    requires { length judge.old.types + ty_nodes (type_of ty.now) < 2 ^ 32 }
    ensures answer { IfOk result
        (AnswersPrefix judge.old judge.new Rule.ProcDecrypt
        (Term.Decrypts (message whole.now) (type_of ty.now) (message key.now)) body) }
    ensures kept { IsKept judge.old judge.new }
{
    let id = judge.ty(alloc, ty)?;
    if !is_good(alloc, judge, id)? {
        return Ok(None);
    }
    let wanted = judge.key_over(id)?;
    let sealed = asked_untrusted(alloc, judge, whole)?;
    let by = asked_at(judge, key, wanted)?;
    let next = begun_one_at(judge, id, body);
    Ok(Some(Premises::ThreePremises(sealed, by, next)))
}

#[tactic(auto, using(spi_message::proofs::Tested::kept_more, spi_message::proofs::Tested::kept_same))]
fn decrypt_untrusted(
    alloc: Global,
    judge: &mut Judge,
    whole: &Msg,
    ty: &Ty,
    key: &Msg,
    body: u32,
) -> FittingPremises
    ensures answer { IfOk result
        (AnswersPrefix judge.old judge.new Rule.ProcDecryptUn
        (Term.Decrypts (message whole.now) (type_of ty.now) (message key.now)) body) }
    ensures kept { IsKept judge.old judge.new }
{
    if !is_un_type(ty) {
        return Ok(None);
    }
    let sealed = asked_untrusted(alloc, judge, whole)?;
    let by = asked_untrusted(alloc, judge, key)?;
    let next = begun_one(alloc, judge, ty, body)?;
    Ok(Some(Premises::ThreePremises(sealed, by, next)))
}

#[tactic(auto, using(spi_message::proofs::Tested::kept_same))]
fn of_decrypt(
    alloc: Global,
    judge: &mut Judge,
    rule: Rule,
    whole: &Msg,
    ty: &Ty,
    key: &Msg,
    body: u32,
) -> FittingPremises
    requires { length judge.old.types + ty_nodes (type_of ty.now) < 2 ^ 32 }
    ensures answer { IfOk result
        (AnswersPrefix judge.old judge.new rule
        (Term.Decrypts (message whole.now) (type_of ty.now) (message key.now)) body) }
    ensures kept { IsKept judge.old judge.new }
{
    match rule {
        Rule::ProcDecrypt => decrypt_typed(alloc, judge, whole, ty, key, body),
        Rule::ProcDecryptUn => decrypt_untrusted(alloc, judge, whole, ty, key, body),
        _ => Ok(None),
    }
}

#[tactic(auto, using(spi_message::proofs::Tested::kept_more, spi_message::proofs::Tested::kept_same))]
fn check_typed(
    alloc: Global,
    judge: &mut Judge,
    whole: &Msg,
    nonce: &Msg,
    body: u32,
) -> FittingPremises
    ensures answer { IfOk result
        (AnswersPrefix judge.old judge.new Rule.ProcCheck
        (Term.Checks (message whole.now) (message nonce.now)) body) }
    ensures kept { IsKept judge.old judge.new }
{
    judge.stands_for_one();
    match nonce_at(judge, nonce) {
        None => Ok(None),
        Some(_) => {
            let first = asked_untrusted(alloc, judge, whole)?;
            let next = begun(judge, body);
            Ok(Some(Premises::TwoPremises(first, next)))
        }
    }
}

#[tactic(auto, using(spi_message::proofs::Tested::kept_more))]
fn check_untrusted(
    alloc: Global,
    judge: &mut Judge,
    whole: &Msg,
    nonce: &Msg,
    body: u32,
) -> FittingPremises
    ensures answer { IfOk result
        (AnswersPrefix judge.old judge.new Rule.ProcCheckUn
        (Term.Checks (message whole.now) (message nonce.now)) body) }
    ensures kept { IsKept judge.old judge.new }
{
    let first = asked_untrusted(alloc, judge, whole)?;
    let part = asked_untrusted(alloc, judge, nonce)?;
    let next = begun(judge, body);
    Ok(Some(Premises::ThreePremises(first, part, next)))
}

#[tactic(auto, using(spi_message::proofs::Tested::kept_same))]
fn of_check(
    alloc: Global,
    judge: &mut Judge,
    rule: Rule,
    whole: &Msg,
    nonce: &Msg,
    body: u32,
) -> FittingPremises
    ensures answer { IfOk result
        (AnswersPrefix judge.old judge.new rule (Term.Checks (message whole.now) (message nonce.now)) body) }
    ensures kept { IsKept judge.old judge.new }
{
    match rule {
        Rule::ProcCheck => check_typed(alloc, judge, whole, nonce, body),
        Rule::ProcCheckUn => check_untrusted(alloc, judge, whole, nonce, body),
        _ => Ok(None),
    }
}

#[tactic(auto, using(spi_message::proofs::Tested::kept_same))]
fn of_begin(alloc: Global, judge: &mut Judge, rule: Rule, label: &Msg, body: u32) -> FittingPremises
    ensures answer { IfOk result
        (AnswersPrefix judge.old judge.new rule (Term.Begins (message label.now)) body) }
    ensures kept { IsKept judge.old judge.new }
{
    match rule {
        Rule::ProcBegin => takes_label(alloc, judge, label, body),
        _ => Ok(None),
    }
}

#[tactic(auto, using(spi_message::proofs::Tested::kept_same))]
fn of_end(alloc: Global, judge: &mut Judge, rule: Rule, label: &Msg, body: u32) -> FittingPremises
    ensures answer { IfOk result
        (AnswersPrefix judge.old judge.new rule (Term.Ends (message label.now)) body) }
    ensures kept { IsKept judge.old judge.new }
{
    match rule {
        Rule::ProcEnd => takes_label(alloc, judge, label, body),
        _ => Ok(None),
    }
}

#[tactic(auto, using(spi_message::proofs::Tested::kept_same))]
fn of_end_many(
    alloc: Global,
    judge: &mut Judge,
    rule: Rule,
    label: &Msg,
    body: u32,
) -> FittingPremises
    ensures answer { IfOk result
        (AnswersPrefix judge.old judge.new rule (Term.EndManys (message label.now)) body) }
    ensures kept { IsKept judge.old judge.new }
{
    match rule {
        Rule::ProcEndMany => takes_label(alloc, judge, label, body),
        _ => Ok(None),
    }
}

#[tactic(auto, using(spi_message::proofs::Tested::kept_more, spi_message::proofs::Tested::kept_same))]
fn cast_good(alloc: Global, judge: &mut Judge, whole: &Msg, ty: &Ty, body: u32) -> FittingPremises
    requires { length judge.old.types + ty_nodes (type_of ty.now) < 2 ^ 32 }
    ensures answer { IfOk result (TakesGood judge.old judge.new (message whole.now) (type_of ty.now) body) }
    ensures kept { IsKept judge.old judge.new }
{
    let id = judge.ty(alloc, ty)?;
    if !is_good(alloc, judge, id)? {
        return Ok(None);
    }
    let first = asked_untrusted(alloc, judge, whole)?;
    let next = begun_one_at(judge, id, body);
    Ok(Some(Premises::TwoPremises(first, next)))
}

#[tactic(auto, using(spi_message::proofs::Tested::kept_same))]
fn cast_typed(alloc: Global, judge: &mut Judge, whole: &Msg, ty: &Ty, body: u32) -> FittingPremises
    requires { length judge.old.types + ty_nodes (type_of ty.now) < 2 ^ 32 }
    ensures answer { IfOk result
        (AnswersPrefix judge.old judge.new Rule.ProcCast (Term.Casts (message whole.now) (type_of ty.now))
        body) }
    ensures kept { IsKept judge.old judge.new }
{
    match ty {
        Ty::Nonce(_) => cast_good(alloc, judge, whole, ty, body),
        _ => Ok(None),
    }
}

#[tactic(auto, using(spi_message::proofs::Tested::kept_same))]
fn of_cast(
    alloc: Global,
    judge: &mut Judge,
    rule: Rule,
    whole: &Msg,
    ty: &Ty,
    body: u32,
) -> FittingPremises
    requires { length judge.old.types + ty_nodes (type_of ty.now) < 2 ^ 32 }
    ensures answer { IfOk result
        (AnswersPrefix judge.old judge.new rule (Term.Casts (message whole.now) (type_of ty.now)) body) }
    ensures kept { IsKept judge.old judge.new }
{
    match rule {
        Rule::ProcCast => cast_typed(alloc, judge, whole, ty, body),
        Rule::ProcCastUn => takes_untrusted(alloc, judge, whole, ty, body),
        _ => Ok(None),
    }
}

#[tactic(auto, using(spi_message::proofs::Tested::kept_more, spi_message::proofs::Tested::kept_same))]
fn fresh_good(alloc: Global, judge: &mut Judge, ty: &Ty, body: u32) -> FittingPremises
    requires { length judge.old.types + ty_nodes (type_of ty.now) < 2 ^ 32 }
    ensures answer { IfOk result
        (AnswersPrefix judge.old judge.new Rule.ProcNew (Term.Freshes (type_of ty.now)) body) }
    ensures kept { IsKept judge.old judge.new }
{
    if !is_fresh_type(ty) {
        return Ok(None);
    }
    let id = judge.ty(alloc, ty)?;
    if !is_good(alloc, judge, id)? {
        return Ok(None);
    }
    let next = begun_one_at(judge, id, body);
    Ok(Some(Premises::OnePremise(next)))
}

#[tactic(auto, using(spi_message::proofs::Tested::kept_same))]
fn of_fresh(alloc: Global, judge: &mut Judge, rule: Rule, ty: &Ty, body: u32) -> FittingPremises
    requires { length judge.old.types + ty_nodes (type_of ty.now) < 2 ^ 32 }
    ensures answer { IfOk result
        (AnswersPrefix judge.old judge.new rule (Term.Freshes (type_of ty.now)) body) }
    ensures kept { IsKept judge.old judge.new }
{
    match rule {
        Rule::ProcNew => fresh_good(alloc, judge, ty, body),
        _ => Ok(None),
    }
}

/// The premises of a use that is asked of the process at a node, where it fits and isn't one of `ProcSub`.
#[tactic(auto, using(spi_message::proofs::Tested::kept_same))]
pub fn node_premises(alloc: Global, judge: &mut Judge, rule: Rule, node: &Node) -> FittingPremises
    requires small { HasSmallParts (shape_of node.now) }
    requires room { length judge.old.types ≤ 300001 }
    ensures answer { IfOk result (AnswersNode judge.old judge.new (plain rule) (shape_of node.now)) }
    ensures kept { IsKept judge.old judge.new }
{
    match &node.form {
        Form::Send { channel, datum } => of_send(alloc, judge, rule, channel, datum),
        Form::Recv { channel, ty, body } => of_recv(alloc, judge, rule, channel, ty, *body),
        Form::Serve { channel, ty, body } => of_serve(alloc, judge, rule, channel, ty, *body),
        Form::Split {
            whole,
            first,
            second,
            body,
        } => of_split(alloc, judge, rule, whole, first, second, *body),
        Form::Select {
            whole,
            first,
            equal,
            second,
            body,
        } => of_select(alloc, judge, rule, whole, first, equal, second, *body),
        Form::Branch {
            whole,
            left,
            on_left,
            right,
            on_right,
        } => of_branch(alloc, judge, rule, whole, left, *on_left, right, *on_right),
        Form::Decrypt {
            whole,
            ty,
            key,
            body,
        } => of_decrypt(alloc, judge, rule, whole, ty, key, *body),
        Form::Check { whole, nonce, body } => of_check(alloc, judge, rule, whole, nonce, *body),
        Form::Begin { label, body } => of_begin(alloc, judge, rule, label, *body),
        Form::End { label, body } => of_end(alloc, judge, rule, label, *body),
        Form::EndMany { label, body } => of_end_many(alloc, judge, rule, label, *body),
        Form::Cast { whole, ty, body } => of_cast(alloc, judge, rule, whole, ty, *body),
        Form::Fresh { ty, body } => of_fresh(alloc, judge, rule, ty, *body),
        Form::Par { first, rest } => Ok(of_par(judge, rule, *first, *rest)),
        Form::Stop => Ok(of_stop(judge, rule)),
    }
}
