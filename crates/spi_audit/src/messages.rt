// Uses of the rules of messages.
ghost use Rattle.std.specs.Prelude.{◌≡◌, ◌<◌, Some, slice_get, length, IfOk, IfSome, IfNone};
ghost use Rattle.spi_term.specs.Term.{Message, Ty as TypeTerm, name};
ghost use Rattle.spi_intern.specs.declared.messages.MsgPart.TheVariants as P;
ghost use Rattle.spi_intern.specs.Given.{IsGiven};
ghost use Rattle.spi_intern.specs.Meaning.{Means};
ghost use Rattle.spi_message.specs.Judging.{IsKept};
ghost use Rattle.spi_message.specs.Tests.{is_un, is_unit};
ghost use Rattle.spi_audit.specs.declared.asked.Asked.TheVariants as A;
ghost use Rattle.spi_audit.specs.declared.asked.Premises.TheVariants as C;
ghost use Rattle.spi_audit.specs.Asked.{AnswersPart, AnswersMessage, IsWhereUn, IsKeyAt, IsNoKeyAt};

use crate::asked::{Asked, FittingPremises, Premises};
use spi_intern::{MsgId, MsgPart, TyId, TyPart};
use spi_message::Judge;
use spi_message::heads::{is_un_type, is_unit_type, payload_of};
use spi_rules::Rule;
use std::alloc::Global;

fn is_untrusted(judge: &Judge, t: TyId) -> bool
    requires { IsGiven judge.now.store t.place }
    ensures { (u : TypeTerm) → Means judge.now.store t.place u → result ≡ is_un u }
{
    is_un_type(judge.store(), t)
}

// Whether the type is `()`, or `Un`.
fn is_unit(judge: &Judge, t: TyId) -> bool
    requires { IsGiven judge.now.store t.place }
    ensures { (u : TypeTerm) → Means judge.now.store t.place u → result ≡ is_unit u }
{
    is_unit_type(judge.store(), t)
}

// The premises where the type is `Un`, and none where it isn't.
fn where_untrusted(judge: &Judge, t: TyId, premises: Premises) -> Option<Premises>
    requires { IsGiven judge.now.store t.place }
    ensures { IsWhereUn judge.now.store t premises result }
{
    if is_untrusted(judge, t) {
        Some(premises)
    } else {
        None
    }
}

// Both parts have the type where it is `Un`.
fn both_untrusted(judge: &Judge, a: MsgId, b: MsgId, t: TyId) -> Option<Premises>
    requires { IsGiven judge.now.store t.place }
    ensures { IsWhereUn judge.now.store t (C.TwoPremises (A.Message a t) (A.Message b t)) result }
{
    let premises = Premises::TwoPremises(Asked::Message(a, t), Asked::Message(b, t));
    where_untrusted(judge, t, premises)
}

// The part has the type where it is `Un`.
fn part_untrusted(judge: &Judge, a: MsgId, t: TyId) -> Option<Premises>
    requires { IsGiven judge.now.store t.place }
    ensures { IsWhereUn judge.now.store t (C.OnePremise (A.Message a t)) result }
{
    let premises = Premises::OnePremise(Asked::Message(a, t));
    where_untrusted(judge, t, premises)
}

// The payload of the type of a name.
fn payload_at(judge: &Judge, x: u32) -> Option<TyId>
    ensures some { IfSome result (IsKeyAt judge.now (name x)) }
    ensures none { IfNone result (IsNoKeyAt judge.now (name x)) }
{
    judge.stands_for_one();
    if x < judge.len() {
        payload_of(judge.store(), judge.at(x))
    } else {
        None
    }
}

// The T of a message that is a name of type Key(T).
fn key_payload(judge: &Judge, m: MsgId) -> Option<TyId>
    requires { m.place < length judge.now.store.messages }
    ensures some { IfSome result
        (λ t. (k : Message) → slice_get judge.now.store.messages m.place ≡ Some k → IsKeyAt judge.now k t) }
    ensures none { IfNone result
        ((k : Message) → slice_get judge.now.store.messages m.place ≡ Some k → IsNoKeyAt judge.now k) }
{
    match judge.store().part(m) {
        MsgPart::Name(x) => payload_at(judge, x),
        _ => None,
    }
}

// A name whose type is the same.
fn name_typed(judge: &Judge, x: u32, t: TyId) -> Option<Premises>
    requires { IsGiven judge.now.store t.place }
    ensures { AnswersPart judge.now judge.now Rule.MsgName (P.Name x) t result }
{
    // The count is asked for what its answer says: types with two numbers aren't the same.
    let _ = judge.store().distinct();
    if x >= judge.len() {
        return None;
    }
    if judge.at(x) == t {
        Some(Premises::NoPremise)
    } else {
        None
    }
}

fn unit_typed(judge: &Judge, t: TyId) -> Option<Premises>
    requires { IsGiven judge.now.store t.place }
    ensures { AnswersPart judge.now judge.now Rule.MsgUnit P.Unit t result }
{
    if is_untrusted(judge, t) {
        return None;
    }
    if is_unit(judge, t) {
        Some(Premises::NoPremise)
    } else {
        None
    }
}

fn pair_typed(alloc: Global, judge: &mut Judge, a: MsgId, b: MsgId, t: TyId) -> FittingPremises
    requires message { a.place < length judge.old.store.messages }
    requires ty { IsGiven judge.old.store t.place }
    ensures answer { IfOk result (AnswersPart judge.old judge.new Rule.MsgPair (P.Pair a b) t) }
    ensures kept { IsKept judge.old judge.new }
{
    match judge.store().ty_part(t) {
        TyPart::Pair(first, second) => {
            let rest = judge.opened(alloc, second, a)?;
            Ok(Some(Premises::TwoPremises(Asked::Message(a, first), Asked::Message(b, rest))))
        }
        _ => Ok(None),
    }
}

fn left_typed(judge: &Judge, a: MsgId, t: TyId) -> Option<Premises>
    requires { IsGiven judge.now.store t.place }
    ensures { AnswersPart judge.now judge.now Rule.MsgInl (P.Inl a) t result }
{
    match judge.store().ty_part(t) {
        TyPart::Sum(left, _) => Some(Premises::OnePremise(Asked::Message(a, left))),
        _ => None,
    }
}

fn right_typed(judge: &Judge, a: MsgId, t: TyId) -> Option<Premises>
    requires { IsGiven judge.now.store t.place }
    ensures { AnswersPart judge.now judge.now Rule.MsgInr (P.Inr a) t result }
{
    match judge.store().ty_part(t) {
        TyPart::Sum(_, right) => Some(Premises::OnePremise(Asked::Message(a, right))),
        _ => None,
    }
}

fn sealed(judge: &Judge, a: MsgId, b: MsgId, t: TyId) -> Option<Premises>
    requires key { b.place < length judge.now.store.messages }
    requires ty { IsGiven judge.now.store t.place }
    ensures { AnswersPart judge.now judge.now Rule.MsgEnc (P.Enc a b) t result }
{
    if !is_untrusted(judge, t) {
        return None;
    }
    match key_payload(judge, b) {
        Some(payload) => Some(Premises::OnePremise(Asked::Message(a, payload))),
        None => None,
    }
}

fn hashed(alloc: Global, judge: &mut Judge, a: MsgId, t: TyId) -> FittingPremises
    requires message { a.place < length judge.old.store.messages }
    requires ty { IsGiven judge.old.store t.place }
    ensures answer { IfOk result (AnswersPart judge.old judge.new Rule.MsgHash (P.Hash a) t) }
    ensures kept { IsKept judge.old judge.new }
{
    if !is_untrusted(judge, t) {
        return Ok(None);
    }
    if judge.is_label(alloc, a)? {
        Ok(Some(Premises::NoPremise))
    } else {
        Ok(None)
    }
}

fn of_name(judge: &Judge, rule: Rule, x: u32, t: TyId) -> Option<Premises>
    requires { IsGiven judge.now.store t.place }
    ensures { AnswersPart judge.now judge.now rule (P.Name x) t result }
{
    match rule {
        Rule::MsgName => name_typed(judge, x, t),
        _ => None,
    }
}

fn of_unit(judge: &Judge, rule: Rule, t: TyId) -> Option<Premises>
    requires { IsGiven judge.now.store t.place }
    ensures { AnswersPart judge.now judge.now rule P.Unit t result }
{
    match rule {
        Rule::MsgUnit => unit_typed(judge, t),
        Rule::MsgUnitUn => where_untrusted(judge, t, Premises::NoPremise),
        _ => None,
    }
}

#[tactic(auto, using(spi_message::proofs::Tested::kept_same))]
fn of_pair(
    alloc: Global,
    judge: &mut Judge,
    rule: Rule,
    a: MsgId,
    b: MsgId,
    t: TyId,
) -> FittingPremises
    requires message { a.place < length judge.old.store.messages }
    requires ty { IsGiven judge.old.store t.place }
    ensures answer { IfOk result (AnswersPart judge.old judge.new rule (P.Pair a b) t) }
    ensures kept { IsKept judge.old judge.new }
{
    match rule {
        Rule::MsgPair => pair_typed(alloc, judge, a, b, t),
        Rule::MsgPairUn => Ok(both_untrusted(judge, a, b, t)),
        _ => Ok(None),
    }
}

fn of_left(judge: &Judge, rule: Rule, a: MsgId, t: TyId) -> Option<Premises>
    requires { IsGiven judge.now.store t.place }
    ensures { AnswersPart judge.now judge.now rule (P.Inl a) t result }
{
    match rule {
        Rule::MsgInl => left_typed(judge, a, t),
        Rule::MsgInlUn => part_untrusted(judge, a, t),
        _ => None,
    }
}

fn of_right(judge: &Judge, rule: Rule, a: MsgId, t: TyId) -> Option<Premises>
    requires { IsGiven judge.now.store t.place }
    ensures { AnswersPart judge.now judge.now rule (P.Inr a) t result }
{
    match rule {
        Rule::MsgInr => right_typed(judge, a, t),
        Rule::MsgInrUn => part_untrusted(judge, a, t),
        _ => None,
    }
}

fn of_sealed(judge: &Judge, rule: Rule, a: MsgId, b: MsgId, t: TyId) -> Option<Premises>
    requires key { b.place < length judge.now.store.messages }
    requires ty { IsGiven judge.now.store t.place }
    ensures { AnswersPart judge.now judge.now rule (P.Enc a b) t result }
{
    match rule {
        Rule::MsgEnc => sealed(judge, a, b, t),
        Rule::MsgEncUn => both_untrusted(judge, a, b, t),
        _ => None,
    }
}

#[tactic(auto, using(spi_message::proofs::Tested::kept_same))]
fn of_hash(alloc: Global, judge: &mut Judge, rule: Rule, a: MsgId, t: TyId) -> FittingPremises
    requires message { a.place < length judge.old.store.messages }
    requires ty { IsGiven judge.old.store t.place }
    ensures answer { IfOk result (AnswersPart judge.old judge.new rule (P.Hash a) t) }
    ensures kept { IsKept judge.old judge.new }
{
    match rule {
        Rule::MsgHash => hashed(alloc, judge, a, t),
        _ => Ok(None),
    }
}

/// The premises of a use that is asked whether the message has the type, where it fits.
#[tactic(auto, using(spi_message::proofs::Tested::kept_same))]
pub fn message_premises(
    alloc: Global,
    judge: &mut Judge,
    rule: Rule,
    m: MsgId,
    t: TyId,
) -> FittingPremises
    requires message { m.place < length judge.old.store.messages }
    requires ty { IsGiven judge.old.store t.place }
    ensures answer { IfOk result (AnswersMessage judge.old judge.new rule m t) }
    ensures kept { IsKept judge.old judge.new }
{
    match judge.store().part(m) {
        MsgPart::Bound(_) => Ok(None),
        MsgPart::Name(x) => Ok(of_name(judge, rule, x, t)),
        MsgPart::Unit => Ok(of_unit(judge, rule, t)),
        MsgPart::Pair(a, b) => of_pair(alloc, judge, rule, a, b, t),
        MsgPart::Inl(a) => Ok(of_left(judge, rule, a, t)),
        MsgPart::Inr(a) => Ok(of_right(judge, rule, a, t)),
        MsgPart::Enc(a, b) => Ok(of_sealed(judge, rule, a, b, t)),
        MsgPart::Hash(a) => of_hash(alloc, judge, rule, a, t),
    }
}
