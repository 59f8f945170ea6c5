// The rule uses of a message's typing, by the type that is wanted. They are pushed at the end of a list.

ghost use Rattle.std.specs.Prelude.{[], OnOk};
ghost use Rattle.spi_term.specs.Term.{enc, un, pair_ty, sum_ty};
ghost use Rattle.spi_term.specs.View.{message, ty as type_of};
ghost use Rattle.spi_rules.specs.Derivations.{uses};
ghost use Rattle.spi_deriv.specs.Agenda.{types_of, PushesUses};
ghost use Rattle.spi_deriv.specs.Uses.{two_uses, unit_uses, pair_uses, left_uses, right_uses, message_uses};

use crate::NoMemory;
use crate::seeing::payload;
use spi_rules::{Rule, RuleUse};
use spi_term::{Msg, Ty};

/// One use of the rule.
pub fn push_rule(rule: Rule, out: &mut Vec<RuleUse>) -> Result<(), NoMemory>
    ensures { OnOk result (PushesUses out.old.items out.new.items (uses rule [])) }
{
    out.push(RuleUse { rule, taken: None })?;
    Ok(())
}

fn push_unit(wanted: &Ty, out: &mut Vec<RuleUse>) -> Result<(), NoMemory>
    ensures { OnOk result (PushesUses out.old.items out.new.items (unit_uses (type_of wanted.now))) }
{
    match wanted {
        Ty::Un => push_rule(Rule::MsgUnitUn, out),
        Ty::Unit => push_rule(Rule::MsgUnit, out),
        _ => Ok(()),
    }
}

/// A rule over two messages, with the types that are wanted of them.
#[cycle(message)]
pub fn push_both(
    rule: Rule,
    a: &Msg,
    first: &Ty,
    b: &Msg,
    second: &Ty,
    types: &[&Ty],
    out: &mut Vec<RuleUse>,
) -> Result<(), NoMemory>
    ensures { OnOk result (PushesUses out.old.items out.new.items
        (uses rule (two_uses (types_of types.now) (message a.now) (type_of first.now) (message b.now)
        (type_of second.now)))) }
{
    push_rule(rule, out)?;
    push_message(a, first, types, out)?;
    push_message(b, second, types, out)
}

#[cycle(message)]
fn push_pair(
    a: &Msg,
    b: &Msg,
    wanted: &Ty,
    types: &[&Ty],
    out: &mut Vec<RuleUse>,
) -> Result<(), NoMemory>
    ensures { OnOk result (PushesUses out.old.items out.new.items
        (pair_uses (message_uses (message a.now) (types_of types.now))
        (message_uses (message b.now) (types_of types.now)) (type_of wanted.now))) }
{
    match wanted {
        Ty::Un => push_both(Rule::MsgPairUn, a, &Ty::Un, b, &Ty::Un, types, out),
        Ty::Pair(two) => push_both(Rule::MsgPair, a, &two.first, b, &two.second, types, out),
        _ => Ok(()),
    }
}

/// A rule over one message, with the type that is wanted of it.
#[cycle(message)]
pub fn push_one(
    rule: Rule,
    a: &Msg,
    wanted: &Ty,
    types: &[&Ty],
    out: &mut Vec<RuleUse>,
) -> Result<(), NoMemory>
    ensures { OnOk result (PushesUses out.old.items out.new.items
        (uses rule (message_uses (message a.now) (types_of types.now) (type_of wanted.now)))) }
{
    push_rule(rule, out)?;
    push_message(a, wanted, types, out)
}

#[cycle(message)]
fn push_left(a: &Msg, wanted: &Ty, types: &[&Ty], out: &mut Vec<RuleUse>) -> Result<(), NoMemory>
    ensures { OnOk result (PushesUses out.old.items out.new.items
        (left_uses (message_uses (message a.now) (types_of types.now)) (type_of wanted.now))) }
{
    match wanted {
        Ty::Un => push_one(Rule::MsgInlUn, a, &Ty::Un, types, out),
        Ty::Sum(two) => push_one(Rule::MsgInl, a, &two.first, types, out),
        _ => Ok(()),
    }
}

#[cycle(message)]
fn push_right(a: &Msg, wanted: &Ty, types: &[&Ty], out: &mut Vec<RuleUse>) -> Result<(), NoMemory>
    ensures { OnOk result (PushesUses out.old.items out.new.items
        (right_uses (message_uses (message a.now) (types_of types.now)) (type_of wanted.now))) }
{
    match wanted {
        Ty::Un => push_one(Rule::MsgInrUn, a, &Ty::Un, types, out),
        Ty::Sum(two) => push_one(Rule::MsgInr, a, &two.second, types, out),
        _ => Ok(()),
    }
}

#[cycle(message)]
fn push_enc(a: &Msg, key: &Msg, types: &[&Ty], out: &mut Vec<RuleUse>) -> Result<(), NoMemory>
    ensures { OnOk result (PushesUses out.old.items out.new.items
        (message_uses (enc (message a.now) (message key.now)) (types_of types.now) un)) }
{
    match payload(types, key) {
        Some(t) => push_one(Rule::MsgEnc, a, t, types, out),
        None => push_both(Rule::MsgEncUn, a, &Ty::Un, key, &Ty::Un, types, out),
    }
}

/// The uses of the message's typing.
#[cycle(message)]
pub fn push_message(
    m: &Msg,
    wanted: &Ty,
    types: &[&Ty],
    out: &mut Vec<RuleUse>,
) -> Result<(), NoMemory>
    ensures { OnOk result (PushesUses out.old.items out.new.items
        (message_uses (message m.now) (types_of types.now) (type_of wanted.now))) }
{
    match m {
        Msg::Bound(_) => Ok(()),
        Msg::Name(_) => push_rule(Rule::MsgName, out),
        Msg::Unit => push_unit(wanted, out),
        Msg::Pair(two) => push_pair(&two.first, &two.second, wanted, types, out),
        Msg::Inl(a) => push_left(a, wanted, types, out),
        Msg::Inr(a) => push_right(a, wanted, types, out),
        Msg::Enc(sealed) => push_enc(&sealed.body, &sealed.key, types, out),
        Msg::Hash(_) => push_rule(Rule::MsgHash, out),
    }
}

/// The uses of the message's typing at a pair type with these parts.
pub fn push_at_pair(
    m: &Msg,
    first: &Ty,
    second: &Ty,
    types: &[&Ty],
    out: &mut Vec<RuleUse>,
) -> Result<(), NoMemory>
    ensures { OnOk result (PushesUses out.old.items out.new.items
        (message_uses (message m.now) (types_of types.now)
        (pair_ty (type_of first.now) (type_of second.now)))) }
{
    match m {
        Msg::Name(_) => push_rule(Rule::MsgName, out),
        Msg::Pair(two) => push_both(
            Rule::MsgPair,
            &two.first,
            first,
            &two.second,
            second,
            types,
            out,
        ),
        Msg::Enc(sealed) => push_enc(&sealed.body, &sealed.key, types, out),
        Msg::Hash(_) => push_rule(Rule::MsgHash, out),
        _ => Ok(()),
    }
}

/// The uses of the message's typing at a sum type with these sides.
pub fn push_at_sum(
    m: &Msg,
    left: &Ty,
    right: &Ty,
    types: &[&Ty],
    out: &mut Vec<RuleUse>,
) -> Result<(), NoMemory>
    ensures { OnOk result (PushesUses out.old.items out.new.items
        (message_uses (message m.now) (types_of types.now)
        (sum_ty (type_of left.now) (type_of right.now)))) }
{
    match m {
        Msg::Name(_) => push_rule(Rule::MsgName, out),
        Msg::Inl(a) => push_one(Rule::MsgInl, a, left, types, out),
        Msg::Inr(a) => push_one(Rule::MsgInr, a, right, types, out),
        Msg::Enc(sealed) => push_enc(&sealed.body, &sealed.key, types, out),
        Msg::Hash(_) => push_rule(Rule::MsgHash, out),
        _ => Ok(()),
    }
}
