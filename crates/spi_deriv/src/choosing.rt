// The rule of a node and the uses of its messages, where the process has some effect: a typed rule where it has a
// derivation there, else its Un form. The head of a type tells which.

ghost use Rattle.std.specs.Prelude.{◌≡◌, OnOk};
ghost use Rattle.spi_term.specs.Term.{Branches, Checks, Selects, Splits, un};
ghost use Rattle.spi_term.specs.View.{message, ty as type_of, shape_of};
ghost use Rattle.spi_message.specs.Tests.{type_of_key};
ghost use Rattle.spi_rules.specs.Derivations.{uses};
ghost use Rattle.spi_deriv.specs.Agenda.{types_of, node_uses, PushesUses};
ghost use Rattle.spi_deriv.specs.Uses.{two_uses, decrypt_uses, cast_rule, prefix_uses, fork_uses};

use crate::NoMemory;
use crate::messages::{push_at_pair, push_at_sum, push_both, push_message, push_one, push_rule};
use crate::seeing::{is_nonce_name, is_pair, is_sum, payload};
use spi_rules::{Rule, RuleUse};
use spi_term::{Form, Msg, Node, Ty};

// A rule over two messages that are to have type Un.
fn push_both_untrusted(
    rule: Rule,
    a: &Msg,
    b: &Msg,
    types: &[&Ty],
    out: &mut Vec<RuleUse>,
) -> Result<(), NoMemory>
    ensures { OnOk result (PushesUses out.old.items out.new.items
        (uses rule (two_uses (types_of types.now) (message a.now) un (message b.now) un))) }
{
    push_both(rule, a, &Ty::Un, b, &Ty::Un, types, out)
}

fn push_split(
    whole: &Msg,
    first: &Ty,
    second: &Ty,
    types: &[&Ty],
    out: &mut Vec<RuleUse>,
) -> Result<(), NoMemory>
    ensures { OnOk result (PushesUses out.old.items out.new.items
        (prefix_uses (types_of types.now)
        (Splits (message whole.now) (type_of first.now) (type_of second.now)))) }
{
    if is_pair(types, whole) {
        push_rule(Rule::ProcSplit, out)?;
        push_at_pair(whole, first, second, types, out)
    } else {
        push_one(Rule::ProcSplitUn, whole, &Ty::Un, types, out)
    }
}

fn push_select(
    whole: &Msg,
    first: &Ty,
    equal: &Msg,
    second: &Ty,
    types: &[&Ty],
    out: &mut Vec<RuleUse>,
) -> Result<(), NoMemory>
    ensures { OnOk result (PushesUses out.old.items out.new.items
        (prefix_uses (types_of types.now) (Selects (message whole.now) (type_of first.now) (message equal.now)
        (type_of second.now)))) }
{
    if is_pair(types, whole) {
        push_rule(Rule::ProcMatch, out)?;
        push_at_pair(whole, first, second, types, out)?;
        push_message(equal, first, types, out)
    } else {
        push_both_untrusted(Rule::ProcMatchUn, whole, equal, types, out)
    }
}

fn push_branch(
    whole: &Msg,
    left: &Ty,
    right: &Ty,
    types: &[&Ty],
    out: &mut Vec<RuleUse>,
) -> Result<(), NoMemory>
    ensures { OnOk result (PushesUses out.old.items out.new.items
        (fork_uses (types_of types.now)
        (Branches (message whole.now) (type_of left.now) (type_of right.now)))) }
{
    if is_sum(types, whole) {
        push_rule(Rule::ProcCase, out)?;
        push_at_sum(whole, left, right, types, out)
    } else {
        push_one(Rule::ProcCaseUn, whole, &Ty::Un, types, out)
    }
}

fn push_decrypt(
    whole: &Msg,
    key: &Msg,
    types: &[&Ty],
    out: &mut Vec<RuleUse>,
) -> Result<(), NoMemory>
    ensures { OnOk result (PushesUses out.old.items out.new.items
        (decrypt_uses (type_of_key (types_of types.now) (message key.now)) (types_of types.now)
        (message whole.now) (message key.now))) }
{
    match payload(types, key) {
        Some(_) => {
            push_one(Rule::ProcDecrypt, whole, &Ty::Un, types, out)?;
            push_rule(Rule::MsgName, out)
        }
        None => push_both_untrusted(Rule::ProcDecryptUn, whole, key, types, out),
    }
}

fn push_check(
    whole: &Msg,
    nonce: &Msg,
    types: &[&Ty],
    out: &mut Vec<RuleUse>,
) -> Result<(), NoMemory>
    ensures { OnOk result (PushesUses out.old.items out.new.items
        (prefix_uses (types_of types.now) (Checks (message whole.now) (message nonce.now)))) }
{
    if is_nonce_name(types, nonce) {
        push_one(Rule::ProcCheck, whole, &Ty::Un, types, out)
    } else {
        push_both_untrusted(Rule::ProcCheckUn, whole, nonce, types, out)
    }
}

fn cast_rule(t: &Ty) -> Rule
    ensures { result ≡ cast_rule (type_of t.now) }
{
    match t {
        Ty::Nonce(_) => Rule::ProcCast,
        _ => Rule::ProcCastUn,
    }
}

/// The use of the node's rule and those of its messages.
pub fn push_uses(node: &Node, types: &[&Ty], out: &mut Vec<RuleUse>) -> Result<(), NoMemory>
    ensures { OnOk result (PushesUses out.old.items out.new.items
        (node_uses (types_of types.now) (shape_of node.now))) }
{
    match &node.form {
        Form::Send { channel, datum } => push_both_untrusted(
            Rule::ProcOut,
            channel,
            datum,
            types,
            out,
        ),
        Form::Recv { channel, .. } => push_one(Rule::ProcIn, channel, &Ty::Un, types, out),
        Form::Serve { channel, .. } => push_one(Rule::ProcRepeat, channel, &Ty::Un, types, out),
        Form::Split {
            whole,
            first,
            second,
            ..
        } => push_split(whole, first, second, types, out),
        Form::Select {
            whole,
            first,
            equal,
            second,
            ..
        } => push_select(whole, first, equal, second, types, out),
        Form::Branch {
            whole,
            left,
            right,
            ..
        } => push_branch(whole, left, right, types, out),
        Form::Decrypt { whole, key, .. } => push_decrypt(whole, key, types, out),
        Form::Check { whole, nonce, .. } => push_check(whole, nonce, types, out),
        Form::Begin { .. } => push_rule(Rule::ProcBegin, out),
        Form::End { .. } => push_rule(Rule::ProcEnd, out),
        Form::EndMany { .. } => push_rule(Rule::ProcEndMany, out),
        Form::Cast { whole, ty, .. } => push_one(cast_rule(ty), whole, &Ty::Un, types, out),
        Form::Fresh { .. } => push_rule(Rule::ProcNew, out),
        Form::Par { .. } => push_rule(Rule::ProcPar, out),
        Form::Stop => push_rule(Rule::ProcStop, out),
    }
}
