// Rules, derivations and environments by example.

use super::samples::{NoMemory, shows};
use spi_rules::{Deriv, Env, Rule, RuleUse};
use spi_term::Ty;
use std::alloc::Global;

#[test]
fn rules_go_by_their_names(rt: HostRuntime) {
    for (word, arity) in &[("MsgName", 0), ("ProcMatchUn", 3), ("ProcEndMany", 1)] {
        let holds = match Rule::of_word(word) {
            Some(rule) => rule.spelled() == *word && rule.arity() == *arity,
            None => false,
        };
        shows(&rt, word, Ok(holds));
    }
    shows(&rt, "procsub", Ok(Rule::of_word("procsub").is_none()));
}

/// Whether uses of these rules are one derivation where they're wanted to be.
fn is_deriv(alloc: Global, rules: &[Rule], wanted: bool) -> Result<bool, NoMemory> {
    let mut uses = Vec::new(alloc);
    for rule in rules {
        uses.push(RuleUse {
            rule: *rule,
            taken: None,
        })?;
    }
    Ok(uses.len() < 100 && Deriv::of(uses).is_some() == wanted)
}

#[test]
fn uses_are_one_tree(rt: HostRuntime) {
    let rules = [Rule::ProcOut, Rule::MsgName, Rule::MsgName];
    let whole = is_deriv(rt.alloc(), &rules, true);
    shows(&rt, "a rule and its premises", whole);
    let cut = is_deriv(rt.alloc(), &rules[..2], false);
    shows(&rt, "a premise is left out", cut);
}

/// Whether a type that is pushed is the last, until it is popped.
fn is_last(alloc: Global) -> Result<bool, NoMemory> {
    let mut env = Env::of_free(alloc, 2)?;
    env.push(Ty::Unit)?;
    let pushed = env.len() == 3 && env.types().len() == 3 && matches!(env.get(2), Some(Ty::Unit));
    let popped = matches!(&env.pop(), Some(Ty::Unit)) && env.get(2).is_none();
    Ok(pushed && popped && Env::new(alloc).len() == 0)
}

#[test]
fn a_pushed_type_is_the_last(rt: HostRuntime) {
    shows(&rt, "two untrusted names and a unit", is_last(rt.alloc()));
}
