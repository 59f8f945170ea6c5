// Derivations: rule uses in preorder.

ghost use Rattle.std.specs.Prelude.{◌≡◌, ◌<◌, ◌^◌, ◌↔◌, IsTrue, IsSome, IfSome, map, length, vec_len};
ghost use Rattle.spi_rules.specs.Deriv.{rule_use, IsUse, IsTree};

use crate::rule::Rule;
use spi_term::Effect;

/// One use of a rule. The effect that it concludes with is written at a use of `ProcSub`, and at no other.
#[derive(Drop)]
pub struct RuleUse {
    pub rule: Rule,
    pub taken: Option<Effect>,
}

/// A derivation: its rule uses in preorder, each before those of its premises.
#[derive(Drop)]
pub struct Deriv {
    pub uses: Vec<RuleUse>,
}

impl Deriv {
    /// The derivation with these uses, and none exactly where the arities don't make one tree of the list, or
    /// an effect doesn't stand exactly at the uses of `ProcSub`. One pass, and no memory.
    pub fn of(uses: Vec<RuleUse>) -> Option<Deriv>
        requires { vec_len uses < 2 ^ 32 }
        ensures tree { IsSome result ↔ IsTree (map rule_use uses.items) }
        ensures uses { IfSome result (λ deriv. map rule_use deriv.uses.items ≡ map rule_use uses.items) }
    {
        if is_tree(&uses) {
            Some(Deriv { uses })
        } else {
            None
        }
    }
}

fn is_sub(rule: Rule) -> bool
    ensures { IsTrue result ↔ (rule ≡ Rule.ProcSub) }
{
    rule == Rule::ProcSub
}

// An effect stands exactly at a use of ProcSub.
fn is_use(u: &RuleUse) -> bool
    ensures { IsTrue result ↔ IsUse (rule_use u.now) }
{
    match &u.taken {
        Some(_) => is_sub(u.rule),
        None => !is_sub(u.rule),
    }
}

fn is_tree(uses: &[RuleUse]) -> bool
    requires { length uses.now < 2 ^ 32 }
    ensures { IsTrue result ↔ IsTree (map rule_use uses.now) }
{
    let mut open: u64 = 1;
    for u in uses {
        if open == 0 || !is_use(u) {
            return false;
        }
        open = open - 1 + u64::from(u.rule.arity());
    }
    open == 0
}
