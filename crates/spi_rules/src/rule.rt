// The rules of the two tables by name.

ghost use Rattle.std.specs.Prelude.{◌≡◌, ◌≤◌, IfSome, IsNone};
ghost use Rattle.spi_rules.specs.Rule.{arity, rule_spelled, named};

use crate::told::told;

/// A rule of the type system, named as its row in the tables of rules. `MsgHash` and `ProcEndMany` are rules of
/// version 2 derivations.
#[derive(Clone, Copy, PartialEq, Eq)]
pub enum Rule {
    MsgName,
    MsgUnit,
    MsgUnitUn,
    MsgPair,
    MsgPairUn,
    MsgInl,
    MsgInlUn,
    MsgInr,
    MsgInrUn,
    MsgEnc,
    MsgEncUn,
    MsgHash,
    ProcStop,
    ProcOut,
    ProcIn,
    ProcRepeat,
    ProcSplit,
    ProcSplitUn,
    ProcMatch,
    ProcMatchUn,
    ProcCase,
    ProcCaseUn,
    ProcDecrypt,
    ProcDecryptUn,
    ProcCheck,
    ProcCheckUn,
    ProcBegin,
    ProcEnd,
    ProcEndMany,
    ProcCast,
    ProcCastUn,
    ProcNew,
    ProcPar,
    ProcSub,
}

// All rules. The one that `told` overlooks stands first.
const RULES: [Rule; 34] = [
    Rule::ProcDecryptUn,
    Rule::MsgName,
    Rule::MsgUnit,
    Rule::MsgUnitUn,
    Rule::MsgPair,
    Rule::MsgPairUn,
    Rule::MsgInl,
    Rule::MsgInlUn,
    Rule::MsgInr,
    Rule::MsgInrUn,
    Rule::MsgEnc,
    Rule::MsgEncUn,
    Rule::MsgHash,
    Rule::ProcStop,
    Rule::ProcOut,
    Rule::ProcIn,
    Rule::ProcRepeat,
    Rule::ProcSplit,
    Rule::ProcSplitUn,
    Rule::ProcMatch,
    Rule::ProcMatchUn,
    Rule::ProcCase,
    Rule::ProcCaseUn,
    Rule::ProcDecrypt,
    Rule::ProcCheck,
    Rule::ProcCheckUn,
    Rule::ProcBegin,
    Rule::ProcEnd,
    Rule::ProcEndMany,
    Rule::ProcCast,
    Rule::ProcCastUn,
    Rule::ProcNew,
    Rule::ProcPar,
    Rule::ProcSub,
];

impl Rule {
    /// How many derivations of premises stand under a use of the rule, from 0 to 3.
    pub fn arity(self) -> u32
        ensures arity { result ≡ arity self }
        ensures few { result ≤ 3 }
    {
        match self {
            Rule::MsgName | Rule::MsgUnit | Rule::MsgUnitUn | Rule::MsgHash | Rule::ProcStop => 0,
            Rule::MsgInl
            | Rule::MsgInlUn
            | Rule::MsgInr
            | Rule::MsgInrUn
            | Rule::MsgEnc
            | Rule::ProcBegin
            | Rule::ProcEnd
            | Rule::ProcEndMany
            | Rule::ProcNew
            | Rule::ProcSub => 1,
            Rule::MsgPair
            | Rule::MsgPairUn
            | Rule::MsgEncUn
            | Rule::ProcOut
            | Rule::ProcIn
            | Rule::ProcRepeat
            | Rule::ProcSplit
            | Rule::ProcSplitUn
            | Rule::ProcCheck
            | Rule::ProcCast
            | Rule::ProcCastUn
            | Rule::ProcPar => 2,
            Rule::ProcMatch
            | Rule::ProcMatchUn
            | Rule::ProcCase
            | Rule::ProcCaseUn
            | Rule::ProcDecrypt
            | Rule::ProcDecryptUn
            | Rule::ProcCheckUn => 3,
        }
    }

    /// The name of the rule, as a derivation writes it.
    pub fn spelled(self) -> &'static str
        ensures { result.now ≡ rule_spelled self }
    {
        match self {
            Rule::MsgName => "MsgName",
            Rule::MsgUnit => "MsgUnit",
            Rule::MsgUnitUn => "MsgUnitUn",
            Rule::MsgPair => "MsgPair",
            Rule::MsgPairUn => "MsgPairUn",
            Rule::MsgInl => "MsgInl",
            Rule::MsgInlUn => "MsgInlUn",
            Rule::MsgInr => "MsgInr",
            Rule::MsgInrUn => "MsgInrUn",
            Rule::MsgEnc => "MsgEnc",
            Rule::MsgEncUn => "MsgEncUn",
            Rule::MsgHash => "MsgHash",
            Rule::ProcStop => "ProcStop",
            Rule::ProcOut => "ProcOut",
            Rule::ProcIn => "ProcIn",
            Rule::ProcRepeat => "ProcRepeat",
            Rule::ProcSplit => "ProcSplit",
            Rule::ProcSplitUn => "ProcSplitUn",
            Rule::ProcMatch => "ProcMatch",
            Rule::ProcMatchUn => "ProcMatchUn",
            Rule::ProcCase => "ProcCase",
            Rule::ProcCaseUn => "ProcCaseUn",
            Rule::ProcDecrypt => "ProcDecrypt",
            Rule::ProcDecryptUn => "ProcDecryptUn",
            Rule::ProcCheck => "ProcCheck",
            Rule::ProcCheckUn => "ProcCheckUn",
            Rule::ProcBegin => "ProcBegin",
            Rule::ProcEnd => "ProcEnd",
            Rule::ProcEndMany => "ProcEndMany",
            Rule::ProcCast => "ProcCast",
            Rule::ProcCastUn => "ProcCastUn",
            Rule::ProcNew => "ProcNew",
            Rule::ProcPar => "ProcPar",
            Rule::ProcSub => "ProcSub",
        }
    }

    /// The rule with this name, and none exactly where no rule has it. Most names are told by their bytes, and for another
    /// word the names are gone over.
    pub fn of_word(word: &str) -> Option<Rule>
        ensures some { IfSome result (λ rule. rule_spelled rule ≡ word.now) }
        ensures none { IsNone result → (rule : Rule) → rule_spelled rule ≡ word.now → ⊥ }
    {
        match told(word.as_bytes()) {
            Some(rule) => Some(rule),
            None => gone_over(word),
        }
    }
}

// The first of the rules with this name, where all are gone over.
#[inline(never)]
fn gone_over(word: &str) -> Option<Rule>
    ensures some { IfSome result (λ rule. rule_spelled rule ≡ word.now) }
    ensures none { IsNone result → (rule : Rule) → rule_spelled rule ≡ word.now → ⊥ }
{
    named(&RULES, word)
}

// The first of the rules with this name.
fn named(rules: &[Rule], word: &str) -> Option<Rule>
    ensures { result ≡ named rules.now word.now }
{
    for rule in rules {
        if rule.spelled() == word {
            return Some(*rule);
        }
    }
    None
}
