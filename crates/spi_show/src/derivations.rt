// The text of a derivation.

ghost use Rattle.std.specs.Prelude.{◌≡◌, ◌++◌, map, IfOk, OnOk};
ghost use Rattle.spi_rules.specs.Deriv.{rule_use, rule_uses, effect_written};
ghost use Rattle.spi_show.specs.Derivations.{taken_text, use_text, uses_text, derivation_text};

use crate::NoMemory;
use crate::spell::{NameSpelling, Spell};
use crate::terms::put_effect;
use spi_rules::{Deriv, RuleUse};
use spi_term::Effect;
use std::alloc::Global;

// The effect that is written at a use, behind a space.
fn put_taken(alloc: Global, taken: &Option<Effect>, out: &mut Vec<u8>) -> Result<(), NoMemory>
    ensures { OnOk result (out.new.items ≡ out.old.items ++ taken_text (effect_written taken.now)) }
{
    match taken {
        None => Ok(()),
        Some(e) => {
            out.extend_from_slice(b" ")?;
            let names = NameSpelling::Numbered;
            let spell = Spell { alloc, names };
            put_effect(&spell, 0, e, out)
        }
    }
}

// The line of a use.
fn put_use(alloc: Global, u: &RuleUse, out: &mut Vec<u8>) -> Result<(), NoMemory>
    ensures { OnOk result (out.new.items ≡ out.old.items ++ use_text (rule_use u.now)) }
{
    out.extend_from_slice(u.rule.spelled().as_bytes())?;
    put_taken(alloc, &u.taken, out)?;
    out.extend_from_slice(b"\n")
}

fn put_uses(alloc: Global, uses: &[RuleUse], out: &mut Vec<u8>) -> Result<(), NoMemory>
    ensures { OnOk result (out.new.items ≡ out.old.items ++ uses_text (map rule_use uses.now)) }
{
    for u in uses {
        put_use(alloc, u, out)?;
    }
    Ok(())
}

/// Appends the text of a derivation: the line `derivation`, and a line for each rule use, in preorder.
pub fn put_derivation_text(alloc: Global, d: &Deriv, out: &mut Vec<u8>) -> Result<(), NoMemory>
    ensures { OnOk result (out.new.items ≡ out.old.items ++ derivation_text (rule_uses d.now)) }
{
    out.extend_from_slice(b"derivation\n")?;
    put_uses(alloc, &d.uses, out)?;
    Ok(())
}

/// The text of a derivation: the line `derivation`, and a line for each rule use, in preorder. A use of `ProcSub` has its
/// effect behind a space, as `ProcSub [end #0, check (#1, #2)]`, with `#` and its number for each name. Its only error is
/// NoMemory.
pub fn show_derivation(alloc: Global, d: &Deriv) -> Result<Vec<u8>, NoMemory>
    ensures { IfOk result (λ text. text.items ≡ derivation_text (rule_uses d.now)) }
{
    let mut out = Vec::new(alloc);
    put_derivation_text(alloc, d, &mut out)?;
    Ok(out)
}
