// Audits by example.

use super::processes::{NoMemory, begins_twice, shows, stops};
use spi_audit::{Audited, audit};
use spi_rules::{Deriv, Rule, RuleUse};
use spi_term::{Atom, Effect, Msg, Process};
use std::alloc::Global;

// What an audit finds of the derivation with these uses: 0 for a proof, 100 and the number of atoms that are left, 200 and
// the number of the wrong use, or 300 for no derivation.
fn audited(alloc: Global, process: &Process, uses: Vec<RuleUse>) -> Result<u64, NoMemory> {
    if uses.len() > 10 {
        return Ok(300);
    }
    let Some(known) = Deriv::of(uses) else {
        return Ok(300);
    };
    match audit(alloc, process, &known)? {
        Audited::Proved => Ok(0),
        Audited::Unpaid { effect } => Ok((effect.atoms.len() as u64).saturating_add(100)),
        Audited::WrongStep { index } => Ok(index as u64 + 200),
    }
}

// So many uses of `ProcBegin`, and one of `ProcStop`.
fn begins(alloc: Global, count: u32) -> Result<Vec<RuleUse>, NoMemory> {
    let mut uses = Vec::new(alloc);
    for number in 0..=count {
        uses.push(RuleUse {
            rule: if number < count {
                Rule::ProcBegin
            } else {
                Rule::ProcStop
            },
            taken: None,
        })?;
    }
    Ok(uses)
}

// Whether a derivation with so many uses of `ProcBegin` is found so for `begin a; begin a; stop`.
fn is_judged(alloc: Global, count: u32, found: u64) -> Result<bool, NoMemory> {
    let process = begins_twice(alloc)?;
    Ok(audited(alloc, &process, begins(alloc, count)?)? == found)
}

#[test]
fn a_derivation_is_judged_use_by_use(rt: HostRuntime) {
    shows(&rt, "a use for each node", is_judged(rt.alloc(), 2, 0));
    shows(&rt, "a use that doesn't fit", is_judged(rt.alloc(), 1, 201));
}

// Whether one atom is left where `stop` is used with an effect that it doesn't have.
fn is_left(alloc: Global) -> Result<bool, NoMemory> {
    let process = stops(alloc)?;
    let atoms = Vec::from_array(alloc, [Atom::End(Msg::Name(0))])?;
    let more = RuleUse {
        rule: Rule::ProcSub,
        taken: Some(Effect { atoms }),
    };
    let stop = RuleUse {
        rule: Rule::ProcStop,
        taken: None,
    };
    let uses = Vec::from_array(alloc, [more, stop])?;
    Ok(audited(alloc, &process, uses)? == 101)
}

#[test]
fn what_a_derivation_leaves_is_its_own_effect(rt: HostRuntime) {
    shows(&rt, "an effect that is more", is_left(rt.alloc()));
}
