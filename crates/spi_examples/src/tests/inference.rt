// Inference by example.

use super::samples::{BEGINS, MISSING, NoMemory, Question, each};
use spi_infer::{Inferred, effect_at, infer, infer_over, reached};
use spi_scope::File;
use spi_term::Effect;
use std::alloc::Global;
use std::marker::Brand;
use std::sync::ledger::Blank;

/// What is asked of a process, and at its node 1.
#[derive(Clone, Copy)]
enum OfProcesses {
    Inferred,
    Counted,
    Reached,
    EffectAt,
}

/// How many atoms the effect has, or 100 and the number of the node that blocks.
fn number_of(inferred: &Inferred) -> u64 {
    match inferred {
        Inferred::Least(effect) => effect.atoms.len() as u64,
        Inferred::Blocked(node) => *node as u64 + 100,
    }
}

fn atoms_in(effect: Option<Effect>) -> u64 {
    match effect {
        Some(effect) => effect.atoms.len() as u64,
        None => MISSING,
    }
}

impl Question for OfProcesses {
    fn answer(self, alloc: Global, file: &File) -> Result<u64, NoMemory> {
        let process = &file.process;
        if process.len() < 2 {
            return Ok(MISSING);
        }
        match self {
            OfProcesses::Inferred => Ok(number_of(&infer(alloc, process)?)),
            OfProcesses::Counted => {
                let inferred = infer_over::<Brand>(alloc, process, Blank::new(1))?;
                Ok(number_of(&inferred))
            }
            OfProcesses::Reached => Ok(reached(alloc, process, 1)?.len() as u64),
            OfProcesses::EffectAt => Ok(atoms_in(effect_at(alloc, process, 1)?)),
        }
    }
}

const FREE: &str = "free a; process new (x: Un); end a; stop";

const BOUND: &str = "free a; process new (x: Un); end x; stop";

#[test]
fn the_end_of_a_free_name_is_the_least_effect(rt: HostRuntime) {
    let inferred = [(FREE, 1), (BOUND, 100)];
    each(&rt, OfProcesses::Inferred, &inferred);
    each(&rt, OfProcesses::Counted, &inferred);
}

#[test]
fn a_node_is_reached_with_its_names(rt: HostRuntime) {
    each(&rt, OfProcesses::Reached, &[(FREE, 2), (BEGINS, 1)]);
    each(&rt, OfProcesses::EffectAt, &[(FREE, 1), (BOUND, 1)]);
}
