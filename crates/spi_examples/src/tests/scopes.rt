// Files by example: where their parts stand, and which names are in scope.

use super::samples::{BEGINS, Line, MISSING, NoMemory, Question, each, each_line, shows};
use bumpalo::Bump;
use spi_gen::sessions;
use spi_opponent::is_opponent;
use spi_scope::{File, resolve};
use spi_tree::{Room, tokens_of};
use std::alloc::Global;

/// Where a part of a file begins.
#[derive(Clone, Copy)]
enum Place {
    Process,
    Opponent,
    Step,
    Rule,
}

impl Question for Place {
    fn answer(self, _alloc: Global, file: &File) -> Result<u64, NoMemory> {
        let place = match self {
            Place::Process => file.process_place(1),
            Place::Opponent => file.opponent_place(0),
            Place::Step => file.step_place(0),
            Place::Rule => file.rule_place(1),
        };
        Ok(place.from as u64)
    }
}

const WHOLE: &str =
    "free a; process begin a; stop opponent out a a schedule act 0; derivation ProcBegin ProcStop";

#[test]
fn parts_have_places(rt: HostRuntime) {
    each(&rt, Place::Process, &[(WHOLE, 25), ("process stop", 0)]);
    each(&rt, Place::Opponent, &[(WHOLE, 39)]);
    each(&rt, Place::Step, &[(WHOLE, 56)]);
    each(&rt, Place::Rule, &[(WHOLE, 84)]);
}

/// The spelling of the last name in scope at node 1.
#[derive(Clone, Copy)]
struct LastName;

impl Line for LastName {
    fn line(self, alloc: Global, _text: &str, file: &File) -> Result<Vec<u8>, NoMemory> {
        let names = file.scope_names(alloc, 1)?;
        match names.last() {
            Some(name) => name.as_str().as_bytes().to_vec(alloc),
            None => Ok(Vec::new(alloc)),
        }
    }
}

#[test]
fn a_bound_name_is_in_scope_behind_its_binder(rt: HostRuntime) {
    let behind = "free a; process new (x: Un); out a x";
    let before = "free a; process begin a; new (x: Un); out a x";
    each_line(&rt, LastName, &[(behind, "x"), (before, "a")]);
}

/// The first node that is in no opponent.
#[derive(Clone, Copy)]
struct Offence;

impl Question for Offence {
    fn answer(self, _alloc: Global, file: &File) -> Result<u64, NoMemory> {
        match is_opponent(&file.process) {
            Ok(()) => Ok(MISSING),
            Err(fault) => Ok(fault.node as u64),
        }
    }
}

#[test]
fn an_opponent_neither_begins_nor_has_types(rt: HostRuntime) {
    let offences = [
        ("free a; process new (x: Un); out a x", MISSING),
        (BEGINS, 0),
        ("free a; process new (x: Un); new (y: Key(Un)); stop", 1),
    ];
    each(&rt, Offence, &offences);
}

/// Whether the tree of two generated sessions has so many tokens, and stands for a file.
fn are_sessions(alloc: Global, tokens: usize) -> Result<bool, NoMemory> {
    let bump = Bump::new(alloc);
    let tree = sessions(Room { alloc, bump: &bump }, 2)?;
    Ok(tokens_of(alloc, &tree)?.len() == tokens && resolve(alloc, &tree).is_ok())
}

#[test]
fn generated_sessions_are_a_file(rt: HostRuntime) {
    shows(&rt, "two sessions", are_sessions(rt.alloc(), 298));
}
