// A judge by example: it has the free names and, after them, a name of the first type of
// `new (x: FIRST); new (y: SECOND); out CHANNEL DATUM`.

ghost use Rattle.std.specs.Prelude.{◌≡◌, ◌+◌, ◌<◌, ◌^◌, IfOk, length};
ghost use Rattle.spi_term.specs.Spelling.{ty_nodes};
ghost use Rattle.spi_term.specs.View.{ty};

use super::samples::{
    BARE, CHECKED, NoMemory, OPENED_RIGHT, OPENED_WRONG, SEALED, Sample, SampleQuestion, each,
};
use spi_intern::TyId;
use spi_message::Judge;
use spi_term::{Msg, Process, Ty, type_nodes};
use std::alloc::Global;

/// What is asked of the datum and the second type.
#[derive(Clone, Copy)]
enum OfJudges {
    Typed,
    Labelled,
    Good,
    Opened,
    Unbound,
}

fn judge_of(alloc: Global, process: &Process, ty: &Ty) -> Result<Judge, NoMemory>
    ensures free { IfOk result (λ judge. judge.free ≡ process.now.names) }
    ensures length { IfOk result (λ judge. length judge.types ≡ process.now.names + 1) }
{
    let _ = process.len();
    let mut judge = Judge::new(alloc, process.names())?;
    let id = judge.ty(alloc, ty)?;
    judge.bind(id)?;
    Ok(judge)
}

fn is_typed(alloc: Global, judge: &mut Judge, m: &Msg, t: &Ty) -> Result<bool, NoMemory> {
    let t = judge.ty(alloc, t)?;
    let m = judge.message(m)?;
    judge.has_type(alloc, m, t)
}

fn is_labelled(alloc: Global, judge: &mut Judge, m: &Msg) -> Result<bool, NoMemory> {
    let m = judge.message(m)?;
    judge.is_label(alloc, m)
}

fn is_good(alloc: Global, judge: &mut Judge, t: &Ty) -> Result<bool, NoMemory>
    requires { length judge.old.types + ty_nodes (ty t.now) < 2 ^ 32 }
{
    let t = judge.ty(alloc, t)?;
    judge.good_type(alloc, t)
}

/// The number of the type with the message for its binder.
fn opened(alloc: Global, judge: &mut Judge, t: &Ty, m: &Msg) -> Result<TyId, NoMemory> {
    let t = judge.ty(alloc, t)?;
    let m = judge.message(m)?;
    judge.opened(alloc, t, m)
}

/// Whether the second type is the second part of the first, with the channel for its binder.
fn is_opened(alloc: Global, judge: &mut Judge, parts: &Sample<'_>) -> Result<bool, NoMemory> {
    match parts.first {
        Ty::Pair(two) => {
            let made = opened(alloc, judge, &two.second, parts.channel)?;
            Ok(made == judge.ty(alloc, parts.second)?)
        }
        _ => Ok(false),
    }
}

fn answer_by(
    alloc: Global,
    question: OfJudges,
    judge: &mut Judge,
    parts: &Sample<'_>,
) -> Result<bool, NoMemory>
    requires { judge.old.free < length judge.old.types }
{
    match question {
        OfJudges::Typed => is_typed(alloc, judge, parts.datum, parts.second),
        OfJudges::Labelled => is_labelled(alloc, judge, parts.datum),
        OfJudges::Good => {
            if judge.len() > 1000 || type_nodes(parts.second) > 1000 {
                return Ok(false);
            }
            is_good(alloc, judge, parts.second)
        }
        OfJudges::Opened => is_opened(alloc, judge, parts),
        OfJudges::Unbound => {
            judge.unbind();
            is_labelled(alloc, judge, parts.datum)
        }
    }
}

impl SampleQuestion for OfJudges {
    fn answer_of(self, alloc: Global, parts: &Sample<'_>) -> Result<u64, NoMemory> {
        let mut judge = judge_of(alloc, parts.process, parts.first)?;
        Ok(answer_by(alloc, self, &mut judge, parts)? as u64)
    }
}

#[test]
fn a_judge_answers_as_its_environment_does(rt: HostRuntime) {
    each(&rt, OfJudges::Typed, &[(SEALED, 1), (BARE, 0)]);
    each(&rt, OfJudges::Labelled, &[(SEALED, 1), (BARE, 1)]);
}

#[test]
fn a_judge_wants_checked_names_untrusted(rt: HostRuntime) {
    let free = "free a; process new (x: Key(Un)); new (y: Nonce [check a]); out a a";
    each(&rt, OfJudges::Good, &[(free, 1), (CHECKED, 0)]);
}

#[test]
fn an_opened_type_has_its_number(rt: HostRuntime) {
    let opened = [(OPENED_RIGHT, 1), (OPENED_WRONG, 0)];
    each(&rt, OfJudges::Opened, &opened);
}

#[test]
fn a_name_that_was_taken_away_is_no_label(rt: HostRuntime) {
    let free = "free a; process new (x: Un); new (y: Un); out a a";
    let taken = "free a; process new (x: Un); new (y: Un); out a x";
    each(&rt, OfJudges::Unbound, &[(free, 1), (taken, 0)]);
}

/// Whether the last name has the number of its type in the judge's store.
#[derive(Clone, Copy)]
struct Last;

impl SampleQuestion for Last {
    fn answer_of(self, alloc: Global, parts: &Sample<'_>) -> Result<u64, NoMemory> {
        let mut judge = judge_of(alloc, parts.process, parts.first)?;
        let id = judge.ty(alloc, parts.first)?;
        let last = judge.len() - 1;
        Ok((judge.at(last) == id && judge.store().distinct() > 1) as u64)
    }
}

#[test]
fn the_last_name_has_the_type_that_was_bound(rt: HostRuntime) {
    let text = "free a; process new (x: Key(Un)); new (y: Un); out a a";
    each(&rt, Last, &[(text, 1)]);
}

/// How many different messages and types a judge's store has once the first type was opened and the datum was typed.
#[derive(Clone, Copy)]
struct Counted;

impl SampleQuestion for Counted {
    fn answer_of(self, alloc: Global, parts: &Sample<'_>) -> Result<u64, NoMemory> {
        let mut judge = judge_of(alloc, parts.process, parts.first)?;
        let _ = is_opened(alloc, &mut judge, parts)?;
        let _ = is_typed(alloc, &mut judge, parts.datum, parts.second)?;
        Ok(judge.store().distinct())
    }
}

#[test]
fn a_judge_counts_what_it_opened_and_compared(rt: HostRuntime) {
    let compared = "free a; process new (x: Un); new (y: (p: Un, Nonce [end p])); out a (a, a)";
    each(&rt, Counted, &[(OPENED_RIGHT, 6), (compared, 7)]);
}
