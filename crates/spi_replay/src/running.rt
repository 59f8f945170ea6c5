// Steps of a pool's state.

ghost use Rattle.std.specs.Prelude.{◌≡◌, ◌+◌, ◌-◌, ◌^◌, ◌<◌, ◌⊎◌, None, IfOk, IfErr, OnOk, OnErr, Some, [], length};
ghost use Rattle.spi_term.specs.Names.{ProcessOver};
ghost use Rattle.spi_run.specs.Reduction.{act, talk};
ghost use Rattle.spi_replay.specs.Stepping.{RefusesPoolStep, IsTaken, event_in};
ghost use Rattle.spi_replay.specs.Started.{HasFirstPlace};
ghost use Rattle.spi_replay.specs.Pools.{pooled, IsState, MayAct, MayTalk, again_appends};

use crate::NoMemory;
use crate::acting::{Taken, take};
use crate::fault::StepFault;
use crate::index::Index;
use crate::names::Link;
use crate::places::{entered, entered_with};
use crate::reading::{largest_of, nodes_of};
use crate::waits::{Meeting, appended_by, is_act, meeting_of};
use spi_intern::Store;
use spi_run::Event;
use spi_term::Process;
use std::alloc::Global;

/// The most nodes of a message that is bound to a name or shown.
const MESSAGE_MOST: u64 = 1_000;

/// A pool's places, how many names are used, and the messages and links that its places share.
pub struct State<'p> {
    pub alloc: Global,
    pub names: u32,
    pub most: u32,
    pub store: Store,
    pub links: Vec<Link>,
    pub index: Index<'p>,
}

impl Drop for State<'_> {
    fn drop(self) {
        let Self {
            alloc,
            names,
            most,
            store,
            links,
            index,
        } = self;
    }
}

impl<'p> State<'p> {
    /// No places.
    pub fn new(alloc: Global, names: u32, most: u32) -> State<'p>
        ensures places { result.index.places.items ≡ [] }
        ensures names { result.names ≡ names }
        ensures most { result.most ≡ most }
    {
        State {
            alloc,
            names,
            most,
            store: Store::new(alloc),
            links: Vec::new(alloc),
            index: Index::new(alloc),
        }
    }
}

/// One place more, which stands at the first node of a process.
pub fn push_first<'p>(state: &mut State<'p>, source: &'p Process) -> Result<(), NoMemory>
    requires { length state.old.index.places.items < 2 ^ 32 - 1 }
    ensures over { ProcessOver source.now.names source.now.process }
    ensures pushed { OnOk result (HasFirstPlace source.now state.old state.new) }
{
    // The nodes are asked for what their answer says: each name is one of those in scope.
    let _ = source.len();
    let first = entered(&mut state.store, &state.links, source, 0, 0)?;
    state.index.push(first)
}

// Whether the place acts alone, within the limits.
fn may_act(state: &State<'_>, place: u32) -> Result<(), StepFault>
    requires { IsState state.now }
    ensures may { OnOk result (MayAct state.now place) }
    ensures refused { IfErr result
        (RefusesPoolStep (pooled state.now).configuration state.now.most (act place)) }
{
    if place as usize >= state.index.len() {
        return Err(StepFault::NoPlace { place });
    }
    let wait = state.index.at(place).wait;
    if !is_act(wait) {
        return Err(StepFault::NotReady { place });
    }
    let nodes = largest_of(&state.store, wait);
    if nodes > MESSAGE_MOST {
        return Err(StepFault::RunMessageTooLarge { nodes });
    }
    let places = state.index.len() as u32 + appended_by(wait);
    if places > state.most {
        return Err(StepFault::TooManyPlaces { places });
    }
    Ok(())
}

fn act_now(state: &mut State<'_>, place: u32) -> Result<Option<Event>, NoMemory>
    requires is { IsState state.old }
    requires may { MayAct state.old place }
    requires names { state.old.names < 2 ^ 32 - 1 }
    ensures taken { IfOk result
        (λ e. IsTaken (pooled state.old) (act place) (event_in e) (pooled state.new)) }
    ensures unchanged { OnErr result (pooled state.new ≡ pooled state.old) }
    ensures is { IsState state.new }
{
    let here = state.index.at(place);
    let Taken {
        now,
        more,
        event,
        names,
    } = take(
        state.alloc,
        &mut state.store,
        &mut state.links,
        &here,
        state.names,
    )?;
    state.index.moved(place, now, more)?;
    state.names = names;
    Ok(event)
}

/// The act of a place.
pub fn step_act(state: &mut State<'_>, place: u32) -> Result<Option<Event>, StepFault>
    requires is { IsState state.old }
    requires names { state.old.names < 2 ^ 32 - 1 }
    ensures taken { IfOk result
        (λ e. IsTaken (pooled state.old) (act place) (event_in e) (pooled state.new)) }
    ensures refused { IfErr result
        (λ f. (f ≡ StepFault.NoMemory)
        ⊎ RefusesPoolStep (pooled state.old).configuration state.old.most (act place) f) }
    ensures unchanged { OnErr result (pooled state.new ≡ pooled state.old) }
    ensures is { IsState state.new }
{
    match may_act(state, place) {
        Err(fault) => Err(fault),
        Ok(()) => match act_now(state, place) {
            Ok(event) => Ok(event),
            Err(_) => Err(StepFault::NoMemory),
        },
    }
}

// What the two places hand over, within the limits.
fn may_talk(state: &State<'_>, out: u32, inp: u32) -> Result<Meeting, StepFault>
    requires { IsState state.now }
    ensures may { IfOk result (MayTalk state.now out inp) }
    ensures refused { IfErr result
        (RefusesPoolStep (pooled state.now).configuration state.now.most (talk out inp)) }
{
    if out as usize >= state.index.len() {
        return Err(StepFault::NoPlace { place: out });
    }
    if inp as usize >= state.index.len() {
        return Err(StepFault::NoPlace { place: inp });
    }
    // The count is asked for what its answer says: no message has two numbers.
    let _ = state.store.distinct();
    match meeting_of(state.index.at(out).wait, state.index.at(inp).wait) {
        None => Err(StepFault::NotReady { place: out }),
        Some(meeting) => {
            let nodes = nodes_of(&state.store, meeting.datum);
            if nodes > MESSAGE_MOST {
                return Err(StepFault::RunMessageTooLarge { nodes });
            }
            let places = state.index.len() as u32 + appended_if(meeting.again);
            if places > state.most {
                return Err(StepFault::TooManyPlaces { places });
            }
            Ok(meeting)
        }
    }
}

fn appended_if(again: bool) -> u32
    ensures { result ≡ again_appends again }
{
    if again { 1 } else { 0 }
}

fn talk_now(state: &mut State<'_>, out: u32, inp: u32, meeting: Meeting) -> Result<(), NoMemory>
    requires is { IsState state.old }
    requires may { MayTalk state.old out inp meeting }
    ensures taken { OnOk result (IsTaken (pooled state.old) (talk out inp) None (pooled state.new)) }
    ensures unchanged { OnErr result (pooled state.new ≡ pooled state.old) }
    ensures is { IsState state.new }
{
    let receiver = state.index.at(inp);
    let now = entered_with(
        &mut state.store,
        &mut state.links,
        receiver.source,
        meeting.body,
        receiver.last,
        meeting.datum,
    )?;
    state.index.met(out, inp, now, meeting.again)?;
    Ok(())
}

/// The meeting of an output and an input.
pub fn step_talk(state: &mut State<'_>, out: u32, inp: u32) -> Result<Option<Event>, StepFault>
    requires is { IsState state.old }
    ensures taken { IfOk result
        (λ e. IsTaken (pooled state.old) (talk out inp) (event_in e) (pooled state.new)) }
    ensures refused { IfErr result
        (λ f. (f ≡ StepFault.NoMemory)
        ⊎ RefusesPoolStep (pooled state.old).configuration state.old.most (talk out inp) f) }
    ensures unchanged { OnErr result (pooled state.new ≡ pooled state.old) }
    ensures is { IsState state.new }
{
    match may_talk(state, out, inp) {
        Err(fault) => Err(fault),
        Ok(meeting) => match talk_now(state, out, inp, meeting) {
            Ok(()) => Ok(None),
            Err(_) => Err(StepFault::NoMemory),
        },
    }
}
