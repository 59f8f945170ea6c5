// Ready steps, and the places that wait on a channel.

ghost use Rattle.std.specs.Prelude.{◌≡◌, ◌<◌, ◌≤◌, ◌⊎◌, ℕ, List, Some, None, MatchOption, length, slice_get};
ghost use Rattle.spi_term.specs.Term.{Process, same_message};
ghost use Rattle.spi_term.specs.View.{message};
ghost use Rattle.spi_intern.specs.Messages.{message_at};
ghost use Rattle.spi_run.specs.Reduction.{Step as StepTerm};
ghost use Rattle.spi_run.specs.View.{step as step_of};
ghost use Rattle.spi_replay.specs.Ready.{AreReady, count_at, AreReadyPlaces, PutsOut, TakesIn};
ghost use Rattle.spi_replay.specs.Indexed.{out_channel, in_channel};
ghost use Rattle.spi_replay.specs.Listing.{steps_begun, WaitsOn};
ghost use Rattle.spi_replay.specs.Pools.{pooled, IsState};

use crate::running::State;
use crate::waits::{Wait, is_act};
use spi_intern::{MsgId, MsgPart, Store};
use spi_run::Step;
use spi_term::Msg;

// The number of the channel that is put out on.
fn out_of(wait: Wait) -> Option<MsgId>
    ensures { MatchOption result (out_channel wait ≡ None) (λ c. out_channel wait ≡ Some c.place) }
{
    match wait {
        Wait::Puts(channel, _) => Some(channel),
        _ => None,
    }
}

// How many ready steps begin at a place.
fn begun_at(state: &State<'_>, place: u32) -> u64
    requires is { IsState state.now }
    requires there { place < length state.now.index.places.items }
    ensures { result ≡ length (steps_begun (pooled state.now).configuration place) }
{
    // The count is asked for what its answer says: no message has two numbers.
    let _ = state.store.distinct();
    let wait = state.index.at(place).wait;
    match out_of(wait) {
        Some(channel) => state.index.ins(channel).len() as u64,
        None => if is_act(wait) { 1 } else { 0 },
    }
}

// The ready step of a place with this number.
fn step_at(state: &State<'_>, place: u32, k: u64) -> Step
    requires is { IsState state.now }
    requires there { place < length state.now.index.places.items }
    requires within { k < length (steps_begun (pooled state.now).configuration place) }
    ensures { slice_get (steps_begun (pooled state.now).configuration place) k ≡ Some (step_of result) }
{
    // The count is asked for what its answer says: no message has two numbers.
    let _ = state.store.distinct();
    match out_of(state.index.at(place).wait) {
        Some(channel) => Step::Talk(place, state.index.ins(channel)[k as usize]),
        None => Step::Act(place),
    }
}

/// How many ready steps begin at a place.
pub fn ready_at(state: &State<'_>, place: u32) -> u64
    requires is { IsState state.now }
    requires there { place < length state.now.index.places.items }
    ensures { (ss : List StepTerm) × AreReady (pooled state.now).configuration ss
        × (result ≡ count_at place ss) }
{
    begun_at(state, place)
}

/// How many steps are ready.
pub fn ready(state: &State<'_>) -> u64
    requires { IsState state.now }
    ensures { (ss : List StepTerm) × AreReady (pooled state.now).configuration ss × (result ≡ length ss) }
{
    let mut count = 0;
    for place in 0..state.index.len() as u32 {
        count += begun_at(state, place);
    }
    count
}

/// The ready step with this number.
pub fn kth(state: &State<'_>, k: u64) -> Option<Step>
    requires { IsState state.now }
    ensures { MatchOption result
        ((ss : List StepTerm) × AreReady (pooled state.now).configuration ss × (length ss ≤ k))
        (λ s. (ss : List StepTerm) × AreReady (pooled state.now).configuration ss
        × (slice_get ss k ≡ Some (step_of s))) }
{
    let mut left = k;
    for place in 0..state.index.len() as u32 {
        let here = begun_at(state, place);
        if left < here {
            return Some(step_at(state, place, left));
        }
        left -= here;
    }
    None
}

// The number of the channel that is waited on.
fn channel_of(wait: Wait) -> Option<MsgId>
    ensures { MatchOption result ((out_channel wait ≡ None) × (in_channel wait ≡ None))
        (λ c. (out_channel wait ≡ Some c.place) ⊎ (in_channel wait ≡ Some c.place)) }
{
    match wait {
        Wait::Puts(channel, _) => Some(channel),
        Wait::Takes(channel, _) => Some(channel),
        Wait::TakesAgain(channel, _) => Some(channel),
        _ => None,
    }
}

// Whether the message with a number is this one.
fn is_message(store: &Store, id: MsgId, m: &Msg) -> bool
    requires { id.place < length store.now.messages }
    ensures { result ≡ same_message (message_at store.now.messages id) (message m.now) }
{
    let part = store.part(id);
    match m {
        Msg::Bound(i) => part == MsgPart::Bound(*i),
        Msg::Name(x) => part == MsgPart::Name(*x),
        Msg::Unit => part == MsgPart::Unit,
        Msg::Pair(two) => match part {
            MsgPart::Pair(first, second) => is_message(store, first, &two.first)
                && is_message(store, second, &two.second),
            _ => false,
        },
        Msg::Inl(a) => match part {
            MsgPart::Inl(inner) => is_message(store, inner, a),
            _ => false,
        },
        Msg::Inr(a) => match part {
            MsgPart::Inr(inner) => is_message(store, inner, a),
            _ => false,
        },
        Msg::Enc(sealed) => match part {
            MsgPart::Enc(body, key) => is_message(store, body, &sealed.body)
                && is_message(store, key, &sealed.key),
            _ => false,
        },
        Msg::Hash(a) => match part {
            MsgPart::Hash(inner) => is_message(store, inner, a),
            _ => false,
        },
    }
}

// The number of a channel on which some place waits.
fn waited_on(state: &State<'_>, channel: &Msg) -> Option<MsgId>
    requires { IsState state.now }
    ensures { MatchOption result
        ((i : ℕ) (p : Process) → slice_get (pooled state.now).configuration.places i ≡ Some p
        → PutsOut (message channel.now) p ⊎ TakesIn (message channel.now) p → ⊥)
        (λ id. slice_get state.now.store.messages id.place ≡ Some (message channel.now)) }
{
    for place in 0..state.index.len() as u32 {
        if let Some(id) = channel_of(state.index.at(place).wait) {
            if is_message(&state.store, id, channel) {
                return Some(id);
            }
        }
    }
    None
}

/// The two ways to wait on a channel.
#[derive(Clone, Copy)]
pub enum Side {
    /// To put out on it.
    Out,
    /// To take in on it, once or again and again.
    In,
}

/// The ascending places that wait on a channel on this side.
pub fn waiting_on<'s>(state: &'s State<'_>, channel: &Msg, side: Side) -> &'s [u32]
    requires { IsState state.now }
    ensures { AreReadyPlaces (WaitsOn side (message channel.now)) (pooled state.now).configuration.places
        result.now }
{
    // The count is asked for what its answer says: no message has two numbers.
    let _ = state.store.distinct();
    match waited_on(state, channel) {
        Some(id) => match side {
            Side::Out => state.index.outs(id),
            Side::In => state.index.ins(id),
        },
        None => &[],
    }
}
