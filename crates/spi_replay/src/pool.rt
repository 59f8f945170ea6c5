// Pools.

ghost use Rattle.std.specs.Prelude.{◌≡◌, ◌-◌, ◌^◌, ◌<◌, ◌≤◌, ◌⊎◌, ◌∷◌, [], List, Some, IfOk, IfErr, OnErr, MatchOption, length, slice_get};
ghost use Rattle.spi_term.specs.View.{message};
ghost use Rattle.spi_run.specs.Reduction.{Step as StepTerm};
ghost use Rattle.spi_run.specs.Knowledge.{shown};
ghost use Rattle.spi_run.specs.Safety.{beside};
ghost use Rattle.spi_run.specs.View.{step as step_of};
ghost use Rattle.spi_replay.specs.Ready.{AreReady, IsReadyTalk, count_at, AreReadyPlaces, PutsOut, TakesIn};
ghost use Rattle.spi_replay.specs.Stepping.{RefusesPoolStep, IsTaken, event_in};

use crate::NoMemory;
use crate::fault::StepFault;
use crate::handing::handed;
use crate::listing::{Side, kth, ready, ready_at, waiting_on};
use crate::running::{State, push_first, step_act, step_talk};
use spi_run::{Event, Step};
use spi_term::{Msg, Process};
use std::alloc::Global;
use std::marker::Model;

/// A configuration that is run step by step. Contracts see it as the configuration and the most places that it may have.
///
/// A step costs the messages that it binds, whatever the number of places: a place is a node of one of the two processes,
/// and the messages of the names bound above it are shared.
#[derive(Drop)]
pub struct Pool<'p> {
    state: State<'p>,
}

impl<'p> Model for Pool<'p> {
    ghost use Rattle.spi_replay.specs.Stepping.{Pooled};
    ghost use Rattle.spi_replay.specs.Codes.{coded_pooled};
    ghost use Rattle.spi_replay.specs.Pools.{pooled, IsState};

    ghost Value = { Pooled };

    ghost coded = { coded_pooled };

    ghost view = { λ p. pooled p.state };

    ghost invariant = { λ p. IsState p.state };
}

impl<'p> Pool<'p> {
    /// The process at place 0 and the opponent at place 1, with as many names used as the process has free ones. Both have
    /// the same number of them. The pool may have at most `most_places` places, 2 at least and fewer than 4,294,967,295.
    /// Its only error is NoMemory.
    pub fn start(
        alloc: Global,
        process: &'p Process,
        opponent: &'p Process,
        most_places: u32,
    ) -> Result<Pool<'p>, NoMemory>
        requires names { process.now.names ≡ opponent.now.names }
        requires places { 2 ≤ most_places }
        requires most { most_places < 2 ^ 32 - 1 }
        ensures configuration { IfOk result
            (λ p. p.configuration ≡ beside process.now.names process.now.process opponent.now.process) }
        ensures most { IfOk result (λ p. p.most ≡ most_places) }
    {
        let mut state = State::new(alloc, process.names(), most_places);
        push_first(&mut state, process)?;
        push_first(&mut state, opponent)?;
        Ok(Pool { state })
    }

    /// Takes a step, and gives its event. Fewer than 4,294,967,295 names are used before. After an error the pool is as it was.
    ///
    /// A step that names a place outside the pool is `NoPlace`, else one that isn't ready is `NotReady`, else one that binds
    /// or shows a message of more than 1,000 nodes is `RunMessageTooLarge`, else one after which there are too many places is
    /// `TooManyPlaces`. The last error is `NoMemory`.
    pub fn step(&mut self, step: Step) -> Result<Option<Event>, StepFault>
        requires { self.old.configuration.names < 2 ^ 32 - 1 }
        ensures ok { IfOk result (λ e. IsTaken self.old (step_of step) (event_in e) self.new) }
        ensures refused { IfErr result
            (λ f. (f ≡ StepFault.NoMemory)
            ⊎ RefusesPoolStep self.old.configuration self.old.most (step_of step) f) }
        ensures unchanged { OnErr result (self.new ≡ self.old) }
    {
        match step {
            Step::Act(place) => step_act(&mut self.state, place),
            Step::Talk(out, inp) => step_talk(&mut self.state, out, inp),
        }
    }

    /// The closed message that a ready Talk hands over. `None` where the step isn't a ready Talk. The time is linear in
    /// the message. Its only error is NoMemory.
    pub fn datum(&self, step: Step) -> Result<Option<Msg>, NoMemory>
        ensures { IfOk result
            (λ d. MatchOption d (IsReadyTalk self.now.configuration (step_of step) → ⊥)
            (λ m. IsReadyTalk self.now.configuration (step_of step)
            × (shown self.now.configuration (step_of step) ≡ message m ∷ []))) }
    {
        match step {
            Step::Act(_) => Ok(None),
            Step::Talk(out, inp) => handed(&self.state, out, inp),
        }
    }

    /// How many places it has.
    pub fn places(&self) -> u32
        ensures { result ≡ length self.now.configuration.places }
    {
        self.state.index.len() as u32
    }

    /// How many names are used.
    pub fn names(&self) -> u32
        ensures { result ≡ self.now.configuration.names }
    {
        self.state.names
    }

    /// How many steps are ready. The time is that of a walk over the places.
    pub fn ready(&self) -> u64
        ensures { (ss : List StepTerm) × AreReady self.now.configuration ss × (result ≡ length ss) }
    {
        ready(&self.state)
    }

    /// The ready step with the number k, counted from 0 in their order: by the first place, and the meetings of one output by
    /// the input's place. `None` where k is at least `ready`.
    pub fn kth(&self, k: u64) -> Option<Step>
        ensures { MatchOption result
            ((ss : List StepTerm) × AreReady self.now.configuration ss × (length ss ≤ k))
            (λ s. (ss : List StepTerm) × AreReady self.now.configuration ss
            × (slice_get ss k ≡ Some (step_of s))) }
    {
        kth(&self.state, k)
    }

    /// How many steps are ready whose first place is this one, which is in the pool. The sum over all places is `ready`.
    pub fn ready_at(&self, place: u32) -> u64
        requires { place < length self.now.configuration.places }
        ensures { (ss : List StepTerm) × AreReady self.now.configuration ss × (result ≡ count_at place ss) }
    {
        ready_at(&self.state, place)
    }

    /// The ascending places that hold an output on this channel.
    pub fn outs_on(&self, channel: &Msg) -> &[u32]
        ensures { AreReadyPlaces (PutsOut (message channel.now)) self.now.configuration.places result.now }
    {
        waiting_on(&self.state, channel, Side::Out)
    }

    /// The ascending places that hold an input or a replicated input on this channel.
    pub fn ins_on(&self, channel: &Msg) -> &[u32]
        ensures { AreReadyPlaces (TakesIn (message channel.now)) self.now.configuration.places result.now }
    {
        waiting_on(&self.state, channel, Side::In)
    }
}
