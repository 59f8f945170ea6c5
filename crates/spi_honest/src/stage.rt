//! The pool in which a narration goes.

ghost use Rattle.std.specs.Prelude.{◌≡◌, ◌⊎◌, ◌↔◌, ◌-◌, ◌^◌, ◌<◌, ◌++◌, IsTrue, Option, map, option_to_list, IfErr, OnOk};
ghost use Rattle.spi_term.specs.Lists.{In};
ghost use Rattle.spi_term.specs.Term.{name};
ghost use Rattle.spi_run.specs.Reduction.{Event as Shown};
ghost use Rattle.spi_run.specs.View.{step as step_of, event as event_of};
ghost use Rattle.spi_replay.specs.Stepping.{Pooled, IsTaken, RefusesPoolStep, event_in};
ghost use Rattle.spi_honest.specs.Stages.{TookStep, IsRoomy, IsStepRefused, PutsAt, TakesAt};

use crate::NoMemory;
use crate::fault::HonestFault;
use crate::honest::Honest;
use spi_replay::{Pool, StepFault};
use spi_run::{Event, Step};
use spi_term::Msg;
use std::alloc::AllocError;

/// A pool, the steps and the events so far, and the place of each role by its number.
pub struct Stage<'p> {
    pub pool: Pool<'p>,
    pub steps: Vec<Step>,
    pub events: Vec<Event>,
    pub places: Vec<u32>,
}

impl Drop for Stage<'_> {
    fn drop(self) {
        let Self {
            pool,
            steps,
            events,
            places,
        } = self;
    }
}

impl Stage<'_> {
    /// The steps and the events.
    pub fn played(self) -> Honest
        ensures steps { result.steps.items ≡ self.entry.steps.items }
        ensures events { result.events.items ≡ self.entry.events.items }
    {
        let Stage {
            pool: _,
            steps,
            events,
            places: _,
        } = self;
        Honest { steps, events }
    }
}

// Appends an event, where there is one.
fn note(events: &mut Vec<Event>, event: Option<Event>) -> Result<(), NoMemory>
    ensures { OnOk result
        (map event_of events.new.items ≡ map event_of events.old.items ++ option_to_list (event_in event)) }
{
    match event {
        None => Ok(()),
        Some(event) => {
            events.push(event)?;
            Ok(())
        }
    }
}

/// Takes a step, and notes it and its event.
pub fn take(stage: &mut Stage<'_>, step: Step) -> Result<(), StepFault>
    requires { stage.old.pool.configuration.names < 2 ^ 32 - 1 }
    ensures taken { OnOk result (TookStep stage.old stage.new (step_of step)) }
    ensures refused { IfErr result
        (λ f. (f ≡ StepFault.NoMemory)
        ⊎ RefusesPoolStep stage.old.pool.configuration stage.old.pool.most (step_of step) f) }
{
    match stage.pool.step(step) {
        Ok(event) => {
            note(&mut stage.events, event)?;
            stage.steps.push(step)?;
            Ok(())
        }
        Err(fault) => Err(fault),
    }
}

/// Takes a step that can be taken.
pub fn must(stage: &mut Stage<'_>, step: Step) -> Result<(), NoMemory>
    requires names { stage.old.pool.configuration.names < 2 ^ 32 - 1 }
    requires can { (e : Option Shown) × (new : Pooled) × IsTaken stage.old.pool (step_of step) e new }
    ensures taken { OnOk result (TookStep stage.old stage.new (step_of step)) }
{
    match take(stage, step) {
        Ok(()) => Ok(()),
        Err(fault) => match fault {
            StepFault::NoMemory => Err(AllocError),
            _ => unreachable!(),
        },
    }
}

/// Takes the step of a line.
pub fn attempt(stage: &mut Stage<'_>, step: Step, line: u32) -> Result<(), HonestFault>
    requires names { stage.old.pool.configuration.names < 2 ^ 32 - 1 }
    requires roomy { IsRoomy stage.old.pool (step_of step) }
    ensures taken { OnOk result (TookStep stage.old stage.new (step_of step)) }
    ensures refused { IfErr result
        (λ f. (f ≡ HonestFault.NoMemory) ⊎ IsStepRefused stage.old.pool (step_of step) line f) }
{
    match take(stage, step) {
        Ok(()) => Ok(()),
        Err(fault) => match fault {
            StepFault::NoPlace { .. } => unreachable!(),
            StepFault::NotReady { .. } => Err(HonestFault::LineNotReady { line }),
            StepFault::RunMessageTooLarge { nodes } => {
                Err(HonestFault::NarratedTooLarge { line, nodes })
            }
            StepFault::TooManyPlaces { .. } => unreachable!(),
            StepFault::NoMemory => Err(HonestFault::NoMemory),
        },
    }
}

fn is_in(places: &[u32], place: u32) -> bool
    ensures { IsTrue result ↔ In place places.now }
{
    places.contains(&place)
}

/// Whether an output and an input on the channel of this name stand at these places.
pub fn meets(pool: &Pool<'_>, channel: u32, out: u32, inp: u32) -> bool
    ensures { IsTrue result
        ↔ (PutsAt (name channel) pool.now.configuration.places out
        × TakesAt (name channel) pool.now.configuration.places inp) }
{
    let channel = Msg::Name(channel);
    is_in(pool.outs_on(&channel), out) && is_in(pool.ins_on(&channel), inp)
}
