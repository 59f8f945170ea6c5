// The steps of a schedule, and what each of them did.

ghost use Rattle.std.specs.Prelude.{◌≡◌, ◌≢◌, ◌⊎◌, ◌+◌, ◌-◌, ◌^◌, ◌<◌, ◌++◌, length, map, option_to_list, Option, IfOk, IfErr, OnOk, OnErr, Err};
ghost use Rattle.spi_run.specs.Reduction.{Event as Shown};
ghost use Rattle.spi_run.specs.View.{step as step_of, event as event_of};
ghost use Rattle.spi_replay.specs.Stepping.{RefusesPoolStep, event_in};
ghost use Rattle.spi_course.specs.Courses.{grown as grown_of, event_number, IsStepTold, IsCourse};

use crate::NoMemory;
use spi_replay::{Pool, StepFault};
use spi_run::{Event, Step};
use spi_term::Msg;
use std::alloc::{AllocError, Global};

/// What a step did.
#[derive(Drop)]
pub struct Taken {
    /// The step.
    pub step: Step,
    /// The message that a Talk handed over. None for an Act.
    pub datum: Option<Msg>,
    /// The number of its event, from 0 on. None where it has none.
    pub event: Option<usize>,
    /// The name that it made, by its number.
    pub made: Option<u32>,
    /// The place that it appended.
    pub added: Option<u32>,
}

/// The steps that were taken, in order, with their events, and why the step behind them is refused: None where each step
/// of the schedule was taken.
#[derive(Drop)]
pub struct Course {
    pub taken: Vec<Taken>,
    pub events: Vec<Event>,
    pub refused: Option<StepFault>,
}

// The number that is new where there is one more of them.
fn grown(before: u32, after: u32) -> Option<u32>
    ensures { result ≡ grown_of before after }
{
    if before < after { Some(before) } else { None }
}

// Appends an event, where there is one, and gives its number.
fn noted(events: &mut Vec<Event>, event: Option<Event>) -> Result<Option<usize>, StepFault>
    ensures number { IfOk result (λ n. n ≡ event_number (length events.old.items) (event_in event)) }
    ensures events { OnOk result
        (map event_of events.new.items ≡ map event_of events.old.items ++ option_to_list (event_in event)) }
    ensures err { OnErr result (result ≡ Err StepFault.NoMemory) }
{
    match event {
        None => Ok(None),
        Some(event) => {
            let number = events.len();
            events.push(event)?;
            Ok(Some(number))
        }
    }
}

// Takes one step, and appends its event, where it has one.
fn take_one(pool: &mut Pool<'_>, events: &mut Vec<Event>, step: Step) -> Result<Taken, StepFault>
    requires { pool.old.configuration.names < 2 ^ 32 - 1 }
    ensures step { IfOk result (λ t. t.step ≡ step) }
    ensures ok { IfOk result
        (λ t. (e : Option Shown) × IsStepTold pool.old (length events.old.items) t e pool.new
        × (map event_of events.new.items ≡ map event_of events.old.items ++ option_to_list e)) }
    ensures err { IfErr result (λ fault. (fault ≡ StepFault.NoMemory)
        ⊎ (RefusesPoolStep pool.old.configuration pool.old.most (step_of step) fault
        × (pool.new ≡ pool.old) × (events.new.items ≡ events.old.items))) }
{
    let names = pool.names();
    let places = pool.places();
    let datum = pool.datum(step)?;
    let shown = pool.step(step)?;
    let event = noted(events, shown)?;
    Ok(Taken {
        step,
        datum,
        event,
        made: grown(names, pool.names()),
        added: grown(places, pool.places()),
    })
}

// The fault of a step, where it isn't that memory ran out.
fn refusal(fault: StepFault) -> Result<StepFault, NoMemory>
    ensures { IfOk result (λ f. (f ≡ fault) × (fault ≢ StepFault.NoMemory)) }
{
    match fault {
        StepFault::NoMemory => Err(AllocError),
        fault => Ok(fault),
    }
}

/// Takes the steps one by one, up to the first that is refused. Fewer than 4,294,967,295 names are used at the end. Its
/// only error is NoMemory.
pub fn take_all(alloc: Global, pool: &mut Pool<'_>, steps: &[Step]) -> Result<Course, NoMemory>
    requires { pool.old.configuration.names + length steps.now < 2 ^ 32 - 1 }
    ensures { IfOk result (λ course. IsCourse pool.old (map step_of steps.now) course pool.new) }
{
    let mut taken = Vec::new(alloc);
    let mut events = Vec::new(alloc);
    for i in 0..steps.len() {
        match take_one(pool, &mut events, steps[i]) {
            Ok(one) => taken.push(one)?,
            Err(fault) => {
                let fault = refusal(fault)?;
                return Ok(Course {
                    taken,
                    events,
                    refused: Some(fault),
                });
            }
        }
    }
    Ok(Course {
        taken,
        events,
        refused: None,
    })
}
