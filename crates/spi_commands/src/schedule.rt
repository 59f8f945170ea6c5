// The replay of a file's schedule beside its opponent.
ghost use Rattle.std.specs.Prelude.{◌≡◌, ◌≢◌, ◌⊎◌, ◌+◌, ◌-◌, ◌<◌, ◌^◌, ◌≤◌, ◌++◌, List, true, length, map, option_to_list, Option, IfOk, IfErr, IfSome, OnOk, OnErr, Err, Some};
ghost use Rattle.std.specs.Fmt.{decimal};
ghost use Rattle.spi_term.specs.Term.{Message, message_size};
ghost use Rattle.spi_term.specs.View.{message};
ghost use Rattle.spi_run.specs.Opponent.{IsOpponent};
ghost use Rattle.spi_run.specs.Reduction.{Event as Shown, Runs, Step as StepTerm};
ghost use Rattle.spi_run.specs.View.{step as step_of, event as event_of};
ghost use Rattle.spi_know.specs.Numbered.{nodes_in};
ghost use Rattle.spi_know.specs.Sent.{handed, handed_in};
ghost use Rattle.spi_replay.specs.Stepping.{Pooled, RefusesPoolStep, IsTaken, event_in};
ghost use Rattle.spi_scope.specs.Places.{place_in};
ghost use Rattle.spi_scope.specs.Files.{meant};
ghost use Rattle.spi_commands.specs.Reading.{IsRead};
ghost use Rattle.spi_commands.specs.Refusals.{IsCause};
ghost use Rattle.spi_commands.specs.Replays.{ReplaysWithTalks, IsRefusedAt, step_number, step_shown};
ghost use Rattle.spi_commands.specs.Ran.{AreTalks, IsDatum, IsRan, IsRefused, messages_said};

use crate::answer::{Answer, Stop, missing, refusal_line};
use crate::opponent::not_opponent;
use spi_opponent::is_opponent;
use spi_replay::{Pool, StepFault};
use spi_report::Refusal;
use spi_run::{Event, Step};
use spi_scope::File;
use spi_term::{Msg, Process, nodes};
use std::alloc::Global;

/// How many places a replay may have.
const PLACES: u32 = 5_000;

/// How many nodes the data of talks have at most where they are kept.
pub const TALKED: u64 = 20_000;

/// The data of talks in order, where they have 20,000 nodes at most, and how many nodes they have.
#[derive(Drop)]
pub struct Talks {
    pub data: Vec<Msg>,
    pub nodes: u64,
}

/// What a schedule that runs through leaves: its events, the data of its talks, and how many names are used at its end.
#[derive(Drop)]
pub struct Replay {
    pub events: Vec<Event>,
    pub talks: Talks,
    pub names: u32,
}

/// A schedule that ran through, or the line of its refusal.
#[derive(Drop)]
pub enum Ran {
    Through(Replay),
    Refused(Vec<u8>),
}

/// A step that is refused, by its number in the schedule, from 0 on.
#[derive(Drop)]
struct RefusedStep {
    index: u32,
    fault: StepFault,
}

/// A replay is a run with its events, in which the data of its talks are handed over.
pub fn replays_are_runs()
    ensures { (p q : Pooled) (ss : List StepTerm) (es : List Shown) (ms : List Message)
        → ReplaysWithTalks p ss es ms q
        → (r : Runs p.configuration ss es q.configuration) × (handed_in r ≡ ms) }
{}

/// The replay of the schedule of a file. The data of its talks are kept where that is asked for.
pub fn replay_of(alloc: Global, bytes: &[u8], file: &File, keeps: bool) -> Result<Ran, Stop>
    requires sized { length bytes.now ≤ 16_777_216 }
    requires read { IsRead bytes.now file.now }
    ensures ok { IfOk result (λ ran. IsRan bytes.now (meant file.now) keeps ran) }
    ensures err { OnErr result (result ≡ Err Stop.NoMemory) }
{
    match &file.opponent {
        None => Ok(refused_by(missing(alloc, bytes, b"opponent")?)),
        Some(opponent) => match &file.schedule {
            None => Ok(refused_by(missing(alloc, bytes, b"schedule")?)),
            Some(steps) => match is_opponent(opponent) {
                Err(fault) => Ok(refused_by(not_opponent(alloc, bytes, file, fault.node)?)),
                Ok(()) => beside(alloc, bytes, file, opponent, steps, keeps),
            },
        },
    }
}

/// The refusal with this answer.
fn refused_by(answer: Answer) -> Ran
    ensures { result ≡ Ran.Refused answer.output }
{
    Ran::Refused(answer.output)
}

/// The replay of these steps beside this opponent.
fn beside(
    alloc: Global,
    bytes: &[u8],
    file: &File,
    opponent: &Process,
    steps: &[Step],
    keeps: bool,
) -> Result<Ran, Stop>
    requires sized { length bytes.now ≤ 16_777_216 }
    requires read { IsRead bytes.now file.now }
    requires opponent { (meant file.now).opponent ≡ Some opponent.now }
    requires schedule { (meant file.now).schedule ≡ Some (map step_of steps.now) }
    requires is { IsOpponent opponent.now.process }
    ensures ok { IfOk result (λ ran. IsRan bytes.now (meant file.now) keeps ran) }
    ensures err { OnErr result (result ≡ Err Stop.NoMemory) }
{
    let mut pool = Pool::start(alloc, &file.process, opponent, PLACES)?;
    match take_steps(alloc, &mut pool, steps, keeps) {
        Ok(replay) => Ok(Ran::Through(replay)),
        Err(refused) => stopped(alloc, bytes, file, &refused),
    }
}

/// Takes the steps one by one.
fn take_steps(
    alloc: Global,
    pool: &mut Pool<'_>,
    steps: &[Step],
    keeps: bool,
) -> Result<Replay, RefusedStep>
    requires { pool.old.configuration.names + length steps.now < 2 ^ 32 - 1 }
    ensures ok { IfOk result
        (λ replay. (ms : List Message)
        × ReplaysWithTalks pool.old (map step_of steps.now) (map event_of replay.events.items) ms pool.new
        × (keeps ≡ true → AreTalks ms replay.talks) × (replay.names ≡ pool.new.configuration.names)) }
    ensures err { IfErr result
        (λ refused. (refused.fault ≡ StepFault.NoMemory)
        ⊎ IsRefusedAt pool.old (map step_of steps.now) refused.index refused.fault) }
{
    let mut events = Vec::new(alloc);
    let mut talks = Talks {
        data: Vec::new(alloc),
        nodes: 0,
    };
    for i in 0..steps.len() {
        match take_step(pool, &mut events, &mut talks, steps[i], keeps) {
            Ok(()) => {}
            Err(fault) => {
                return Err(RefusedStep {
                    index: i as u32,
                    fault,
                });
            }
        }
    }
    Ok(Replay {
        events,
        talks,
        names: pool.names(),
    })
}

/// Takes one step, and appends its event and the datum of its talk, where it has one.
fn take_step(
    pool: &mut Pool<'_>,
    events: &mut Vec<Event>,
    talks: &mut Talks,
    step: Step,
    keeps: bool,
) -> Result<(), StepFault>
    requires names { pool.old.configuration.names < 2 ^ 32 - 1 }
    requires room { talks.old.nodes + 1000 < 2 ^ 64 }
    ensures ok { OnOk result
        ((e : Option Shown) × IsTaken pool.old (step_of step) e pool.new
        × (map event_of events.new.items ≡ map event_of events.old.items ++ option_to_list e)) }
    ensures talks { OnOk result
        ((ms : List Message) → keeps ≡ true → AreTalks ms talks.old
        → AreTalks (ms ++ handed pool.old.configuration (step_of step)) talks.new) }
    ensures room { OnOk result (talks.new.nodes ≤ talks.old.nodes + 1000) }
    ensures err { IfErr result
        (λ fault. (fault ≡ StepFault.NoMemory)
        ⊎ RefusesPoolStep pool.old.configuration pool.old.most (step_of step) fault) }
{
    let datum = datum_of(pool, step, keeps)?;
    let event = pool.step(step)?;
    note(events, event)?;
    hear(talks, datum)?;
    Ok(())
}

/// The datum that a step hands over, where it is asked for.
fn datum_of(pool: &Pool<'_>, step: Step, keeps: bool) -> Result<Option<Msg>, StepFault>
    ensures ok { IfOk result (λ d. IsDatum keeps pool.now.configuration (step_of step) d) }
    ensures err { OnErr result (result ≡ Err StepFault.NoMemory) }
{
    if !keeps {
        return Ok(None);
    }
    Ok(pool.datum(step)?)
}

/// Appends an event, where there is one.
fn note(events: &mut Vec<Event>, event: Option<Event>) -> Result<(), StepFault>
    ensures ok { OnOk result
        (map event_of events.new.items ≡ map event_of events.old.items ++ option_to_list (event_in event)) }
    ensures err { OnErr result (result ≡ Err StepFault.NoMemory) }
{
    match event {
        None => Ok(()),
        Some(event) => {
            events.push(event)?;
            Ok(())
        }
    }
}

/// Appends a datum, where there is one, and as long as there are few nodes.
fn hear(talks: &mut Talks, datum: Option<Msg>) -> Result<(), StepFault>
    requires room { talks.old.nodes + 1000 < 2 ^ 64 }
    requires small { IfSome datum (λ m. message_size (message m) ≤ 1000) }
    ensures count { OnOk result (talks.new.nodes ≡ talks.old.nodes + nodes_in (messages_said datum)) }
    ensures kept { OnOk result
        (talks.new.nodes ≤ 20000
        → map message talks.new.data.items ≡ map message talks.old.data.items ++ messages_said datum) }
    ensures err { OnErr result (result ≡ Err StepFault.NoMemory) }
{
    match datum {
        None => Ok(()),
        Some(m) => {
            talks.nodes += nodes(&m);
            if talks.nodes <= TALKED {
                talks.data.push(m)?;
            }
            Ok(())
        }
    }
}

/// The number of a step's refusal, and the count that it shows.
#[derive(Clone, Copy)]
struct Told {
    number: u32,
    count: u64,
}

/// What is told of a step that is refused, and nothing where memory ran out.
fn told_of(fault: &StepFault) -> Option<Told>
    ensures { IfSome result
        (λ told. (fault.now ≢ StepFault.NoMemory) × (told.number ≡ step_number fault.now)
        × (decimal told.count ≡ step_shown fault.now)) }
{
    match fault {
        StepFault::NoPlace { place } => Some(Told {
            number: 60,
            count: *place as u64,
        }),
        StepFault::NotReady { place } => Some(Told {
            number: 61,
            count: *place as u64,
        }),
        StepFault::RunMessageTooLarge { nodes } => Some(Told {
            number: 62,
            count: *nodes,
        }),
        StepFault::TooManyPlaces { places } => Some(Told {
            number: 63,
            count: *places as u64,
        }),
        StepFault::NoMemory => None,
    }
}

/// The line of a step that is refused.
fn stopped(alloc: Global, bytes: &[u8], file: &File, refused: &RefusedStep) -> Result<Ran, Stop>
    requires sized { length bytes.now ≤ 16_777_216 }
    requires read { IsRead bytes.now file.now }
    ensures ok { IfOk result
        (λ ran. (refused.now.fault ≢ StepFault.NoMemory)
        × IsRefused bytes.now
        (IsCause (step_number refused.now.fault)
        (Some (place_in file.now.marks.steps.items refused.now.index).from) (step_shown refused.now.fault))
        ran) }
    ensures err { OnErr result (result ≡ Err Stop.NoMemory) }
{
    let Some(told) = told_of(&refused.fault) else {
        return Err(Stop::NoMemory);
    };
    let offset = file.step_place(refused.index).from;
    let count = told.count;
    let shown = format!(in alloc; "{count}")?.into_bytes();
    let r = Refusal {
        number: told.number,
        offset: Some(offset),
        shown,
    };
    let line = refusal_line(alloc, bytes, &r)?;
    Ok(Ran::Refused(line))
}
