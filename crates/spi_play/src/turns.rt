// Turns of a play.

ghost use Rattle.std.specs.Prelude.{◌≡◌, ◌+◌, ◌-◌, ◌^◌, ◌<◌, ◌≤◌, ◌++◌, ◌∷◌, [], map, vec_len, vec_capacity, IfOk, IfErr, OnOk, OnErr};
ghost use Rattle.std.specs.Option.{ForSome, option_to_list};
ghost use Rattle.spi_run.specs.View.{step as step_of, event as event_of};
ghost use Rattle.spi_replay.specs.Stepping.{event_in};
ghost use Rattle.spi_play.specs.Way.{seen_of};
ghost use Rattle.spi_play.specs.Play.{CountsReady, Picks, DoesReady};
ghost use Rattle.spi_play.specs.Outcome.{course, AsksAt, IsPickRefused};
ghost use Rattle.spi_play.specs.Turning.{LiesAhead, IsFaultOf, IsLate, Turned, TurnRefused};

use crate::cursor::{place_after_leave, place_after_take};
use crate::player::{Menu, Pick, Player};
use crate::plays::{Ended, PlayFault};
use spi_replay::{Pool, StepFault};
use spi_run::{Event, Step};

// What comes next in a play: the player at a place is asked, with so many steps ready, or the play has ended.
pub enum Ahead {
    Asks { place: usize, ready: u64 },
    Ends(Ended),
}

// What comes next after so many steps, where the player at this place is next.
pub(crate) fn look_ahead(pool: &Pool<'_>, next: Option<usize>, taken: usize, most: u32) -> Ahead
    ensures { LiesAhead pool.now.configuration next taken most result }
{
    if taken == most as usize {
        return Ahead::Ends(Ended::MostReached);
    }
    match next {
        None => Ahead::Ends(Ended::NoPlayers),
        Some(place) => {
            let ready = pool.ready();
            if ready == 0 {
                Ahead::Ends(Ended::NoneReady)
            } else {
                Ahead::Asks { place, ready }
            }
        }
    }
}

// Asks a player.
fn ask(player: &mut Box<dyn Player>, menu: &Menu) -> Pick
    requires { 0 < menu.now.ready }
    ensures { Picks (record { times = times player.old; way = way player.old }) menu.now.ready result
        (record { times = times player.new; way = way player.new }) }
{
    player.pick(menu)
}

// Asks the player at this place.
fn ask_at(players: &mut Vec<Box<dyn Player>>, place: usize, menu: &Menu) -> Pick
    requires place { place < vec_len players.old }
    requires ready { 0 < menu.now.ready }
    ensures asks { AsksAt (seen_of (λ b. times b) (λ b. way b) players.old.items) place menu.now.ready result
        (seen_of (λ b. times b) (λ b. way b) players.new.items) }
    ensures len { vec_len players.new ≡ vec_len players.old }
{
    ask(&mut players[place], menu)
}

// Keeps a step that was done, and its event. There is room for them.
fn keep(steps: &mut Vec<Step>, events: &mut Vec<Event>, done: Step, shown: Option<Event>)
    requires steps { vec_len steps.old < vec_capacity steps.old }
    requires events { vec_len events.old < vec_capacity events.old }
    ensures steps { map step_of steps.new.items ≡ map step_of steps.old.items ++ step_of done ∷ [] }
    ensures events { map event_of events.new.items ≡ map event_of events.old.items
        ++ option_to_list (event_in shown) }
    ensures len { vec_len steps.new ≡ vec_len steps.old + 1 }
{
    let _ = steps.push(done);
    if let Some(event) = shown {
        let _ = events.push(event);
    }
}

// Why a ready step is refused.
fn fault_of(fault: StepFault) -> PlayFault
    requires { IsLate fault }
    ensures { IsFaultOf fault result }
{
    match fault {
        StepFault::NoPlace { place: _ } => unreachable!(),
        StepFault::NotReady { place: _ } => unreachable!(),
        StepFault::RunMessageTooLarge { nodes } => PlayFault::RunMessageTooLarge { nodes },
        StepFault::TooManyPlaces { places } => PlayFault::TooManyPlaces { places },
        StepFault::NoMemory => PlayFault::NoMemory,
    }
}

// Does the ready step with the number k, which the player at this place picked, where so many steps are ready.
fn take(
    pool: &mut Pool<'_>,
    steps: &mut Vec<Step>,
    events: &mut Vec<Event>,
    place: usize,
    ready: u64,
    k: u64,
) -> Result<(), PlayFault>
    requires ready { CountsReady pool.old.configuration ready }
    requires names { pool.old.configuration.names < 2 ^ 32 - 1 }
    ensures goes { OnOk result
        (DoesReady (course pool.old steps.old.items events.old.items) k
        (course pool.new steps.new.items events.new.items)) }
    ensures len { OnOk result (vec_len steps.new ≡ vec_len steps.old + 1) }
    ensures same { OnErr result (pool.new ≡ pool.old) }
    ensures refused { IfErr result (λ fault. IsPickRefused pool.old place ready k fault) }
{
    if k >= ready {
        return Err(PlayFault::BadPick {
            player: place,
            picked: k,
            ready,
        });
    }
    if steps.reserve(1).is_err() || events.reserve(1).is_err() {
        return Err(PlayFault::NoMemory);
    }
    let done = pool.kth(k).unwrap();
    match pool.step(done) {
        Ok(shown) => {
            keep(steps, events, done, shown);
            Ok(())
        }
        Err(fault) => Err(fault_of(fault)),
    }
}

// The player at this place has a turn, with so many steps ready. It gives the place of the player that is asked next.
pub(crate) fn turn(
    pool: &mut Pool<'_>,
    players: &mut Vec<Box<dyn Player>>,
    steps: &mut Vec<Step>,
    events: &mut Vec<Event>,
    only: Option<usize>,
    place: usize,
    ready: u64,
) -> Result<Option<usize>, PlayFault>
    requires place { place < vec_len players.old }
    requires counts { CountsReady pool.old.configuration ready }
    requires some { 0 < ready }
    requires names { pool.old.configuration.names < 2 ^ 32 - 1 }
    ensures turned { IfOk result
        (λ next. Turned only place ready (course pool.old steps.old.items events.old.items)
        (course pool.new steps.new.items events.new.items)
        (seen_of (λ b. times b) (λ b. way b) players.old.items)
        (seen_of (λ b. times b) (λ b. way b) players.new.items) next) }
    ensures within { IfOk result (λ next. ForSome next (λ p. p < vec_len players.new)) }
    ensures more { OnOk result (vec_len steps.new ≤ vec_len steps.old + 1) }
    ensures fewer { OnOk result
        (vec_len players.new + vec_len steps.old + 1 ≡ vec_len players.old + vec_len steps.new) }
    ensures names { OnOk result
        (pool.new.configuration.names + vec_len steps.old
        ≤ pool.old.configuration.names + vec_len steps.new) }
    ensures same { OnErr result (pool.new ≡ pool.old) }
    ensures refused { IfErr result
        (λ fault. TurnRefused pool.old place ready (seen_of (λ b. times b) (λ b. way b) players.old.items)
        (seen_of (λ b. times b) (λ b. way b) players.new.items) fault) }
{
    let menu = Menu {
        ready,
        places: pool.places(),
    };
    match ask_at(players, place, &menu) {
        Pick::Take(k) => match take(pool, steps, events, place, ready, k) {
            Ok(()) => Ok(place_after_take(only, place, players.len())),
            Err(fault) => Err(fault),
        },
        Pick::Leave => {
            drop(players.remove(place));
            Ok(place_after_leave(only, place, players.len()))
        }
    }
}
