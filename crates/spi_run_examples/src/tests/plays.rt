// Plays by example.

ghost use Rattle.std.specs.Prelude.{◌≡◌};

use super::processes::{NoMemory, begins_twice, shows, stops};
use spi_play::{PlayFault, Player, Scripted, play};
use spi_replay::Pool;
use spi_term::Process;
use std::alloc::Global;

// How many steps a play of nine steps at most has, or 100 and the number that was picked out of range.
fn played(
    alloc: Global,
    process: &Process,
    opponent: &Process,
    players: &mut Vec<Box<dyn Player>>,
    only: Option<usize>,
) -> Result<u64, NoMemory>
    requires process { process.now.names ≡ 1 }
    requires opponent { opponent.now.names ≡ 1 }
{
    if let Some(place) = only {
        if place >= players.len() {
            return Ok(0);
        }
    }
    let mut pool = Pool::start(alloc, process, opponent, 5000)?;
    match play(alloc, &mut pool, players, only, 9) {
        Ok(done) => Ok(done.steps.len() as u64),
        Err(PlayFault::BadPick { picked, .. }) => Ok(picked.saturating_add(100)),
        Err(_) => Ok(99),
    }
}

// What comes of a play of `begin a; begin a; stop` by two players with these scripts: its steps, and how many players are
// left.
fn outcome(alloc: Global, scripts: [&[u64]; 2], only: Option<usize>) -> Result<[u64; 2], NoMemory> {
    let process = begins_twice(alloc)?;
    let opponent = stops(alloc)?;
    let [first, second] = scripts;
    let one: Box<dyn Player> = Box::new(alloc, Scripted::new(first.to_vec(alloc)?))?;
    let two: Box<dyn Player> = Box::new(alloc, Scripted::new(second.to_vec(alloc)?))?;
    let mut players = Vec::from_array(alloc, [one, two])?;
    let steps = played(alloc, &process, &opponent, &mut players, only)?;
    Ok([steps, players.len() as u64])
}

fn comes_to(
    alloc: Global,
    scripts: [&[u64]; 2],
    only: Option<usize>,
    wanted: [u64; 2],
) -> Result<bool, NoMemory> {
    Ok(outcome(alloc, scripts, only)? == wanted)
}

#[test]
fn a_play_goes_on_without_those_that_left(rt: HostRuntime) {
    let second = comes_to(rt.alloc(), [&[], &[0, 0]], None, [2, 1]);
    shows(&rt, "a player that stays", second);
    let alone = comes_to(rt.alloc(), [&[], &[]], Some(1), [0, 1]);
    shows(&rt, "one player alone is asked", alone);
    let bad = comes_to(rt.alloc(), [&[0, 5], &[]], None, [105, 1]);
    shows(&rt, "five of one step", bad);
}
