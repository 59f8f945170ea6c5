// The command `play`.
ghost use Rattle.std.specs.Prelude.{◌≡◌, ◌<◌, ◌≤◌, length, map, vec_len, IfOk, OnErr, Err, Some};
ghost use Rattle.std.specs.Option.{ForSome};
ghost use Rattle.spi_run.specs.Opponent.{IsOpponent};
ghost use Rattle.spi_run.specs.View.{step as step_of};
ghost use Rattle.spi_play.specs.Way.{seen_of};
ghost use Rattle.spi_scope.specs.Files.{meant};
ghost use Rattle.spi_commands.specs.Answering.{IsAnsweredBy};
ghost use Rattle.spi_commands.specs.Asked.{AreNumbersKnown};
ghost use Rattle.spi_commands.specs.Playing.{ListsTo, PlaysTo, LeavesPlayers, IsPlayFault};
ghost use Rattle.spi_commands.specs.Reading.{IsRead};
ghost use Rattle.spi_commands.specs.Refusals.{IsRefusedFor};

use crate::answer::{Answer, Stop, missing, placeless, within_limit};
use crate::asked::Command;
use crate::opponent::not_opponent;
use spi_opponent::is_opponent;
use spi_play::{PlayFault, Player, play};
use spi_replay::Pool;
use spi_run::Step;
use spi_scope::File;
use spi_show::show_steps;
use spi_term::Process;
use std::alloc::Global;

/// How many places a play may have.
const PLACES: u32 = 1_000;

/// What `play` answers on the file of these bytes, where so many steps are taken at most. Where memory runs out the players
/// are as they were, or as the play left them.
pub fn played(
    alloc: Global,
    bytes: &[u8],
    file: &File,
    players: &mut Vec<Box<dyn Player>>,
    most: u32,
    only: Option<usize>,
) -> Result<Answer, Stop>
    requires sized { length bytes.now ≤ 16_777_216 }
    requires read { IsRead bytes.now file.now }
    requires known { AreNumbersKnown (vec_len players.old) (Command.Play most only) }
    ensures { IsAnsweredBy (Command.Play most only) bytes.now
        (seen_of (λ b. times b) (λ b. way b) players.old.items)
        (seen_of (λ b. times b) (λ b. way b) players.new.items) result }
{
    match &file.opponent {
        None => missing(alloc, bytes, b"opponent"),
        Some(opponent) => match is_opponent(opponent) {
            Err(fault) => not_opponent(alloc, bytes, file, fault.node),
            Ok(()) => beside(alloc, bytes, file, opponent, players, most, only),
        },
    }
}

/// What `play` answers beside this opponent.
fn beside(
    alloc: Global,
    bytes: &[u8],
    file: &File,
    opponent: &Process,
    players: &mut Vec<Box<dyn Player>>,
    most: u32,
    only: Option<usize>,
) -> Result<Answer, Stop>
    requires sized { length bytes.now ≤ 16_777_216 }
    requires read { IsRead bytes.now file.now }
    requires opponent { (meant file.now).opponent ≡ Some opponent.now }
    requires is { IsOpponent opponent.now.process }
    requires few { most ≤ 1000 }
    requires only { ForSome only (λ place. place < vec_len players.old) }
    ensures ok { IfOk result (λ answer. PlaysTo most only bytes.now
        (seen_of (λ b. times b) (λ b. way b) players.old.items)
        (seen_of (λ b. times b) (λ b. way b) players.new.items) answer.status answer.output.items) }
    ensures left { OnErr result (LeavesPlayers most only bytes.now
        (seen_of (λ b. times b) (λ b. way b) players.old.items)
        (seen_of (λ b. times b) (λ b. way b) players.new.items)) }
    ensures err { OnErr result (result ≡ Err Stop.NoMemory) }
{
    let mut pool = Pool::start(alloc, &file.process, opponent, PLACES)?;
    match play(alloc, &mut pool, players, only, most) {
        Ok(done) => listed(alloc, bytes, &done.steps),
        Err(fault) => refused(alloc, bytes, &fault),
    }
}

/// The text of these steps, where it isn't too long to stand behind the file.
fn listed(alloc: Global, bytes: &[u8], steps: &[Step]) -> Result<Answer, Stop>
    requires { length bytes.now ≤ 16_777_216 }
    ensures ok { IfOk result
        (λ answer. ListsTo bytes.now (map step_of steps.now) answer.status answer.output.items) }
    ensures err { OnErr result (result ≡ Err Stop.NoMemory) }
{
    let output = show_steps(alloc, steps)?;
    within_limit(alloc, bytes, output)
}

/// The refusal of a play.
fn refused(alloc: Global, bytes: &[u8], fault: &PlayFault) -> Result<Answer, Stop>
    requires { length bytes.now ≤ 16_777_216 }
    ensures ok { IfOk result (IsRefusedFor bytes.now (IsPlayFault fault.now)) }
    ensures err { OnErr result (result ≡ Err Stop.NoMemory) }
{
    match fault {
        PlayFault::BadPick {
            player,
            picked,
            ready,
        } => {
            let shown = format!(in alloc; "{player} {picked} {ready}")?;
            placeless(alloc, bytes, 70, shown)
        }
        PlayFault::RunMessageTooLarge { nodes } => {
            let shown = format!(in alloc; "{nodes}")?;
            placeless(alloc, bytes, 71, shown)
        }
        PlayFault::TooManyPlaces { places } => {
            let shown = format!(in alloc; "{places}")?;
            placeless(alloc, bytes, 72, shown)
        }
        PlayFault::NoMemory => Err(Stop::NoMemory),
    }
}
