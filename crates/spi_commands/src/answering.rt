// What a command answers on its input.
ghost use Rattle.std.specs.Prelude.{◌≡◌, ◌≢◌, ◌≤◌, ◌⊎◌, ℕ, List, length, vec_len, IfOk, OnErr, Err, Some, false};
ghost use Rattle.spi_play.specs.Way.{Seen, seen_of};
ghost use Rattle.spi_commands.specs.Answering.{GoesOverFile, IsAnsweredBy};
ghost use Rattle.spi_commands.specs.Asked.{AreNumbersKnown, is_play};
ghost use Rattle.spi_commands.specs.Reading.{IsRead, IsText, GivesText};
ghost use Rattle.spi_commands.specs.Run.{IsAnswered};

use crate::afterwards::Afterwards;
use crate::answer::{Answer, Stop, answer_with};
use crate::asked::Command;
use crate::bench::benched;
use crate::canonical::shown;
use crate::causes::{refused_for, unlexed};
use crate::derive::derived;
use crate::knows::known;
use crate::narrate::narrated;
use crate::play::played;
use crate::reading::read;
use crate::rejection::judged;
use crate::replay::replayed;
use crate::status::Status;
use crate::text::Text;
use crate::upgrade::upgraded;
use crate::verify::verified;
use spi_lex::Tokens;
use spi_play::Player;
use spi_scope::{File, faults_stand_at_nodes};
use std::alloc::Global;

/// What a command answers on the text of its input. Where memory runs out the players are as they were, or as a play of the
/// file left them.
pub fn answers(
    alloc: Global,
    afterwards: Afterwards,
    command: Command,
    text: Text,
    players: &mut Vec<Box<dyn Player>>,
) -> Result<Answer, Stop>
    requires known { AreNumbersKnown (vec_len players.old) command }
    requires reads { (sessions : ℕ) → command ≢ Command.Load sessions }
    requires text { IsText text }
    ensures answers { (bytes : List ℕ) → GivesText bytes text → IsAnsweredBy command bytes
        (seen_of (λ b. times b) (λ b. way b) players.old.items)
        (seen_of (λ b. times b) (λ b. way b) players.new.items) result }
    ensures answered { IfOk result (λ answer. IsAnswered answer.status × (answer.status ≢ Status.Usage)) }
    ensures players { is_play (Some command) ≡ false → players.new ≡ players.old }
    ensures err { OnErr result (result ≡ Err Stop.NoMemory) }
{
    match text {
        Text::Bytes(bytes) => on_bytes(alloc, afterwards, command, &bytes, players),
        Text::Refused(line) => Ok(answer_with(Status::Refused, line)),
    }
}

/// What the command answers on these bytes.
fn on_bytes(
    alloc: Global,
    afterwards: Afterwards,
    command: Command,
    bytes: &[u8],
    players: &mut Vec<Box<dyn Player>>,
) -> Result<Answer, Stop>
    requires known { AreNumbersKnown (vec_len players.old) command }
    requires reads { (sessions : ℕ) → command ≢ Command.Load sessions }
    requires sized { length bytes.now ≤ 16_777_216 }
    ensures answers { IsAnsweredBy command bytes.now
        (seen_of (λ b. times b) (λ b. way b) players.old.items)
        (seen_of (λ b. times b) (λ b. way b) players.new.items) result }
    ensures players { is_play (Some command) ≡ false → players.new ≡ players.old }
{
    faults_stand_at_nodes();
    match command {
        Command::Narrate | Command::Bench => on_tokens(alloc, command, bytes),
        _ => match read(alloc, afterwards, bytes) {
            Ok(file) => on_file(alloc, afterwards, command, bytes, file, players),
            Err(cause) => refused_for(alloc, bytes, &cause),
        },
    }
}

/// What `narrate` or `bench` answers on the tokens of these bytes.
fn on_tokens(alloc: Global, command: Command, bytes: &[u8]) -> Result<Answer, Stop>
    requires over { (command ≡ Command.Narrate) ⊎ (command ≡ Command.Bench) }
    requires sized { length bytes.now ≤ 16_777_216 }
    ensures { (players : List Seen) → IsAnsweredBy command bytes.now players players result }
{
    match Tokens::of_bytes(alloc, bytes) {
        Ok(tokens) => match command {
            Command::Narrate => narrated(alloc, bytes, &tokens),
            Command::Bench => benched(alloc, bytes, &tokens),
            _ => unreachable!(),
        },
        Err(fault) => refused_for(alloc, bytes, &unlexed(alloc, bytes, fault)),
    }
}

/// What the command answers on the file of these bytes.
fn on_file(
    alloc: Global,
    afterwards: Afterwards,
    command: Command,
    bytes: &[u8],
    file: File,
    players: &mut Vec<Box<dyn Player>>,
) -> Result<Answer, Stop>
    requires sized { length bytes.now ≤ 16_777_216 }
    requires read { IsRead bytes.now file }
    requires over { GoesOverFile command }
    requires known { AreNumbersKnown (vec_len players.old) command }
    ensures answers { IsAnsweredBy command bytes.now
        (seen_of (λ b. times b) (λ b. way b) players.old.items)
        (seen_of (λ b. times b) (λ b. way b) players.new.items) result }
    ensures players { is_play (Some command) ≡ false → players.new ≡ players.old }
{
    match command {
        Command::Upgrade => upgraded(alloc, afterwards, bytes, file),
        _ => {
            let answer = over_file(alloc, afterwards, command, bytes, &file, players);
            afterwards.let_go(file);
            answer
        }
    }
}

/// What a command answers that leaves the file of these bytes as it is.
fn over_file(
    alloc: Global,
    afterwards: Afterwards,
    command: Command,
    bytes: &[u8],
    file: &File,
    players: &mut Vec<Box<dyn Player>>,
) -> Result<Answer, Stop>
    requires sized { length bytes.now ≤ 16_777_216 }
    requires read { IsRead bytes.now file.now }
    requires over { GoesOverFile command }
    requires same { command ≢ Command.Upgrade }
    requires known { AreNumbersKnown (vec_len players.old) command }
    ensures answers { IsAnsweredBy command bytes.now
        (seen_of (λ b. times b) (λ b. way b) players.old.items)
        (seen_of (λ b. times b) (λ b. way b) players.new.items) result }
    ensures players { is_play (Some command) ≡ false → players.new ≡ players.old }
{
    match command {
        Command::Check => judged(alloc, bytes, file),
        Command::Derive => derived(alloc, bytes, file),
        Command::Verify => verified(alloc, bytes, file),
        Command::Replay => replayed(alloc, afterwards, bytes, file),
        Command::Play { most, only } => played(alloc, bytes, file, players, most, only),
        Command::Print => shown(alloc, bytes, file),
        Command::Knows { name } => known(alloc, bytes, file, name),
        _ => unreachable!(),
    }
}
