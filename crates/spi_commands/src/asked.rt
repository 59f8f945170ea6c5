// What the words of the command line ask for.
ghost use Rattle.std.specs.Prelude.{◌≡◌, ◌<◌, ◌≤◌, ◌-◌, ◌^◌, map, string_bytes, length, IfOk, IfSome, option_map};
ghost use Rattle.clap.specs.Words.{subcommand_rows_of};
ghost use Rattle.spi_commands.specs.Asked.{asked, AreNumbersKnown};
ghost use Rattle.spi_commands.specs.Number.{digits, number_below};
ghost use Rattle.spi_commands.specs.Options.{has_dashes, numbers_given as number_form, read, with_count, with_values};

use crate::options::whole_form;
use crate::words::{Numbered, number_command, with, word_command};
use clap::ArgMatches;
use clap::error::ErrorKind;
use std::alloc::{AllocError, Global};

/// How many steps a play may have.
const STEPS: usize = 1_000;

/// A command.
#[derive(Clone, Copy, Debug, PartialEq, Eq)]
pub enum Command {
    /// Whether the process of a file is derivable with the empty effect.
    Check,
    /// The derivation of that, as a listing.
    Derive,
    /// Whether the derivation of a file proves that.
    Verify,
    /// Which events a file's schedule has beside its opponent, and whether they are paid.
    Replay,
    /// The steps that players pick beside the opponent: so many at most, and all players are asked in turn, or one alone.
    Play { most: u32, only: Option<usize> },
    /// The canonical text of a file.
    Print,
    /// What there is to say of so many sessions of the nonce handshake, from 1 to 500.
    Load { sessions: u32 },
    /// The canonical text of a file in version 2.
    Upgrade,
    /// The file that a narration is woven into, with an honest schedule, in its canonical text.
    Narrate,
    /// Whether the name with this number is known at the end of a file's schedule from what was sent.
    Knows { name: u32 },
    /// The verdict of parts of a protocol after each edit of them.
    Bench,
}

/// The value of one to nine digits.
fn value_of(text: &[u8]) -> Option<u32>
    requires { length text.now ≤ 9 }
    ensures { result ≡ digits 0 text.now }
{
    let mut n = 0;
    for b in text {
        if *b < b'0' || *b > b'9' {
            return None;
        }
        n = n * 10 + u32::from(*b - b'0');
    }
    Some(n)
}

/// The number of one to nine digits, where it is below this one.
fn number(most: usize, text: &[u8]) -> Option<u32>
    ensures { result ≡ number_below most text.now }
{
    if text.is_empty() || text.len() > 9 {
        return None;
    }
    match value_of(text) {
        Some(n) if (n as usize) < most => Some(n),
        _ => None,
    }
}

/// A play with these values of its options.
fn play_of(steps: Option<&str>, player: Option<&str>, players: usize) -> Option<Command>
    ensures { result
        ≡ with_values (option_map (λ s. s.now) steps.entry) (option_map (λ s. s.now) player.entry) players }
{
    let most = number(STEPS + 1, steps?.as_bytes())?;
    match player {
        None => Some(Command::Play { most, only: None }),
        Some(player) => {
            let player = number(players, player.as_bytes())?;
            Some(Command::Play {
                most,
                only: Some(player as usize),
            })
        }
    }
}

/// The command of this form with the number that the text spells.
fn number_of(form: &Numbered, text: Option<&str>) -> Option<Command>
    requires { form.now.most < 2 ^ 32 - 1 }
    ensures { result ≡ with_count (number_form form.now) (option_map (λ s. s.now) text.entry) }
{
    match number(form.most as usize + 1, text?.as_bytes()) {
        Some(n) if n >= form.least => Some(with(form.command, n)),
        _ => None,
    }
}

/// The command that was found.
fn read_from(matches: &ArgMatches<'_>, players: usize) -> Option<Command>
    ensures { result ≡ read (subcommand_rows_of matches.now) players }
{
    let (name, found) = matches.subcommand()?;
    if name == "play" {
        return play_of(found.get_str("steps"), found.get_str("player"), players);
    }
    match number_command(name) {
        Some(form) => number_of(&form, found.get_str("count")),
        None => word_command(name),
    }
}

/// Whether one of the words is `--`, behind which all words are values.
fn has_dashes_in(words: &[String]) -> bool
    ensures { result ≡ has_dashes (map string_bytes words.now) }
{
    for word in words {
        if word.as_str() == "--" {
            return true;
        }
    }
    false
}

/// The command that the words spell, where there are so many players, or nothing where they spell none.
pub fn asked_of(
    alloc: Global,
    words: &[String],
    players: usize,
) -> Result<Option<Command>, AllocError>
    ensures value { IfOk result (λ r. r ≡ asked (map string_bytes words.now) players) }
    ensures within { IfOk result (λ r. IfSome r (λ command. AreNumbersKnown players command)) }
{
    if has_dashes_in(words) {
        return Ok(None);
    }
    let form = whole_form(alloc)?;
    match form.try_get_matches_from(words) {
        Ok(matches) => Ok(read_from(&matches, players)),
        Err(e) if e.kind() == ErrorKind::OutOfMemory => Err(AllocError),
        Err(_) => Ok(None),
    }
}
