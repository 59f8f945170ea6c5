// The words of the commands.
ghost use Rattle.std.specs.Prelude.{◌≡◌, option_map};
ghost use Rattle.spi_commands.specs.Asked.{number_table, row_of, word_table};
ghost use Rattle.spi_commands.specs.Options.{numbers_given, number_rows, numbered_command, word_rows};

use crate::asked::Command;

/// The line for words that are no command.
pub const USAGE: &[u8] =
    b"usage: check | derive | verify | replay | play --steps N [--player I] | print | load K | upgrade | narrate | knows I | bench\n";

/// The commands of one word.
pub const WORDS: [(&str, Command); 8] = [
    ("check", Command::Check),
    ("derive", Command::Derive),
    ("verify", Command::Verify),
    ("replay", Command::Replay),
    ("print", Command::Print),
    ("upgrade", Command::Upgrade),
    ("narrate", Command::Narrate),
    ("bench", Command::Bench),
];

/// A command with a number behind its word, from the least to the most. The command here has any number.
#[derive(Clone, Copy)]
pub struct Numbered {
    pub least: u32,
    pub most: u32,
    pub command: Command,
}

/// The commands with a number behind their word.
pub const NUMBERS: [(&str, Numbered); 2] = [
    (
        "load",
        Numbered {
            least: 1,
            most: 500,
            command: Command::Load { sessions: 0 },
        },
    ),
    (
        "knows",
        Numbered {
            least: 0,
            most: 999_999_999,
            command: Command::Knows { name: 0 },
        },
    ),
];

/// The command of one word.
pub fn word_command(word: &str) -> Option<Command>
    ensures { result ≡ row_of word.now word_table }
{
    word_in(&WORDS, word)
}

/// The command of this word among these.
fn word_in(rows: &[(&str, Command)], word: &str) -> Option<Command>
    ensures { result ≡ row_of word.now (word_rows rows.now) }
{
    for row in rows {
        if row.0 == word {
            return Some(row.1);
        }
    }
    None
}

/// The command of a word with a number behind it.
pub fn number_command(word: &str) -> Option<Numbered>
    ensures { option_map numbers_given result ≡ row_of word.now number_table }
{
    number_in(&NUMBERS, word)
}

/// The command of this word among these.
fn number_in(rows: &[(&str, Numbered)], word: &str) -> Option<Numbered>
    ensures { option_map numbers_given result ≡ row_of word.now (number_rows rows.now) }
{
    for row in rows {
        if row.0 == word {
            return Some(row.1);
        }
    }
    None
}

/// The command with this number.
pub fn with(command: Command, n: u32) -> Command
    ensures { result ≡ numbered_command command n }
{
    match command {
        Command::Load { sessions: _ } => Command::Load { sessions: n },
        Command::Knows { name: _ } => Command::Knows { name: n },
        other => other,
    }
}
