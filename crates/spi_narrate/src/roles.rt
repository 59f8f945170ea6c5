//! The roles.

ghost use Rattle.std.specs.Prelude.{◌==◌, ◌∷◌, ◌↔◌, IsTrue};
ghost use Rattle.spi_lex.specs.Numbered.{listed};
ghost use Rattle.spi_parse.specs.Exact.{Reads};
ghost use Rattle.spi_heading.specs.Taking.{IsTextOf};
ghost use Rattle.spi_narrate.specs.Grammar.{whole_roles, AreWholeRoles};
ghost use Rattle.spi_narrate.specs.Views.{further_kind};

use spi_heading::{ReadPart, RepeatedPart, mark_at, parts_at, take_mark, take_spelled, take_word};
use spi_lex::{Mark, Tokens};
use spi_tree::{Room, SWord};

/// The roles that the tokens from number `at` on begin with, up to their semicolon, and the number of the token behind it: the
/// first role and the further ones. Where the tokens begin with none, that is `Syntax` at the token with which no roles go on.
pub fn roles_at<'b>(
    room: Room<'b>,
    tokens: &Tokens<'_>,
    at: u32,
    version: u32,
) -> ReadPart<(SWord, Vec<SWord>)>
    requires text { IsTextOf version (listed tokens.now) }
    ensures { Reads (λ r. r.0 ∷ r.1.items) whole_roles (AreWholeRoles (version == 2)) result
        (listed tokens.now) at }
{
    let first_at = take_spelled(tokens, at, "roles")?;
    let (first, behind) = take_word(room.alloc, tokens, first_at)?;
    let (more, end) = parts_at::<FurtherWords>(room, tokens, behind, version)?;
    let next = take_mark(tokens, end, Mark::Semicolon)?;
    Ok(((first, more), next))
}

/// Words behind commas, as repeated parts.
struct FurtherWords;

impl<'b> RepeatedPart<'b> for FurtherWords {
    type Read = SWord;

    ghost kind = { further_kind };

    fn begins_at(tokens: &Tokens<'_>, at: u32) -> bool
        ensures { IsTrue result ↔ further_kind.Begins (listed tokens.now) at }
    {
        mark_at(tokens, at, Mark::Comma)
    }

    fn part_at(room: Room<'b>, tokens: &Tokens<'_>, at: u32, version: u32) -> ReadPart<SWord> {
        let word_at = take_mark(tokens, at, Mark::Comma)?;
        take_word(room.alloc, tokens, word_at)
    }
}
