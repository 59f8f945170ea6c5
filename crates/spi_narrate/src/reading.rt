//! Whole narrations.

ghost use Rattle.std.specs.Prelude.{◌≤◌, length};
ghost use Rattle.spi_lex.specs.Numbered.{listed};
ghost use Rattle.spi_lex.specs.Lexing.{kinds_of, is_version_2};
ghost use Rattle.spi_tree.specs.Formed.{AreWordsFit};
ghost use Rattle.spi_narrate.specs.Reads.{ParsesNarration};
ghost use Rattle.spi_narrate.specs.Views.{narration_of};

use crate::lines::Lines;
use crate::roles::roles_at;
use crate::tree::Narration;
use spi_heading::{Heading, heading_at, parts_at, span_between};
use spi_lex::Tokens;
use spi_parse::ParseFault;
use spi_tree::Room;

/// The narration whose tokens these are, with the spans of its nodes and words, or the first fault. Roles and limits aren't
/// looked at.
///
/// A fault names its token by its number from 0. `Syntax` is at the token with which no narration goes on, and at the end it
/// is the number of tokens. `TooDeep` is at the first token at which a node of some narration starts that is above its nesting
/// limit. `NoMemory` comes where memory runs out.
pub fn parse_narration<'b>(room: Room<'b>, tokens: &Tokens<'_>) -> Result<Narration<'b>, ParseFault>
    requires size { length (listed tokens.now) ≤ 16_777_216 }
    requires words { let kinds = kinds_of (listed tokens.now) in AreWordsFit (is_version_2 kinds) kinds }
    ensures { ParsesNarration narration_of result (listed tokens.now) }
{
    let (heading, roles_start) = heading_at(room, tokens)?;
    let Heading {
        version,
        decls,
        shared,
    } = heading;
    let (roles, lines_start) = roles_at(room, tokens, roles_start, version)?;
    let (lines, end) = parts_at::<Lines>(room, tokens, lines_start, version)?;
    let (first, more) = roles;
    let span = span_between(tokens, 0, end);
    Ok(Narration {
        version,
        decls,
        shared,
        first,
        more,
        lines,
        span,
    })
}
