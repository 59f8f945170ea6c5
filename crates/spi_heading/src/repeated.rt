//! Parts of one kind, one behind another.

ghost use Rattle.std.specs.Prelude.{◌≤◌, ◌==◌, ◌↔◌, IsTrue, length};
ghost use Rattle.spi_lex.specs.Numbered.{listed};
ghost use Rattle.spi_heading.specs.Repeated.{RepeatedKind, IsSolidKind, ReadsRepeated, ReadsParts};
ghost use Rattle.spi_heading.specs.Taking.{IsTextOf};

use crate::tokens::ReadPart;
use spi_lex::Tokens;
use spi_parse::ParseFault;
use spi_tree::Room;

/// A kind of part that stands any number of times.
pub trait RepeatedPart<'b> {
    /// A part that is read.
    type Read: Drop;

    /// What its parts are.
    ghost kind: { RepeatedKind Self.Read };

    /// Whether a part begins with the token of this number.
    fn begins_at(tokens: &Tokens<'_>, at: u32) -> bool
        ensures { IsTrue result ↔ kind.Begins (listed tokens.now) at };

    /// The part that the tokens from number `at` on begin with, in a text of the version, and the number of the token behind
    /// it, or the fault.
    fn part_at(room: Room<'b>, tokens: &Tokens<'_>, at: u32, version: u32) -> ReadPart<Self::Read>
        requires text { IsTextOf version (listed tokens.now) }
        requires start { at ≤ length (listed tokens.now) }
        ensures { ReadsRepeated kind (version == 2) result (listed tokens.now) at };
}

/// The parts from token number `start` on, up to a token with which none begins, and the number of that token. The fault is
/// that of the first part that isn't read.
pub fn parts_at<'b, P: RepeatedPart<'b>>(
    room: Room<'b>,
    tokens: &Tokens<'_>,
    start: u32,
    version: u32,
) -> ReadPart<Vec<P::Read>>
    requires text { IsTextOf version (listed tokens.now) }
    requires start { start ≤ length (listed tokens.now) }
    requires solid { IsSolidKind P.kind }
    ensures { ReadsParts P.kind (version == 2) result (listed tokens.now) start }
{
    let mut parts = Vec::new(room.alloc);
    let mut at = start;
    'parts: while P::begins_at(tokens, at) {
        let (part, next) = P::part_at(room, tokens, at, version)?;
        match parts.push(part) {
            Ok(()) => {}
            Err(_) => return Err(ParseFault::NoMemory),
        }
        at = next;
    }
    Ok((parts, at))
}
