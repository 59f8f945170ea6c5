//! The version, the declarations and the shared names that a text begins with.

ghost use Rattle.std.specs.Prelude.{◌≤◌, ◌↔◌, length, IfOk, IsTrue};
ghost use Rattle.spi_lex.specs.Numbered.{listed};
ghost use Rattle.spi_lex.specs.Lexing.{kinds_of, is_version_2};
ghost use Rattle.spi_tree.specs.Formed.{AreWordsFit};
ghost use Rattle.spi_heading.specs.Reading.{ReadsHeading};
ghost use Rattle.spi_heading.specs.Repeated.{declared_kind, shared_kind};
ghost use Rattle.spi_heading.specs.Taking.{IsTextOf};

use crate::repeated::{RepeatedPart, parts_at};
use crate::shared::{Shared, shared_at};
use crate::tokens::{ReadPart, reserved_at, spelled_at, version_of};
use spi_lex::{Reserved, Tokens};
use spi_parse::decl_in;
use spi_tree::{Decl, Room};

/// Declarations, as repeated parts.
struct Declarations;

impl<'b> RepeatedPart<'b> for Declarations {
    type Read = Decl<'b>;

    ghost kind = { declared_kind };

    fn begins_at(tokens: &Tokens<'_>, at: u32) -> bool
        ensures { IsTrue result ↔ declared_kind.Begins (listed tokens.now) at }
    {
        reserved_at(tokens, at, Reserved::Free) || reserved_at(tokens, at, Reserved::TypeWord)
    }

    fn part_at(room: Room<'b>, tokens: &Tokens<'_>, at: u32, version: u32) -> ReadPart<Decl<'b>> {
        decl_in(room, tokens, at, version)
    }
}

/// Shared names, as repeated parts.
struct SharedNames;

impl<'b> RepeatedPart<'b> for SharedNames {
    type Read = Shared<'b>;

    ghost kind = { shared_kind };

    fn begins_at(tokens: &Tokens<'_>, at: u32) -> bool
        ensures { IsTrue result ↔ shared_kind.Begins (listed tokens.now) at }
    {
        spelled_at(tokens, at, "shared")
    }

    fn part_at(room: Room<'b>, tokens: &Tokens<'_>, at: u32, version: u32) -> ReadPart<Shared<'b>> {
        shared_at(room, tokens, at, version)
    }
}

/// What a narration or a bench begins with.
#[derive(Drop)]
pub struct Heading<'b> {
    /// 1, or 2 where the text begins with `version 2;`
    pub version: u32,
    pub decls: Vec<Decl<'b>>,
    pub shared: Vec<Shared<'b>>,
}

/// The heading that the tokens begin with, and the number of the token behind it. A token with which neither a declaration nor
/// a shared name begins ends it. The fault is that of the first part that isn't read.
pub fn heading_at<'b>(room: Room<'b>, tokens: &Tokens<'_>) -> ReadPart<Heading<'b>>
    requires size { length (listed tokens.now) ≤ 16_777_216 }
    requires words { let kinds = kinds_of (listed tokens.now) in AreWordsFit (is_version_2 kinds) kinds }
    ensures read { ReadsHeading result (listed tokens.now) }
    ensures text { IfOk result (λ r. IsTextOf r.0.version (listed tokens.now)) }
    ensures within { IfOk result (λ r. r.1 ≤ length (listed tokens.now)) }
{
    let (version, start) = version_of(tokens)?;
    let (decls, shared_start) = parts_at::<Declarations>(room, tokens, start, version)?;
    let (shared, next) = parts_at::<SharedNames>(room, tokens, shared_start, version)?;
    let heading = Heading {
        version,
        decls,
        shared,
    };
    Ok((heading, next))
}
