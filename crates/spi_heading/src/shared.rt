//! Names with their types, and shared names.

ghost use Rattle.std.specs.Prelude.{◌≤◌, ◌==◌, length, IfOk};
ghost use Rattle.spi_lex.specs.Numbered.{listed};
ghost use Rattle.spi_parse.specs.Exact.{Reads};
ghost use Rattle.spi_heading.specs.Grammar.{whole_named, whole_shared, IsWholeNamed, IsWholeShared};
ghost use Rattle.spi_heading.specs.Taking.{IsTextOf};
ghost use Rattle.spi_heading.specs.Views.{named_of, shared_of};

use crate::tokens::{ReadPart, span_between, take_mark, take_spelled, take_word};
use spi_lex::{Mark, Tokens};
use spi_parse::{ParseFault, type_in};
use spi_text::Span;
use spi_tree::{Room, STy, SWord};

/// A name with its type: `x: T`. The type lies in a place of its own, so that what holds several names stays small.
#[derive(Drop)]
pub struct Named<'b> {
    pub name: SWord,
    pub ty: Box<STy<'b>>,
}

/// A name with its type that all parts share: `shared x: T;`
#[derive(Drop)]
pub struct Shared<'b> {
    pub name: SWord,
    pub ty: STy<'b>,
    pub span: Span,
}

/// The name with its type that the tokens from number `at` on begin with, in a text of the version, and the number of the
/// token behind it. Where they begin with none that is within the nesting limits, the faults are as `type_at` has them.
pub fn named_at<'b>(
    room: Room<'b>,
    tokens: &Tokens<'_>,
    at: u32,
    version: u32,
) -> ReadPart<Named<'b>>
    requires text { IsTextOf version (listed tokens.now) }
    ensures read { Reads named_of whole_named (IsWholeNamed (version == 2)) result (listed tokens.now) at }
    ensures within { IfOk result (λ r. r.1 ≤ length (listed tokens.now)) }
{
    let (name, colon) = take_word(room.alloc, tokens, at)?;
    let ty_at = take_mark(tokens, colon, Mark::Colon)?;
    let (ty, next) = type_in(room, tokens, ty_at, version)?;
    match Box::new(room.alloc, ty) {
        Ok(ty) => Ok((Named { name, ty }, next)),
        Err(_) => Err(ParseFault::NoMemory),
    }
}

/// The shared name that the tokens from number `at` on begin with, in a text of the version, and the number of the token
/// behind it. Where they begin with none that is within the nesting limits, the faults are as `type_at` has them.
pub fn shared_at<'b>(
    room: Room<'b>,
    tokens: &Tokens<'_>,
    at: u32,
    version: u32,
) -> ReadPart<Shared<'b>>
    requires text { IsTextOf version (listed tokens.now) }
    ensures read { Reads shared_of whole_shared (IsWholeShared (version == 2)) result (listed tokens.now) at }
    ensures within { IfOk result (λ r. r.1 ≤ length (listed tokens.now)) }
{
    let name_at = take_spelled(tokens, at, "shared")?;
    let (named, end) = named_at(room, tokens, name_at, version)?;
    let next = take_mark(tokens, end, Mark::Semicolon)?;
    let span = span_between(tokens, at, next);
    Ok((
        Shared {
            name: named.name,
            ty: Box::into_inner(named.ty),
            span,
        },
        next,
    ))
}
