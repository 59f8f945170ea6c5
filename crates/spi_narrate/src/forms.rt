//! What a role does by itself.

ghost use Rattle.std.specs.Prelude.{◌≡◌, ◌≤◌, ◌⊎◌, ◌==◌, [], true, false, length, IfOk};
ghost use Rattle.spi_lex.specs.Numbered.{listed};
ghost use Rattle.spi_lex.specs.declared.token.Kind.TheVariants as kinds;
ghost use Rattle.spi_lex.specs.declared.token.Mark.TheVariants as marks;
ghost use Rattle.spi_lex.specs.declared.token.Reserved.TheVariants as word;
ghost use Rattle.spi_tree.specs.Formed.{AreWordsFit, IsMsg, IsTy};
ghost use Rattle.spi_tree.specs.Pieces.{a_mark, a_reserved, msg_pieces, named_pieces, kinds_in};
ghost use Rattle.spi_tree.specs.Trees.{Msg};
ghost use Rattle.spi_tree.specs.Views.{msg_of};
ghost use Rattle.spi_parse.specs.Exact.{Reads};
ghost use Rattle.spi_heading.specs.Headings as headings;
ghost use Rattle.spi_heading.specs.Taking.{IsTextOf, IsThere};
ghost use Rattle.spi_heading.specs.Views.{named_of};
ghost use Rattle.spi_narrate.specs.Grammar.{whole_prefix, IsWholePrefix};
ghost use Rattle.spi_narrate.specs.Views.{prefix_of};
ghost use Rattle.spi_narrate.specs.Words.{IsReservedAt};

use crate::tree::Prefix;
use spi_heading::{Named, ReadPart, named_at, span_between, take_mark, take_reserved};
use spi_lex::{Mark, Reserved, Seen, Tokens};
use spi_parse::{ParseFault, message_in};
use spi_tree::{Room, SMsg};

/// `M is`, from the token of number `at` on.
fn whole_at<'b>(room: Room<'b>, tokens: &Tokens<'_>, at: u32, version: u32) -> ReadPart<SMsg<'b>>
    requires text { IsTextOf version (listed tokens.now) }
    requires start { at ≤ length (listed tokens.now) }
    ensures read { let pieces = λ (x : Msg). msg_pieces 1 x (a_reserved word.Is []) in
        Reads msg_of pieces
        (λ x. IsMsg (version == 2) false x × AreWordsFit (version == 2) (kinds_in (pieces x)))
        result (listed tokens.now) at }
    ensures within { IfOk result (λ r. r.1 ≤ length (listed tokens.now)) }
{
    let (whole, is_at) = message_in(room, tokens, at, version)?;
    let next = take_reserved(tokens, is_at, Reserved::Is)?;
    Ok((whole, next))
}

/// `M is (x: T`, or with another mark before the name, from the token of number `at` on.
fn bound_at<'b>(
    room: Room<'b>,
    tokens: &Tokens<'_>,
    at: u32,
    mark: Mark,
    version: u32,
) -> ReadPart<(SMsg<'b>, Named<'b>)>
    requires text { IsTextOf version (listed tokens.now) }
    requires start { at ≤ length (listed tokens.now) }
    ensures read { let pieces = λ (x : Msg × headings.Named). msg_pieces 1 x.0
        (a_reserved word.Is (a_mark mark (named_pieces x.1.name x.1.ty []))) in
        Reads (λ r. (msg_of r.0, named_of r.1)) pieces
        (λ x. IsMsg (version == 2) false x.0 × IsTy (version == 2) x.1.ty
        × AreWordsFit (version == 2) (kinds_in (pieces x)))
        result (listed tokens.now) at }
    ensures within { IfOk result (λ r. r.1 ≤ length (listed tokens.now)) }
{
    let (whole, mark_at) = whole_at(room, tokens, at, version)?;
    let name_at = take_mark(tokens, mark_at, mark)?;
    let (named, next) = named_at(room, tokens, name_at, version)?;
    Ok(((whole, named), next))
}

/// `(x: T)`, or with another mark before the name, from the token of number `at` on.
fn closed_at<'b>(
    room: Room<'b>,
    tokens: &Tokens<'_>,
    at: u32,
    mark: Mark,
    version: u32,
) -> ReadPart<Named<'b>>
    requires text { IsTextOf version (listed tokens.now) }
    requires start { at ≤ length (listed tokens.now) }
    ensures read { let pieces = λ (x : headings.Named).
        a_mark mark (named_pieces x.name x.ty (a_mark marks.ParenClose [])) in
        Reads named_of pieces
        (λ x. IsTy (version == 2) x.ty × AreWordsFit (version == 2) (kinds_in (pieces x)))
        result (listed tokens.now) at }
    ensures within { IfOk result (λ r. r.1 ≤ length (listed tokens.now)) }
{
    let name_at = take_mark(tokens, at, mark)?;
    let (named, close) = named_at(room, tokens, name_at, version)?;
    let next = take_mark(tokens, close, Mark::ParenClose)?;
    Ok((named, next))
}

/// `split M is (x: T, y: U)`, where the token of number `at` is its first.
fn split_at<'b>(room: Room<'b>, tokens: &Tokens<'_>, at: u32, version: u32) -> ReadPart<Prefix<'b>>
    requires text { IsTextOf version (listed tokens.now) }
    requires first { IsThere (listed tokens.now) at (kinds.Reserved word.Split) }
    ensures { Reads prefix_of whole_prefix (IsWholePrefix (version == 2)) result (listed tokens.now) at }
{
    let (bound, comma) = bound_at(room, tokens, at + 1, Mark::ParenOpen, version)?;
    let (right, next) = closed_at(room, tokens, comma, Mark::Comma, version)?;
    let (whole, left) = bound;
    let span = span_between(tokens, at, next);
    let Ok(right) = Box::new(room.alloc, right) else {
        return Err(ParseFault::NoMemory);
    };
    Ok((
        Prefix::Split {
            whole,
            left,
            right,
            span,
        },
        next,
    ))
}

/// `match M is (x: T = N, y: U)`, where the token of number `at` is its first.
fn match_at<'b>(room: Room<'b>, tokens: &Tokens<'_>, at: u32, version: u32) -> ReadPart<Prefix<'b>>
    requires text { IsTextOf version (listed tokens.now) }
    requires first { IsThere (listed tokens.now) at (kinds.Reserved word.Match) }
    ensures { Reads prefix_of whole_prefix (IsWholePrefix (version == 2)) result (listed tokens.now) at }
{
    let (bound, equals) = bound_at(room, tokens, at + 1, Mark::ParenOpen, version)?;
    let equal_at = take_mark(tokens, equals, Mark::Equals)?;
    let (equal, comma) = message_in(room, tokens, equal_at, version)?;
    let (right, next) = closed_at(room, tokens, comma, Mark::Comma, version)?;
    let (whole, left) = bound;
    let span = span_between(tokens, at, next);
    let Ok(equal) = Box::new(room.alloc, equal) else {
        return Err(ParseFault::NoMemory);
    };
    let Ok(right) = Box::new(room.alloc, right) else {
        return Err(ParseFault::NoMemory);
    };
    Ok((
        Prefix::Match {
            whole,
            left,
            equal,
            right,
            span,
        },
        next,
    ))
}

/// `decrypt M is {x: T}N`, where the token of number `at` is its first.
fn decrypt_at<'b>(
    room: Room<'b>,
    tokens: &Tokens<'_>,
    at: u32,
    version: u32,
) -> ReadPart<Prefix<'b>>
    requires text { IsTextOf version (listed tokens.now) }
    requires first { IsThere (listed tokens.now) at (kinds.Reserved word.Decrypt) }
    ensures { Reads prefix_of whole_prefix (IsWholePrefix (version == 2)) result (listed tokens.now) at }
{
    let (opened, close) = bound_at(room, tokens, at + 1, Mark::BraceOpen, version)?;
    let key_at = take_mark(tokens, close, Mark::BraceClose)?;
    let (key, next) = message_in(room, tokens, key_at, version)?;
    let (whole, bound) = opened;
    let span = span_between(tokens, at, next);
    Ok((
        Prefix::Decrypt {
            whole,
            bound,
            key,
            span,
        },
        next,
    ))
}

/// `check M is N`, where the token of number `at` is its first.
fn check_at<'b>(room: Room<'b>, tokens: &Tokens<'_>, at: u32, version: u32) -> ReadPart<Prefix<'b>>
    requires text { IsTextOf version (listed tokens.now) }
    requires first { IsThere (listed tokens.now) at (kinds.Reserved word.Check) }
    ensures { Reads prefix_of whole_prefix (IsWholePrefix (version == 2)) result (listed tokens.now) at }
{
    let (whole, nonce_at) = whole_at(room, tokens, at + 1, version)?;
    let (nonce, next) = message_in(room, tokens, nonce_at, version)?;
    let span = span_between(tokens, at, next);
    Ok((Prefix::Check { whole, nonce, span }, next))
}

/// `begin L`, `end L` or `endmany L`, where the token of number `at` is its first.
fn label_at<'b>(
    room: Room<'b>,
    tokens: &Tokens<'_>,
    at: u32,
    form: Reserved,
    version: u32,
) -> ReadPart<Prefix<'b>>
    requires text { IsTextOf version (listed tokens.now) }
    requires first { IsThere (listed tokens.now) at (kinds.Reserved form) }
    requires form { (form ≡ word.Begin) ⊎ ((form ≡ word.End)
        ⊎ ((form ≡ word.EndMany) × ((version == 2) ≡ true))) }
    ensures { Reads prefix_of whole_prefix (IsWholePrefix (version == 2)) result (listed tokens.now) at }
{
    let (label, next) = message_in(room, tokens, at + 1, version)?;
    let span = span_between(tokens, at, next);
    match form {
        Reserved::Begin => Ok((Prefix::Begin { label, span }, next)),
        Reserved::End => Ok((Prefix::End { label, span }, next)),
        _ => Ok((Prefix::EndMany { label, span }, next)),
    }
}

/// `cast M is (x: T)`, where the token of number `at` is its first.
fn cast_at<'b>(room: Room<'b>, tokens: &Tokens<'_>, at: u32, version: u32) -> ReadPart<Prefix<'b>>
    requires text { IsTextOf version (listed tokens.now) }
    requires first { IsThere (listed tokens.now) at (kinds.Reserved word.Cast) }
    ensures { Reads prefix_of whole_prefix (IsWholePrefix (version == 2)) result (listed tokens.now) at }
{
    let (whole, open) = whole_at(room, tokens, at + 1, version)?;
    let (bound, next) = closed_at(room, tokens, open, Mark::ParenOpen, version)?;
    let span = span_between(tokens, at, next);
    Ok((Prefix::Cast { whole, bound, span }, next))
}

/// `new (x: T)`, where the token of number `at` is its first.
fn new_at<'b>(room: Room<'b>, tokens: &Tokens<'_>, at: u32, version: u32) -> ReadPart<Prefix<'b>>
    requires text { IsTextOf version (listed tokens.now) }
    requires first { IsThere (listed tokens.now) at (kinds.Reserved word.New) }
    ensures { Reads prefix_of whole_prefix (IsWholePrefix (version == 2)) result (listed tokens.now) at }
{
    let (bound, next) = closed_at(room, tokens, at + 1, Mark::ParenOpen, version)?;
    let span = span_between(tokens, at, next);
    Ok((Prefix::New { bound, span }, next))
}

/// The reserved word at the token of this number, where one stands there.
fn reserved_word(tokens: &Tokens<'_>, at: u32) -> Option<Reserved>
    ensures { IsReservedAt result (listed tokens.now) at }
{
    match tokens.get(at) {
        Some(token) => match token.kind {
            Seen::Reserved(word) => Some(word),
            _ => None,
        },
        None => None,
    }
}

/// The part of a process form that the tokens from number `at` on begin with, in a text of the version, and the number of the
/// token behind it. Where they begin with none that is within the nesting limits, the faults are as `message_at` has them.
pub fn prefix_at<'b>(
    room: Room<'b>,
    tokens: &Tokens<'_>,
    at: u32,
    version: u32,
) -> ReadPart<Prefix<'b>>
    requires text { IsTextOf version (listed tokens.now) }
    ensures { Reads prefix_of whole_prefix (IsWholePrefix (version == 2)) result (listed tokens.now) at }
{
    let Some(word) = reserved_word(tokens, at) else {
        return Err(ParseFault::Syntax { token: at });
    };
    match word {
        Reserved::Split => split_at(room, tokens, at, version),
        Reserved::Match => match_at(room, tokens, at, version),
        Reserved::Decrypt => decrypt_at(room, tokens, at, version),
        Reserved::Check => check_at(room, tokens, at, version),
        Reserved::Begin => label_at(room, tokens, at, Reserved::Begin, version),
        Reserved::End => label_at(room, tokens, at, Reserved::End, version),
        Reserved::EndMany => {
            if version == 2 {
                label_at(room, tokens, at, Reserved::EndMany, version)
            } else {
                Err(ParseFault::Syntax { token: at })
            }
        }
        Reserved::Cast => cast_at(room, tokens, at, version),
        Reserved::New => new_at(room, tokens, at, version),
        _ => Err(ParseFault::Syntax { token: at }),
    }
}
