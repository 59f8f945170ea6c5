//! Lines.

ghost use Rattle.std.specs.Prelude.{◌≤◌, ◌==◌, ◌↔◌, [], false, length, codes, Ok, IfOk, IsTrue};
ghost use Rattle.spi_lex.specs.Numbered.{listed};
ghost use Rattle.spi_lex.specs.declared.token.Kind.TheVariants as kinds;
ghost use Rattle.spi_lex.specs.declared.token.Mark.TheVariants as mark;
ghost use Rattle.spi_tree.specs.declared.tree.SWord as words;
ghost use Rattle.spi_tree.specs.Formed.{AreWordsFit, IsMsg};
ghost use Rattle.spi_tree.specs.Pieces.{a_mark, a_token, a_word, msg_pieces, kinds_in};
ghost use Rattle.spi_tree.specs.Trees.{Msg};
ghost use Rattle.spi_tree.specs.Views.{msg_of};
ghost use Rattle.spi_parse.specs.Exact.{Reads};
ghost use Rattle.spi_heading.specs.Taking.{IsTextOf, IsThere, TakesWord};
ghost use Rattle.spi_narrate.specs.Grammar.{whole_line, IsWholeLine};
ghost use Rattle.spi_narrate.specs.Views.{line_of, line_kind};

use crate::forms::prefix_at;
use crate::tree::Line;
use spi_heading::{
    ReadPart, RepeatedPart, mark_at, span_between, take_mark, take_spelled, take_word, token_at,
};
use spi_lex::{Mark, Tokens};
use spi_parse::message_in;
use spi_tree::{Room, SMsg, SWord};

/// `A: X;`, where the role is read and the colon stands behind it.
fn local_at<'b>(
    room: Room<'b>,
    tokens: &Tokens<'_>,
    at: u32,
    role: SWord,
    colon: u32,
    version: u32,
) -> ReadPart<Line<'b>>
    requires text { IsTextOf version (listed tokens.now) }
    requires first { TakesWord (Ok (role, colon)) (listed tokens.now) at }
    requires colon { IsThere (listed tokens.now) colon (kinds.Mark mark.Colon) }
    ensures { Reads line_of whole_line (IsWholeLine (version == 2)) result (listed tokens.now) at }
{
    let (prefix, end) = prefix_at(room, tokens, colon + 1, version)?;
    let next = take_mark(tokens, end, Mark::Semicolon)?;
    let span = span_between(tokens, at, next);
    Ok((Line::Local { role, prefix, span }, next))
}

/// `B on c: M`, from the token of number `at` on.
fn addressed_at<'b>(
    room: Room<'b>,
    tokens: &Tokens<'_>,
    at: u32,
    version: u32,
) -> ReadPart<(SWord, SWord, SMsg<'b>)>
    requires text { IsTextOf version (listed tokens.now) }
    requires start { at ≤ length (listed tokens.now) }
    ensures read { let pieces = λ (x : words.SWord × words.SWord × Msg). a_word false x.0
        (a_token (kinds.Word (codes "on")) (a_word false x.1 (a_mark mark.Colon (msg_pieces 1 x.2 [])))) in
        Reads (λ r. (r.0, r.1, msg_of r.2)) pieces
        (λ x. IsMsg (version == 2) false x.2 × AreWordsFit (version == 2) (kinds_in (pieces x)))
        result (listed tokens.now) at }
    ensures within { IfOk result (λ r. r.1 ≤ length (listed tokens.now)) }
{
    let (to, on) = take_word(room.alloc, tokens, at)?;
    let channel_at = take_spelled(tokens, on, "on")?;
    let (channel, colon) = take_word(room.alloc, tokens, channel_at)?;
    let datum_at = take_mark(tokens, colon, Mark::Colon)?;
    let (datum, next) = message_in(room, tokens, datum_at, version)?;
    Ok(((to, channel, datum), next))
}

/// `A to B on c: M as x;`, where the sender is read and no colon stands behind it.
fn pass_at<'b>(
    room: Room<'b>,
    tokens: &Tokens<'_>,
    at: u32,
    from: SWord,
    behind: u32,
    version: u32,
) -> ReadPart<Line<'b>>
    requires text { IsTextOf version (listed tokens.now) }
    requires first { TakesWord (Ok (from, behind)) (listed tokens.now) at }
    requires other { IsThere (listed tokens.now) behind (kinds.Mark mark.Colon) → ⊥ }
    ensures { Reads line_of whole_line (IsWholeLine (version == 2)) result (listed tokens.now) at }
{
    let receiver = take_spelled(tokens, behind, "to")?;
    let (addressed, as_at) = addressed_at(room, tokens, receiver, version)?;
    let name_at = take_spelled(tokens, as_at, "as")?;
    let (name, end) = take_word(room.alloc, tokens, name_at)?;
    let next = take_mark(tokens, end, Mark::Semicolon)?;
    let (to, channel, datum) = addressed;
    let span = span_between(tokens, at, next);
    Ok((
        Line::Pass {
            from,
            to,
            channel,
            datum,
            name,
            span,
        },
        next,
    ))
}

/// Lines up to the end, as repeated parts.
pub struct Lines;

impl<'b> RepeatedPart<'b> for Lines {
    type Read = Line<'b>;

    ghost kind = { line_kind };

    fn begins_at(tokens: &Tokens<'_>, at: u32) -> bool
        ensures { IsTrue result ↔ line_kind.Begins (listed tokens.now) at }
    {
        token_at(tokens, at)
    }

    fn part_at(room: Room<'b>, tokens: &Tokens<'_>, at: u32, version: u32) -> ReadPart<Line<'b>> {
        let (role, behind) = take_word(room.alloc, tokens, at)?;
        if mark_at(tokens, behind, Mark::Colon) {
            local_at(room, tokens, at, role, behind, version)
        } else {
            pass_at(room, tokens, at, role, behind, version)
        }
    }
}
