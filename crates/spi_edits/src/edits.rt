//! Edits.

ghost use Rattle.std.specs.Prelude.{◌≤◌, ◌==◌, ◌↔◌, [], false, length, IfOk, IsTrue};
ghost use Rattle.spi_lex.specs.Numbered.{listed};
ghost use Rattle.spi_tree.specs.declared.tree.SWord as words;
ghost use Rattle.spi_tree.specs.Formed.{AreWordsFit};
ghost use Rattle.spi_tree.specs.Pieces.{a_mark, a_word, kinds_in};
ghost use Rattle.spi_parse.specs.Exact.{Reads};
ghost use Rattle.spi_heading.specs.Taking.{IsTextOf, IsThere};
ghost use Rattle.spi_edits.specs.Grammar.{put_word, drop_word, whole_edit, IsWholeEdit};
ghost use Rattle.spi_edits.specs.Views.{edit_of, edit_kind};

use crate::text::Edit;
use spi_heading::{
    ReadPart, RepeatedPart, span_between, spelled_at, take_mark, take_word, token_at,
};
use spi_lex::{Mark, Tokens};
use spi_parse::{ParseFault, process_in};
use spi_tree::{Room, SWord};
use std::alloc::Global;

/// A name and the mark behind it, from the token of number `at` on.
fn marked_name_at(
    alloc: Global,
    tokens: &Tokens<'_>,
    at: u32,
    mark: Mark,
    version: u32,
) -> ReadPart<SWord>
    requires text { IsTextOf version (listed tokens.now) }
    ensures read { let pieces = λ (w : words.SWord). a_word false w (a_mark mark []) in
        Reads (λ w. w) pieces (λ w. AreWordsFit (version == 2) (kinds_in (pieces w))) result
        (listed tokens.now) at }
    ensures within { IfOk result (λ r. r.1 ≤ length (listed tokens.now)) }
{
    let (name, mark_at) = take_word(alloc, tokens, at)?;
    let next = take_mark(tokens, mark_at, mark)?;
    Ok((name, next))
}

/// `put A { P }`, where the token of number `at` is its first.
fn put_at<'b>(room: Room<'b>, tokens: &Tokens<'_>, at: u32, version: u32) -> ReadPart<Edit<'b>>
    requires text { IsTextOf version (listed tokens.now) }
    requires first { IsThere (listed tokens.now) at put_word }
    ensures { Reads edit_of whole_edit (IsWholeEdit (version == 2)) result (listed tokens.now) at }
{
    let (name, part_at) = marked_name_at(room.alloc, tokens, at + 1, Mark::BraceOpen, version)?;
    let (part, close) = process_in(room, tokens, part_at, version)?;
    let next = take_mark(tokens, close, Mark::BraceClose)?;
    let span = span_between(tokens, at, next);
    Ok((Edit::Put { name, part, span }, next))
}

/// `drop A;`, where the token of number `at` is its first.
fn drop_at<'b>(alloc: Global, tokens: &Tokens<'_>, at: u32, version: u32) -> ReadPart<Edit<'b>>
    requires text { IsTextOf version (listed tokens.now) }
    requires first { IsThere (listed tokens.now) at drop_word }
    ensures { Reads edit_of whole_edit (IsWholeEdit (version == 2)) result (listed tokens.now) at }
{
    let (name, next) = marked_name_at(alloc, tokens, at + 1, Mark::Semicolon, version)?;
    let span = span_between(tokens, at, next);
    Ok((Edit::Drop { name, span }, next))
}

/// Edits up to the end, as repeated parts.
pub struct Edits;

impl<'b> RepeatedPart<'b> for Edits {
    type Read = Edit<'b>;

    ghost kind = { edit_kind };

    fn begins_at(tokens: &Tokens<'_>, at: u32) -> bool
        ensures { IsTrue result ↔ edit_kind.Begins (listed tokens.now) at }
    {
        token_at(tokens, at)
    }

    fn part_at(room: Room<'b>, tokens: &Tokens<'_>, at: u32, version: u32) -> ReadPart<Edit<'b>> {
        if spelled_at(tokens, at, "put") {
            put_at(room, tokens, at, version)
        } else if spelled_at(tokens, at, "drop") {
            drop_at(room.alloc, tokens, at, version)
        } else {
            Err(ParseFault::Syntax { token: at })
        }
    }
}
