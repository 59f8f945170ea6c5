//! Messages.

ghost use Rattle.std.specs.Prelude.{◌≡◌, false, ◌+◌, ◌≤◌, [], ◌∷◌, map, IfOk};
ghost use Rattle.spi_tree.specs.Trees.{Msg, name, tuple, msgs_of_list};
ghost use Rattle.spi_tree.specs.Views.{msg_of};
ghost use Rattle.spi_parse.specs.Places.{state_of, tuple_form, enc_form, inl_form, inr_form, hash_form, GivesPart, GivesPlaced};
ghost use Rattle.spi_parse.specs.Ends.{done, numeral_form};
ghost use Rattle.spi_parse.specs.Table.{msg, msgs, msgs_item, delta_paren, word_at, over};
ghost use Rattle.spi_parse.specs.Reading.{read, limited, front, behind_move, item_of};

use crate::NoMemory;
use crate::boxes::{TreePart, put};
use crate::cursor::{MESSAGE_LIMIT, Reader, accept, fits, placed_word, span_from, syntax};
use crate::fault::Stop;
use crate::reading::{take_mark, take_number};
use crate::seen::Seen;
use spi_lex::{Mark, Reserved};
use spi_text::Span;
use spi_tree::{EncParts, MsgParts, Room, SMsg, named, placed, row, single};

/// A message, with the place behind it.
type Part<'b> = Result<SMsg<'b>, Stop>;

impl<'b> TreePart for SMsg<'b> {
    ghost Tree = { Msg };

    ghost view = { msg_of };
}

#[inline(always)]
fn make_tuple<'b>(
    room: Room<'b>,
    first: SMsg<'b>,
    second: SMsg<'b>,
    more: &'b [SMsg<'b>],
    span: Span,
) -> Result<SMsg<'b>, NoMemory>
    ensures { IfOk result
        (λ m. msg_of m ≡ tuple span (msg_of first.entry) (msg_of second.entry)
        (msgs_of_list (map msg_of more.now))) }
{
    let parts = MsgParts {
        first,
        second,
        more,
    };
    Ok(SMsg::Tuple {
        parts: placed(room, parts)?,
        span,
    })
}

/// Where a message stands: whether it may have hashes, as in version 2, whether numbers stand in the place of names, and its
/// nesting.
#[derive(Clone, Copy)]
pub struct Node {
    pub later: bool,
    pub numbered: bool,
    pub nesting: u32,
}

/// An outermost message with names.
#[inline(always)]
pub fn message<'b>(room: Room<'b>, at: &mut Reader<'_>, later: bool) -> Result<SMsg<'b>, Stop>
    ensures { GivesPart msg_of result (state_of at.new) (read limited (msg later false 1) (state_of at.old)) }
{
    let node = Node {
        later,
        numbered: false,
        nesting: 1,
    };
    message_of(room, at, node)
}

/// A message that stands so. Most are names or in parentheses: only the others are read by a call for any form.
#[cycle(messages)]
#[inline(always)]
pub fn message_of<'b>(room: Room<'b>, at: &mut Reader<'_>, node: Node) -> Part<'b>
    requires { node.nesting ≤ 1001 }
    ensures { GivesPart msg_of result (state_of at.new)
        (read limited (msg node.later node.numbered node.nesting) (state_of at.old)) }
{
    let first = at.first()?;
    match first.kind {
        Seen::Word(word) => {
            accept(!node.numbered, at)?;
            fits(node.nesting, MESSAGE_LIMIT, at)?;
            at.advance();
            read_name(room, word, first.span, at)
        }
        Seen::Mark(Mark::ParenOpen) => {
            fits(node.nesting, MESSAGE_LIMIT, at)?;
            at.advance();
            message_in_parens(room, first.span, at, node)
        }
        _ => any_message(room, at, node),
    }
}

/// A message that stands so, of any form.
#[cycle(messages)]
#[inline(never)]
pub fn any_message<'b>(room: Room<'b>, at: &mut Reader<'_>, node: Node) -> Part<'b>
    requires { node.nesting ≤ 1001 }
    ensures { GivesPart msg_of result (state_of at.new)
        (read limited (msg node.later node.numbered node.nesting) (state_of at.old)) }
{
    let first = at.first()?;
    match first.kind {
        Seen::Word(word) => {
            accept(!node.numbered, at)?;
            fits(node.nesting, MESSAGE_LIMIT, at)?;
            at.advance();
            read_name(room, word, first.span, at)
        }
        Seen::Mark(Mark::ParenOpen) => {
            fits(node.nesting, MESSAGE_LIMIT, at)?;
            at.advance();
            message_in_parens(room, first.span, at, node)
        }
        Seen::Mark(Mark::BraceOpen) => {
            fits(node.nesting, MESSAGE_LIMIT, at)?;
            at.advance();
            read_enc(room, first.span, at, node)
        }
        Seen::Mark(Mark::NumberSign) => {
            accept(node.numbered, at)?;
            fits(node.nesting, MESSAGE_LIMIT, at)?;
            at.advance();
            read_numeral(first.span, at, node)
        }
        Seen::Reserved(Reserved::Inl) => {
            fits(node.nesting, MESSAGE_LIMIT, at)?;
            at.advance();
            read_inl(room, first.span, at, node)
        }
        Seen::Reserved(Reserved::Inr) => {
            fits(node.nesting, MESSAGE_LIMIT, at)?;
            at.advance();
            read_inr(room, first.span, at, node)
        }
        Seen::Reserved(Reserved::Hash) => {
            accept(node.later, at)?;
            fits(node.nesting, MESSAGE_LIMIT, at)?;
            at.advance();
            read_hash(room, first.span, at, node)
        }
        _ => Err(syntax(at)),
    }
}

/// The message in a place of its own.
#[cycle(messages)]
fn placed_message<'b>(room: Room<'b>, at: &mut Reader<'_>, node: Node) -> Result<&'b SMsg<'b>, Stop>
    requires { node.nesting ≤ 1001 }
    ensures { GivesPlaced msg_of result (state_of at.new)
        (read limited (msg node.later node.numbered node.nesting) (state_of at.old)) }
{
    let tree = message_of(room, at, node)?;
    put(room, tree, at)
}

#[inline(always)]
fn read_name<'b>(room: Room<'b>, word: &str, span: Span, at: &mut Reader<'_>) -> Part<'b>
    ensures { GivesPart msg_of result (state_of at.new)
        (done (name span (word_at word.now span)) (state_of at.old)) }
{
    let name = placed_word(room.alloc, word, span)?;
    let name = named(room, name)?;
    Ok(name)
}

fn read_numeral<'b>(first: Span, at: &mut Reader<'_>, node: Node) -> Part<'b>
    ensures { GivesPart msg_of result (state_of at.new)
        (numeral_form node.later node.numbered node.nesting (first ∷ []) (state_of at.old)) }
{
    let number = take_number(at)?;
    let span = span_from(first, at);
    Ok(SMsg::Num { number, span })
}

#[cycle(messages)]
fn read_enc<'b>(room: Room<'b>, first: Span, at: &mut Reader<'_>, node: Node) -> Part<'b>
    requires { node.nesting ≤ 1000 }
    ensures { GivesPart msg_of result (state_of at.new)
        (enc_form node.later node.numbered node.nesting (first ∷ []) (state_of at.old)) }
{
    let inner = Node {
        nesting: node.nesting + 1,
        ..node
    };
    let body = message_of(room, at, inner)?;
    take_mark(at, Mark::BraceClose)?;
    let key = message_of(room, at, inner)?;
    let span = span_from(first, at);
    let parts = placed(room, EncParts { body, key })?;
    Ok(SMsg::Enc { parts, span })
}

#[cycle(messages)]
fn read_inl<'b>(room: Room<'b>, first: Span, at: &mut Reader<'_>, node: Node) -> Part<'b>
    requires { node.nesting ≤ 1000 }
    ensures { GivesPart msg_of result (state_of at.new)
        (inl_form node.later node.numbered node.nesting (first ∷ []) (state_of at.old)) }
{
    let inner = Node {
        nesting: node.nesting + 1,
        ..node
    };
    let part = placed_message(room, at, inner)?;
    let span = span_from(first, at);
    Ok(SMsg::Inl { part, span })
}

#[cycle(messages)]
fn read_inr<'b>(room: Room<'b>, first: Span, at: &mut Reader<'_>, node: Node) -> Part<'b>
    requires { node.nesting ≤ 1000 }
    ensures { GivesPart msg_of result (state_of at.new)
        (inr_form node.later node.numbered node.nesting (first ∷ []) (state_of at.old)) }
{
    let inner = Node {
        nesting: node.nesting + 1,
        ..node
    };
    let part = placed_message(room, at, inner)?;
    let span = span_from(first, at);
    Ok(SMsg::Inr { part, span })
}

#[cycle(messages)]
fn read_hash<'b>(room: Room<'b>, first: Span, at: &mut Reader<'_>, node: Node) -> Part<'b>
    requires { node.nesting ≤ 1000 }
    ensures { GivesPart msg_of result (state_of at.new)
        (hash_form node.later node.numbered node.nesting (first ∷ []) (state_of at.old)) }
{
    let inner = Node {
        nesting: node.nesting + 1,
        ..node
    };
    take_mark(at, Mark::ParenOpen)?;
    let part = placed_message(room, at, inner)?;
    take_mark(at, Mark::ParenClose)?;
    let span = span_from(first, at);
    Ok(SMsg::Hash { part, span })
}

#[cycle(messages)]
fn message_in_parens<'b>(room: Room<'b>, first: Span, at: &mut Reader<'_>, node: Node) -> Part<'b>
    requires { node.nesting ≤ 1000 }
    ensures { GivesPart msg_of result (state_of at.new)
        (behind_move limited (read limited) (delta_paren node.later node.numbered node.nesting) (first ∷ [])
        (state_of at.old)) }
{
    let second = at.first()?;
    match second.kind {
        Seen::Mark(Mark::ParenClose) => {
            at.advance();
            let span = span_from(first, at);
            Ok(SMsg::Unit { span })
        }
        _ => read_tuple(room, first, at, node),
    }
}

#[cycle(messages)]
fn read_tuple<'b>(room: Room<'b>, opening: Span, at: &mut Reader<'_>, node: Node) -> Part<'b>
    requires { node.nesting ≤ 1000 }
    ensures { GivesPart msg_of result (state_of at.new)
        (tuple_form node.later node.numbered node.nesting (opening ∷ []) (state_of at.old)) }
{
    let inner = Node {
        nesting: node.nesting + 1,
        ..node
    };
    let first = message_of(room, at, inner)?;
    take_mark(at, Mark::Comma)?;
    let second = message_of(room, at, inner)?;
    let more = more_messages(room, at, inner)?;
    end_tuple(room, opening, first, second, more, at)
}

/// The tuple of these parts, which ends before this place.
#[inline(always)]
fn end_tuple<'b>(
    room: Room<'b>,
    opening: Span,
    first: SMsg<'b>,
    second: SMsg<'b>,
    more: &'b [SMsg<'b>],
    at: &mut Reader<'_>,
) -> Part<'b>
    ensures { GivesPart msg_of result (state_of at.new)
        (done (tuple (over (opening ∷ []) (state_of at.old).end) (msg_of first.entry) (msg_of second.entry)
        (msgs_of_list (map msg_of more.now))) (state_of at.old)) }
{
    let span = span_from(opening, at);
    let whole = make_tuple(room, first, second, more, span)?;
    Ok(whole)
}

/// The components of a tuple behind the first two.
#[cycle(messages)]
#[inline(always)]
fn more_messages<'b>(
    room: Room<'b>,
    at: &mut Reader<'_>,
    node: Node,
) -> Result<&'b [SMsg<'b>], Stop>
    requires { node.nesting ≤ 1001 }
    ensures { GivesPart (λ v. (map msg_of v.now, tt)) result (state_of at.new)
        (read limited (msgs node.later node.numbered node.nesting) (state_of at.old)) }
{
    let item = next_message(room, at, node)?;
    match item {
        Some(third) => behind_third(room, third, at, node),
        None => Ok(&[]),
    }
}

/// The third component of a tuple with those behind it.
#[cycle(messages)]
#[inline(always)]
fn behind_third<'b>(
    room: Room<'b>,
    third: SMsg<'b>,
    at: &mut Reader<'_>,
    node: Node,
) -> Result<&'b [SMsg<'b>], Stop>
    requires { node.nesting ≤ 1001 }
    ensures { GivesPart (λ v. (map msg_of v.now, tt)) result (state_of at.new)
        (front (msg_of third.entry ∷ [])
        (read limited (msgs node.later node.numbered node.nesting) (state_of at.old))) }
{
    let first = at.first()?;
    match first.kind {
        Seen::Mark(Mark::ParenClose) => {
            at.advance();
            Ok(single(room, third)?)
        }
        _ => several_messages(room, third, at, node),
    }
}

/// The third component of a tuple with those behind it, of which there are several.
#[cycle(messages)]
#[inline(never)]
fn several_messages<'b>(
    room: Room<'b>,
    third: SMsg<'b>,
    at: &mut Reader<'_>,
    node: Node,
) -> Result<&'b [SMsg<'b>], Stop>
    requires { node.nesting ≤ 1001 }
    ensures { GivesPart (λ v. (map msg_of v.now, tt)) result (state_of at.new)
        (front (msg_of third.entry ∷ [])
        (read limited (msgs node.later node.numbered node.nesting) (state_of at.old))) }
{
    let mut more = Vec::new(room.alloc);
    more.push(third)?;
    'items: loop {
        let item = next_message(room, at, node)?;
        match item {
            Some(part) => more.push(part)?,
            None => return Ok(row(room, more)?),
        }
    }
}

#[cycle(messages)]
#[inline(always)]
fn next_message<'b>(
    room: Room<'b>,
    at: &mut Reader<'_>,
    node: Node,
) -> Result<Option<SMsg<'b>>, Stop>
    requires { node.nesting ≤ 1001 }
    ensures { GivesPart (item_of msg_of tt) result (state_of at.new)
        (read limited (msgs_item node.later node.numbered node.nesting) (state_of at.old)) }
{
    let first = at.first()?;
    match first.kind {
        Seen::Mark(Mark::Comma) => {
            at.advance();
            let part = message_of(room, at, node)?;
            Ok(Some(part))
        }
        Seen::Mark(Mark::ParenClose) => {
            at.advance();
            Ok(None)
        }
        _ => Err(syntax(at)),
    }
}
