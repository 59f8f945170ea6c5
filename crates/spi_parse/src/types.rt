//! Types.

ghost use Rattle.std.specs.Prelude.{◌≡◌, ◌+◌, ◌≤◌, [], ◌∷◌, map, if◌then◌else◌, IfOk};
ghost use Rattle.spi_tree.specs.Trees.{Ty, tuple_ty, fields_of_list, abbr, bare, named};
ghost use Rattle.spi_tree.specs.Views.{ty_of, field_of, last_of};
ghost use Rattle.spi_parse.specs.Places.{state_of, field_item, sum_form, key_form, nonce_form, tuple_ty_form, sum_word_form, GivesPart, GivesPlaced};
ghost use Rattle.spi_parse.specs.Ends.{done, sum_end};
ghost use Rattle.spi_parse.specs.Table.{one, last, ty, fields, fields_item, fields_rest, delta_ty_paren, delta_ty_word, delta_item_word, word_at, over};
ghost use Rattle.spi_parse.specs.Reading.{Gives, read, limited, behind_move};

use crate::NoMemory;
use crate::boxes::{TreePart, put};
use crate::cursor::{MESSAGE_LIMIT, Reader, fits, placed_word, span_from, syntax};
use crate::effects::effect;
use crate::fault::Stop;
use crate::messages::Node;
use crate::reading::take_mark;
use crate::seen::Seen;
use spi_lex::{Mark, Reserved};
use spi_text::Span;
use spi_tree::{
    Last, Room, SEffect, SField, STy, SWord, SumParts, TyParts, abbreviated, placed, row,
};

/// A type, with the place behind it.
type Part<'b> = Result<STy<'b>, Stop>;

impl<'b> TreePart for STy<'b> {
    ghost Tree = { Ty };

    ghost view = { ty_of };
}

/// What stands behind a comma of a tuple type, with the place behind it.
type Item<'b> = Result<FieldOrLast<'b>, Stop>;

/// What stands behind a comma of a tuple type.
#[derive(Drop)]
pub enum FieldOrLast<'b> {
    Field(SField<'b>),
    Last(Last<'b>),
}

fn make_tuple_type<'b>(
    room: Room<'b>,
    name: SWord,
    first: STy<'b>,
    more: &'b [SField<'b>],
    last: Last<'b>,
    span: Span,
) -> Result<STy<'b>, NoMemory>
    ensures { IfOk result
        (λ t. ty_of t
        ≡ tuple_ty span name (ty_of first.entry) (fields_of_list (map field_of more.now))
        (last_of last.entry)) }
{
    let parts = TyParts {
        name,
        first,
        more,
        last,
    };
    Ok(STy::Tuple {
        parts: placed(room, parts)?,
        span,
    })
}

/// A type of a nesting. Most are `Un`: only the others are read by a call for any form.
#[cycle(types)]
#[inline(always)]
pub fn read_type<'b>(room: Room<'b>, at: &mut Reader<'_>, later: bool, nesting: u32) -> Part<'b>
    requires { nesting ≤ 1001 }
    ensures { GivesPart ty_of result (state_of at.new) (read limited (ty later nesting) (state_of at.old)) }
{
    let first = at.first()?;
    match first.kind {
        Seen::Reserved(Reserved::Un) => {
            fits(nesting, MESSAGE_LIMIT, at)?;
            at.advance();
            Ok(STy::Un { span: first.span })
        }
        _ => any_type(room, at, later, nesting),
    }
}

/// A type of a nesting, of any form.
#[cycle(types)]
#[inline(never)]
fn any_type<'b>(room: Room<'b>, at: &mut Reader<'_>, later: bool, nesting: u32) -> Part<'b>
    requires { nesting ≤ 1001 }
    ensures { GivesPart ty_of result (state_of at.new) (read limited (ty later nesting) (state_of at.old)) }
{
    let first = at.first()?;
    match first.kind {
        Seen::Word(word) => {
            fits(nesting, MESSAGE_LIMIT, at)?;
            at.advance();
            read_abbreviation(room, word, first.span, at)
        }
        Seen::Reserved(Reserved::Un) => {
            fits(nesting, MESSAGE_LIMIT, at)?;
            at.advance();
            Ok(STy::Un { span: first.span })
        }
        Seen::Reserved(Reserved::Key) => {
            fits(nesting, MESSAGE_LIMIT, at)?;
            at.advance();
            read_key(room, first.span, at, later, nesting)
        }
        Seen::Reserved(Reserved::Nonce) => {
            fits(nesting, MESSAGE_LIMIT, at)?;
            at.advance();
            read_nonce(room, first.span, at, later, nesting)
        }
        Seen::Mark(Mark::ParenOpen) => {
            fits(nesting, MESSAGE_LIMIT, at)?;
            at.advance();
            type_in_parens(room, first.span, at, later, nesting)
        }
        _ => Err(syntax(at)),
    }
}

/// The type in a place of its own.
#[cycle(types)]
fn placed_type<'b>(
    room: Room<'b>,
    at: &mut Reader<'_>,
    later: bool,
    nesting: u32,
) -> Result<&'b STy<'b>, Stop>
    requires { nesting ≤ 1001 }
    ensures { GivesPlaced ty_of result (state_of at.new) (read limited (ty later nesting) (state_of at.old)) }
{
    let tree = read_type(room, at, later, nesting)?;
    put(room, tree, at)
}

fn read_abbreviation<'b>(room: Room<'b>, word: &str, span: Span, at: &mut Reader<'_>) -> Part<'b>
    ensures { GivesPart ty_of result (state_of at.new)
        (done (abbr span (word_at word.now span)) (state_of at.old)) }
{
    let name = placed_word(room.alloc, word, span)?;
    let ty = abbreviated(room, name)?;
    Ok(ty)
}

fn read_nonce<'b>(
    room: Room<'b>,
    first: Span,
    at: &mut Reader<'_>,
    later: bool,
    nesting: u32,
) -> Part<'b>
    requires { nesting ≤ 1000 }
    ensures { GivesPart ty_of result (state_of at.new)
        (nonce_form later nesting (first ∷ []) (state_of at.old)) }
{
    let atoms = Node {
        later,
        numbered: false,
        nesting: nesting + 1,
    };
    let effect = effect(room, at, atoms)?;
    let atoms = row(room, effect)?;
    let span = span_from(first, at);
    let effect = placed(room, SEffect { atoms })?;
    Ok(STy::Nonce { effect, span })
}

#[cycle(types)]
fn read_key<'b>(
    room: Room<'b>,
    first: Span,
    at: &mut Reader<'_>,
    later: bool,
    nesting: u32,
) -> Part<'b>
    requires { nesting ≤ 1000 }
    ensures { GivesPart ty_of result (state_of at.new)
        (key_form later nesting (first ∷ []) (state_of at.old)) }
{
    take_mark(at, Mark::ParenOpen)?;
    let part = placed_type(room, at, later, nesting + 1)?;
    take_mark(at, Mark::ParenClose)?;
    let span = span_from(first, at);
    Ok(STy::Key { part, span })
}

#[cycle(types)]
fn type_in_parens<'b>(
    room: Room<'b>,
    first: Span,
    at: &mut Reader<'_>,
    later: bool,
    nesting: u32,
) -> Part<'b>
    requires { nesting ≤ 1000 }
    ensures { GivesPart ty_of result (state_of at.new)
        (behind_move limited (read limited) (delta_ty_paren later nesting) (first ∷ []) (state_of at.old)) }
{
    let second = at.first()?;
    match second.kind {
        Seen::Mark(Mark::ParenClose) => {
            at.advance();
            let span = span_from(first, at);
            Ok(STy::Unit { span })
        }
        Seen::Word(word) => {
            fits(nesting + 1, MESSAGE_LIMIT, at)?;
            at.advance();
            type_behind_word(room, first, word, second.span, at, later, nesting)
        }
        _ => read_sum(room, first, at, later, nesting),
    }
}

#[cycle(types)]
fn read_sum<'b>(
    room: Room<'b>,
    first: Span,
    at: &mut Reader<'_>,
    later: bool,
    nesting: u32,
) -> Part<'b>
    requires { nesting ≤ 1000 }
    ensures { GivesPart ty_of result (state_of at.new)
        (sum_form later nesting (first ∷ []) (state_of at.old)) }
{
    let left = read_type(room, at, later, nesting + 1)?;
    take_mark(at, Mark::Plus)?;
    let right = read_type(room, at, later, nesting + 1)?;
    end_sum(room, first, left, right, at)
}

/// The sum of two types, where its parenthesis closes.
fn end_sum<'b>(
    room: Room<'b>,
    first: Span,
    left: STy<'b>,
    right: STy<'b>,
    at: &mut Reader<'_>,
) -> Part<'b>
    ensures { GivesPart ty_of result (state_of at.new)
        (sum_end (first ∷ []) (ty_of left.entry) (ty_of right.entry) (state_of at.old)) }
{
    take_mark(at, Mark::ParenClose)?;
    let span = span_from(first, at);
    let parts = placed(room, SumParts { left, right })?;
    Ok(STy::Sum { parts, span })
}

#[cycle(types)]
fn type_behind_word<'b>(
    room: Room<'b>,
    first: Span,
    word: &str,
    place: Span,
    at: &mut Reader<'_>,
    later: bool,
    nesting: u32,
) -> Part<'b>
    requires { nesting ≤ 999 }
    ensures { GivesPart ty_of result (state_of at.new)
        (behind_move limited (read limited) (delta_ty_word later nesting word.now) (first ∷ place ∷ [])
        (state_of at.old)) }
{
    let second = at.first()?;
    match second.kind {
        Seen::Mark(Mark::Colon) => {
            at.advance();
            read_tuple_type(room, first, word, place, at, later, nesting)
        }
        Seen::Mark(Mark::Plus) => {
            at.advance();
            read_sum_of_word(room, first, word, place, at, later, nesting)
        }
        _ => Err(syntax(at)),
    }
}

#[cycle(types)]
fn read_tuple_type<'b>(
    room: Room<'b>,
    first: Span,
    word: &str,
    place: Span,
    at: &mut Reader<'_>,
    later: bool,
    nesting: u32,
) -> Part<'b>
    requires { nesting ≤ 999 }
    ensures { GivesPart ty_of result (state_of at.new)
        (tuple_ty_form later nesting word.now (first ∷ place ∷ []) (state_of at.old)) }
{
    let part = read_type(room, at, later, nesting + 1)?;
    take_mark(at, Mark::Comma)?;
    let (more, last) = read_fields(room, at, later, nesting + 1)?;
    end_tuple_type(room, first, word, place, part, more, last, at)
}

/// The tuple type of these parts, which ends before this place.
fn end_tuple_type<'b>(
    room: Room<'b>,
    first: Span,
    word: &str,
    place: Span,
    part: STy<'b>,
    more: &'b [SField<'b>],
    last: Last<'b>,
    at: &mut Reader<'_>,
) -> Part<'b>
    ensures { GivesPart ty_of result (state_of at.new)
        (done (tuple_ty (over (first ∷ []) (state_of at.old).end) (word_at word.now place) (ty_of part.entry)
        (fields_of_list (map field_of more.now)) (last_of last.entry)) (state_of at.old)) }
{
    let name = placed_word(room.alloc, word, place)?;
    let span = span_from(first, at);
    let whole = make_tuple_type(room, name, part, more, last, span)?;
    Ok(whole)
}

#[cycle(types)]
fn read_sum_of_word<'b>(
    room: Room<'b>,
    first: Span,
    word: &str,
    place: Span,
    at: &mut Reader<'_>,
    later: bool,
    nesting: u32,
) -> Part<'b>
    requires { nesting ≤ 999 }
    ensures { GivesPart ty_of result (state_of at.new)
        (sum_word_form later nesting word.now (first ∷ place ∷ []) (state_of at.old)) }
{
    let right = read_type(room, at, later, nesting + 1)?;
    end_sum_of_word(room, first, word, place, right, at)
}

/// The sum of a word and a type, where its parenthesis closes.
fn end_sum_of_word<'b>(
    room: Room<'b>,
    first: Span,
    word: &str,
    place: Span,
    right: STy<'b>,
    at: &mut Reader<'_>,
) -> Part<'b>
    ensures { GivesPart ty_of result (state_of at.new)
        (sum_end (first ∷ []) (abbr place (word_at word.now place)) (ty_of right.entry) (state_of at.old)) }
{
    take_mark(at, Mark::ParenClose)?;
    let name = placed_word(room.alloc, word, place)?;
    let left = abbreviated(room, name)?;
    let span = span_from(first, at);
    let parts = placed(room, SumParts { left, right })?;
    Ok(STy::Sum { parts, span })
}

#[cycle(types)]
fn read_fields<'b>(
    room: Room<'b>,
    at: &mut Reader<'_>,
    later: bool,
    nesting: u32,
) -> Result<(&'b [SField<'b>], Last<'b>), Stop>
    requires { nesting ≤ 1001 }
    ensures { GivesPart (λ x. (map field_of x.0.now, last_of x.1)) result (state_of at.new)
        (read limited (fields later nesting) (state_of at.old)) }
{
    let mut more = Vec::new(room.alloc);
    'items: loop {
        let item = next_field(room, at, later, nesting)?;
        match item {
            FieldOrLast::Field(part) => more.push(part)?,
            FieldOrLast::Last(last) => return Ok((row(room, more)?, last)),
        }
    }
}

/// A last part without a name, with the place behind it.
fn bare_last<'b>(ty: STy<'b>, at: &mut Reader<'_>) -> Item<'b>
    ensures { GivesPart field_item result (state_of at.new)
        (done (last (bare (ty_of ty.entry))) (state_of at.old)) }
{
    Ok(FieldOrLast::Last(Last::Bare(ty)))
}

/// A last part that is the name of a declared type, with the place behind it.
fn abbreviated_last<'b>(room: Room<'b>, name: SWord, at: &mut Reader<'_>) -> Item<'b>
    ensures { GivesPart field_item result (state_of at.new)
        (done (last (bare (abbr name.span name))) (state_of at.old)) }
{
    let last = Last::Bare(abbreviated(room, name)?);
    Ok(FieldOrLast::Last(last))
}

/// A part with a name, the last one where the tuple ends behind it, with the place behind it.
fn named_part<'b>(
    room: Room<'b>,
    name: SWord,
    ty: STy<'b>,
    ends: bool,
    at: &mut Reader<'_>,
) -> Item<'b>
    ensures { GivesPart field_item result (state_of at.new)
        (done (if ends then last (named name (ty_of ty.entry)) else one
        (record { name = name; ty = ty_of ty.entry })) (state_of at.old)) }
{
    let part = if ends {
        FieldOrLast::Last(Last::Named(placed(room, name)?, ty))
    } else {
        FieldOrLast::Field(SField { name, ty })
    };
    Ok(part)
}

#[cycle(types)]
fn next_field<'b>(room: Room<'b>, at: &mut Reader<'_>, later: bool, nesting: u32) -> Item<'b>
    requires { nesting ≤ 1001 }
    ensures { GivesPart field_item result (state_of at.new)
        (read limited (fields_item later nesting) (state_of at.old)) }
{
    let first = at.first()?;
    match first.kind {
        Seen::Word(word) => {
            fits(nesting, MESSAGE_LIMIT, at)?;
            let name = placed_word(room.alloc, word, first.span)?;
            at.advance();
            field_behind_word(room, name, at, later, nesting)
        }
        _ => {
            let last = read_type(room, at, later, nesting)?;
            take_mark(at, Mark::ParenClose)?;
            bare_last(last, at)
        }
    }
}

#[cycle(types)]
fn field_behind_word<'b>(
    room: Room<'b>,
    name: SWord,
    at: &mut Reader<'_>,
    later: bool,
    nesting: u32,
) -> Item<'b>
    requires { nesting ≤ 1000 }
    ensures { GivesPart field_item result (state_of at.new)
        (behind_move limited (read limited) (delta_item_word later nesting name.word) (name.span ∷ [])
        (state_of at.old)) }
{
    let first = at.first()?;
    match first.kind {
        Seen::Mark(Mark::Colon) => {
            at.advance();
            let ty = read_type(room, at, later, nesting)?;
            let ends = field_rest(at)?;
            named_part(room, name, ty, ends, at)
        }
        Seen::Mark(Mark::ParenClose) => {
            at.advance();
            abbreviated_last(room, name, at)
        }
        _ => Err(syntax(at)),
    }
}

fn field_rest(at: &mut Reader<'_>) -> Result<bool, Stop>
    ensures { GivesPart (λ part. part) result (state_of at.new) (read limited fields_rest (state_of at.old)) }
{
    let first = at.first()?;
    match first.kind {
        Seen::Mark(Mark::Comma) => {
            at.advance();
            Ok(false)
        }
        Seen::Mark(Mark::ParenClose) => {
            at.advance();
            Ok(true)
        }
        _ => Err(syntax(at)),
    }
}
