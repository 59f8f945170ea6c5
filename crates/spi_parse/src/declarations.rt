//! Declarations.

ghost use Rattle.std.specs.Prelude.{◌≡◌, [], ◌∷◌, map};
ghost use Rattle.spi_lex.specs.declared.token.Mark.TheVariants.{Equals, Semicolon};
ghost use Rattle.spi_tree.specs.Trees.{free};
ghost use Rattle.spi_tree.specs.Views.{ty_of, decl_of};
ghost use Rattle.spi_parse.specs.Places.{state_of, GivesPart};
ghost use Rattle.spi_parse.specs.Table.{the_mark, ty, words, words_item, free_rest, abbr_rest, decl, decls, decls_item, over};
ghost use Rattle.spi_parse.specs.Reading.{Gives, read, read_all, limited, item_of};

use crate::cursor::{Reader, span_from, syntax};
use crate::fault::Stop;
use crate::reading::{take_mark, take_word};
use crate::seen::Seen;
use crate::types::read_type;
use spi_lex::{Mark, Reserved};
use spi_text::Span;
use spi_tree::{Decl, Room, STy, SWord};
use std::alloc::Global;

fn next_word(alloc: Global, at: &mut Reader<'_>) -> Result<Option<SWord>, Stop>
    ensures { GivesPart (item_of (λ w. w) tt) result (state_of at.new)
        (read limited words_item (state_of at.old)) }
{
    let first = at.first()?;
    match first.kind {
        Seen::Mark(Mark::Comma) => {
            at.advance();
            let part = take_word(alloc, at)?;
            Ok(Some(part))
        }
        Seen::Mark(Mark::Semicolon) => {
            at.advance();
            Ok(None)
        }
        _ => Err(syntax(at)),
    }
}

fn more_words(alloc: Global, at: &mut Reader<'_>) -> Result<Vec<SWord>, Stop>
    ensures { GivesPart (λ v. (v.items, tt)) result (state_of at.new) (read limited words (state_of at.old)) }
{
    let mut more = Vec::new(alloc);
    'items: loop {
        let item = next_word(alloc, at)?;
        match item {
            Some(part) => more.push(part)?,
            None => return Ok(more),
        }
    }
}

/// The words of a declaration of free names.
fn free_words(alloc: Global, at: &mut Reader<'_>) -> Result<(SWord, Vec<SWord>), Stop>
    ensures { GivesPart (λ x. (x.0, x.1.items, (state_of at.new).end)) result (state_of at.new)
        (read limited free_rest (state_of at.old)) }
{
    at.first()?;
    let first = take_word(alloc, at)?;
    let more = more_words(alloc, at)?;
    Ok((first, more))
}

/// The name and the type of an abbreviation.
fn abbreviation<'b>(
    room: Room<'b>,
    at: &mut Reader<'_>,
    later: bool,
) -> Result<(SWord, STy<'b>), Stop>
    ensures { GivesPart (λ x. (x.0, ty_of x.1, (state_of at.new).end)) result (state_of at.new)
        (read limited (abbr_rest later) (state_of at.old)) }
{
    at.first()?;
    let name = take_word(room.alloc, at)?;
    let ty = abbreviated(room, at, later)?;
    Ok((name, ty))
}

/// The type behind the name of an abbreviation, with the marks round it.
fn abbreviated<'b>(room: Room<'b>, at: &mut Reader<'_>, later: bool) -> Result<STy<'b>, Stop>
    ensures { GivesPart (λ a. (tt, (ty_of a, (tt, tt)))) result (state_of at.new)
        (read_all (read limited) (the_mark Equals ∷ ty later 1 ∷ the_mark Semicolon ∷ [])
        (state_of at.old)) }
{
    take_mark(at, Mark::Equals)?;
    let ty = read_type(room, at, later, 1)?;
    take_mark(at, Mark::Semicolon)?;
    Ok(ty)
}

/// The declaration of these free names, which ends before this place.
fn declared_free<'b>(first: Span, name: SWord, more: Vec<SWord>, at: &Reader<'_>) -> Decl<'b>
    ensures { decl_of result ≡ free (over (first ∷ []) (state_of at.now).end) name more.items }
{
    let span = span_from(first, at);
    Decl::Free {
        first: name,
        more,
        span,
    }
}

/// A declaration.
pub fn declaration<'b>(room: Room<'b>, at: &mut Reader<'_>, later: bool) -> Result<Decl<'b>, Stop>
    ensures { GivesPart decl_of result (state_of at.new) (read limited (decl later) (state_of at.old)) }
{
    let first = at.first()?;
    match first.kind {
        Seen::Reserved(Reserved::Free) => {
            at.advance();
            let (name, more) = free_words(room.alloc, at)?;
            let free = declared_free(first.span, name, more, at);
            Ok(free)
        }
        Seen::Reserved(Reserved::TypeWord) => {
            at.advance();
            let (name, ty) = abbreviation(room, at, later)?;
            let span = span_from(first.span, at);
            Ok(Decl::Abbr { name, ty, span })
        }
        _ => Err(syntax(at)),
    }
}

fn next_declaration<'b>(
    room: Room<'b>,
    at: &mut Reader<'_>,
    later: bool,
) -> Result<Option<Decl<'b>>, Stop>
    ensures { GivesPart (item_of decl_of tt) result (state_of at.new)
        (read limited (decls_item later) (state_of at.old)) }
{
    let first = at.first()?;
    match first.kind {
        Seen::Reserved(Reserved::Free) => {
            at.advance();
            let (name, more) = free_words(room.alloc, at)?;
            let free = declared_free(first.span, name, more, at);
            Ok(Some(free))
        }
        Seen::Reserved(Reserved::TypeWord) => {
            at.advance();
            let (name, ty) = abbreviation(room, at, later)?;
            let span = span_from(first.span, at);
            Ok(Some(Decl::Abbr { name, ty, span }))
        }
        Seen::Reserved(Reserved::Process) => {
            at.advance();
            Ok(None)
        }
        _ => Err(syntax(at)),
    }
}

/// The declarations, with the word `process`.
pub fn all_declarations<'b>(
    room: Room<'b>,
    at: &mut Reader<'_>,
    later: bool,
) -> Result<Vec<Decl<'b>>, Stop>
    ensures { GivesPart (λ v. (map decl_of v.items, tt)) result (state_of at.new)
        (read limited (decls later) (state_of at.old)) }
{
    let mut more = Vec::new(room.alloc);
    'items: loop {
        let item = next_declaration(room, at, later)?;
        match item {
            Some(part) => more.push(part)?,
            None => return Ok(more),
        }
    }
}
