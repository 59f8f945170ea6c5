//! Single tokens.

ghost use Rattle.std.specs.Prelude.{◌≡◌};
ghost use Rattle.spi_parse.specs.Places.{state_of, GivesPart, GivesPlace};
ghost use Rattle.spi_parse.specs.Seen.{kind_of};
ghost use Rattle.spi_parse.specs.Table.{the_mark, the_reserved, the_word, the_number, the_two, is_mark, is_reserved};
ghost use Rattle.spi_parse.specs.Reading.{read, limited};

use crate::cursor::{Reader, accept, placed_word, syntax};
use crate::fault::Stop;
use crate::seen::Seen;
use spi_lex::{Mark, Reserved};
use spi_tree::SWord;
use std::alloc::Global;

fn is_the_mark(mark: Mark, kind: &Seen<'_>) -> bool
    ensures { result ≡ is_mark mark (kind_of kind.now) }
{
    match kind {
        Seen::Mark(found) => *found as u8 == mark as u8,
        _ => false,
    }
}

fn is_the_word(word: Reserved, kind: &Seen<'_>) -> bool
    ensures { result ≡ is_reserved word (kind_of kind.now) }
{
    match kind {
        Seen::Reserved(found) => *found as u8 == word as u8,
        _ => false,
    }
}

/// Takes the mark.
#[inline(always)]
pub fn take_mark(at: &mut Reader<'_>, mark: Mark) -> Result<(), Stop>
    ensures { GivesPlace result (state_of at.new) (read limited (the_mark mark) (state_of at.old)) }
{
    let first = at.first()?;
    accept(is_the_mark(mark, &first.kind), at)?;
    at.advance();
    Ok(())
}

/// Takes the reserved word.
pub fn take_reserved(at: &mut Reader<'_>, word: Reserved) -> Result<(), Stop>
    ensures { GivesPlace result (state_of at.new) (read limited (the_reserved word) (state_of at.old)) }
{
    let first = at.first()?;
    accept(is_the_word(word, &first.kind), at)?;
    at.advance();
    Ok(())
}

/// Takes a word.
#[inline(always)]
pub fn take_word(alloc: Global, at: &mut Reader<'_>) -> Result<SWord, Stop>
    ensures { GivesPart (λ part. part) result (state_of at.new) (read limited the_word (state_of at.old)) }
{
    let first = at.first()?;
    match first.kind {
        Seen::Word(word) => {
            let word = placed_word(alloc, word, first.span)?;
            at.advance();
            Ok(word)
        }
        _ => Err(syntax(at)),
    }
}

/// Takes a number.
pub fn take_number(at: &mut Reader<'_>) -> Result<u32, Stop>
    ensures { GivesPart (λ part. part) result (state_of at.new) (read limited the_number (state_of at.old)) }
{
    let first = at.first()?;
    match first.kind {
        Seen::Number(number) => {
            at.advance();
            Ok(number)
        }
        _ => Err(syntax(at)),
    }
}

/// Takes the number 2.
pub fn take_two(at: &mut Reader<'_>) -> Result<(), Stop>
    ensures { GivesPlace result (state_of at.new) (read limited the_two (state_of at.old)) }
{
    let first = at.first()?;
    match first.kind {
        Seen::Number(number) => {
            accept(number == 2, at)?;
            at.advance();
            Ok(())
        }
        _ => Err(syntax(at)),
    }
}
