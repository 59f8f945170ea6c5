//! Tokens put behind others.

ghost use Rattle.std.specs.Prelude.{◌≡◌, ◌++◌, OnOk};
ghost use Rattle.spi_tree.specs.Listed.{mark_list, reserved_list, number_list, parens_list, numbered_list, word_list, literal_list};

use crate::{NoMemory, SWord};
use spi_lex::{Kind, Mark, Reserved};
use spi_text::Text;
use std::alloc::Global;

/// Puts a mark.
pub fn put_mark(out: &mut Vec<Kind>, mark: Mark) -> Result<(), NoMemory>
    ensures { OnOk result (out.new.items ≡ out.old.items ++ mark_list mark) }
{
    out.push(Kind::Mark(mark))?;
    Ok(())
}

/// Puts a reserved word.
pub fn put_reserved(out: &mut Vec<Kind>, word: Reserved) -> Result<(), NoMemory>
    ensures { OnOk result (out.new.items ≡ out.old.items ++ reserved_list word) }
{
    out.push(Kind::Reserved(word))?;
    Ok(())
}

/// Puts a number.
pub fn put_number(out: &mut Vec<Kind>, number: u32) -> Result<(), NoMemory>
    ensures { OnOk result (out.new.items ≡ out.old.items ++ number_list number) }
{
    out.push(Kind::Number(number))?;
    Ok(())
}

/// Puts two parentheses with nothing between.
pub fn put_parens(out: &mut Vec<Kind>) -> Result<(), NoMemory>
    ensures { OnOk result (out.new.items ≡ out.old.items ++ parens_list) }
{
    put_mark(out, Mark::ParenOpen)?;
    put_mark(out, Mark::ParenClose)
}

/// Puts a name by its number.
pub fn put_numbered(out: &mut Vec<Kind>, number: u32) -> Result<(), NoMemory>
    ensures { OnOk result (out.new.items ≡ out.old.items ++ numbered_list number) }
{
    put_mark(out, Mark::NumberSign)?;
    put_number(out, number)
}

/// Puts a word that the grammar asks for by its spelling.
pub fn put_literal(alloc: Global, out: &mut Vec<Kind>, literal: &str) -> Result<(), NoMemory>
    ensures { OnOk result (out.new.items ≡ out.old.items ++ literal_list literal.now) }
{
    out.push(Kind::Word(Text::of(alloc, literal)?))?;
    Ok(())
}

/// Puts an identifier.
pub fn put_word(alloc: Global, out: &mut Vec<Kind>, word: &SWord) -> Result<(), NoMemory>
    ensures { OnOk result (out.new.items ≡ out.old.items ++ word_list word.now) }
{
    put_literal(alloc, out, word.word.as_str())
}
