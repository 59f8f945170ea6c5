//! The kinds of token that are tried.

ghost use Rattle.std.specs.Prelude.{◌≡◌, ◌++◌, map, IfOk, OnOk};
ghost use Rattle.spi_lex.specs.declared.token.Kind.TheVariants as kinds;
ghost use Rattle.spi_expected.specs.Expected.{candidates as all};

use crate::NoMemory;
use spi_lex::{Kind, Mark, Reserved, words_of};
use spi_text::Text;
use std::alloc::Global;

const MARKS: [Mark; 13] = [
    Mark::ParenOpen,
    Mark::ParenClose,
    Mark::BracketOpen,
    Mark::BracketClose,
    Mark::BraceOpen,
    Mark::BraceClose,
    Mark::Comma,
    Mark::Semicolon,
    Mark::Colon,
    Mark::Equals,
    Mark::Bar,
    Mark::Plus,
    Mark::NumberSign,
];

/// Words that aren't reserved: a name, those that a file asks for by their spelling, and one rule's name.
const WORDS: [&str; 5] = ["x", "version", "act", "talk", "ProcStop"];

/// Appends the reserved words.
fn put_reserved(kinds: &mut Vec<Kind>, words: &[Reserved]) -> Result<(), NoMemory>
    ensures { OnOk result (kinds.new.items ≡ kinds.old.items ++ map Kind.Reserved words.now) }
{
    for word in words {
        kinds.push(Kind::Reserved(*word))?;
    }
    Ok(())
}

/// Appends the marks.
fn put_marks(kinds: &mut Vec<Kind>, marks: &[Mark]) -> Result<(), NoMemory>
    ensures { OnOk result (kinds.new.items ≡ kinds.old.items ++ map Kind.Mark marks.now) }
{
    for mark in marks {
        kinds.push(Kind::Mark(*mark))?;
    }
    Ok(())
}

/// Appends words that aren't reserved.
fn put_words(alloc: Global, kinds: &mut Vec<Kind>, words: &[&str]) -> Result<(), NoMemory>
    ensures { OnOk result (kinds.new.items ≡ kinds.old.items ++ map (λ w. Kind.Word w.now) words.now) }
{
    for word in words {
        kinds.push(Kind::Word(Text::of(alloc, word)?))?;
    }
    Ok(())
}

/// The kinds of token that are tried.
pub fn candidates(alloc: Global) -> Result<Vec<Kind>, NoMemory>
    ensures { IfOk result (λ v. v.items ≡ all) }
{
    let mut kinds = Vec::new(alloc);
    put_reserved(&mut kinds, words_of(true))?;
    put_marks(&mut kinds, &MARKS)?;
    kinds.push(Kind::Number(0))?;
    kinds.push(Kind::Number(2))?;
    put_words(alloc, &mut kinds, &WORDS)?;
    Ok(kinds)
}
