// Tokens, texts and places by example.

use super::samples::{NoMemory, TextQuestion, each, shows};
use spi_lex::{LexFault, Mark, Reserved, lex, word_of, words_of};
use spi_text::{Lines, Place, Text};
use std::alloc::Global;

/// How many tokens a text has, or 100 and the offset of a character that begins none.
#[derive(Clone, Copy)]
struct TokenCount;

impl TextQuestion for TokenCount {
    fn answer_to_text(self, alloc: Global, text: &str) -> Result<Option<u64>, NoMemory> {
        if text.len() > 100 {
            return Ok(None);
        }
        match lex(alloc, text.as_bytes()) {
            Ok(tokens) => Ok(Some(tokens.len() as u64)),
            Err(LexFault::BadChar { at }) => Ok(Some(at as u64 + 100)),
            Err(_) => Ok(None),
        }
    }
}

#[test]
fn tokens_by_longest_match(rt: HostRuntime) {
    let counts = [
        ("", 0),
        ("process out a a//x\r\n;", 5),
        ("typeUn type Un()[]{},;", 11),
        (":=|+#// 12a", 5),
        ("process stop $", 113),
    ];
    each(&rt, TokenCount, &counts);
}

#[test]
fn words_and_marks_are_spelled(rt: HostRuntime) {
    let early = word_of(words_of(false), "many").is_none();
    let late = matches!(word_of(words_of(true), "many"), Some(Reserved::Many));
    shows(&rt, "many is reserved by version 2", Ok(early && late));
    let spelled = Reserved::EndMany.spelled() == "endmany" && Mark::Bar.spelled() == "|";
    shows(&rt, "a word and a mark", Ok(spelled));
}

/// Whether the offset of a text with a letter of two bytes is at this line and column.
fn is_placed(alloc: Global, offset: u32, wanted: Place) -> Result<bool, NoMemory> {
    let text = "a\ncaf\u{e9} x\n\nz";
    let bytes = text.as_bytes();
    if bytes.len() > 100 || offset as usize > bytes.len() {
        return Ok(false);
    }
    let place = Lines::of(alloc, bytes)?.place(offset);
    Ok(place == wanted)
}

#[test]
fn places_by_line_and_character(rt: HostRuntime) {
    for (offset, line, column) in [(0, 1, 1), (2, 2, 1), (8, 2, 6), (12, 4, 2)] {
        let holds = is_placed(rt.alloc(), offset, Place { line, column });
        shows(&rt, "an offset", holds);
    }
}

fn are_ordered(alloc: Global) -> Result<bool, NoMemory> {
    let short = Text::of(alloc, "caf")?;
    let long = Text::of(alloc, "caf\u{e9}")?;
    Ok(long.as_str() == "caf\u{e9}" && short != long && short < long)
}

#[test]
fn texts_by_their_bytes(rt: HostRuntime) {
    shows(&rt, "a text and a longer one", are_ordered(rt.alloc()));
}
