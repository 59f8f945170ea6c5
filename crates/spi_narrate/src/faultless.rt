//! Narrations in which nothing is wrong behind their grammar.

ghost use Rattle.std.specs.Prelude.{◌≡◌, ◌↔◌, ◌≤◌, ◌<◌, ◌∷◌, [], length, map, IsTrue};
ghost use Rattle.spi_lex.specs.Numbered.{listed};
ghost use Rattle.spi_lex.specs.Lexing.{kinds_of, is_version_2};
ghost use Rattle.spi_tree.specs.Formed.{AreWordsFit};
ghost use Rattle.spi_heading.specs.Views.{shared_of};
ghost use Rattle.spi_narrate.specs.Faults.{
  IsAmong,
  speaks,
  counts,
  line_limit,
  shared_items,
  role_items,
  line_items,
  items_of,
};
ghost use Rattle.spi_narrate.specs.Reads.{IsTested, ReadsNarration};
ghost use Rattle.spi_narrate.specs.Views.{line_of, narration_of};

use crate::fault::NarrateFault;
use crate::reading::parse_narration;
use crate::tree::{Line, Narration};
use spi_heading::Shared;
use spi_lex::{Token, Tokens};
use spi_parse::ParseFault;
use spi_text::{Span, Text};
use spi_tree::{Room, SWord};
use std::alloc::Global;

/// How many shared names a narration may have.
const SHARED: usize = 16;

/// How many roles it may have.
const ROLES: usize = 8;

/// How many lines it may have.
const LINES: usize = 200;

/// The narration whose tokens these are, with the spans of its nodes and words, or the first fault. Each role that a line
/// names is declared, no role is declared twice, and there are at most 16 shared names, 8 roles and 200 lines.
///
/// `Syntax` and `TooDeep` are as `parse_narration` has them. The others come where the tokens are those of a narration, and
/// the first of them in reading order is told; at one place that is `RoleTwice` or `UnknownRole` before `NarrationTooLarge`.
/// `NoMemory` comes where memory runs out.
pub fn read_narration<'b>(room: Room<'b>, tokens: &[Token]) -> Result<Narration<'b>, NarrateFault>
    requires size { length tokens.now ≤ 16_777_216 }
    requires words { AreWordsFit (is_version_2 (kinds_of tokens.now)) (kinds_of tokens.now) }
    ensures { ReadsNarration narration_of result tokens.now }
{
    narration_in(room, &Tokens::List(tokens))
}

/// As `read_narration`, of the tokens of a list or of a text.
pub fn narration_in<'b>(room: Room<'b>, tokens: &Tokens<'_>) -> Result<Narration<'b>, NarrateFault>
    requires size { length (listed tokens.now) ≤ 16_777_216 }
    requires words { let kinds = kinds_of (listed tokens.now) in AreWordsFit (is_version_2 kinds) kinds }
    ensures { ReadsNarration narration_of result (listed tokens.now) }
{
    match parse_narration(room, tokens) {
        Ok(narration) => {
            test(room.alloc, &narration)?;
            Ok(narration)
        }
        Err(ParseFault::Syntax { token }) => Err(NarrateFault::Syntax { token }),
        Err(ParseFault::TooDeep { token }) => Err(NarrateFault::TooDeep { token }),
        Err(ParseFault::NoMemory) => Err(NarrateFault::NoMemory),
    }
}

/// Tests a narration that is read.
fn test(alloc: Global, n: &Narration) -> Result<(), NarrateFault>
    ensures { IsTested result (items_of (narration_of n.now)) }
{
    test_shared(&n.shared)?;
    test_roles(alloc, &n.first, &n.more)?;
    test_lines(alloc, &n.first, &n.more, &n.lines)
}

/// Tests the shared names.
fn test_shared(shared: &[Shared]) -> Result<(), NarrateFault>
    ensures { IsTested result (shared_items 0 (length shared.now) (map shared_of shared.now)) }
{
    match shared.get(SHARED) {
        None => Ok(()),
        Some(item) => Err(NarrateFault::NarrationTooLarge {
            span: item.span,
            count: shared.len() as u64,
        }),
    }
}

/// Whether one of the words is spelled as this one.
fn is_among(words: &[SWord], word: &SWord) -> bool
    ensures { IsTrue result ↔ IsAmong words.now word.now }
{
    for each in words {
        if each.word == word.word {
            return true;
        }
    }
    false
}

/// Tests the roles, which are this one and more. Only the first nine are looked at, since the ninth is one too many.
fn test_roles(alloc: Global, first: &SWord, more: &[SWord]) -> Result<(), NarrateFault>
    ensures { let roles = first.now ∷ more.now in
        IsTested result (role_items 0 (length roles) [] roles) }
{
    for (i, role) in more.iter().enumerate() {
        test_role(alloc, first, &more[..i], role, more.len() as u64 + 1)?;
    }
    Ok(())
}

/// Tests a role behind this one and more, where there are so many in all.
fn test_role(
    alloc: Global,
    first: &SWord,
    before: &[SWord],
    role: &SWord,
    all: u64,
) -> Result<(), NarrateFault>
    ensures { let those = first.now ∷ before.now in
        IsTested result (role_items (length those) all those (role.now ∷ [])) }
{
    if role.word == first.word || is_among(before, role) {
        return Err(NarrateFault::RoleTwice {
            span: role.span,
            word: Text::of(alloc, role.word.as_str())?,
        });
    }
    if before.len() + 1 < ROLES {
        Ok(())
    } else {
        Err(NarrateFault::NarrationTooLarge {
            span: role.span,
            count: all,
        })
    }
}

/// Tests the lines, where the roles are these. The first 201 are looked at.
fn test_lines(
    alloc: Global,
    first: &SWord,
    more: &[SWord],
    lines: &[Line],
) -> Result<(), NarrateFault>
    ensures { let roles = first.now ∷ more.now in
        IsTested result (line_items 0 (length lines.now) roles (map line_of lines.now)) }
{
    for (i, line) in lines.iter().enumerate() {
        test_line(alloc, first, more, line, i, lines.len())?;
    }
    Ok(())
}

/// Tests the line with this number from 0, where there are so many in all.
fn test_line(
    alloc: Global,
    first: &SWord,
    more: &[SWord],
    line: &Line,
    i: usize,
    all: usize,
) -> Result<(), NarrateFault>
    ensures { IsTested result (line_items i all (first.now ∷ more.now) (line_of line.now ∷ [])) }
{
    match line {
        Line::Local { role, span, .. } => {
            test_speaker(alloc, first, more, role)?;
            test_number(*span, i, all)
        }
        Line::Pass { from, to, span, .. } => {
            test_speaker(alloc, first, more, from)?;
            test_number(*span, i, all)?;
            test_speaker(alloc, first, more, to)
        }
    }
}

/// Tests a word that a line names, where the roles are these.
fn test_speaker(
    alloc: Global,
    first: &SWord,
    more: &[SWord],
    word: &SWord,
) -> Result<(), NarrateFault>
    ensures { IsTested result (speaks (first.now ∷ more.now) word.now ∷ []) }
{
    if first.word == word.word || is_among(more, word) {
        return Ok(());
    }
    Err(NarrateFault::UnknownRole {
        span: word.span,
        word: Text::of(alloc, word.word.as_str())?,
    })
}

/// Tests the number of a line, where there are so many in all.
fn test_number(span: Span, i: usize, all: usize) -> Result<(), NarrateFault>
    ensures { IsTested result (counts i line_limit all span ∷ []) }
{
    if i < LINES {
        Ok(())
    } else {
        Err(NarrateFault::NarrationTooLarge {
            span,
            count: all as u64,
        })
    }
}
