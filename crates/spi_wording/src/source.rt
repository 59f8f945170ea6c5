// The lines of the source, with carets under a stretch of them.
ghost use Rattle.std.specs.Prelude.{◌≡◌};

use crate::page::Page;
use spi_lex::Tokens;
use spi_text::{Lines, Place, Span};
use std::marker::Model;
use std::str;
use unicode_width::UnicodeWidthChar;

/// How many bytes of a line are shown in front of a stretch, and from its beginning on, at most.
const NEAR: usize = 120;

/// How many columns a tab takes.
const TAB: usize = 4;

/// The bytes of a file, their text where they are UTF-8, their lines, and their tokens where it has any. A contract sees the
/// bytes.
#[derive(Drop)]
pub struct Source<'a> {
    bytes: &'a [u8],
    text: &'a str,
    lines: &'a Lines<'a>,
    tokens: &'a Tokens<'a>,
}

impl<'a> Model for Source<'a> {
    ghost use Rattle.std.specs.Prelude.{◌≡◌, ℕ, List};

    ghost Value = { List ℕ };

    ghost view = { λ s. s.bytes.now };

    ghost invariant = { λ s. s.lines.now ≡ s.bytes.now };
}

impl<'a> Source<'a> {
    /// The source of these bytes, which have these lines and tokens.
    pub fn new(bytes: &'a [u8], lines: &'a Lines<'a>, tokens: &'a Tokens<'a>) -> Source<'a>
        requires { lines.now ≡ bytes.now }
    {
        let text = match str::from_utf8(bytes) {
            Ok(text) => text,
            Err(_) => "",
        };
        Source {
            bytes,
            text,
            lines,
            tokens,
        }
    }

    /// The tokens, or none.
    pub fn tokens(&self) -> &'a Tokens<'a> {
        self.tokens
    }

    /// The text from an offset on: nothing where no character begins there.
    pub fn text_from(&self, offset: u32) -> &'a str {
        match self.text.split_at_checked(offset as usize) {
            Some((_, rest)) => rest,
            None => "",
        }
    }

    /// The file begins with a byte order mark.
    pub fn has_mark(&self) -> bool {
        self.bytes.starts_with(b"\xef\xbb\xbf")
    }

    /// Where an offset stands: the file's beginning for one behind its end.
    pub fn place(&self, offset: u32) -> Place {
        if offset as usize <= self.bytes.len() {
            self.lines.place(offset)
        } else {
            self.lines.place(0)
        }
    }
}

// A stretch of the bytes, as far as it's there.
fn part(bytes: &[u8], from: usize, to: usize) -> &[u8] {
    match bytes.get(from..to) {
        Some(part) => part,
        None => &[],
    }
}

/// The text of a stretch: nothing where it isn't there or isn't UTF-8.
pub fn text_at<'a>(source: &Source<'a>, span: Span) -> &'a str {
    match str::from_utf8(part(source.bytes, span.from as usize, span.to as usize)) {
        Ok(text) => text,
        Err(_) => "",
    }
}

fn is_inner(b: u8) -> bool {
    b >= 128 && b < 192
}

// How many bytes stand in front in the same line.
fn before(front: &[u8]) -> usize {
    front.iter().rev().take_while(|b| **b != b'\n').count()
}

// How many bytes the line still has.
fn behind(rest: &[u8]) -> usize {
    rest.iter()
        .take_while(|b| **b != b'\n' && **b != b'\r')
        .count()
}

// How many bytes are no start of a character, at the front.
fn inner(bytes: &[u8]) -> usize {
    bytes.iter().take_while(|b| is_inner(**b)).count()
}

// What is shown for a character, and how many columns it takes.
fn put_char(page: &mut Page, c: char) {
    if c == '\t' {
        page.put_times(" ", TAB);
    } else if c.width().is_none() {
        page.put(" ");
    } else {
        let mut room = [0u8; 4];
        page.put(c.encode_utf8(&mut room));
    }
}

fn columns_of(c: char) -> usize {
    if c == '\t' {
        TAB
    } else {
        c.width().unwrap_or(1)
    }
}

fn put_text(page: &mut Page, text: &str) {
    for c in text.chars() {
        put_char(page, c);
    }
}

fn columns(text: &str) -> usize {
    let mut columns: usize = 0;
    for c in text.chars() {
        columns = columns.saturating_add(columns_of(c));
    }
    columns
}

/// ` L:C`.
pub fn put_place(page: &mut Page, source: &Source<'_>, offset: u32) {
    let place = source.place(offset);
    page.put_number(place.line as usize);
    page.put(":");
    page.put_number(place.column as usize);
}

fn digits(n: usize) -> usize {
    if n < 10 {
        1
    } else if n < 100 {
        2
    } else if n < 1_000 {
        3
    } else if n < 10_000 {
        4
    } else if n < 100_000 {
        5
    } else {
        8
    }
}

fn put_gutter(page: &mut Page, number: Option<usize>, wide: usize) {
    page.put_color("\x1b[1;34m");
    match number {
        Some(n) => {
            page.put_number(n);
            page.put_times(" ", wide.saturating_sub(digits(n)));
        }
        None => page.put_times(" ", wide),
    }
    page.put(" |");
    page.put_color("\x1b[0m");
}

// The line with the number, and the carets under the stretch from `from` up to `to` in it.
fn put_marked(page: &mut Page, front: &str, marked: &str, rest: &str, line: usize) {
    let wide = digits(line);
    put_gutter(page, None, wide);
    page.put("\n");
    put_gutter(page, Some(line), wide);
    page.put(" ");
    put_text(page, front);
    put_text(page, marked);
    put_text(page, rest);
    page.put("\n");
    put_gutter(page, None, wide);
    page.put(" ");
    page.put_times(" ", columns(front));
    page.put_color("\x1b[1;31m");
    page.put_times("^", columns(marked).max(1));
    page.put_color("\x1b[0m");
    page.put("\n");
}

/// ` --> L:C`, the source's line, and carets under the stretch, as far as it stands in that line. Of a long line there is
/// only what stands near.
pub fn put_snippet(page: &mut Page, source: &Source<'_>, span: Span) {
    let line = source.place(span.from).line as usize;
    let from = span.from as usize;
    let start = from.saturating_sub(before(part(source.bytes, 0, from)));
    let end = from.saturating_add(behind(part(source.bytes, from, source.bytes.len())));
    let low = start.max(from.saturating_sub(NEAR));
    let low = low.saturating_add(inner(part(source.bytes, low, from)));
    let to = (span.to as usize).min(end).min(from.saturating_add(NEAR));
    let to = to.saturating_add(inner(part(source.bytes, to, end)));
    let high = end.min(from.saturating_add(NEAR)).max(to);
    let high = high.saturating_add(inner(part(source.bytes, high, end)));
    page.put_times(" ", digits(line));
    page.put_color("\x1b[1;34m");
    page.put("--> ");
    page.put_color("\x1b[0m");
    put_place(page, source, span.from);
    page.put("\n");
    let texts = (
        str::from_utf8(part(source.bytes, low, from)),
        str::from_utf8(part(source.bytes, from, to)),
        str::from_utf8(part(source.bytes, to, high)),
    );
    if let (Ok(front), Ok(marked), Ok(rest)) = texts {
        put_marked(page, front, marked, rest, line);
    }
}
