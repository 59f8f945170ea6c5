// The text of a refusal: what is wrong, where, and what usually mends it.
use crate::find::token_at;
use crate::page::{Kind, Page};
use crate::source::{Source, text_at};
use crate::syntax::tell_syntax;
use spi_report::Refusal;
use spi_text::Span;

/// What the refusal of a name says, and what usually mends it.
fn name_words(number: u32) -> (&'static str, &'static str) {
    match number {
        30 => (
            "this name isn't in scope here",
            "it's declared by `free`, or bound in front on the same way; an abbreviation and the opponent see the free names alone, and the first name of a `match` stands for nothing behind it",
        ),
        31 => (
            "no abbreviation of this name stands above",
            "abbreviations see those above them; the types of the language are `Un`, `Key(..)`, `Nonce [..]`, `()`, pairs and sums",
        ),
        32 => (
            "this free name is declared a second time",
            "names that are bound in the process may repeat, free ones may not",
        ),
        _ => (
            "this abbreviation is declared a second time",
            "give it another name",
        ),
    }
}

/// What the refusal of something too large says, and what usually mends it.
fn limit_words(number: u32) -> (&'static str, &'static str) {
    match number {
        2 => (
            "the input has more than 16,777,216 bytes",
            "check the parts one by one",
        ),
        12 => (
            "this number is above 4,294,967,295",
            "numbers stand in schedules and derivations alone",
        ),
        13 => ("this name has more than 255 bytes", "take a shorter name"),
        21 => (
            "something that is nested too deep begins here: processes at most 500, messages and types at most 1,000",
            "a chain of `|` goes one deeper at each bar: put the parts into groups, `(.. | ..) | (.. | ..)`",
        ),
        34 => (
            "this message has more than 200 nodes",
            "send it in two messages",
        ),
        35 => (
            "this type has more than 1,000 nodes, when all abbreviations are written out",
            "abbreviations that have one another twice double at each step",
        ),
        36 => (
            "up to here the file has more than 100,000 nodes",
            "check the parts one by one: accepted files stay accepted beside one another, if they share free names alone",
        ),
        _ => (
            "a schedule has at most 10,000 steps",
            "leave out the steps behind",
        ),
    }
}

/// What a refusal says, and what usually mends it.
fn words(number: u32) -> (&'static str, &'static str) {
    match number {
        10 => (
            "the bytes from here on are no UTF-8",
            "save the file as UTF-8",
        ),
        11 => (
            "no token begins with this character",
            "names are letters, digits and underscores; comments begin with `//`",
        ),
        30..=33 => name_words(number),
        2 | 12 | 13 | 21 | 34..=37 => limit_words(number),
        _ => (
            "the file isn't one",
            "docs/reasons.md has the causes of each number",
        ),
    }
}

/// The span of a word or character that begins at this offset.
fn span_at(source: &Source<'_>, offset: u32) -> Span {
    let tokens = source.tokens();
    let to = match tokens.get(token_at(tokens, offset)) {
        Some(token) if token.span.from == offset => token.span.to,
        _ => offset.saturating_add(1),
    };
    Span { from: offset, to }
}

fn tell_mark(page: &mut Page, source: &Source<'_>) {
    page.open(Kind::Wrong, Some(Span { from: 0, to: 3 }));
    page.put("the file begins with a byte order mark");
    page.close(source, Some(Span { from: 0, to: 3 }));
    page.open(Kind::Help, None);
    page.put("save it as UTF-8 without one");
    page.close(source, None);
}

/// What is wrong by this refusal, and what usually mends it.
pub fn tell_refusal(page: &mut Page, source: &Source<'_>, r: &Refusal) {
    let span = match r.offset {
        Some(offset) => {
            if offset == 0 && source.has_mark() {
                tell_mark(page, source);
                return;
            }
            Some(span_at(source, offset))
        }
        None => None,
    };
    if let (20, Some(span)) = (r.number, span) {
        tell_syntax(page, source, span);
        return;
    }
    let (wrong, help) = words(r.number);
    page.open(Kind::Wrong, span);
    if r.number >= 30 && r.number <= 33 {
        page.put("`");
        if let Some(span) = span {
            page.put(text_at(source, span));
        }
        page.put("`: ");
    }
    page.put(wrong);
    page.close(source, span);
    page.open(Kind::Help, None);
    page.put(help);
    page.close(source, None);
}

/// What a yes means.
pub fn tell_yes(page: &mut Page) {
    page.put(if page.is_in_lines() { "note: " } else { "\n" });
    page.put(
        "Every `end` has a `begin` of its own with the same label, in front of it, whatever an opponent does.\n",
    );
}
