// Where messages and binders stand, by the tokens of a node's form. What is found here is where carets stand, and no more.
use crate::source::Source;
use spi_lex::{Mark, Reserved, Seen, Token, Tokens, Words};
use spi_term::{Form, Process};
use spi_text::Span;

/// How many tokens a file has at most, and how many bytes.
const MOST: u32 = 16_777_216;

/// Where a part of a message begins, by its token, and whether it is all that a tuple has from there on.
#[derive(Clone, Copy)]
pub struct Spot {
    at: u32,
    is_tail: bool,
}

/// What the token of this number is, where there is one.
pub fn kind_at<'a>(tokens: &'a Tokens<'_>, at: u32) -> Seen<'a> {
    match tokens.get(at) {
        Some(token) => token.kind,
        None => Seen::Nothing,
    }
}

fn is_mark(tokens: &Tokens<'_>, at: u32, wanted: Mark) -> bool {
    match kind_at(tokens, at) {
        Seen::Mark(mark) => mark == wanted,
        _ => false,
    }
}

fn is_reserved(tokens: &Tokens<'_>, at: u32, wanted: Reserved) -> bool {
    match kind_at(tokens, at) {
        Seen::Reserved(word) => word == wanted,
        _ => false,
    }
}

/// A process begins with this word.
pub fn begins_process(word: Reserved) -> bool {
    match word {
        Reserved::Out
        | Reserved::Inp
        | Reserved::Repeat
        | Reserved::Split
        | Reserved::Match
        | Reserved::Case
        | Reserved::Decrypt
        | Reserved::Check
        | Reserved::Begin
        | Reserved::End
        | Reserved::EndMany
        | Reserved::Cast
        | Reserved::New
        | Reserved::Stop => true,
        _ => false,
    }
}

fn opens(mark: Mark) -> bool {
    mark == Mark::ParenOpen || mark == Mark::BraceOpen || mark == Mark::BracketOpen
}

fn closes(mark: Mark) -> bool {
    mark == Mark::ParenClose || mark == Mark::BraceClose || mark == Mark::BracketClose
}

// How deep it is behind a token.
fn deeper(depth: u32, kind: Seen<'_>) -> u32 {
    match kind {
        Seen::Mark(mark) => {
            if opens(mark) {
                depth.saturating_add(1)
            } else if closes(mark) {
                depth.saturating_sub(1)
            } else {
                depth
            }
        }
        _ => depth,
    }
}

// How many tokens further the one stands that closes what the first of these opens.
fn closing_in_list(list: &[Token]) -> u32 {
    let mut depth = 0;
    let mut further: u32 = 0;
    for token in list {
        depth = deeper(depth, Seen::of(&token.kind));
        if depth == 0 {
            return further;
        }
        further = further.saturating_add(1);
    }
    further
}

// The same, of tokens that come from a text.
fn closing_in_text(start: Words<'_>) -> u32 {
    let mut words = start;
    let mut depth = 0;
    for i in 0..MOST {
        depth = deeper(depth, words.kind);
        if depth == 0 {
            return i;
        }
        match words.kind {
            Seen::Nothing => return i,
            _ => words.advance(),
        }
    }
    MOST
}

// The token that closes what this one opens. It takes the tokens on the way once.
fn closing(tokens: &Tokens<'_>, at: u32) -> u32 {
    match tokens {
        Tokens::List(list) => match list.get(at as usize..) {
            Some(rest) => at.saturating_add(closing_in_list(rest)),
            None => at,
        },
        Tokens::Text(text) => at.saturating_add(closing_in_text(text.words_from(at))),
    }
}

/// The token behind the message that begins at this one.
pub fn message_end(tokens: &Tokens<'_>, at: u32) -> u32 {
    let mut at = at;
    for _ in 0..MOST {
        match kind_at(tokens, at) {
            Seen::Mark(Mark::BraceOpen) => at = closing(tokens, at).saturating_add(1),
            Seen::Mark(Mark::ParenOpen) => return closing(tokens, at).saturating_add(1),
            Seen::Reserved(Reserved::Inl | Reserved::Inr | Reserved::Hash) => {
                at = at.saturating_add(1);
            }
            _ => return at.saturating_add(1),
        }
    }
    at
}

// The spot of a part that begins here, and of nothing behind it.
fn lone(at: u32) -> Spot {
    Spot { at, is_tail: false }
}

// The spot of a tuple's part that begins here, with those behind it.
fn tail(tokens: &Tokens<'_>, at: u32) -> Spot {
    Spot {
        at,
        is_tail: is_mark(tokens, message_end(tokens, at), Mark::Comma),
    }
}

// The second of two parts, of which the first begins here.
fn second(tokens: &Tokens<'_>, at: u32) -> Spot {
    tail(tokens, message_end(tokens, at).saturating_add(1))
}

// Part number `step` of what stands at the spot.
fn part_of(tokens: &Tokens<'_>, spot: Spot, step: u32) -> Spot {
    let Spot { at, is_tail } = spot;
    let inside = at.saturating_add(1);
    if is_tail {
        return if step == 0 {
            lone(at)
        } else {
            second(tokens, at)
        };
    }
    match kind_at(tokens, at) {
        Seen::Mark(Mark::ParenOpen) if step != 0 => second(tokens, inside),
        Seen::Mark(Mark::BraceOpen) if step == 0 => lone(closing(tokens, at).saturating_add(1)),
        Seen::Reserved(Reserved::Hash) => lone(inside.saturating_add(1)),
        _ => lone(inside),
    }
}

/// The part of what stands at the spot at the end of these steps, of which the last comes first.
pub fn part_at(tokens: &Tokens<'_>, spot: Spot, steps: &[u32]) -> Spot {
    let mut spot = spot;
    for step in steps.iter().rev() {
        spot = part_of(tokens, spot, *step);
    }
    spot
}

// Where the message ends that stands at the spot.
fn end_of(tokens: &Tokens<'_>, spot: Spot) -> u32 {
    let mut end = message_end(tokens, spot.at);
    if spot.is_tail {
        for _ in 0..MOST {
            if !is_mark(tokens, end, Mark::Comma) {
                return end;
            }
            end = message_end(tokens, end.saturating_add(1));
        }
    }
    end
}

/// Where what stands at the spot begins and ends in the file.
pub fn span_of(tokens: &Tokens<'_>, spot: Spot) -> Option<Span> {
    let first = tokens.get(spot.at)?;
    let last = tokens.get(end_of(tokens, spot).saturating_sub(1))?;
    Some(Span {
        from: first.span.from,
        to: last.span.to,
    })
}

fn begins_before(tokens: &Tokens<'_>, at: u32, offset: u32) -> bool {
    match tokens.get(at) {
        Some(token) => token.span.from < offset,
        None => false,
    }
}

/// The token that begins at this offset, or the next one. It searches by halves.
pub fn token_at(tokens: &Tokens<'_>, offset: u32) -> u32 {
    let mut low: u32 = 0;
    let mut high = MOST;
    for _ in 0..32 {
        let middle = low.saturating_add(high.saturating_sub(low) / 2);
        if low < high {
            if begins_before(tokens, middle, offset) {
                low = middle.saturating_add(1);
            } else {
                high = middle;
            }
        }
    }
    low
}

/// The mark in front of a token that opens what isn't closed there, by its token.
pub fn opener(tokens: &Tokens<'_>, at: u32) -> Option<u32> {
    let mut depth: u32 = 0;
    for i in (0..at).rev() {
        if let Seen::Mark(mark) = kind_at(tokens, i) {
            if closes(mark) {
                depth = depth.saturating_add(1);
            } else if opens(mark) {
                if depth == 0 {
                    return Some(i);
                }
                depth = depth.saturating_sub(1);
            }
        }
    }
    None
}

/// Where the first word of a form stands that begins at this offset. It looks at no other token, so that each of many forms
/// costs no more than its first word.
pub fn head_at(source: &Source<'_>, offset: u32) -> Span {
    let text = source.text_from(offset);
    let nothing = Span {
        from: offset,
        to: offset,
    };
    if (offset as usize).saturating_add(text.len()) > MOST as usize {
        return nothing;
    }
    let words = Words::behind(text, offset, false);
    match words.kind {
        Seen::Nothing => nothing,
        _ => Span {
            from: words.from,
            to: words.to,
        },
    }
}

// The next token that is this mark, from one on.
fn next_mark(tokens: &Tokens<'_>, from: u32, wanted: Mark) -> u32 {
    for at in from..MOST {
        match kind_at(tokens, at) {
            Seen::Nothing => return at,
            Seen::Mark(mark) if mark == wanted => return at,
            _ => {}
        }
    }
    MOST
}

/// The first message of a form, which begins at this token.
pub fn first_message(tokens: &Tokens<'_>, head: u32) -> Spot {
    let skipped = if is_reserved(tokens, head, Reserved::Repeat) {
        2
    } else {
        1
    };
    lone(head.saturating_add(skipped))
}

/// The second message of a form.
pub fn second_message(tokens: &Tokens<'_>, head: u32, form: &Form) -> Spot {
    let behind = message_end(tokens, head.saturating_add(1));
    let at = match form {
        Form::Check { .. } => behind.saturating_add(1),
        Form::Select { .. } => next_mark(tokens, behind, Mark::Equals).saturating_add(1),
        Form::Decrypt { .. } => closing(tokens, behind.saturating_add(1)).saturating_add(1),
        _ => behind,
    };
    lone(at)
}

fn is_word(kind: Seen<'_>, word: &str) -> bool {
    match kind {
        Seen::Word(text) => text == word,
        _ => false,
    }
}

/// Where a form that begins at this offset binds a name of this spelling: its first word with a colon behind it.
pub fn binder_at(source: &Source<'_>, offset: u32, word: &str) -> Span {
    let tokens = source.tokens();
    for i in token_at(tokens, offset)..MOST {
        let Some(token) = tokens.get(i) else {
            return head_at(source, offset);
        };
        if is_word(token.kind, word) && is_mark(tokens, i.saturating_add(1), Mark::Colon) {
            return token.span;
        }
    }
    head_at(source, offset)
}

/// The node that binds the name with this number, as it is seen from a node below: the last one in front with so few names
/// in scope. A free name has none.
pub fn binder_of(process: &Process, node: u32, name: u32) -> Option<u32> {
    if name < process.names() {
        return None;
    }
    let mut found = None;
    for id in 0..process.len() {
        if id < node && process.node(id).scope <= name {
            found = Some(id);
        }
    }
    found
}
