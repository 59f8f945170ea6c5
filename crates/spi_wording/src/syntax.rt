// The text of a file that is wrong by its syntax: the token that is there, and what it usually comes from.
use crate::find::{begins_process, kind_at, opener, token_at};
use crate::page::{Kind, Page};
use crate::source::{Source, text_at};
use spi_lex::{Mark, Reserved, Seen as TokenKind, Tokens};
use spi_text::Span;

// What stands at a place of the tokens.
#[derive(Clone, Copy, PartialEq, Eq)]
enum Seen {
    Nothing,
    Word,
    Reserved(Reserved),
    Mark(Mark),
    Number,
}

fn seen_at(tokens: &Tokens<'_>, at: u32) -> Seen {
    match kind_at(tokens, at) {
        TokenKind::Nothing => Seen::Nothing,
        TokenKind::Word(_) => Seen::Word,
        TokenKind::Reserved(word) => Seen::Reserved(word),
        TokenKind::Number(_) => Seen::Number,
        TokenKind::Mark(mark) => Seen::Mark(mark),
    }
}

// The last token in front of this one that begins a process, behind `repeat` where that stands there, and how it begins.
fn last_form(tokens: &Tokens<'_>, at: u32) -> Option<Reserved> {
    for i in (0..at).rev() {
        if let TokenKind::Reserved(word) = kind_at(tokens, i) {
            if word != Reserved::Repeat && begins_process(word) {
                return Some(word);
            }
        }
    }
    None
}

// The file begins with `version 2;`.
fn is_version_2(tokens: &Tokens<'_>) -> bool {
    match (kind_at(tokens, 0), kind_at(tokens, 1), kind_at(tokens, 2)) {
        (TokenKind::Word(word), TokenKind::Number(2), TokenKind::Mark(Mark::Semicolon)) => {
            word == "version"
        }
        _ => false,
    }
}

fn is_new_word(word: &str) -> bool {
    word == "hash" || word == "endmany" || word == "many"
}

fn has_new_word(source: &Source<'_>, at: u32) -> bool {
    match source.tokens().get(at) {
        Some(token) => is_new_word(text_at(source, token.span)),
        None => false,
    }
}

// The token, or one of the two in front of it, is a word of version 2, and the file is of version 1.
fn is_of_version_2(source: &Source<'_>, at: u32) -> bool {
    if is_version_2(source.tokens()) {
        return false;
    }
    has_new_word(source, at)
        || has_new_word(source, at.saturating_sub(1))
        || has_new_word(source, at.saturating_sub(2))
}

// The form in front can't be the last of a process.
fn goes_on(form: Option<Reserved>) -> bool {
    match form {
        None => false,
        Some(Reserved::Out) => false,
        Some(Reserved::Stop) => false,
        Some(_) => true,
    }
}

// A reserved word stands where a name is bound or declared.
fn is_for_name(before: Seen, here: Seen, next: Seen) -> bool {
    let is_reserved = match here {
        Seen::Reserved(_) => true,
        _ => false,
    };
    is_reserved
        && (before == Seen::Reserved(Reserved::Free)
            || before == Seen::Reserved(Reserved::TypeWord)
            || before == Seen::Mark(Mark::ParenOpen)
            || before == Seen::Mark(Mark::Comma)
            || before == Seen::Mark(Mark::BraceOpen)
            || next == Seen::Mark(Mark::Colon)
            || next == Seen::Mark(Mark::Semicolon)
            || next == Seen::Reserved(Reserved::Is))
}

// The mark that is missing where what this one opened isn't closed: in front of another that closes, and at the end.
fn missing(open: Seen, here: Seen) -> Option<&'static str> {
    let is_end = here == Seen::Nothing || here == Seen::Mark(Mark::Semicolon);
    if open == Seen::Mark(Mark::ParenOpen) {
        let closes = here == Seen::Mark(Mark::BracketClose) || here == Seen::Mark(Mark::BraceClose);
        if closes || here == Seen::Nothing {
            Some(")")
        } else {
            None
        }
    } else if open == Seen::Mark(Mark::BracketOpen) {
        let closes = here == Seen::Mark(Mark::ParenClose) || here == Seen::Mark(Mark::BraceClose);
        if closes || is_end { Some("]") } else { None }
    } else if open == Seen::Mark(Mark::BraceOpen) {
        let closes = here == Seen::Mark(Mark::ParenClose) || here == Seen::Mark(Mark::BracketClose);
        if closes || is_end { Some("}") } else { None }
    } else {
        None
    }
}

// The note on what isn't closed.
fn note_open(page: &mut Page, source: &Source<'_>, at: u32) -> bool {
    let Some(open) = opener(source.tokens(), at) else {
        return false;
    };
    let Some(mark) = missing(seen_at(source.tokens(), open), seen_at(source.tokens(), at)) else {
        return false;
    };
    let Some(token) = source.tokens().get(open) else {
        return false;
    };
    page.open(Kind::Note, Some(token.span));
    page.put("what begins here isn't closed: a `");
    page.put(mark);
    page.put("` is missing");
    page.close(source, Some(token.span));
    true
}

// What it usually comes from.
fn help(source: &Source<'_>, at: u32) -> &'static str {
    let tokens = source.tokens();
    let here = seen_at(tokens, at);
    let before = seen_at(tokens, at.saturating_sub(1));
    let next = seen_at(tokens, at.saturating_add(1));
    let form = last_form(tokens, at);
    let ends = here == Seen::Nothing
        || here == Seen::Mark(Mark::Bar)
        || here == Seen::Mark(Mark::ParenClose)
        || here == Seen::Reserved(Reserved::Opponent);
    if is_of_version_2(source, at) {
        "`hash`, `many` and `endmany` are words of version 2: begin the file with `version 2;`"
    } else if is_for_name(before, here, next) {
        "this is a reserved word, and so no name: take another"
    } else if ends && before == Seen::Mark(Mark::Semicolon) {
        "no `;` stands in front of a bar, a closing parenthesis or the end: behind a `;` the process goes on, at least by `stop`"
    } else if ends && goes_on(form) {
        "a process ends with `stop` or with an `out`: write `; stop`"
    } else if here == Seen::Mark(Mark::ParenClose) {
        "parentheses stand round processes with a bar between them, and round nothing else"
    } else if here == Seen::Mark(Mark::Comma) && form == Some(Reserved::Split) {
        "a `split` has two parts: it takes off the first, and the rest gets a name and a `split` of its own"
    } else if before == Seen::Nothing && here == Seen::Word {
        "a file begins with declarations, `free ..;` and `type ..;`, and then `process`"
    } else {
        "look in front of this place too: a mark may be missing there"
    }
}

fn put_token(page: &mut Page, source: &Source<'_>, span: Span, here: Seen) {
    match here {
        Seen::Nothing => page.put("the file ends here, and something is missing"),
        Seen::Reserved(_) => {
            page.put("the reserved word `");
            page.put(text_at(source, span));
            page.put("` can't stand here");
        }
        _ => {
            page.put("`");
            page.put(text_at(source, span));
            page.put("` can't stand here");
        }
    }
}

/// The token that can't stand where it is, and what it usually comes from.
pub fn tell_syntax(page: &mut Page, source: &Source<'_>, span: Span) {
    let at = token_at(source.tokens(), span.from);
    page.open(Kind::Wrong, Some(span));
    put_token(page, source, span, seen_at(source.tokens(), at));
    page.close(source, Some(span));
    if !note_open(page, source, at) {
        page.open(Kind::Help, None);
        page.put(help(source, at));
        page.close(source, None);
    }
}
