//! Single tokens, by their number.

ghost use Rattle.std.specs.Prelude.{◌≡◌, ◌+◌, ◌≤◌, ◌<◌, ◌↔◌, IsTrue, if◌then◌else◌, length, IfOk, Some, Ok, Err};
ghost use Rattle.spi_lex.specs.Numbered.{listed};
ghost use Rattle.spi_lex.specs.Reader.{seen_kind};
ghost use Rattle.spi_lex.specs.declared.token.Kind.TheVariants as kinds;
ghost use Rattle.spi_parse.specs.declared.fault.ParseFault.TheVariants as faults;
ghost use Rattle.spi_heading.specs.Spans.{span_over};
ghost use Rattle.spi_heading.specs.Taking.{IsThere, TakesOneToken, TakesWord, ReadsVersion};

use spi_lex::{Mark, Reserved, Seen, Tokens};
use spi_parse::ParseFault;
use spi_text::{Span, Text};
use spi_tree::SWord;
use std::alloc::Global;

/// What is read from a token on, with the number of the token behind it, or the fault.
pub type ReadPart<T> = Result<(T, u32), ParseFault>;

fn is_mark(kind: Seen<'_>, mark: Mark) -> bool
    ensures { IsTrue result ↔ seen_kind kind.entry ≡ Some (kinds.Mark mark) }
{
    match kind {
        Seen::Mark(found) => found == mark,
        _ => false,
    }
}

fn is_reserved(kind: Seen<'_>, word: Reserved) -> bool
    ensures { IsTrue result ↔ seen_kind kind.entry ≡ Some (kinds.Reserved word) }
{
    match kind {
        Seen::Reserved(found) => found == word,
        _ => false,
    }
}

fn is_spelled(kind: Seen<'_>, spelling: &str) -> bool
    ensures { IsTrue result ↔ seen_kind kind.entry ≡ Some (kinds.Word spelling.now) }
{
    match kind {
        Seen::Word(word) => word == spelling,
        _ => false,
    }
}

/// Whether there is a token of this number.
pub fn token_at(tokens: &Tokens<'_>, at: u32) -> bool
    ensures { IsTrue result ↔ at < length (listed tokens.now) }
{
    match tokens.get(at) {
        Some(_) => true,
        None => false,
    }
}

/// Whether the token of this number is the mark.
pub fn mark_at(tokens: &Tokens<'_>, at: u32, mark: Mark) -> bool
    ensures { IsTrue result ↔ IsThere (listed tokens.now) at (kinds.Mark mark) }
{
    match tokens.get(at) {
        Some(token) => is_mark(token.kind, mark),
        None => false,
    }
}

/// Whether the token of this number is the reserved word.
pub fn reserved_at(tokens: &Tokens<'_>, at: u32, word: Reserved) -> bool
    ensures { IsTrue result ↔ IsThere (listed tokens.now) at (kinds.Reserved word) }
{
    match tokens.get(at) {
        Some(token) => is_reserved(token.kind, word),
        None => false,
    }
}

/// Whether the token of this number is the word of this spelling, which isn't reserved.
pub fn spelled_at(tokens: &Tokens<'_>, at: u32, spelling: &str) -> bool
    ensures { IsTrue result ↔ IsThere (listed tokens.now) at (kinds.Word spelling.now) }
{
    match tokens.get(at) {
        Some(token) => is_spelled(token.kind, spelling),
        None => false,
    }
}

// The number behind this one where the token that is asked for was found there.
fn behind(found: bool, at: u32) -> Result<u32, ParseFault>
    requires { IsTrue found → at < 16_777_216 }
    ensures { result ≡ (if found then Ok (at + 1) else Err (faults.Syntax at)) }
{
    if found {
        Ok(at + 1)
    } else {
        Err(ParseFault::Syntax { token: at })
    }
}

/// Takes the mark, and gives the number of the token behind it. Where another token stands there, or none, that is `Syntax`.
pub fn take_mark(tokens: &Tokens<'_>, at: u32, mark: Mark) -> Result<u32, ParseFault>
    requires size { length (listed tokens.now) ≤ 16_777_216 }
    ensures taken { TakesOneToken (kinds.Mark mark) result (listed tokens.now) at }
    ensures within { IfOk result (λ next. next ≤ length (listed tokens.now)) }
{
    behind(mark_at(tokens, at, mark), at)
}

/// Takes the reserved word, and gives the number of the token behind it. Where another token stands there, or none, that is
/// `Syntax`.
pub fn take_reserved(tokens: &Tokens<'_>, at: u32, word: Reserved) -> Result<u32, ParseFault>
    requires size { length (listed tokens.now) ≤ 16_777_216 }
    ensures taken { TakesOneToken (kinds.Reserved word) result (listed tokens.now) at }
    ensures within { IfOk result (λ next. next ≤ length (listed tokens.now)) }
{
    behind(reserved_at(tokens, at, word), at)
}

/// Takes the word of this spelling, which isn't reserved, and gives the number of the token behind it. Where another token
/// stands there, or none, that is `Syntax`.
pub fn take_spelled(tokens: &Tokens<'_>, at: u32, spelling: &str) -> Result<u32, ParseFault>
    requires size { length (listed tokens.now) ≤ 16_777_216 }
    ensures taken { TakesOneToken (kinds.Word spelling.now) result (listed tokens.now) at }
    ensures within { IfOk result (λ next. next ≤ length (listed tokens.now)) }
{
    behind(spelled_at(tokens, at, spelling), at)
}

fn is_two(kind: Seen<'_>) -> bool
    ensures { IsTrue result ↔ seen_kind kind.entry ≡ Some (kinds.Number 2) }
{
    match kind {
        Seen::Number(number) => number == 2,
        _ => false,
    }
}

fn two_at(tokens: &Tokens<'_>, at: u32) -> bool
    ensures { IsTrue result ↔ IsThere (listed tokens.now) at (kinds.Number 2) }
{
    match tokens.get(at) {
        Some(token) => is_two(token.kind),
        None => false,
    }
}

fn take_two(tokens: &Tokens<'_>, at: u32) -> Result<u32, ParseFault>
    requires size { length (listed tokens.now) ≤ 16_777_216 }
    ensures taken { TakesOneToken (kinds.Number 2) result (listed tokens.now) at }
    ensures within { IfOk result (λ next. next ≤ length (listed tokens.now)) }
{
    behind(two_at(tokens, at), at)
}

/// The version that the tokens begin with, and the number of the token behind it: 2 and 3 where they begin with the word
/// `version`, the number 2 and a semicolon, and 1 and 0 where they don't begin with that word. `Syntax` is at the token behind
/// the word that is another.
pub fn version_of(tokens: &Tokens<'_>) -> ReadPart<u32>
    requires size { length (listed tokens.now) ≤ 16_777_216 }
    ensures read { ReadsVersion result (listed tokens.now) }
    ensures within { IfOk result (λ r. r.1 ≤ length (listed tokens.now)) }
{
    if !spelled_at(tokens, 0, "version") {
        return Ok((1, 0));
    }
    let semicolon = take_two(tokens, 1)?;
    let next = take_mark(tokens, semicolon, Mark::Semicolon)?;
    Ok((2, next))
}

/// Takes a word that isn't reserved, and gives it with the number of the token behind it. Where another token stands there, or
/// none, that is `Syntax`. `NoMemory` comes where memory runs out.
pub fn take_word(alloc: Global, tokens: &Tokens<'_>, at: u32) -> ReadPart<SWord>
    requires size { length (listed tokens.now) ≤ 16_777_216 }
    ensures taken { TakesWord result (listed tokens.now) at }
    ensures within { IfOk result (λ r. r.1 ≤ length (listed tokens.now)) }
{
    match tokens.get(at) {
        Some(token) => match token.kind {
            Seen::Word(word) => match Text::of(alloc, word) {
                Ok(word) => Ok((
                    SWord {
                        word,
                        span: token.span,
                    },
                    at + 1,
                )),
                Err(_) => Err(ParseFault::NoMemory),
            },
            _ => Err(ParseFault::Syntax { token: at }),
        },
        None => Err(ParseFault::Syntax { token: at }),
    }
}

/// Where the token of this number stands.
fn token_span(tokens: &Tokens<'_>, at: u32) -> Span
    requires { at < length (listed tokens.now) }
    ensures { result ≡ span_over (listed tokens.now) at (at + 1) }
{
    match tokens.get(at) {
        Some(token) => token.span,
        None => unreachable!(),
    }
}

/// From the start of the token of the first number to the end of the token before that of the second.
pub fn span_between(tokens: &Tokens<'_>, from: u32, to: u32) -> Span
    requires order { from < to }
    requires within { to ≤ length (listed tokens.now) }
    ensures { result ≡ span_over (listed tokens.now) from to }
{
    Span {
        from: token_span(tokens, from).from,
        to: token_span(tokens, to - 1).to,
    }
}
