//! Tokens by their numbers.

ghost use Rattle.std.specs.Prelude.{◌≡◌, ◌≤◌, length, drop, slice_get, [], IfOk, IfErr, MatchOption, None, Ok, Err};
ghost use Rattle.spi_lex.specs.Lexing.{Lexes, IsLexFault, kinds_of};
ghost use Rattle.spi_lex.specs.Left.{tokens_in, end_of};
ghost use Rattle.spi_lex.specs.Numbered.{IsAt, IsFirstOf, listed, rest_of};
ghost use Rattle.spi_lex.specs.Reader.{tokens_left};
ghost use Rattle.spi_lex.specs.Writing.{AreKinds, AreSpans, spans_of};

use crate::LexFault;
use crate::ending::{fault_behind, text_of};
use crate::numbered::Numbered;
use crate::reader::{Seen, Words};
use crate::token::Token;
use spi_text::Span;
use std::alloc::Global;

/// A token that is looked at: what it is, and where it stands.
#[derive(Clone, Copy)]
pub struct Next<'t> {
    pub kind: Seen<'t>,
    pub span: Span,
}

/// The tokens of a list or of a text, by their numbers from 0.
#[derive(Drop)]
pub enum Tokens<'t> {
    List(&'t [Token]),
    Text(Numbered<'t>),
}

/// Tokens from one of them on: those of a list, or those that come from a text.
pub enum Rest<'t> {
    List(&'t [Token]),
    Text(Words<'t>),
}

/// The tokens of a text by their numbers.
fn by_number<'t>(alloc: Global, text: &'t str) -> Result<Tokens<'t>, LexFault>
    requires { length text.now ≤ 16_777_216 }
    ensures ok { IfOk result (λ tokens. Lexes text.entry.now (Ok (listed tokens))) }
    ensures err { IfErr result (IsLexFault text.entry.now) }
    ensures kinds { IfOk result (λ tokens. AreKinds (kinds_of (listed tokens))) }
    ensures spans { IfOk result (λ tokens. AreSpans 0 (spans_of (listed tokens)) (length text.entry.now)) }
{
    let Ok((numbered, end)) = Numbered::of(alloc, text) else {
        return Err(LexFault::NoMemory);
    };
    match fault_behind(text, end) {
        Some(fault) => Err(fault),
        None => Ok(Tokens::Text(numbered)),
    }
}

impl<'t> Tokens<'t> {
    /// The tokens of a file of at most 16,777,216 bytes, as `lex` gives them, but by their numbers: there is no list of them.
    pub fn of_bytes(alloc: Global, bytes: &'t [u8]) -> Result<Tokens<'t>, LexFault>
        requires { length bytes.now ≤ 16_777_216 }
        // What is given are the tokens of the bytes, and a fault is theirs, unless memory ran out.
        ensures ok { IfOk result (λ tokens. Lexes bytes.entry.now (Ok (listed tokens))) }
        ensures err { IfErr result (IsLexFault bytes.entry.now) }
        // Words and numbers are in form, and the tokens stand one after another within the bytes.
        ensures kinds { IfOk result (λ tokens. AreKinds (kinds_of (listed tokens))) }
        ensures spans { IfOk result
            (λ tokens. AreSpans 0 (spans_of (listed tokens)) (length bytes.entry.now)) }
    {
        match text_of(bytes) {
            Ok(text) => by_number(alloc, text),
            Err(fault) => Err(fault),
        }
    }

    /// How many there are.
    pub fn count(&self) -> u32
        requires { length (listed self.now) ≤ 16_777_216 }
        ensures { result ≡ length (listed self.now) }
    {
        match self {
            Tokens::List(list) => list.len() as u32,
            Tokens::Text(text) => text.count(),
        }
    }

    /// The token of this number, where there is one.
    pub fn get(&self, at: u32) -> Option<Next<'_>>
        ensures { MatchOption result (slice_get (listed self.now) at ≡ None) (IsAt (listed self.now) at) }
    {
        match self {
            Tokens::List(list) => match list.get(at as usize) {
                Some(token) => Some(Next {
                    kind: Seen::of(&token.kind),
                    span: token.span,
                }),
                None => None,
            },
            Tokens::Text(text) => next_of(text.words_from(at)),
        }
    }

    /// The tokens from this number on.
    pub fn from(&self, at: u32) -> Rest<'t>
        requires { at ≤ length (listed self.now) }
        ensures { rest_of result ≡ drop at (listed self.now) }
    {
        match self {
            Tokens::List(list) => Rest::List(list.split_at(at as usize).1),
            Tokens::Text(text) => Rest::Text(text.words_from(at)),
        }
    }
}

/// What stands next in a text.
fn next_of<'t>(words: Words<'t>) -> Option<Next<'t>>
    ensures { MatchOption result (tokens_left words.entry ≡ []) (IsFirstOf (tokens_left words.entry)) }
{
    match words.kind {
        Seen::Nothing => None,
        kind => Some(Next {
            kind,
            span: Span {
                from: words.from,
                to: words.to,
            },
        }),
    }
}
