//! A place between tokens.

ghost use Rattle.std.specs.Prelude.{◌≡◌, ◌≤◌, ◌<◌, [], ◌∷◌, true, false, map, drop, length, IsTrue, IsFalse, MatchResult, IfOk};
ghost use Rattle.spi_parse.specs.declared.fault.Stop.TheVariants as stops;
ghost use Rattle.spi_parse.specs.declared.fault.Fault.TheVariants.{Syntax, TooDeep};
ghost use Rattle.spi_parse.specs.Tokens.{tok};
ghost use Rattle.spi_lex.specs.Lexing.{kinds_of};
ghost use Rattle.spi_lex.specs.Left.{left_of, tokens_in};
ghost use Rattle.spi_lex.specs.Writing.{AreKinds};
ghost use Rattle.spi_lex.specs.Numbered.{listed};
ghost use Rattle.spi_lex.specs.Places.{start_of};
ghost use Rattle.spi_parse.specs.Places.{state_of, behind, past, tokens_in as left_in};
ghost use Rattle.spi_parse.specs.Seen.{tok_of};
ghost use Rattle.spi_parse.specs.Table.{over, word_at};

use crate::NoMemory;
use crate::fault::{Fault, Stop};
use crate::seen::{Lexeme, Seen};
use spi_lex::{Rest, Seen as Next, Token, Tokens, Words};
use spi_text::{Span, Text};
use spi_tree::SWord;
use std::alloc::Global;

/// Tokens that are taken one by one: what stands next, where the one before it ends, and where the others come from: from a
/// list, or else from the text.
#[derive(Drop)]
pub struct Reader<'t> {
    words: Words<'t>,
    pub end: u32,
    list: Option<&'t [Token]>,
}

impl<'t> Reader<'t> {
    /// The tokens of a list, before the first of them.
    pub fn of(tokens: &'t [Token]) -> Reader<'t>
        ensures { state_of result ≡ record { end = 0; rest = map tok tokens.now } }
    {
        let mut reader = Reader {
            words: Words::of(""),
            end: 0,
            list: Some(tokens),
        };
        reader.load();
        reader
    }

    /// The tokens of a text, before the first of them.
    pub fn of_text(text: &'t str) -> Reader<'t>
        requires { length text.now ≤ 16_777_216 }
        ensures state { state_of result ≡ record { end = 0; rest = map tok (tokens_in text.now) } }
        ensures kinds { AreKinds (kinds_of (tokens_in text.now)) }
    {
        Reader {
            words: Words::of(text),
            end: 0,
            list: None,
        }
    }

    /// The tokens from this number on, before the first of them.
    pub fn behind(tokens: &Tokens<'t>, from: u32) -> Reader<'t>
        requires { from ≤ length (listed tokens.now) }
        ensures { state_of result ≡ record { end = 0; rest = map tok (drop from (listed tokens.now)) } }
    {
        match tokens.from(from) {
            Rest::List(list) => Reader::of(list),
            Rest::Text(words) => Reader {
                words,
                end: 0,
                list: None,
            },
        }
    }

    /// Where the next token begins.
    pub fn start(&self) -> Option<u32>
        ensures { result ≡ start_of (left_in self.now) }
    {
        match self.words.kind {
            Next::Nothing => None,
            _ => Some(self.words.from),
        }
    }

    /// Takes the token behind the next one from where it comes.
    #[inline(always)]
    fn load(&mut self)
        ensures { state_of self.new ≡ record { end = self.old.end; rest = behind self.old } }
    {
        match self.list {
            None => self.words.advance(),
            Some([first, rest @ ..]) => {
                self.words.kind = Next::of(&first.kind);
                self.words.from = first.span.from;
                self.words.to = first.span.to;
                self.list = Some(rest);
            }
            Some([]) => self.words.kind = Next::Nothing,
        }
    }

    /// The next token.
    #[inline(always)]
    pub fn first(&self) -> Result<Lexeme<'t>, Stop>
        ensures { MatchResult result
            (λ first. (state_of self.now).rest ≡ tok_of first ∷ behind self.now)
            (λ e. ((state_of self.now).rest ≡ []) × (e ≡ stops.Fault (Syntax 0))) }
    {
        let kind = match self.words.kind {
            Next::Nothing => return Err(Stop::Fault(Fault::Syntax(0))),
            Next::Word(word) => Seen::Word(word),
            Next::Reserved(word) => Seen::Reserved(word),
            Next::Number(number) => Seen::Number(number),
            Next::Mark(mark) => Seen::Mark(mark),
        };
        let span = Span {
            from: self.words.from,
            to: self.words.to,
        };
        Ok(Lexeme { kind, span })
    }

    /// Goes past it.
    #[inline(never)]
    pub fn advance(&mut self)
        ensures { state_of self.new ≡ past (state_of self.old) (behind self.old) }
    {
        match self.words.kind {
            Next::Nothing => {}
            _ => {
                self.end = self.words.to;
                self.load();
            }
        }
    }

    /// How many are left.
    #[inline(never)]
    pub fn left(&self) -> usize
        ensures { result ≡ length (state_of self.now).rest }
    {
        let behind = match &self.list {
            Some(tokens) => tokens.len(),
            None => left_behind(self.words),
        };
        match self.words.kind {
            Next::Nothing => 0,
            _ => behind + 1,
        }
    }
}

/// How many tokens stand behind the next one of a text.
fn left_behind(start: Words<'_>) -> usize
    ensures count { result ≡ length (left_of start.entry.later start.entry.at start.entry.rest.now) }
    ensures few { result ≤ 16_777_216 }
{
    let mut words = start;
    let mut count = 0;
    words.advance();
    loop {
        match words.kind {
            Next::Nothing => return count,
            _ => {
                count += 1;
                words.advance();
            }
        }
    }
}

pub const MESSAGE_LIMIT: u32 = 1000;

pub const PROCESS_LIMIT: u32 = 500;

pub const DERIVATION_LIMIT: u32 = 1000;

/// No tree goes on where so many tokens are left.
pub fn syntax(at: &Reader<'_>) -> Stop
    ensures { result ≡ stops.Fault (Syntax (length (state_of at.now).rest)) }
{
    Stop::Fault(Fault::Syntax(at.left()))
}

/// Stops where a node of the nesting is above the limit.
pub fn fits(nesting: u32, limit: u32, at: &Reader<'_>) -> Result<(), Stop>
    ensures { MatchResult result (λ _. nesting ≤ limit)
        (λ e. (limit < nesting) × (e ≡ stops.Fault (TooDeep (length (state_of at.now).rest)))) }
{
    if nesting > limit {
        return Err(Stop::Fault(Fault::TooDeep(at.left())));
    }
    Ok(())
}

/// Stops where the next token isn't allowed.
pub fn accept(allowed: bool, at: &Reader<'_>) -> Result<(), Stop>
    ensures { MatchResult result (λ _. allowed ≡ true)
        (λ e. (allowed ≡ false) × (e ≡ stops.Fault (Syntax (length (state_of at.now).rest)))) }
{
    if !allowed {
        return Err(syntax(at));
    }
    Ok(())
}

/// The same word.
#[inline(always)]
pub fn copy_word(alloc: Global, word: &str) -> Result<Text, NoMemory>
    ensures { IfOk result (λ text. text ≡ word.now) }
{
    Text::of(alloc, word)
}

/// The same word, with where it stands.
#[inline(always)]
pub fn placed_word(alloc: Global, word: &str, span: Span) -> Result<SWord, NoMemory>
    ensures { IfOk result (λ name. name ≡ word_at word.now span) }
{
    let word = copy_word(alloc, word)?;
    Ok(SWord { word, span })
}

/// From the start of a node's first token to the end of its last, which stands before this place.
pub fn span_from(first: Span, at: &Reader<'_>) -> Span
    ensures { result ≡ over (first ∷ []) (state_of at.now).end }
{
    Span {
        from: first.from,
        to: at.end,
    }
}
