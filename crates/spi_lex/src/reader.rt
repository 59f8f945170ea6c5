//! The tokens of a text, taken one by one.

ghost use Rattle.std.specs.Prelude.{◌≡◌, ◌+◌, ◌≤◌, false, length, drop, Some};

use crate::lexer::NAME_BYTES;
use crate::scan::{Shape, after_blanks, front, mark_of};
use crate::words::reserved_of;
use crate::{Kind, Mark, Reserved};

/// What stands next in a text: a token, whose word is left where it stands, or nothing that gives one.
#[derive(Clone, Copy)]
pub enum Seen<'t> {
    Nothing,
    Word(&'t str),
    Reserved(Reserved),
    Number(u32),
    Mark(Mark),
}

/// A text whose tokens are taken one by one.
#[derive(Clone, Copy)]
pub struct Words<'t> {
    /// What stands next.
    pub kind: Seen<'t>,
    /// Where it stands.
    pub from: u32,
    pub to: u32,
    // The text behind it, and the offset at which this begins. Where nothing stands next, nothing comes from it.
    rest: &'t str,
    at: u32,
    // Whether the words of version 2 are reserved.
    later: bool,
    ghost within: { at + length rest.now ≤ 16_777_216 },
}

impl<'t> Seen<'t> {
    ghost use Rattle.spi_lex.specs.Words.{words_of};
    ghost use Rattle.spi_lex.specs.Lexeme.{identifier};
    ghost use Rattle.spi_lex.specs.Lexing.{kind_of, is_version, is_two, is_semicolon};
    ghost use Rattle.spi_lex.specs.Reader.{seen_kind, is_next};

    /// The word, or the reserved word that it is.
    #[inline(always)]
    fn word(later: bool, word: &'t str) -> Seen<'t>
        ensures { seen_kind result ≡ Some (kind_of (words_of later) (identifier word.now)) }
    {
        match reserved_of(later, word) {
            Some(reserved) => Seen::Reserved(reserved),
            None => Seen::Word(word),
        }
    }

    /// What a token is.
    pub fn of(kind: &'t Kind) -> Seen<'t>
        ensures { seen_kind result ≡ Some kind.now }
    {
        match kind {
            Kind::Word(word) => Seen::Word(word.as_str()),
            Kind::Reserved(word) => Seen::Reserved(*word),
            Kind::Number(number) => Seen::Number(*number),
            Kind::Mark(mark) => Seen::Mark(*mark),
        }
    }

    fn is_version(self) -> bool
        ensures { result ≡ is_next is_version (seen_kind self.entry) }
    {
        match self {
            Seen::Word(word) => word == "version",
            _ => false,
        }
    }

    fn is_two(self) -> bool
        ensures { result ≡ is_next is_two (seen_kind self.entry) }
    {
        match self {
            Seen::Number(value) => value == 2,
            _ => false,
        }
    }

    fn is_semicolon(self) -> bool
        ensures { result ≡ is_next is_semicolon (seen_kind self.entry) }
    {
        match self {
            Seen::Mark(mark) => mark == Mark::Semicolon,
            _ => false,
        }
    }
}

impl<'t> Words<'t> {
    ghost use Rattle.std.specs.Str.{IsCharBoundary};
    ghost use Rattle.spi_lex.specs.declared.scan.Shape.TheVariants as shapes;
    ghost use Rattle.spi_lex.specs.Lexing.{kinds_of};
    ghost use Rattle.spi_lex.specs.Front.{IsFront};
    ghost use Rattle.spi_lex.specs.Writing.{AreKinds, AreSpans, spans_of};
    ghost use Rattle.spi_lex.specs.Left.{left_of, later_in, tokens_in};
    ghost use Rattle.spi_lex.specs.Reader.{seen_kind, tokens_from, tokens_behind, tokens_left};

    /// The tokens of a text of at most 16,777,216 bytes, the first one next. Where the first three are the
    /// word `version`, the number 2 and `;`, the words of version 2 are reserved.
    pub fn of(text: &'t str) -> Words<'t>
        requires { length text.now ≤ 16_777_216 }
        ensures left { tokens_left result ≡ tokens_in text.now }
        ensures later { result.later ≡ later_in text.now }
        // Words and numbers are in form, and the tokens stand one after another within the text.
        ensures kinds { AreKinds (kinds_of (tokens_in text.now)) }
        ensures spans { AreSpans 0 (spans_of (tokens_in text.now)) (length text.now) }
        ensures few { length (tokens_in text.now) ≤ length text.now }
    {
        let mut words = Words::before(text, false);
        words.advance();
        if words.begin_version_2(text) {
            words = Words::before(text, true);
            words.advance();
        }
        words
    }

    /// The tokens of the rest of a text, which stands at this offset, the first one next. `later` is whether the words of
    /// version 2 are reserved.
    pub fn behind(rest: &'t str, at: u32, later: bool) -> Words<'t>
        requires { at + length rest.now ≤ 16_777_216 }
        ensures { tokens_left result ≡ left_of later at rest.now }
    {
        let mut words = Words {
            kind: Seen::Nothing,
            from: 0,
            to: 0,
            rest,
            at,
            later,
        };
        words.advance();
        words
    }

    /// Whether the words of version 2 are reserved.
    pub fn is_later(&self) -> bool
        ensures { result ≡ self.now.later }
    {
        self.later
    }

    /// Nothing yet, and the whole text behind it.
    fn before(text: &'t str, later: bool) -> Words<'t>
        requires { length text.now ≤ 16_777_216 }
        ensures behind { tokens_behind result ≡ left_of later 0 text.now }
        ensures later { result.later ≡ later }
    {
        Words {
            kind: Seen::Nothing,
            from: 0,
            to: 0,
            rest: text,
            at: 0,
            later,
        }
    }

    /// Goes on to the token behind the one that stands next.
    #[inline(always)]
    pub fn advance(&mut self)
        ensures left { tokens_left self.new ≡ tokens_behind self.old }
        ensures later { self.new.later ≡ self.old.later }
    {
        let before = self.rest;
        let rest = after_blanks(before);
        if rest.is_empty() {
            self.kind = Seen::Nothing;
            return;
        }
        let at = self.at + (before.len() - rest.len()) as u32;
        match mark_of(rest.as_bytes()[0]) {
            Some(mark) => self.take(Seen::Mark(mark), rest, 1, at),
            None => self.advance_far(rest, at),
        }
    }

    /// Goes on to the first token of a text that stands at this offset.
    #[inline(never)]
    fn advance_far(&mut self, text: &'t str, from: u32)
        requires { from + length text.now ≤ 16_777_216 }
        ensures left { tokens_left self.new ≡ left_of self.old.later from text.now }
        ensures later { self.new.later ≡ self.old.later }
    {
        let mut rest = text;
        let mut at = from;
        while !rest.is_empty() {
            let Some((shape, len)) = front(rest) else {
                self.kind = Seen::Nothing;
                return;
            };
            match shape {
                Shape::Gap => {
                    let next = after_blanks(rest.split_at(len).1);
                    at += (rest.len() - next.len()) as u32;
                    rest = next;
                }
                Shape::Identifier => return self.take_word(rest, len, at),
                Shape::Number => return self.take_number(rest, len, at),
                Shape::Sign(mark) => return self.take(Seen::Mark(mark), rest, len, at),
            }
        }
        self.kind = Seen::Nothing;
    }

    /// The identifier at the front of a text that stands at this offset comes next.
    #[inline(always)]
    fn take_word(&mut self, text: &'t str, len: usize, at: u32)
        requires front { IsFront text.now shapes.Identifier len }
        requires within { at + length text.now ≤ 16_777_216 }
        ensures left { tokens_left self.new ≡ left_of self.old.later at text.now }
        ensures later { self.new.later ≡ self.old.later }
    {
        if len > NAME_BYTES {
            self.kind = Seen::Nothing;
            return;
        }
        let word = Seen::word(self.later, text.split_at(len).0);
        self.take(word, text, len, at);
    }

    /// The number at the front of a text that stands at this offset comes next.
    #[inline(always)]
    fn take_number(&mut self, text: &'t str, len: usize, at: u32)
        requires front { IsFront text.now shapes.Number len }
        requires within { at + length text.now ≤ 16_777_216 }
        ensures left { tokens_left self.new ≡ left_of self.old.later at text.now }
        ensures later { self.new.later ≡ self.old.later }
    {
        match text.split_at(len).0.parse::<u32>() {
            Ok(value) => self.take(Seen::Number(value), text, len, at),
            Err(_) => self.kind = Seen::Nothing,
        }
    }

    /// This comes next, as the front of a text that stands at this offset, and the rest of the text behind it.
    #[inline(always)]
    fn take(&mut self, kind: Seen<'t>, text: &'t str, len: usize, at: u32)
        requires cut { IsCharBoundary text.now len }
        requires within { at + length text.now ≤ 16_777_216 }
        ensures left { tokens_left self.new ≡ tokens_from (seen_kind kind.entry)
            (record { from = at; to = at + len }) (left_of self.old.later (at + len) (drop len text.now)) }
        ensures later { self.new.later ≡ self.old.later }
    {
        self.kind = kind;
        self.from = at;
        self.to = at + len as u32;
        self.at = self.to;
        self.rest = text.split_at(len).1;
    }

    /// Whether the tokens of this text begin a file of version 2, where the first of them comes next. It looks at the two
    /// behind it only where it has to.
    fn begin_version_2(self, _text: &str) -> bool
        requires { tokens_left self ≡ left_of false 0 _text.now }
        ensures { result ≡ later_in _text.now }
    {
        if !self.kind.is_version() {
            return false;
        }
        let mut words = self;
        words.advance();
        let second = words.kind.is_two();
        words.advance();
        second & words.kind.is_semicolon()
    }
}
