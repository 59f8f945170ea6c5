//! The tokens of a text by their numbers.

ghost use Rattle.std.specs.Prelude.{◌≡◌, ◌*◌, ◌≤◌, ◌<◌, ℕ, Some, length, drop, IfOk};
ghost use Rattle.spi_lex.specs.Left.{tokens_in, later_in, end_of};
ghost use Rattle.spi_lex.specs.Places.{ArePlaces, AreRising, IsNotBefore, start_of};
ghost use Rattle.spi_lex.specs.Reader.{tokens_left};
ghost use Rattle.spi_lex.specs.Lexing.{kinds_of};
ghost use Rattle.spi_lex.specs.Writing.{AreKinds, AreSpans, spans_of};

use crate::NoMemory;
use crate::reader::{Seen, Words};
use std::alloc::Global;

/// The tokens of a text by their numbers from 0, without a list of them. The place of each eighth is kept, and from there on
/// they are taken again: so it takes half a byte a token.
#[derive(Drop)]
pub struct Numbered<'t> {
    text: &'t str,
    /// Whether the words of version 2 are reserved.
    later: bool,
    /// The offsets behind which the tokens with the numbers 0, 8, 16 and so on stand.
    places: Vec<u32>,
    count: u32,
    ghost within: { length text.now ≤ 16_777_216 },
    ghost version: { later ≡ later_in text.now },
    ghost kept: { ArePlaces text.now later places.items },
    ghost rising: { AreRising (tokens_in text.now) },
    ghost all: { length (tokens_in text.now) < 8 * length places.items },
    ghost counted: { count ≡ length (tokens_in text.now) },
    ghost few: { length (tokens_in text.now) ≤ 16_777_216 },
}

/// How many tokens further the next place is kept.
const APART: u32 = 8;

/// The places of each eighth token of a text, the number of all, and where the last of them ends.
fn places_of(alloc: Global, text: &str) -> Result<(Vec<u32>, u32, u32), NoMemory>
    requires { length text.now ≤ 16_777_216 }
    ensures kept { IfOk result (λ r. ArePlaces text.now (later_in text.now) r.0.items) }
    ensures all { IfOk result (λ r. length (tokens_in text.now) < 8 * length r.0.items) }
    ensures counted { IfOk result (λ r. r.1 ≡ length (tokens_in text.now)) }
    ensures end { IfOk result (λ r. r.2 ≡ end_of 0 (tokens_in text.now)) }
{
    let mut places = Vec::new(alloc);
    places.push(0)?;
    let mut words = Words::of(text);
    let mut count = 0;
    let mut end = 0;
    let mut ahead = APART;
    loop {
        match words.kind {
            Seen::Nothing => return Ok((places, count, end)),
            _ => {
                end = words.to;
                count += 1;
                ahead -= 1;
                words.advance();
            }
        }
        if ahead == 0 {
            places.push(end)?;
            ahead = APART;
        }
    }
}

/// The tokens behind the next so many.
fn past<'t>(start: Words<'t>, count: u32) -> Words<'t>
    ensures { tokens_left result ≡ drop count (tokens_left start.entry) }
{
    let mut words = start;
    let mut ahead = count;
    while ahead > 0 {
        match words.kind {
            Seen::Nothing => return words,
            _ => {
                words.advance();
                ahead -= 1;
            }
        }
    }
    words
}

impl<'t> Numbered<'t> {
    /// The tokens that come one by one from a text, by their numbers, and the offset behind the last of them.
    pub fn of(alloc: Global, text: &'t str) -> Result<(Numbered<'t>, u32), NoMemory>
        requires { length text.now ≤ 16_777_216 }
        ensures text { IfOk result (λ r. r.0.text.now ≡ text.entry.now) }
        ensures end { IfOk result (λ r. r.1 ≡ end_of 0 (tokens_in text.entry.now)) }
        // Their words and numbers are in form, and they stand one after another within the text.
        ensures kinds { IfOk result (λ r. AreKinds (kinds_of (tokens_in text.entry.now))) }
        ensures spans { IfOk result
            (λ r. AreSpans 0 (spans_of (tokens_in text.entry.now)) (length text.entry.now)) }
    {
        let later = Words::of(text).is_later();
        let (places, count, end) = places_of(alloc, text)?;
        let numbered = Numbered {
            text,
            later,
            places,
            count,
        };
        Ok((numbered, end))
    }

    /// How many there are.
    pub fn count(&self) -> u32
        ensures { result ≡ length (tokens_in self.now.text.now) }
    {
        self.count
    }

    /// The tokens from this number on, the first of them next.
    pub fn words_from(&self, at: u32) -> Words<'t>
        ensures { tokens_left result ≡ drop at (tokens_in self.now.text.now) }
    {
        match self.places.get((at / APART) as usize) {
            Some(place) => {
                let rest = self.text.split_at(*place as usize).1;
                past(Words::behind(rest, *place, self.later), at % APART)
            }
            None => Words::of(""),
        }
    }

    /// A number from `from` on, whose place is kept unless it is `from`, and which the token that begins at this offset isn't
    /// before. The time is that of an eighth of the tokens on the way.
    fn near(&self, from: u32, start: u32) -> u32
        requires { from ≤ length (tokens_in self.now.text.now) }
        ensures within { result ≤ length (tokens_in self.now.text.now) }
        ensures before { IsNotBefore (tokens_in self.now.text.now) from (Some start) result }
    {
        let mut number = from;
        loop {
            let next = (number / APART + 1) * APART;
            let words = self.words_from(next);
            match words.kind {
                Seen::Nothing => return number,
                _ => {
                    if words.from > start {
                        return number;
                    }
                    number = next;
                }
            }
        }
    }

    /// The number of the token that begins at this offset, from number `from` on, and how many tokens there are where none
    /// is meant. The time is that of an eighth of the tokens on the way.
    pub fn number_of(&self, from: u32, start: Option<u32>) -> u32
        requires { from ≤ length (tokens_in self.now.text.now) }
        ensures { (n : ℕ) → from ≤ n → n ≤ length (tokens_in self.now.text.now)
            → start ≡ start_of (drop n (tokens_in self.now.text.now)) → result ≡ n }
    {
        let Some(place) = start else {
            return self.count;
        };
        let mut number = self.near(from, place);
        let mut here = self.words_from(number);
        loop {
            match here.kind {
                Seen::Nothing => return number,
                _ => {
                    if here.from == place {
                        return number;
                    }
                    number += 1;
                    here.advance();
                }
            }
        }
    }
}
