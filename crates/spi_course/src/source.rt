// The bytes of a file, with the places in them.

ghost use Rattle.std.specs.Prelude.{◌≡◌};
ghost use Rattle.spi_text.specs.Place.{IsSized};

use crate::NoMemory;
use spi_lex::{Kind, Token};
use spi_text::{Lines, Place};
use std::alloc::Global;

/// The bytes of a file with their lines. That these are theirs is a fact of the type.
#[derive(Drop)]
pub struct Source<'f> {
    bytes: &'f [u8],
    lines: Lines<'f>,
    ghost same: { lines ≡ bytes.now },
}

impl<'f> Source<'f> {
    /// The lines of these bytes.
    pub fn of(alloc: Global, bytes: &'f [u8]) -> Result<Source<'f>, NoMemory>
        requires { IsSized bytes.now }
    {
        let lines = Lines::of(alloc, bytes)?;
        Ok(Source { bytes, lines })
    }

    /// The place of an offset, where the bytes have it.
    pub fn place(&self, offset: u32) -> Option<Place> {
        if offset as usize <= self.bytes.len() {
            Some(self.lines.place(offset))
        } else {
            None
        }
    }
}

// How many of the tokens begin before an offset, where each begins behind the one before it.
fn tokens_before(tokens: &[Token], offset: u32) -> usize {
    let mut low = 0usize;
    let mut high = tokens.len();
    for _ in 0..32 {
        let middle = low.saturating_add(high) / 2;
        match tokens.get(middle) {
            Some(token) if token.span.from < offset && middle < high => {
                low = middle.saturating_add(1)
            }
            _ => high = middle,
        }
    }
    low
}

/// The name that a `new` binds which begins at an offset.
pub fn binder_at(tokens: &[Token], offset: u32) -> &str {
    let behind = tokens_before(tokens, offset).saturating_add(2);
    match tokens.get(behind) {
        Some(token) => match &token.kind {
            Kind::Word(word) => word.as_str(),
            _ => "",
        },
        None => "",
    }
}
