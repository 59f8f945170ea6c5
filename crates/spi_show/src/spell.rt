// How names are spelled in canonical texts.

ghost use Rattle.std.specs.Prelude.{◌≡◌, ◌+◌, ◌<◌, ◌^◌, ◌∷◌, ◌++◌, OnOk};
ghost use Rattle.std.specs.Fmt.{decimal};
ghost use Rattle.spi_show.specs.Spells.{spelling};

use crate::NoMemory;
use itoa::Buffer;
use spi_text::Text;
use std::alloc::Global;
use std::marker::Model;

/// A number that others are moved up by.
#[derive(Drop)]
pub struct Shift {
    by: u128,
}

impl Model for Shift {
    ghost use Rattle.std.specs.Prelude.{ℕ, ◌<◌, ◌^◌};
    ghost use Rattle.std.specs.Coded.{coded_ℕ};

    ghost Value = { ℕ };

    ghost coded = { coded_ℕ };

    ghost view = { λ s. s.by };

    ghost invariant = { λ s. s.by < 2 ^ 100 };
}

impl Shift {
    /// The shift by so many numbers.
    pub fn of(by: u128) -> Shift
        requires { by < 2 ^ 100 }
        ensures { result ≡ by }
    {
        Shift { by }
    }

    // The number x moved up.
    fn moved(&self, x: u32) -> u128
        ensures { result ≡ x + self.now }
    {
        x as u128 + self.by
    }
}

/// How names are spelled: each by `#` and its number, or the free ones as they are given and each other by `v` and its
/// number, moved up.
#[derive(Drop)]
pub enum NameSpelling<'a> {
    Numbered,
    Named(&'a [Text], Shift),
}

/// How the names of a text are spelled, and where what is written stands in memory.
#[derive(Drop)]
pub struct Spell<'a> {
    pub alloc: Global,
    pub names: NameSpelling<'a>,
}

// Appends a letter and a number.
fn put_numbered(out: &mut Vec<u8>, letter: u8, number: u128) -> Result<(), NoMemory>
    ensures { OnOk result (out.new.items ≡ out.old.items ++ letter ∷ decimal number) }
{
    let mut buffer = Buffer::new();
    out.push(letter)?;
    out.extend_from_slice(buffer.format(number).as_bytes())
}

/// Appends the name with this number.
pub fn put_name(spell: &Spell, x: u32, out: &mut Vec<u8>) -> Result<(), NoMemory>
    ensures { OnOk result (out.new.items ≡ out.old.items ++ spelling spell.now x) }
{
    match &spell.names {
        NameSpelling::Numbered => put_numbered(out, b'#', x as u128),
        NameSpelling::Named(free, shift) => match free.get(x as usize) {
            Some(word) => out.extend_from_slice(word.as_str().as_bytes()),
            None => put_numbered(out, b'v', shift.moved(x)),
        },
    }
}
