//! The spelling of a name as a key: with a number by which it is hashed.

ghost use Rattle.std.specs.Prelude.{◌≡◌, ◌+◌, ◌^◌, ◌<◌, ◌≤◌, length, take, drop};
ghost use Rattle.spi_scope.specs.Spelling.{spelled, front_of, AreBytes};

use std::hash::{Hash, Hasher};
use std::marker::Model;

/// The number that the four bytes from here on spell.
#[inline(always)]
fn four(bytes: &[u8], at: usize) -> u64
    requires { at + 4 ≤ length bytes.now }
    ensures number { result ≡ spelled (take 4 (drop at bytes.now)) }
    ensures below { result < 2 ^ 32 }
{
    let low = bytes[at] as u64 + bytes[at + 1] as u64 * 256;
    let high = bytes[at + 2] as u64 + bytes[at + 3] as u64 * 256;
    low + high * 65_536
}

/// The number that tells a short word.
#[inline(always)]
fn front(word: &str) -> u64
    ensures number { result ≡ front_of word.now }
    ensures bytes { AreBytes word.now }
{
    match word.as_bytes() {
        [] => 0,
        [a] => *a as u64,
        [a, b] => *a as u64 + *b as u64 * 256,
        [a, b, c] => *a as u64 + *b as u64 * 256 + *c as u64 * 65_536,
        bytes => four(bytes, 0) + four(bytes, bytes.len() - 4) * 4_294_967_296,
    }
}

/// A spelling, with a number that its first and its last bytes give. Most others are told from it by that, and where a
/// word has at most eight bytes, all: so it is hashed by that number, and a longer one by its bytes.
#[derive(Drop)]
pub struct Spelling<'t> {
    front: u64,
    word: &'t str,
}

impl<'t> Model for Spelling<'t> {
    ghost use Rattle.std.specs.Prelude.{◌≡◌, ℕ, List};
    ghost use Rattle.std.specs.Coded.{coded_ℕ, coded_list};
    ghost use Rattle.spi_scope.specs.Spelling.{front_of, AreBytes};

    ghost Value = { List ℕ };

    ghost coded = { coded_list coded_ℕ };

    ghost view = { λ s. s.word.now };

    ghost invariant = { λ s. (s.front ≡ front_of s.word.now) × AreBytes s.word.now };
}

impl<'t> Spelling<'t> {
    /// The spelling of a word.
    #[inline]
    pub fn of(word: &'t str) -> Self
        ensures { result ≡ word.now }
    {
        Spelling {
            front: front(word),
            word,
        }
    }

    /// The number that the first and the last bytes give.
    #[inline(always)]
    pub fn number(&self) -> u64
        ensures { result ≡ front_of self.now }
    {
        self.front
    }
}

impl PartialEq for Spelling<'_> {
    ghost use Rattle.std.specs.Str.{bytes_eq};
    ghost use Rattle.std.specs.Cmp.{partial_equiv_from_equiv};
    ghost use Rattle.std.specs.Cmp.Lexicographic.{nat_list_eq_equiv};

    ghost eq = { bytes_eq };

    ghost laws = { partial_equiv_from_equiv nat_list_eq_equiv };

    #[inline(always)]
    fn eq(&self, other: &Self) -> bool {
        let alike = (self.front == other.front) & (self.word.len() == other.word.len());
        alike && (self.word.len() <= 8 || self.word == other.word)
    }
}

impl Eq for Spelling<'_> {
    ghost use Rattle.std.specs.Cmp.Lexicographic.{nat_list_eq_equiv};

    ghost laws = { nat_list_eq_equiv };
}

impl Hash for Spelling<'_> {
    ghost use Rattle.std.proofs.Common.{ap};
    ghost use Rattle.std.specs.Cmp.Lexicographic.{bytes_decides};
    ghost use Rattle.spi_scope.specs.Spelling.{fed_word};

    ghost hash_input = { fed_word };

    ghost respects_eq = { λ x y h. ap fed_word ((bytes_decides x y).0 h) };

    #[inline(always)]
    fn hash<H: Hasher>(&self, state: &mut H) {
        if self.word.len() <= 8 {
            self.front.hash(state);
        } else {
            self.word.hash(state);
        }
    }
}
