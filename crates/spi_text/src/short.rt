ghost use Rattle.std.specs.Prelude.{◌≡◌, ◌≤◌, ◌↔◌, take, length, IsSome, IfSome};
ghost use Rattle.std.specs.Str.{IsUtf8, IsCharBoundary};

use std::{fmt, str};

/// How many bytes a short text has at most.
const SIZE: usize = 14;

/// A text of at most 14 bytes, which lie in the value itself. The value has 15 bytes.
#[derive(Clone, Copy)]
pub(crate) struct Short {
    /// The text's bytes, and then bytes that say nothing.
    bytes: [u8; SIZE],
    /// How many of the bytes are the text.
    len: u8,
    ghost fits: { len ≤ 14 },
    ghost text: { ∥ IsUtf8 (take len bytes) ∥₁ },
}

impl Short {
    ghost use Rattle.spi_text.specs.Short.{short_bytes};

    /// The same text, where it is short enough.
    #[inline]
    pub(crate) fn of(s: &str) -> Option<Short>
        ensures some { IsSome result ↔ (length s.now ≤ 14) }
        ensures value { IfSome result (λ short. short_bytes short ≡ s.now) }
    {
        if s.len() > SIZE {
            return None;
        }
        let mut bytes = [0; SIZE];
        bytes[..s.len()].copy_from_slice(s.as_bytes());
        Some(Short {
            bytes,
            len: s.len() as u8,
        })
    }

    /// The first bytes of a text, up to where a character ends. So many bytes are copied at once as a value has.
    #[inline]
    pub(crate) fn front(s: &str, len: usize) -> Option<Short>
        requires { IsCharBoundary s.now len }
        ensures { IfSome result (λ short. short_bytes short ≡ take len s.now) }
    {
        if (len > SIZE) | (s.len() < SIZE) {
            return None;
        }
        let mut bytes = [0; SIZE];
        bytes.copy_from_slice(&s.as_bytes()[..SIZE]);
        Some(Short {
            bytes,
            len: len as u8,
        })
    }

    /// The text, borrowed.
    #[inline]
    pub(crate) fn as_str(&self) -> &str
        ensures { result.now ≡ short_bytes self.now }
    {
        unsafe { str::from_utf8_unchecked(&self.bytes[..self.len as usize]) }
    }
}

impl fmt::Debug for Short {
    fn fmt<W: fmt::Write>(&self, f: &mut fmt::Formatter<W>) -> fmt::Result {
        fmt::Debug::fmt(&self.as_str(), f)
    }
}
