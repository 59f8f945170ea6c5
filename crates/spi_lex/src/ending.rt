//! Whether a text has tokens up to its end, without a list of them.

ghost use Rattle.std.specs.Prelude.{◌≡◌, ◌≢◌, ◌↔◌, ◌+◌, ◌≤◌, IsTrue, length, take, IfOk, IfErr, IfSome, MatchOption, None, Ok, Err};
ghost use Rattle.spi_lex.specs.Lexing.{Lexes};
ghost use Rattle.spi_lex.specs.declared.fault.LexFault.TheVariants.{NoMemory};
ghost use Rattle.spi_lex.specs.Front.{IsFront, FailsPart, AllowsPart};
ghost use Rattle.spi_lex.specs.Left.{tokens_in, OnlyGaps, end_of};
ghost use Rattle.spi_lex.specs.declared.scan.Shape.TheVariants as shapes;

use crate::LexFault;
use crate::lexer::NAME_BYTES;
use crate::scan::{Shape, after_blanks, front};
use simdutf8::from_utf8_baseline;

/// The bytes as a text, or the fault of bytes that are no UTF-8.
pub fn text_of(bytes: &[u8]) -> Result<&str, LexFault>
    requires { length bytes.now ≤ 16_777_216 }
    ensures ok { IfOk result (λ text. text.now ≡ bytes.now) }
    ensures err { IfErr result (λ fault. Lexes bytes.now (Err fault)) }
{
    match from_utf8_baseline(bytes) {
        Ok(text) => Ok(text),
        Err(error) => Err(LexFault::NotUtf8 {
            at: error.valid_up_to() as u32,
        }),
    }
}

/// Whether a text has nothing but gaps.
#[inline(never)]
fn only_gaps(text: &str) -> bool
    ensures { IsTrue result ↔ OnlyGaps text.now }
{
    let mut rest = after_blanks(text);
    while !rest.is_empty() {
        let Some((shape, len)) = front(rest) else {
            return false;
        };
        match shape {
            Shape::Gap => rest = after_blanks(rest.split_at(len).1),
            _ => return false,
        }
    }
    true
}

/// Whether the tokens that are taken one by one from a text are all its tokens, where the last of them ends at this offset, or
/// none comes and it is 0. It looks only at what stands behind it.
pub fn ends_behind(text: &str, at: u32) -> bool
    requires { at ≡ end_of 0 (tokens_in text.now) }
    ensures { IsTrue result → Lexes text.now (Ok (tokens_in text.now)) }
{
    match text.split_at_checked(at as usize) {
        Some((_, behind)) => only_gaps(behind),
        None => false,
    }
}

/// Why the front of a text, which stands at this offset, may not stand there.
fn fault_of(shape: Shape, text: &str, len: usize, at: u32) -> Option<LexFault>
    requires { IsFront text.now shape len }
    ensures { MatchOption result (AllowsPart shape (take len text.now))
        (λ fault. (fault ≢ NoMemory) × FailsPart shape (take len text.now) at fault) }
{
    match shape {
        Shape::Gap | Shape::Sign(_) => None,
        Shape::Identifier => {
            if len > NAME_BYTES {
                return Some(LexFault::NameTooLong { at });
            }
            None
        }
        Shape::Number => match text.split_at(len).0.parse::<u32>() {
            Ok(_) => None,
            Err(_) => Some(LexFault::BadNumber { at }),
        },
    }
}

/// The fault of a text that has no tokens, and none where it has tokens. It needs no memory.
pub fn fault_in(text: &str) -> Option<LexFault>
    requires { length text.now ≤ 16_777_216 }
    ensures { MatchOption result (Lexes text.now (Ok (tokens_in text.now)))
        (λ fault. Lexes text.now (Err fault)) }
{
    let mut rest = after_blanks(text);
    while !rest.is_empty() {
        let at = (text.len() - rest.len()) as u32;
        let Some((shape, len)) = front(rest) else {
            return Some(LexFault::BadChar { at });
        };
        match fault_of(shape, rest, len, at) {
            Some(fault) => return Some(fault),
            None => rest = after_blanks(rest.split_at(len).1),
        }
    }
    None
}

/// The fault of a text that has no tokens, and none where it has. The last of those that are taken one by one ends here.
pub fn fault_behind(text: &str, end: u32) -> Option<LexFault>
    requires within { length text.now ≤ 16_777_216 }
    requires end { end ≡ end_of 0 (tokens_in text.now) }
    ensures { MatchOption result (Lexes text.now (Ok (tokens_in text.now)))
        (λ fault. Lexes text.now (Err fault)) }
{
    if ends_behind(text, end) {
        return None;
    }
    fault_in(text)
}
