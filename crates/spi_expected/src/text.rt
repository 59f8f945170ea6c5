//! Texts of files that break off.

ghost use Rattle.std.specs.Prelude.{◌≡◌, ◌<◌, ◌≤◌, ℕ, List, length, take, IfOk, IfSome, IfNone, Ok};
ghost use Rattle.spi_lex.specs.declared.token.Token.{Token};
ghost use Rattle.spi_lex.specs.Lexing.{Lexes, kinds_of};
ghost use Rattle.spi_parse.specs.Exact.{IsSyntaxAt};
ghost use Rattle.spi_parse.specs.Formed.{whole_file, IsFile};
ghost use Rattle.spi_expected.specs.Expected.{candidates, AreThose, GoesOn};

use crate::NoMemory;
use crate::fronts::expected;
use bumpalo::Bump;
use spi_lex::{Kind, LexFault, lex};
use spi_parse::{ParseFault, parse};
use spi_tree::Room;
use std::alloc::{AllocError, Global};

/// The kinds of token of which one could stand where the syntax of these bytes breaks off, as `expected_in` says. The tree that
/// is read lies in the room.
fn expected_of(room: Room<'_>, bytes: &[u8]) -> Result<Option<Vec<Kind>>, NoMemory>
    requires { length bytes.now ≤ 16_777_216 }
    ensures some { IfOk result
        (λ r. IfSome r (λ those. (tokens : List Token) × (at : ℕ) × Lexes bytes.now (Ok tokens)
        × IsSyntaxAt whole_file IsFile (kinds_of tokens) at
        × AreThose (GoesOn (take at (kinds_of tokens))) candidates those.items)) }
    ensures none { IfOk result
        (λ r. IfNone r ((tokens : List Token) (at : ℕ) → Lexes bytes.now (Ok tokens)
        → length tokens < 16_777_216 → IsSyntaxAt whole_file IsFile (kinds_of tokens) at → ⊥)) }
{
    let tokens = match lex(room.alloc, bytes) {
        Ok(tokens) => tokens,
        Err(LexFault::NoMemory) => return Err(AllocError),
        Err(_) => return Ok(None),
    };
    if tokens.len() >= 16_777_216 {
        return Ok(None);
    }
    match parse(room, &tokens, bytes.len() as u32) {
        Ok(_) => Ok(None),
        Err(ParseFault::Syntax { token }) => Ok(Some(expected(room.alloc, &tokens, token)?)),
        Err(ParseFault::TooDeep { .. }) => Ok(None),
        Err(ParseFault::NoMemory) => Err(AllocError),
    }
}

/// The kinds of token of which one could stand where the syntax of these bytes breaks off. None where the bytes have no
/// tokens, where it doesn't break off, and for 16,777,216 tokens. Its only error is NoMemory.
pub fn expected_in(alloc: Global, bytes: &[u8]) -> Result<Option<Vec<Kind>>, NoMemory>
    requires { length bytes.now ≤ 16_777_216 }
    ensures some { IfOk result
        (λ r. IfSome r (λ those. (tokens : List Token) × (at : ℕ) × Lexes bytes.now (Ok tokens)
        × IsSyntaxAt whole_file IsFile (kinds_of tokens) at
        × AreThose (GoesOn (take at (kinds_of tokens))) candidates those.items)) }
    ensures none { IfOk result
        (λ r. IfNone r ((tokens : List Token) (at : ℕ) → Lexes bytes.now (Ok tokens)
        → length tokens < 16_777_216 → IsSyntaxAt whole_file IsFile (kinds_of tokens) at → ⊥)) }
{
    let bump = Bump::new(alloc);
    expected_of(Room { alloc, bump: &bump }, bytes)
}
