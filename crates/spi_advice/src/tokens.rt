// The tokens that places are told by.
ghost use Rattle.std.specs.Prelude.{◌≤◌, length};

use crate::NoMemory;
use spi_lex::{LexFault, Token, Tokens, lex};
use std::alloc::{AllocError, Global};

/// How many bytes a file has at most.
pub const LIMIT: usize = 16_777_216;

/// The tokens of the bytes by their numbers, or none where they have none.
pub fn tokens_of<'t>(alloc: Global, bytes: &'t [u8]) -> Result<Tokens<'t>, NoMemory>
    requires { length bytes.now ≤ 16_777_216 }
{
    match Tokens::of_bytes(alloc, bytes) {
        Ok(tokens) => Ok(tokens),
        Err(LexFault::NoMemory) => Err(AllocError),
        Err(_) => Ok(Tokens::List(&[])),
    }
}

/// A list of the tokens of the bytes, or an empty one where they have none.
pub fn list_of(alloc: Global, bytes: &[u8]) -> Result<Vec<Token>, NoMemory>
    requires { length bytes.now ≤ 16_777_216 }
{
    match lex(alloc, bytes) {
        Ok(tokens) => Ok(tokens),
        Err(LexFault::NoMemory) => Err(AllocError),
        Err(_) => Ok(Vec::new(alloc)),
    }
}
