ghost use Rattle.std.specs.Prelude.{◌≡◌};
ghost use Rattle.spi_parse.specs.declared.fault.Stop.TheVariants.{NoMemory};

use spi_lex::LexFault;
use std::alloc::{AllocError, AllocFailed};
use thiserror::Error;

/// Why tokens are no tree, with the token at which it is seen.
#[derive(Debug, Drop, Error)]
pub enum ParseFault {
    /// No tree goes on with this token; at the end of the tokens it is their number.
    #[error("no tree goes on with token {token}")]
    Syntax { token: u32 },
    /// A node above a nesting limit starts at this token.
    #[error("a node above a nesting limit starts at token {token}")]
    TooDeep { token: u32 },
    #[error("out of memory")]
    NoMemory,
}

/// Why bytes are no tree, with the offset at which it is seen.
#[derive(Debug, Drop)]
pub enum ByteFault {
    /// They have no tokens, for this fault.
    Lexical(LexFault),
    /// No tree goes on with the token that begins here; behind all tokens it is the end of the bytes.
    Syntax { at: u32 },
    /// A node above a nesting limit starts here.
    TooDeep { at: u32 },
    NoMemory,
}

/// What is wrong, and how many tokens are left where it is found.
#[derive(Clone, Copy)]
pub enum Fault {
    Syntax(usize),
    TooDeep(usize),
}

/// Why reading stopped.
#[derive(Clone, Copy)]
pub enum Stop {
    NoMemory,
    Fault(Fault),
}

impl From<AllocError> for Stop {
    ghost from_gives = { λ _ e. e ≡ NoMemory };

    fn from(_e: AllocError) -> Stop {
        Stop::NoMemory
    }
}

impl<T: Drop> From<AllocFailed<T>> for Stop {
    ghost from_gives = { λ _ e. e ≡ NoMemory };

    fn from(_e: AllocFailed<T>) -> Stop {
        Stop::NoMemory
    }
}
