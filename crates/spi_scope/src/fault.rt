ghost use Rattle.std.specs.Prelude.{◌≡◌};
ghost use Rattle.spi_scope.specs.declared.fault.ScopeFault.TheVariants.{NoMemory as OutOfMemory};

use spi_text::{Span, Text};
use std::alloc::{AllocError, AllocFailed};
use thiserror::Error;

/// Why a tree stands for no file. Each fault but `NoMemory` is the first one in the order of the tokens, and at one
/// token the one that stands first here. A count stops at u64's greatest value.
#[derive(Debug, Drop, Error)]
pub enum ScopeFault {
    /// No name with this spelling is in scope.
    #[error("no name is spelled so")]
    UnknownName { span: Span, word: Text },
    /// No abbreviation with this spelling was declared before.
    #[error("no type is spelled so")]
    UnknownType { span: Span, word: Text },
    /// A free name with this spelling was declared before.
    #[error("a free name is declared twice")]
    NameTwice { span: Span, word: Text },
    /// An abbreviation with this spelling was declared before.
    #[error("a type is declared twice")]
    TypeTwice { span: Span, word: Text },
    /// An outermost message, or that of an atom, has more than 200 nodes.
    #[error("a message of {count} nodes")]
    MessageTooLarge { span: Span, count: u64 },
    /// An annotation, or the type of an abbreviation, has more than 1,000 nodes.
    #[error("a type of {count} nodes")]
    TypeTooLarge { span: Span, count: u64 },
    /// The file has more than 100,000 nodes: `count` of them with the item at `span`.
    #[error("a file of {count} nodes and more")]
    FileTooLarge { span: Span, count: u64 },
    /// The schedule has more than 10,000 steps, `count` of them. The step with number 10,001 is at `span`.
    #[error("a schedule of {count} steps")]
    ScheduleTooLong { span: Span, count: u64 },
    /// Memory ran out.
    #[error("out of memory")]
    NoMemory,
}

impl From<AllocError> for ScopeFault {
    ghost from_gives = { λ _ e. e ≡ OutOfMemory };

    fn from(_e: AllocError) -> ScopeFault {
        ScopeFault::NoMemory
    }
}

impl<T: Drop> From<AllocFailed<T>> for ScopeFault {
    ghost from_gives = { λ _ e. e ≡ OutOfMemory };

    fn from(_e: AllocFailed<T>) -> ScopeFault {
        ScopeFault::NoMemory
    }
}
