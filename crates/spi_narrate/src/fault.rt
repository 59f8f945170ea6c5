//! Why tokens are no narration.

ghost use Rattle.std.specs.Prelude.{◌≡◌};
ghost use Rattle.spi_narrate.specs.declared.fault.NarrateFault.TheVariants.{NoMemory};

use spi_text::{Span, Text};
use std::alloc::AllocError;

/// Why tokens are no narration that can be woven, with the place at which it is seen.
pub enum NarrateFault {
    /// No narration goes on with this token; at the end of the tokens it is their number.
    Syntax { token: u32 },
    /// A node above a nesting limit starts at this token.
    TooDeep { token: u32 },
    /// A line names a role that isn't declared.
    UnknownRole { span: Span, word: Text },
    /// A role is declared again.
    RoleTwice { span: Span, word: Text },
    /// An item stands past its limit: 16 shared names, 8 roles or 200 lines. The count is of all items of its kind.
    NarrationTooLarge { span: Span, count: u64 },
    /// Memory ran out.
    NoMemory,
}

impl From<AllocError> for NarrateFault {
    ghost from_gives = { λ _ e. e ≡ NoMemory };

    fn from(_: AllocError) -> NarrateFault {
        NarrateFault::NoMemory
    }
}

impl Drop for NarrateFault {
    fn drop(self) {
        match self {
            NarrateFault::Syntax { token: _ } => {}
            NarrateFault::TooDeep { token: _ } => {}
            NarrateFault::UnknownRole { span: _, word: _ } => {}
            NarrateFault::RoleTwice { span: _, word: _ } => {}
            NarrateFault::NarrationTooLarge { span: _, count: _ } => {}
            NarrateFault::NoMemory => {}
        }
    }
}
