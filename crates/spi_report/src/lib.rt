//! The lines that the program writes.
#![tactic(auto)]

ghost use Rattle.std.specs.Prelude.{◌≡◌, codes};

mod fault;
mod load;
mod refusal;
mod replay;
mod wrong;

pub use fault::no_fault;
pub use load::loaded;
pub use refusal::{Refusal, refused};
pub use replay::{events, first_unpaid};
use std::alloc::AllocError;
pub use wrong::wrong_step;

/// Memory ran out.
pub type NoMemory = AllocError;

/// The line of a yes.
pub fn yes() -> &'static [u8]
    ensures { result.now ≡ codes "yes\n" }
{
    b"yes\n"
}
