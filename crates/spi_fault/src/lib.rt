//! The reason of a no: the first check that fails at the first node that blocks, or an atom that nothing pays for.
#![tactic(auto)]

mod check;
mod deciding;
mod explaining;
mod fault;
mod laws;
mod least;

pub use explaining::{explain, unpaid};
pub use fault::{Fault, Reason, Shown};
pub use laws::blocking_fails_a_check;
use std::alloc::AllocError;

/// Memory ran out.
pub type NoMemory = AllocError;
