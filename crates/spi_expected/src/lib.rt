//! Which tokens could stand where the tokens of a file break off.
#![tactic(auto)]

mod candidates;
mod fronts;
mod text;

pub use fronts::expected;
use std::alloc::AllocError;
pub use text::expected_in;

/// Memory ran out.
pub type NoMemory = AllocError;
