//! What rules of two premises lead to: the least closure, in an order in which premises stand first, and what of it a number needs.
#![tactic(auto)]

mod closing;
mod rules;
mod tracing;
mod waiting;

pub use closing::{Closure, close};
pub use rules::{Reached, Rule, Why};
use std::alloc::AllocError;
pub use tracing::{Ground, Line, trace};

/// Memory ran out.
pub type NoMemory = AllocError;
