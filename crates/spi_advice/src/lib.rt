//! Explanations for people: from the bytes of a file to the line that `check` writes, and behind it what is wrong, where, and
//! what usually mends it; and from the bytes to a trace of the file's schedule. The line, the status, what is found and the
//! course that is told are proved; the wording is tested.
#![tactic(auto)]

mod advice;
mod refusing;
mod tokens;
mod tracing;

pub use advice::{Advice, advise};
pub use spi_wording::Style;
use std::alloc::AllocError;
pub use tracing::{Trace, traced};

/// Memory ran out.
pub type NoMemory = AllocError;
