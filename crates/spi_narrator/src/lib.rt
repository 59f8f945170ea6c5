//! What a narration answers: its file with an honest schedule, or its first refusal.
#![tactic(auto)]

mod answer;
mod free;
mod laws;
mod telling;

pub use answer::{Answer, Refusal};
pub use laws::{one_telling, told_files_read_back};
use std::alloc::AllocError;
pub use telling::tell;

/// Memory ran out.
pub type NoMemory = AllocError;
