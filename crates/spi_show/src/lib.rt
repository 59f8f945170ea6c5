//! Texts of the calculus.
#![tactic(auto)]

mod below;
mod derivations;
mod files;
mod nodes;
mod pieces;
mod processes;
mod report;
mod shift;
mod spell;
mod steps;
mod terms;

pub use below::is_before;
pub use derivations::show_derivation;
pub use files::show_file;
pub use report::{put_reported, show_atom, show_message};
pub use shift::least_behind;
use std::alloc::AllocError;
pub use steps::show_steps;

/// Memory ran out.
pub type NoMemory = AllocError;
