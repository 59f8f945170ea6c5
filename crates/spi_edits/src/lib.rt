//! The text of a bench as a tree: declarations, shared names and edits of parts.
#![tactic(auto)]

mod edits;
mod laws;
mod reading;
mod text;

pub use laws::one_bench;
pub use reading::{bench_in, read_bench};
pub use text::{BenchText, Edit};
