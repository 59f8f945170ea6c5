//! What a bench answers, defined in `specs/Answers.antt`, and its parts: how many nodes its heading and its edits have, the work
//! before any edit, and the edits in order, each with its verdict, up to the first that is refused.
#![tactic(auto)]

mod answer;
mod behind;
mod bench;
mod counting;
mod judging;
mod placing;
mod sizes;

pub use answer::{Answer, Refusal, Verdicts};
pub use bench::{judge_edits, start};
pub use counting::{Counted, count_bench};
pub use judging::{Work, judge_all};
use std::alloc::AllocError;

/// Memory ran out.
pub type NoMemory = AllocError;
