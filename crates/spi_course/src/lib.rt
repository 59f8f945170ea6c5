//! Courses: the schedule of a file, step by step, as people read it.
#![tactic(auto)]

mod answer;
mod chart;
mod course;
mod deeds;
mod follow;
mod laws;
mod naming;
mod roles;
mod scene;
mod source;
mod waiting;

pub use answer::{Account, Untold, course_text};
pub use course::{Course, Taken, take_all};
pub use laws::courses_are_runs;
use std::alloc::AllocError;

/// Memory ran out.
pub type NoMemory = AllocError;
