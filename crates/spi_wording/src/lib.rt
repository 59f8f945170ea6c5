//! The words of explanations, for people: what is wrong by a fault or a refusal, where, where it comes from, and what usually
//! mends it. What is found is proved where it is found; this crate only spells it, and its wording is tested.
#![tactic(auto)]

mod blame;
mod case;
mod expecting;
mod fault;
mod find;
mod help;
mod others;
mod page;
mod paid;
mod refusal;
mod source;
mod syntax;
mod terms;

pub use case::Case;
pub use expecting::tell_expected;
pub use fault::tell_fault;
pub use others::tell_others;
pub use page::{Page, Style};
pub use refusal::{tell_refusal, tell_yes};
pub use source::Source;
use std::alloc::AllocError;

/// Memory ran out.
pub type NoMemory = AllocError;
