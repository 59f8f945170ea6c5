//! Blame: the first part of a message that lacks what typing asks of it, where the message lacks a wanted type or is no
//! label.
#![tactic(auto)]

mod blame;
mod laws;

pub use blame::{Blame, lacking, lacking_label};
pub use laws::{
    asks_are_the_rules, blamed_is_first, blamed_is_mismatch, lacks_where_blamed,
    mending_moves_right, misfits_have_reasons, no_label_where_blamed,
};
use std::alloc::AllocError;

/// Memory ran out.
pub type NoMemory = AllocError;
