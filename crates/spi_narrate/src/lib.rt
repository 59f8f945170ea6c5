//! Narrations: protocols told as a list of lines by roles.
#![tactic(auto)]

mod fault;
mod faultless;
mod forms;
mod laws;
mod lines;
mod reading;
mod roles;
mod tree;

pub use fault::NarrateFault;
pub use faultless::{narration_in, read_narration};
pub use laws::{one_first_fault, one_narration};
pub use reading::parse_narration;
pub use roles::roles_at;
pub use tree::{Line, Narration, Prefix};
