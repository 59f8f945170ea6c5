//! What narrations and benches begin with: the version, the declarations and the shared names.
#![tactic(auto)]

mod heading;
mod repeated;
mod shared;
mod tokens;

pub use heading::{Heading, heading_at};
pub use repeated::{RepeatedPart, parts_at};
pub use shared::{Named, Shared, named_at, shared_at};
pub use tokens::{
    ReadPart, mark_at, reserved_at, span_between, spelled_at, take_mark, take_reserved,
    take_spelled, take_word, token_at, version_of,
};
