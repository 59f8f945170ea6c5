//! Laws of reading: what `parse` and the readers of parts answer is determined, a text is cut in one way into a part and
//! what is behind it, and where one part is too deep, every part that begins so is.
#![tactic(auto)]

mod laws;

pub use laws::{
    files_agree_on_depth, no_part_begins_another, one_answer, one_part_answer, one_part_in_front,
    parts_agree_on_depth,
};
