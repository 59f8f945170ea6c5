//! The commands: from the words of a command line and the bytes of a file to a status and what is written.
#![tactic(auto)]

mod afterwards;
mod answer;
mod answering;
mod asked;
mod bench;
mod canonical;
mod causes;
mod certificate;
mod derive;
mod knows;
mod load;
mod narrate;
mod opponent;
mod options;
mod play;
mod players;
mod reading;
mod rejection;
mod replay;
mod running;
mod schedule;
mod status;
mod text;
mod upgrade;
mod verify;
mod words;

pub use afterwards::Afterwards;
pub use asked::{Command, asked_of};
pub use players::{FirstReady, InTurn, Seeded};
pub use reading::{Unread, read};
pub use running::{one_file, refused_is_none, run};
pub use schedule::replays_are_runs;
pub use spi_play::{Menu, Pick, Player};
pub use status::Status;
use std::alloc::AllocError;
pub use text::refuse_too_many;

/// Memory ran out.
pub type NoMemory = AllocError;
