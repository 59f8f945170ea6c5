//! Plays: players pick the steps that a pool takes.
#![tactic(auto)]

mod cursor;
mod laws;
mod player;
mod plays;
mod scripted;
mod turns;

pub use laws::{play_runs, turns_fit};
pub use player::{Menu, Pick, Player};
pub use plays::{Ended, PlayFault, Played, play};
pub use scripted::Scripted;
