// Plays.

ghost use Rattle.std.specs.Prelude.{◌-◌, ◌^◌, ◌<◌, ◌≤◌, vec_len, IfOk, IfErr};
ghost use Rattle.std.specs.Option.{ForSome};
ghost use Rattle.spi_play.specs.Way.{seen_of};
ghost use Rattle.spi_play.specs.Play.{start};
ghost use Rattle.spi_play.specs.Outcome.{course, EndsAt, RefusedAt, AskedTell, OnlyPlay};

use crate::cursor::place_at_first;
use crate::player::Player;
use crate::turns::{Ahead, look_ahead, turn};
use spi_replay::Pool;
use spi_run::{Event, Step};
use std::alloc::Global;
use thiserror::Error;

/// How a play ended: the first of these that holds.
#[derive(Clone, Copy)]
pub enum Ended {
    /// As many steps were taken as it may have.
    MostReached,
    /// No player may be asked.
    NoPlayers,
    /// No step is ready.
    NoneReady,
}

/// What was played: the steps and their events, in order, and how it ended.
#[derive(Drop)]
pub struct Played {
    pub steps: Vec<Step>,
    pub events: Vec<Event>,
    pub ended: Ended,
}

/// Why a play is refused. The pool stands after the steps taken so far then, players that left are gone, and players that
/// were asked stay changed.
#[derive(Debug, Drop, PartialEq, Eq, Error)]
pub enum PlayFault {
    /// The player, by its place in the list at that moment, counted from 0, picked a number that is at least the number of
    /// ready steps.
    #[error("player {player} picks {picked} of {ready} steps")]
    BadPick {
        player: usize,
        picked: u64,
        ready: u64,
    },
    /// The pool refuses the step that was picked: a message has this number of nodes, which is above 1,000. The number
    /// stops at u64's greatest value.
    #[error("a message of {nodes} nodes")]
    RunMessageTooLarge {
        nodes: u64,
    },
    /// The pool refuses the step that was picked: it would have this number of places.
    #[error("a pool of {places} places")]
    TooManyPlaces {
        places: u32,
    },
    /// Memory ran out.
    #[error("out of memory")]
    NoMemory,
}

/// Plays until `most` steps were taken, no player may be asked or no step is ready.
///
/// In each turn the player at the cursor picks one of the ready steps, which is done, or leaves the list, and is dropped.
/// The cursor goes round the list. With `only` it stays at that player, counted from 0, and no other is asked.
pub fn play<'p>(
    alloc: Global,
    pool: &mut Pool<'p>,
    players: &mut Vec<Box<dyn Player>>,
    only: Option<usize>,
    most: u32,
) -> Result<Played, PlayFault>
    requires only { ForSome only (λ place. place < vec_len players.old) }
    requires names { pool.old.configuration.names ≤ 2 ^ 32 - 1 - most }
    ensures played { IfOk result (λ played. EndsAt only most
        (start pool.old (seen_of (λ b. times b) (λ b. way b) players.old.items) only)
        (course pool.new played.steps.items played.events.items)
        (seen_of (λ b. times b) (λ b. way b) players.new.items) played.ended) }
    ensures alone { IfOk result
        (λ played. AskedTell only (seen_of (λ b. times b) (λ b. way b) players.old.items) → OnlyPlay only most
        (start pool.old (seen_of (λ b. times b) (λ b. way b) players.old.items) only)
        (course pool.new played.steps.items played.events.items).steps) }
    ensures refused { IfErr result (λ fault. RefusedAt only most
        (start pool.old (seen_of (λ b. times b) (λ b. way b) players.old.items) only)
        pool.new (seen_of (λ b. times b) (λ b. way b) players.new.items) fault) }
{
    let mut steps = Vec::new(alloc);
    let mut events = Vec::new(alloc);
    let mut next = place_at_first(only, players.len());
    loop {
        match look_ahead(pool, next, steps.len(), most) {
            Ahead::Ends(ended) => {
                return Ok(Played {
                    steps,
                    events,
                    ended,
                });
            }
            Ahead::Asks { place, ready } => {
                match turn(pool, players, &mut steps, &mut events, only, place, ready) {
                    Ok(then) => next = then,
                    Err(fault) => return Err(fault),
                }
            }
        }
    }
}
