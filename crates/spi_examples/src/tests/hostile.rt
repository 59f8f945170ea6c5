// Hostile use by example: reads and writes that fail, files that are cut off, deep or doubling, players that leave.

use super::samples::{NoMemory, run_over, shows};
use spi_commands::{Menu, Pick, Player};
use spi_io::{MemorySink, MemorySource};
use spi_play::Scripted;
use std::alloc::Global;
use std::cell::Cell;
use std::rc::Rc;

/// The nonce handshake, of 350 bytes.
const HANDSHAKE: &[u8] = b"free a, b, net;
type Msg = (m: Un, n: Nonce [end (a, b, m)]);
process new (k: Key(Msg)); (
  inp net (q: Un); new (m: Un); begin (a, b, m);
  cast q is (p: Nonce [end (a, b, m)]); out net {(m, p)}k
| new (n: Un); out net n; inp net (c: Un);
  decrypt c is {x: Msg}k; split x is (m: Un, p: Nonce [end (a, b, m)]);
  check n is p; end (a, b, m); stop)
";

/// The numbers of the read and the write that fails, each of one byte, and how many bytes there is room for.
#[derive(Clone, Copy)]
struct Streams {
    read: Option<u64>,
    write: Option<u64>,
    room: usize,
}

const WELL: Streams = Streams {
    read: None,
    write: None,
    room: 100,
};

/// What a run of the words writes, and its code.
fn written(
    alloc: Global,
    words: &[&str],
    file: &[u8],
    streams: &Streams,
    players: &mut Vec<Box<dyn Player>>,
) -> Result<(Vec<u8>, u8), NoMemory> {
    let reads = streams.read.as_slice().to_vec(alloc)?;
    let writes = streams.write.as_slice().to_vec(alloc)?;
    let source = MemorySource::new(file.to_vec(alloc)?, 1, reads);
    let sink = MemorySink::new(alloc, streams.room, 1, writes)?;
    run_over(alloc, words, (source, sink), players)
}

/// Whether a run of the word without players writes this output and ends with this code.
fn is_written(
    alloc: Global,
    word: &str,
    file: &[u8],
    streams: &Streams,
    wanted: (&str, u8),
) -> Result<bool, NoMemory> {
    let (output, code) = written(alloc, &[word], file, streams, &mut Vec::new(alloc))?;
    Ok(output.as_slice() == wanted.0.as_bytes() && code == wanted.1)
}

#[test]
fn no_read_that_fails_has_an_answer(rt: HostRuntime) {
    for read in 0..352 {
        let streams = Streams {
            read: Some(read),
            ..WELL
        };
        let wanted = if read < 351 { ("", 3) } else { ("yes\n", 0) };
        let holds = is_written(rt.alloc(), "check", HANDSHAKE, &streams, wanted);
        shows(&rt, "a read of the handshake that fails", holds);
    }
}

#[test]
fn a_write_that_fails_leaves_what_was_written(rt: HostRuntime) {
    let table: [(Option<u64>, usize, &str, u8); 6] = [
        (Some(0), 100, "", 4),
        (Some(1), 100, "y", 4),
        (Some(2), 100, "ye", 4),
        (Some(3), 100, "yes", 4),
        (Some(4), 100, "yes\n", 0),
        (None, 2, "ye", 4),
    ];
    for (write, room, held, code) in table {
        let streams = Streams {
            read: None,
            write,
            room,
        };
        let holds = is_written(rt.alloc(), "check", HANDSHAKE, &streams, (held, code));
        shows(&rt, held, holds);
    }
}

/// Whether the first bytes of the handshake are refused as a file that is cut off.
fn is_cut_off(alloc: Global, length: usize) -> Result<bool, NoMemory> {
    let file = HANDSHAKE.get(..length).unwrap_or(HANDSHAKE);
    let (output, code) = written(alloc, &["check"], file, &WELL, &mut Vec::new(alloc))?;
    Ok(output.starts_with(b"refused: 20 Syntax at ") && code == 2)
}

#[test]
fn each_prefix_of_the_handshake_is_refused(rt: HostRuntime) {
    for length in 0..349 {
        let holds = is_cut_off(rt.alloc(), length);
        shows(&rt, "a handshake that is cut off", holds);
    }
    let without = HANDSHAKE.get(..349).unwrap_or(&[]);
    for file in [without, HANDSHAKE] {
        let holds = is_written(rt.alloc(), "check", file, &WELL, ("yes\n", 0));
        shows(&rt, "the whole handshake", holds);
    }
}

/// A word that is run on a text with a piece behind it so many times, and what is written with the code.
type Lengthened<'t> = (&'t str, &'t str, &'t str, u32, &'t str, u8);

fn is_long_written(alloc: Global, row: &Lengthened<'_>) -> Result<bool, NoMemory> {
    let (word, text, piece, count, output, code) = *row;
    let mut file = text.as_bytes().to_vec(alloc)?;
    for _ in 0..count {
        file.extend_from_slice(piece.as_bytes())?;
    }
    is_written(alloc, word, &file, &WELL, (output, code))
}

#[test]
fn what_is_too_deep_is_refused_where_it_is(rt: HostRuntime) {
    let message = "refused: 21 TooDeep at 1:1015\n";
    let process = "refused: 21 TooDeep at 1:509\n";
    for row in [
        ("check", "process begin ", "(", 2000, message, 2),
        ("check", "process ", "(", 600, process, 2),
    ] {
        shows(&rt, row.4, is_long_written(rt.alloc(), &row));
    }
}

/// A message that is a pair of the one before at each talk, nine times over.
const DOUBLING: &str = "free a; process stop
opponent repeat inp a (x: Un); out a (x, x) | out a ()
schedule act 1;
talk 2 1;
talk 3 1;
talk 4 1;
talk 5 1;
talk 6 1;
talk 7 1;
talk 8 1;
talk 9 1;
talk 10 1;
";

#[test]
fn a_message_that_doubles_is_refused_once_it_is_large(rt: HostRuntime) {
    let line = "refused: 62 RunMessageTooLarge at 13:1: 1023\n";
    for row in [
        ("replay", DOUBLING, "talk 11 1;\n", 0, "paid\n", 0),
        ("replay", DOUBLING, "talk 11 1;\n", 1, line, 2),
    ] {
        shows(&rt, row.4, is_long_written(rt.alloc(), &row));
    }
}

// How many players were dropped, and how often they were asked in all.
#[derive(Drop)]
struct Gone {
    players: Cell<u32>,
    asked: Cell<u64>,
}

// A player by a script, which is counted when it is dropped.
struct Counted {
    script: Scripted,
    gone: Rc<Gone>,
}

impl Drop for Counted {
    fn drop(self) {
        let Self { script, gone } = self;
        gone.players.set(gone.players.get().wrapping_add(1));
        gone.asked
            .set(gone.asked.get().wrapping_add(script.asked()));
    }
}

impl Player for Counted {
    ghost times = { λ s. ⟦<Scripted as Player>⟧.times s.script };

    ghost way = { λ s. ⟦<Scripted as Player>⟧.way s.script };

    fn pick(&mut self, menu: &Menu) -> Pick {
        self.script.pick(menu)
    }

    fn asked(&self) -> u64 {
        self.script.asked()
    }
}

// A player that picks these numbers, and then leaves.
fn player(alloc: Global, gone: &Rc<Gone>, script: &[u64]) -> Result<Box<dyn Player>, NoMemory> {
    let script = Scripted::new(script.to_vec(alloc)?);
    let gone = Rc::clone(gone)?;
    let player: Box<dyn Player> = Box::new(alloc, Counted { script, gone })?;
    Ok(player)
}

/// Whether a play of `begin a; begin a; stop` by two players with these scripts writes this output and ends so: with this
/// code, so many players left and so many dropped, and these asked so often.
fn is_played(
    alloc: Global,
    words: &[&str],
    scripts: [&[u64]; 2],
    output: &str,
    end: [u64; 4],
) -> Result<bool, NoMemory> {
    let gone = Rc::new(
        alloc,
        Gone {
            players: Cell::new(0),
            asked: Cell::new(0),
        },
    )?;
    let [first, second] = scripts;
    let mut players = Vec::new(alloc);
    players.push(player(alloc, &gone, first)?)?;
    players.push(player(alloc, &gone, second)?)?;
    let file = b"free a; process begin a; begin a; stop opponent stop";
    let (shown, code) = written(alloc, words, file, &WELL, &mut players)?;
    let left = players.len() as u64;
    let ended = [
        code as u64,
        left,
        gone.players.get() as u64,
        gone.asked.get(),
    ];
    Ok(shown.as_slice() == output.as_bytes() && ended == end)
}

const ALL: &[&str] = &["play", "--steps", "9"];

const SECOND_ALONE: &[&str] = &["play", "--steps", "9", "--player", "1"];

#[test]
fn players_that_leave_are_dropped_once(rt: HostRuntime) {
    let table: [(&[&str], [&[u64]; 2], &str, [u64; 4]); 4] = [
        (ALL, [&[], &[]], "schedule\n", [0, 0, 2, 2]),
        (SECOND_ALONE, [&[], &[]], "schedule\n", [0, 1, 1, 1]),
        (
            ALL,
            [&[], &[0, 0]],
            "schedule\nact 0;\nact 0;\n",
            [0, 1, 1, 1],
        ),
        (
            ALL,
            [&[0, 5], &[]],
            "refused: 70 BadPick: 0 5 1\n",
            [2, 1, 1, 1],
        ),
    ];
    for (words, scripts, output, end) in &table {
        let holds = is_played(rt.alloc(), words, *scripts, output, *end);
        shows(&rt, output, holds);
    }
}
