// The commands by example, over streams in memory.

use super::samples::{NoMemory, UNPAID, run_over, shows, words_of};
use spi_commands::{Command, FirstReady, InTurn, Player, Seeded, asked_of};
use spi_io::{MemorySink, MemorySource};
use std::alloc::Global;

fn all_players(alloc: Global) -> Result<Vec<Box<dyn Player>>, NoMemory> {
    let first: Box<dyn Player> = Box::new(alloc, FirstReady::new())?;
    let turn: Box<dyn Player> = Box::new(alloc, InTurn::new())?;
    let seeded: Box<dyn Player> = Box::new(alloc, Seeded::new(1))?;
    Ok(Vec::from_array(alloc, [first, turn, seeded])?)
}

/// Whether a run of the words, with reads of four bytes and writes of two of which those with these numbers fail, writes
/// the output and ends with the code.
fn is_answer(
    alloc: Global,
    words: &[&str],
    file: &str,
    failing: [&[u64]; 2],
    wanted: (&str, u8),
) -> Result<bool, NoMemory> {
    let [reads, writes] = failing;
    let mut players = all_players(alloc)?;
    let bytes = file.as_bytes().to_vec(alloc)?;
    let source = MemorySource::new(bytes, 4, reads.to_vec(alloc)?);
    let sink = MemorySink::new(alloc, 1000, 2, writes.to_vec(alloc)?)?;
    let (output, code) = run_over(alloc, words, (source, sink), &mut players)?;
    Ok(output.as_slice() == wanted.0.as_bytes() && code == wanted.1)
}

const PAID: &str = "free a; process begin a; end a; stop opponent stop schedule act 0; act 0;";

const MADE: &str = "process new (k: Un); stop opponent stop schedule act 0;";

const NARRATED: &str = "free a;\nprocess begin a; stop\nopponent stop\nschedule\nact 0;\n";

const USAGE_LINE: &str =
    "usage: check | derive | verify | replay | play --steps N [--player I] | print | load K | upgrade | narrate | knows I | bench\n";

/// The words of a command line, a file, and what is written of it with the code.
const ANSWERS: [(&[&str], &str, &str, u8); 14] = [
    (&["check"], "process stop", "yes\n", 0),
    (&["check"], UNPAID, "no: 50 Unpaid at 1:17: end a\n", 1),
    (
        &["check"],
        "process stop stop",
        "refused: 20 Syntax at 1:14\n",
        2,
    ),
    (&["derive"], "process stop", "derivation\nProcStop\n", 0),
    (&["verify"], "process stop derivation ProcStop", "yes\n", 0),
    (&["replay"], PAID, "1 begin a\n2 end a from 1\npaid\n", 0),
    (
        &["play", "--steps", "9", "--player", "1"],
        PAID,
        "schedule\nact 0;\nact 0;\n",
        0,
    ),
    (&["print"], "process  stop", "process stop\n", 0),
    (&["load", "2"], "", "load 2: 173 nodes, 61 rules, yes\n", 0),
    (
        &["upgrade"],
        "process stop",
        "version 2;\nprocess stop\n",
        0,
    ),
    (&["narrate"], "free a; roles A; A: begin a;", NARRATED, 0),
    (&["knows", "0"], MADE, "unknown: #0\n", 1),
    (
        &["bench"],
        "free a; put A { end a; stop } drop A;",
        "1 no\n2 yes\n",
        0,
    ),
    (&["Check"], "", USAGE_LINE, 6),
];

#[test]
fn each_command_answers(rt: HostRuntime) {
    for (words, file, output, code) in &ANSWERS {
        let whole = is_answer(rt.alloc(), words, file, [&[], &[]], (*output, *code));
        shows(&rt, output, whole);
    }
}

#[test]
fn a_failed_read_writes_nothing(rt: HostRuntime) {
    for read in 0..4 {
        let failing: [&[u64]; 2] = [&[read], &[]];
        let empty = is_answer(rt.alloc(), &["check"], "process stop", failing, ("", 3));
        shows(&rt, "a read that fails", empty);
    }
}

#[test]
fn a_failed_write_leaves_a_prefix(rt: HostRuntime) {
    for (write, held) in &[(0, ""), (1, "ye")] {
        let failing: [&[u64]; 2] = [&[], &[*write]];
        let prefix = is_answer(rt.alloc(), &["check"], "process stop", failing, (*held, 4));
        shows(&rt, "a write that fails", prefix);
    }
}

/// Whether the words ask, where there are three players, for a play of so many steps at the most, or else for no play.
fn are_asked(alloc: Global, words: &[&str], wanted: Option<u32>) -> Result<bool, NoMemory> {
    let asked = words_of(alloc, words)?;
    let steps = match asked_of(alloc, &asked, 3)? {
        Some(Command::Play { most, only: _ }) => Some(most),
        _ => None,
    };
    Ok(steps == wanted)
}

#[test]
fn words_ask_for_plays(rt: HostRuntime) {
    let table: [(&[&str], Option<u32>); 5] = [
        (&["play", "--steps=1000"], Some(1000)),
        (&["play", "--player", "1", "--steps", "007"], Some(7)),
        (&["play", "--steps", "1001"], None),
        (&["play", "--player", "3", "--steps", "1"], None),
        (&["check"], None),
    ];
    for (words, wanted) in &table {
        shows(
            &rt,
            "words of a play",
            are_asked(rt.alloc(), words, *wanted),
        );
    }
}
