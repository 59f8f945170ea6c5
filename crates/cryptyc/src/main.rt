//! Checks a file that is read from standard input, derives its typing, verifies the derivation that it has, replays its
//! schedule or plays one, prints the file or upgrades it, and writes the answer to standard output. `load` reads no file.
#![tactic(auto)]

use spi_commands::{Afterwards, FirstReady, InTurn, Player, Seeded, Status, run};
use spi_io::{StdSink, StdSource, words};
use std::process::ExitCode;

/// Runs over standard input and output, and ends with the code of the status.
fn main(rt: HostRuntime) -> ExitCode {
    let alloc = rt.alloc();
    let Ok(words) = words(&rt) else {
        return ExitCode::from(Status::NoMemory.code());
    };
    let mut players: Vec<Box<dyn Player>> = Vec::new(alloc);
    let (Ok(first), Ok(turn), Ok(seeded)) = (
        Box::new(alloc, FirstReady::new()),
        Box::new(alloc, InTurn::new()),
        Box::new(alloc, Seeded::new(1)),
    ) else {
        return ExitCode::from(Status::NoMemory.code());
    };
    if players.push(first).is_err()
        || players.push(turn).is_err()
        || players.push(seeded).is_err()
    {
        return ExitCode::from(Status::NoMemory.code());
    }
    let status = run(
        alloc,
        Afterwards::Ends,
        &words,
        &mut StdSource::new(&rt),
        &mut StdSink::new(&rt),
        &mut players,
    );
    ExitCode::from(status.code())
}
