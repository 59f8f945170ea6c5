//! Explains what `cryptyc check` answers to a file: its line, and behind it what is wrong, where, and what usually mends it.
//! Or tells a file's schedule step by step. The statuses are those of `check` and of `replay`.
#![tactic(auto)]

mod asked;

use asked::{Asked, Color, Explain, Trace, asked_of};
use spi_advice::{Style, advise, traced};
use spi_commands::Status;
use spi_io::{StdSink, put_all, words};
use std::alloc::Global;
use std::io::{IsTerminal, Read};
use std::process::ExitCode;
use std::{fs, io};

/// How many bytes are read at most: one more than a file may have.
const MOST: u64 = 16_777_217;

/// The line for words that ask for nothing.
const USAGE: &[u8] =
    b"usage: cryptyc_explain [explain] [--lines] [--color auto|always|never] [--help] [--version] [FILE]
       cryptyc_explain trace [--chart] [--help] [--version] [FILE]\n";

/// What `--help` writes.
const HELP: &[u8] = b"cryptyc_explain [explain] [--lines] [--color auto|always|never] [FILE]
cryptyc_explain trace [--chart] [FILE]

Explains what `cryptyc check` answers to FILE, or to standard input. The first line is the one that `check` writes;
behind it stands what is wrong, where, where it comes from, and what usually mends it.

  --lines          one finding a line, for other programs: FROM-TO KIND: TEXT, with the offsets of its bytes
  --color WHEN     colours: auto (on a terminal), always or never
  --help           this text
  --version        the version

The status is that of check: 0 yes, 1 no, 2 refused, 3 a read failed, 4 a write failed, 5 no memory, 6 other words;
and 74 where FILE can't be read.

With the word trace it tells the schedule of FILE step by step: the place of each step, what it did, and what each
place waits for at the end; and of a step that is refused why, and which steps would be ready. The status is that of
replay: 0 each end is paid for, 1 one isn't, 2 refused.

  --chart          a Mermaid sequence chart in place of the text
";

const VERSION: &[u8] = b"cryptyc_explain 1\n";

/// The status where the named file can't be read. The statuses of `check` and `replay` are below 70.
const UNREADABLE: u8 = 74;

/// Why there are no bytes.
enum Missing {
    /// The named file isn't there, or can't be read.
    Unreadable,
    /// A read of standard input failed, or memory ran out.
    Fault(Status),
}

/// The bytes of the file with this name, or one more than a file may have.
fn bytes_of(rt: &HostRuntime, alloc: Global, name: &str) -> Result<Vec<u8>, Missing> {
    let Ok(file) = fs::File::open(rt, name) else {
        return Err(Missing::Unreadable);
    };
    let mut bytes = Vec::new(alloc);
    match file.take(MOST).read_to_end(&mut bytes) {
        Ok(_) => Ok(bytes),
        Err(e) if e.kind() == io::ErrorKind::OutOfMemory => Err(Missing::Fault(Status::NoMemory)),
        Err(_) => Err(Missing::Unreadable),
    }
}

/// The bytes of standard input, or one more than a file may have.
fn bytes_in(rt: &HostRuntime, alloc: Global) -> Result<Vec<u8>, Missing> {
    let input = rt.reader();
    let mut bytes = Vec::new(alloc);
    match input.take(MOST).read_to_end(&mut bytes) {
        Ok(_) => Ok(bytes),
        Err(e) if e.kind() == io::ErrorKind::OutOfMemory => Err(Missing::Fault(Status::NoMemory)),
        Err(_) => Err(Missing::Fault(Status::ReadFault)),
    }
}

/// The bytes of the named file, or of standard input where none is named.
fn bytes_from(rt: &HostRuntime, alloc: Global, file: Option<&str>) -> Result<Vec<u8>, Missing> {
    match file {
        Some(name) => bytes_of(rt, alloc, name),
        None => bytes_in(rt, alloc),
    }
}

/// The code of a status where the bytes are missing. A file that can't be read is named on standard error.
fn missed(rt: &HostRuntime, file: Option<&str>, why: Missing) -> u8 {
    match why {
        Missing::Fault(status) => status.code(),
        Missing::Unreadable => {
            let name = file.unwrap_or("");
            let _ = eprintln!(rt; "cryptyc_explain: {name} can't be read");
            UNREADABLE
        }
    }
}

/// Writes the bytes, and gives the status, or that the write failed.
fn written(rt: &HostRuntime, bytes: &[u8], status: Status) -> Status {
    match put_all(&mut StdSink::new(rt), bytes) {
        Ok(()) => status,
        Err(_) => Status::WriteFault,
    }
}

/// Explains a file or standard input, and gives the code of the status.
fn explained(rt: &HostRuntime, alloc: Global, asked: Explain<'_>) -> u8 {
    let style = Style {
        color: asked.color == Color::Always
            || asked.color == Color::Auto && rt.stdout().is_terminal(),
        lines: asked.lines,
    };
    match bytes_from(rt, alloc, asked.file) {
        Ok(bytes) => match advise(alloc, &bytes, style) {
            Ok(advice) => written(rt, &advice.output, advice.status).code(),
            Err(_) => Status::NoMemory.code(),
        },
        Err(why) => missed(rt, asked.file, why),
    }
}

/// Traces a file or standard input, and gives the code of the status.
fn told(rt: &HostRuntime, alloc: Global, asked: Trace<'_>) -> u8 {
    match bytes_from(rt, alloc, asked.file) {
        Ok(bytes) => match traced(alloc, &bytes, asked.chart) {
            Ok(trace) => written(rt, &trace.output, trace.status).code(),
            Err(_) => Status::NoMemory.code(),
        },
        Err(why) => missed(rt, asked.file, why),
    }
}

/// Does what the words ask for, and ends with the code of the status.
fn main(rt: HostRuntime) -> ExitCode {
    let alloc = rt.alloc();
    let Ok(words) = words(&rt) else {
        return ExitCode::from(Status::NoMemory.code());
    };
    let code = match asked_of(alloc, &words) {
        Err(_) => Status::NoMemory.code(),
        Ok(Asked::Usage) => written(&rt, USAGE, Status::Usage).code(),
        Ok(Asked::Help) => written(&rt, HELP, Status::Yes).code(),
        Ok(Asked::Version) => written(&rt, VERSION, Status::Yes).code(),
        Ok(Asked::Explain(asked)) => explained(&rt, alloc, asked),
        Ok(Asked::Trace(asked)) => told(&rt, alloc, asked),
    };
    ExitCode::from(code)
}
