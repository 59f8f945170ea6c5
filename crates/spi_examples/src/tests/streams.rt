// Sources and sinks by example.

ghost use Rattle.std.specs.Prelude.{◌<◌};

use super::samples::{NoMemory, shows};
use spi_io::{
    MemorySink, MemorySource, PlainSink, PlainSource, StdSink, StdSource, Taken, put_all, take_all,
};
use std::alloc::Global;

/// Whether so many bytes are taken of four, two at a time where the reads with these numbers fail; where none are, 100 and
/// the fault's number.
fn is_count_taken(
    alloc: Global,
    failing: &[u64],
    limit: usize,
    wanted: u64,
) -> Result<bool, NoMemory>
    requires { limit < 100 }
{
    let bytes = b"text".to_vec(alloc)?;
    let mut source = MemorySource::new(bytes, 2, failing.to_vec(alloc)?);
    let taken = match take_all(alloc, &mut source, limit) {
        Ok(bytes) => bytes.len() as u64,
        Err(Taken::ReadFault) => 101,
        Err(Taken::TooLong) => 102,
        Err(Taken::NoMemory) => 103,
    };
    Ok(taken == wanted)
}

#[test]
fn takes_all_bytes_or_stops_at_a_fault(rt: HostRuntime) {
    let alloc = rt.alloc();
    shows(&rt, "all bytes", is_count_taken(alloc, &[], 4, 4));
    shows(&rt, "a byte too many", is_count_taken(alloc, &[], 3, 102));
    for read in 0..3 {
        shows(
            &rt,
            "a read that fails",
            is_count_taken(alloc, &[read], 9, 101),
        );
    }
}

/// Whether a sink with this room holds so much of `yes` and LF, two bytes at a time where the writes with these numbers
/// fail.
fn is_held(alloc: Global, room: usize, failing: &[u64], held: &str) -> Result<bool, NoMemory> {
    let mut sink = MemorySink::new(alloc, room, 2, failing.to_vec(alloc)?)?;
    let is_put = put_all(&mut sink, b"yes\n").is_ok();
    Ok(sink.bytes() == held.as_bytes() && is_put == (held.len() == 4))
}

#[test]
fn puts_all_bytes_or_a_prefix(rt: HostRuntime) {
    let alloc = rt.alloc();
    shows(&rt, "room", is_held(alloc, 4, &[], "yes\n"));
    shows(&rt, "no room", is_held(alloc, 3, &[], "yes"));
    shows(&rt, "a write that fails", is_held(alloc, 9, &[1], "ye"));
}

/// Whether plain bytes go through.
fn is_plain(alloc: Global) -> Result<bool, NoMemory> {
    let mut source = PlainSource::new(b"a text".to_vec(alloc)?);
    match take_all(alloc, &mut source, 6) {
        Ok(bytes) => Ok(
            bytes.as_slice() == b"a text".as_slice()
                && put_all(&mut PlainSink::new(), &bytes).is_ok(),
        ),
        Err(_) => Ok(false),
    }
}

#[test]
fn plain_bytes_go_through(rt: HostRuntime) {
    shows(&rt, "a text", is_plain(rt.alloc()));
}

#[test]
fn standard_input_and_output_are_read_and_written(rt: HostRuntime) {
    let is_put = put_all(&mut StdSink::new(&rt), b"text\n").is_ok();
    let is_taken = take_all(rt.alloc(), &mut StdSource::new(&rt), 100).is_ok();
    shows(&rt, "a line", Ok(is_put && is_taken));
}
