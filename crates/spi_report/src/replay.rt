// The lines of a replay.
ghost use Rattle.std.specs.Prelude.{◌≡◌, ◌+◌, ◌^◌, ◌<◌, ◌++◌, length, map, IfOk, IfSome, OnOk};
ghost use Rattle.std.specs.Fmt.{decimal};
ghost use Rattle.spi_run.specs.View.{event};
ghost use Rattle.spi_report.specs.Events.{from_text, event_text, event_line, is_unpaid as is_unpaid_by, first_unpaid as first_unpaid_of, last_text, events_text};

use crate::NoMemory;
use itoa::Buffer;
use spi_run::Event;
use spi_scope::File;
use spi_show::put_reported;
use spi_text::Text;
use spi_trace::Pairing;
use std::alloc::Global;

// Appends the number of an event, counted from 1, by its number from 0 on.
fn put_number(out: &mut Vec<u8>, k: u64) -> Result<(), NoMemory>
    requires { k + 1 < 2 ^ 64 }
    ensures { OnOk result (out.new.items ≡ out.old.items ++ decimal (k + 1)) }
{
    let mut buffer = Buffer::new();
    out.extend_from_slice(buffer.format(k + 1).as_bytes())
}

// Appends the begin that pays for an end.
fn put_from(out: &mut Vec<u8>, begin: Option<u32>) -> Result<(), NoMemory>
    ensures { OnOk result (out.new.items ≡ out.old.items ++ from_text begin) }
{
    match begin {
        None => out.extend_from_slice(b" unpaid"),
        Some(i) => {
            out.extend_from_slice(b" from ")?;
            put_number(out, i as u64)
        }
    }
}

// Appends an event.
fn put_event(
    alloc: Global,
    out: &mut Vec<u8>,
    names: &[Text],
    e: &Event,
    begin: Option<u32>,
) -> Result<(), NoMemory>
    ensures { OnOk result (out.new.items ≡ out.old.items ++ event_text names.now (event e.now) begin) }
{
    match e {
        Event::Begin(label) => put_reported(alloc, out, names, b" begin ", label),
        Event::End(label) => {
            put_reported(alloc, out, names, b" end ", label)?;
            put_from(out, begin)
        }
        Event::EndMany(label) => {
            put_reported(alloc, out, names, b" endmany ", label)?;
            put_from(out, begin)
        }
    }
}

// Appends the line of an event, by its number from 0 on.
fn put_line(
    alloc: Global,
    out: &mut Vec<u8>,
    names: &[Text],
    k: usize,
    e: &Event,
    begin: Option<u32>,
) -> Result<(), NoMemory>
    requires { k + 1 < 2 ^ 64 }
    ensures { OnOk result (out.new.items ≡ out.old.items ++ event_line names.now k (event e.now) begin) }
{
    put_number(out, k as u64)?;
    put_event(alloc, out, names, e, begin)?;
    out.extend_from_slice(b"\n")
}

// Whether it is an end or endmany without a begin.
fn is_unpaid(e: &Event, begin: Option<u32>) -> bool
    ensures { result ≡ is_unpaid_by (event e.now) begin }
{
    match e {
        Event::Begin(_) => false,
        Event::End(_) => begin.is_none(),
        Event::EndMany(_) => begin.is_none(),
    }
}

/// The first end or endmany without a begin, by its index, where there is one. The condition is that there is an entry for
/// each event.
pub fn first_unpaid(events: &[Event], from: &[Option<u32>]) -> Option<usize>
    requires { length from.now ≡ length events.now }
    ensures first { result ≡ first_unpaid_of 0 (map event events.now) from.now }
    ensures within { IfSome result (λ k. k < length events.now) }
{
    for k in 0..events.len() {
        if is_unpaid(&events[k], from[k]) {
            return Some(k);
        }
    }
    None
}

// Appends the last line.
fn put_last(out: &mut Vec<u8>, unpaid: Option<usize>) -> Result<(), NoMemory>
    requires { IfSome unpaid (λ k. k + 1 < 2 ^ 64) }
    ensures { OnOk result (out.new.items ≡ out.old.items ++ last_text unpaid) }
{
    match unpaid {
        None => out.extend_from_slice(b"paid\n"),
        Some(k) => {
            out.extend_from_slice(b"unpaid at ")?;
            put_number(out, k as u64)?;
            out.extend_from_slice(b"\n")
        }
    }
}

// The lines of events, where these names are spelled so.
pub(crate) fn lines_of(
    alloc: Global,
    names: &[Text],
    events: &[Event],
    pairing: &Pairing,
) -> Result<Vec<u8>, NoMemory>
    requires { length pairing.now.from.items ≡ length events.now }
    ensures { IfOk result
        (λ text. text.items ≡ events_text names.now (map event events.now) pairing.now.from.items) }
{
    let mut out = Vec::new(alloc);
    for k in 0..events.len() {
        put_line(alloc, &mut out, names, k, &events[k], pairing.from[k])?;
    }
    put_last(&mut out, first_unpaid(events, &pairing.from))?;
    Ok(out)
}

/// The lines of a replay of the file: for each event, numbered from 1, `K begin L`, `K end L from B` or `K endmany L from
/// B`, where B is the number of the begin that the pairing gives it, or `unpaid` in place of `from B`; and then `paid`, or
/// `unpaid at K` with the first end or endmany without a begin. A free name is shown as the file spells it, and every other
/// by `#` and its number. The condition is that the pairing has an entry for each event.
pub fn events(
    alloc: Global,
    file: &File,
    events: &[Event],
    pairing: &Pairing,
) -> Result<Vec<u8>, NoMemory>
    requires { length pairing.now.from.items ≡ length events.now }
    ensures { IfOk result
        (λ text. text.items
        ≡ events_text file.now.names.items (map event events.now) pairing.now.from.items) }
{
    lines_of(alloc, &file.names, events, pairing)
}
