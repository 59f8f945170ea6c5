// Pairings and payments by example: of the events of a process that only begins and ends.

use super::samples::{Line, MISSING, NoMemory, Question, each, each_line};
use spi_report::{events, first_unpaid};
use spi_run::Event;
use spi_scope::File;
use spi_term::{Form, Process};
use spi_trace::{always_paid, always_paid_many, pair_up};
use std::alloc::Global;

/// The event of the node, and none of one that neither begins nor ends.
fn event_of(alloc: Global, form: &Form) -> Result<Option<Event>, NoMemory> {
    match form {
        Form::Begin { label, body: _ } => Ok(Some(Event::Begin(label.copy(alloc)?))),
        Form::End { label, body: _ } => Ok(Some(Event::End(label.copy(alloc)?))),
        Form::EndMany { label, body: _ } => Ok(Some(Event::EndMany(label.copy(alloc)?))),
        _ => Ok(None),
    }
}

/// The events of the nodes in their order.
fn events_of(alloc: Global, process: &Process) -> Result<Vec<Event>, NoMemory> {
    let mut happened = Vec::new(alloc);
    for id in 0..process.len() {
        if let Some(event) = event_of(alloc, &process.node(id).form)? {
            happened.push(event)?;
        }
    }
    Ok(happened)
}

/// The lines of the events with their pairing.
#[derive(Clone, Copy)]
struct Paired;

impl Line for Paired {
    fn line(self, alloc: Global, _text: &str, file: &File) -> Result<Vec<u8>, NoMemory> {
        let happened = events_of(alloc, &file.process)?;
        if happened.len() > 1000 {
            return Ok(Vec::new(alloc));
        }
        let pairing = pair_up(alloc, &happened)?;
        if pairing.from.len() != happened.len() {
            return Ok(Vec::new(alloc));
        }
        events(alloc, file, &happened, &pairing)
    }
}

#[test]
fn the_earliest_begin_pays_for_one_end(rt: HostRuntime) {
    let paired = [
        (
            "free a, b; process begin (a, b); end (a, b); end (a, b); stop",
            "1 begin (a, b)\n2 end (a, b) from 1\n3 end (a, b) unpaid\nunpaid at 3\n",
        ),
        (
            "free a, b; process begin a; begin b; begin a; end a; end b; end a; stop",
            "1 begin a\n2 begin b\n3 begin a\n4 end a from 1\n5 end b from 2\n6 end a from 3\npaid\n",
        ),
        (
            "free a; process end a; begin a; stop",
            "1 end a unpaid\n2 begin a\nunpaid at 1\n",
        ),
        (
            "process new (x: Un); begin x; end x; stop",
            "1 begin #0\n2 end #0 from 1\npaid\n",
        ),
        ("process stop", "paid\n"),
    ];
    each_line(&rt, Paired, &paired);
}

#[test]
fn a_begin_pays_for_many(rt: HostRuntime) {
    let many = "version 2; free a; process endmany a; begin a; endmany a; endmany a; stop";
    let lines =
        "1 endmany a unpaid\n2 begin a\n3 endmany a from 2\n4 endmany a from 2\nunpaid at 1\n";
    each_line(&rt, Paired, &[(many, lines)]);
}

/// Whether the events are paid, 1 for the ends and 2 for the many ends; or the first event that isn't.
#[derive(Clone, Copy)]
enum Paid {
    Always,
    First,
}

impl Question for Paid {
    fn answer(self, alloc: Global, file: &File) -> Result<u64, NoMemory> {
        let happened = events_of(alloc, &file.process)?;
        if happened.len() > 1000 {
            return Ok(MISSING);
        }
        match self {
            Paid::Always => match (always_paid(&happened), always_paid_many(&happened)) {
                (true, true) => Ok(3),
                (true, false) => Ok(1),
                (false, true) => Ok(2),
                (false, false) => Ok(0),
            },
            Paid::First => {
                let pairing = pair_up(alloc, &happened)?;
                if pairing.from.len() != happened.len() {
                    return Ok(MISSING);
                }
                match first_unpaid(&happened, &pairing.from) {
                    Some(place) => Ok(place as u64),
                    None => Ok(MISSING),
                }
            }
        }
    }
}

#[test]
fn each_end_wants_a_begin_before_it(rt: HostRuntime) {
    let paid = "version 2; free a; process begin a; endmany a; end a; stop";
    let late = "version 2; free a; process end a; begin a; endmany a; stop";
    let never = "version 2; free a, b; process begin a; end a; endmany b; stop";
    each(&rt, Paid::Always, &[(paid, 3), (late, 2), (never, 1)]);
    each(&rt, Paid::First, &[(paid, MISSING), (late, 0), (never, 2)]);
}
