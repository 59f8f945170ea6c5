// Whether events are paid.

ghost use Rattle.std.specs.Prelude.{◌≡◌, ◌↔◌, ◌<◌, ◌^◌, IsTrue, [], ◌∷◌, length, map};
ghost use Rattle.spi_term.specs.View.{message};
ghost use Rattle.spi_run.specs.Reduction.{begun};
ghost use Rattle.spi_run.specs.Safety.{begins_of, ends_of, Paid, PaidMany};
ghost use Rattle.spi_run.specs.View.{event};
ghost use Rattle.spi_trace.specs.Next.{EndIsPaid, ManyIsPaid, IsPaidAs, Each};

use spi_run::Event;
use spi_term::{Msg, same_message};

// How many begins of the label a begin of the other one is.
fn count_begin(label: &Msg, other: &Msg) -> usize
    ensures { result ≡ begins_of (message label.now) (begun (message other.now) ∷ []) }
{
    if same_message(label, other) { 1 } else { 0 }
}

// How many begins of the label an event is.
fn begins_in(e: &Event, label: &Msg) -> usize
    ensures { result ≡ begins_of (message label.now) (event e.now ∷ []) }
{
    match e {
        Event::Begin(other) => count_begin(label, other),
        Event::End(_) => 0,
        Event::EndMany(_) => 0,
    }
}

// How many ends of the label an event is.
fn ends_in(e: &Event, label: &Msg) -> usize
    ensures { result ≡ ends_of (message label.now) (event e.now ∷ []) }
{
    match e {
        Event::Begin(_) => 0,
        Event::End(other) => count_begin(label, other),
        Event::EndMany(_) => 0,
    }
}

fn count_begins(events: &[Event], label: &Msg) -> usize
    ensures { result ≡ begins_of (message label.now) (map event events.now) }
{
    let mut n = 0;
    for e in events {
        n += begins_in(e, label);
    }
    n
}

fn count_ends(events: &[Event], label: &Msg) -> usize
    ensures { result ≡ ends_of (message label.now) (map event events.now) }
{
    let mut n = 0;
    for e in events {
        n += ends_in(e, label);
    }
    n
}

fn is_end_paid(before: &[Event], e: &Event) -> bool
    ensures { IsTrue result ↔ EndIsPaid (map event before.now) (event e.now) }
{
    match e {
        Event::Begin(_) => true,
        Event::End(label) => count_ends(before, label) < count_begins(before, label),
        Event::EndMany(_) => true,
    }
}

fn is_many_paid(before: &[Event], e: &Event) -> bool
    ensures { IsTrue result ↔ ManyIsPaid (map event before.now) (event e.now) }
{
    match e {
        Event::Begin(_) => true,
        Event::End(_) => true,
        Event::EndMany(label) => 0 < count_begins(before, label),
    }
}

/// Which ends are asked for: those that take a begin each, or those that share one.
#[derive(Clone, Copy)]
pub enum Ends {
    Single,
    Many,
}

fn is_paid(ends: Ends, before: &[Event], e: &Event) -> bool
    ensures { IsTrue result ↔ IsPaidAs ends (map event before.now) (event e.now) }
{
    match ends {
        Ends::Single => is_end_paid(before, e),
        Ends::Many => is_many_paid(before, e),
    }
}

// Whether each of these ends is paid by the events before it.
fn are_paid(ends: Ends, events: &[Event]) -> bool
    requires { length events.now < 2 ^ 32 }
    ensures { IsTrue result ↔ Each (IsPaidAs ends) (map event events.now) }
{
    for place in 0..events.len() {
        if !is_paid(ends, &events[..place], &events[place]) {
            return false;
        }
    }
    true
}

/// Whether every prefix of the events has at most as many ends of each label as begins of it. It takes no memory,
/// and looks through the events before each end.
pub fn always_paid(events: &[Event]) -> bool
    requires { length events.now < 2 ^ 32 }
    ensures { IsTrue result ↔ Paid (map event events.now) }
{
    are_paid(Ends::Single, events)
}

/// Whether each endmany has an earlier begin of its label. It takes no memory, and looks through the events before
/// each endmany.
pub fn always_paid_many(events: &[Event]) -> bool
    requires { length events.now < 2 ^ 32 }
    ensures { IsTrue result ↔ PaidMany (map event events.now) }
{
    are_paid(Ends::Many, events)
}
