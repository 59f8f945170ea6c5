// Acts: what a place and its names are afterwards.

ghost use Rattle.std.specs.Prelude.{◌≡◌, ◌+◌, ◌-◌, ◌^◌, ◌<◌, IfOk, None, true};
ghost use Rattle.spi_term.specs.View.{message};
ghost use Rattle.spi_intern.specs.Meaning.{Keeps};
ghost use Rattle.spi_intern.specs.Table.{KeepsAll};
ghost use Rattle.spi_run.specs.View.{event};
ghost use Rattle.spi_replay.specs.Moves.{event_of};
ghost use Rattle.spi_replay.specs.Waiting.{wait_acts};
ghost use Rattle.spi_replay.specs.Standing.{IsPlace};
ghost use Rattle.spi_replay.specs.Pools.{TakenBy};

use crate::NoMemory;
use crate::names::Link;
use crate::places::{Place, entered, entered_with, entered_with_two};
use crate::waits::{Kind, Wait};
use spi_intern::{MsgId, MsgPart, Store, message_of};
use spi_run::Event;
use spi_term::Msg;
use std::alloc::Global;

/// What an act gives: its place, a place that is appended, its event, and how many names are used then.
#[derive(Drop)]
pub struct Taken<'p> {
    pub now: Place<'p>,
    pub more: Option<Place<'p>>,
    pub event: Option<Event>,
    pub names: u32,
}

// An act that appends nothing.
fn act_alone<'p>(now: Place<'p>, shown: Option<Event>, names: u32) -> Taken<'p>
    ensures { result ≡ record { now = now.entry; more = None; event = shown; names = names } }
{
    Taken {
        now,
        more: None,
        event: shown,
        names,
    }
}

fn event_with(kind: Kind, label: Msg) -> Event
    ensures { event result ≡ event_of kind (message label) }
{
    match kind {
        Kind::Begin => Event::Begin(label),
        Kind::End => Event::End(label),
        Kind::EndMany => Event::EndMany(label),
    }
}

fn take_one<'p>(
    store: &mut Store,
    links: &mut Vec<Link>,
    place: &Place<'p>,
    names: u32,
    value: MsgId,
    body: u32,
) -> Result<Taken<'p>, NoMemory>
    requires is { IsPlace store.old.messages links.old.items place.now }
    requires waits { place.now.wait ≡ Wait.BindsOne value body }
    ensures taken { IfOk result
        (TakenBy store.old.messages links.old.items store.new.messages links.new.items names place.now) }
    ensures kept { Keeps store.old store.new }
    ensures links { KeepsAll links.old.items links.new.items }
{
    let now = entered_with(store, links, place.source, body, place.last, value)?;
    Ok(act_alone(now, None, names))
}

fn take_two<'p>(
    store: &mut Store,
    links: &mut Vec<Link>,
    place: &Place<'p>,
    names: u32,
    first: MsgId,
    second: MsgId,
    body: u32,
) -> Result<Taken<'p>, NoMemory>
    requires is { IsPlace store.old.messages links.old.items place.now }
    requires waits { place.now.wait ≡ Wait.BindsTwo first second body }
    ensures taken { IfOk result
        (TakenBy store.old.messages links.old.items store.new.messages links.new.items names place.now) }
    ensures kept { Keeps store.old store.new }
    ensures links { KeepsAll links.old.items links.new.items }
{
    let now = entered_with_two(store, links, place.source, body, place.last, first, second)?;
    Ok(act_alone(now, None, names))
}

fn take_on<'p>(
    store: &mut Store,
    links: &[Link],
    place: &Place<'p>,
    names: u32,
    body: u32,
) -> Result<Taken<'p>, NoMemory>
    requires is { IsPlace store.old.messages links.now place.now }
    requires waits { place.now.wait ≡ Wait.GoesOn body }
    ensures taken { IfOk result
        (TakenBy store.old.messages links.now store.new.messages links.now names place.now) }
    ensures kept { Keeps store.old store.new }
{
    let now = entered(store, links, place.source, body, place.last)?;
    Ok(act_alone(now, None, names))
}

fn take_showing<'p>(
    alloc: Global,
    store: &mut Store,
    links: &[Link],
    place: &Place<'p>,
    names: u32,
    kind: Kind,
    label: MsgId,
    body: u32,
) -> Result<Taken<'p>, NoMemory>
    requires is { IsPlace store.old.messages links.now place.now }
    requires waits { place.now.wait ≡ Wait.Shows kind label body }
    ensures taken { IfOk result
        (TakenBy store.old.messages links.now store.new.messages links.now names place.now) }
    ensures kept { Keeps store.old store.new }
{
    let shown = message_of(alloc, store, label)?;
    let now = entered(store, links, place.source, body, place.last)?;
    Ok(act_alone(now, Some(event_with(kind, shown)), names))
}

fn take_making<'p>(
    store: &mut Store,
    links: &mut Vec<Link>,
    place: &Place<'p>,
    names: u32,
    body: u32,
) -> Result<Taken<'p>, NoMemory>
    requires is { IsPlace store.old.messages links.old.items place.now }
    requires waits { place.now.wait ≡ Wait.Freshes body }
    requires names { names < 2 ^ 32 - 1 }
    ensures taken { IfOk result
        (TakenBy store.old.messages links.old.items store.new.messages links.new.items names place.now) }
    ensures kept { Keeps store.old store.new }
    ensures links { KeepsAll links.old.items links.new.items }
{
    let fresh = store.message_over(MsgPart::Name(names))?;
    let now = entered_with(store, links, place.source, body, place.last, fresh)?;
    Ok(act_alone(now, None, names + 1))
}

fn take_forking<'p>(
    store: &mut Store,
    links: &[Link],
    place: &Place<'p>,
    names: u32,
    first: u32,
    rest: u32,
) -> Result<Taken<'p>, NoMemory>
    requires is { IsPlace store.old.messages links.now place.now }
    requires waits { place.now.wait ≡ Wait.Forks first rest }
    ensures taken { IfOk result
        (TakenBy store.old.messages links.now store.new.messages links.now names place.now) }
    ensures kept { Keeps store.old store.new }
{
    let now = entered(store, links, place.source, first, place.last)?;
    let other = entered(store, links, place.source, rest, place.last)?;
    Ok(Taken {
        now,
        more: Some(other),
        event: None,
        names,
    })
}

/// What the act of a place gives, where so many names are used. Each message and each link keeps its number, also where
/// memory runs out.
pub fn take<'p>(
    alloc: Global,
    store: &mut Store,
    links: &mut Vec<Link>,
    place: &Place<'p>,
    names: u32,
) -> Result<Taken<'p>, NoMemory>
    requires is { IsPlace store.old.messages links.old.items place.now }
    requires acts { wait_acts place.now.wait ≡ true }
    requires names { names < 2 ^ 32 - 1 }
    ensures taken { IfOk result
        (TakenBy store.old.messages links.old.items store.new.messages links.new.items names place.now) }
    ensures kept { Keeps store.old store.new }
    ensures links { KeepsAll links.old.items links.new.items }
{
    match place.wait {
        Wait::Stays => unreachable!(),
        Wait::Puts(_, _) => unreachable!(),
        Wait::Takes(_, _) => unreachable!(),
        Wait::TakesAgain(_, _) => unreachable!(),
        Wait::BindsOne(value, body) => take_one(store, links, place, names, value, body),
        Wait::BindsTwo(first, second, body) => take_two(
            store, links, place, names, first, second, body,
        ),
        Wait::GoesOn(body) => take_on(store, links, place, names, body),
        Wait::Shows(kind, label, body) => take_showing(
            alloc, store, links, place, names, kind, label, body,
        ),
        Wait::Freshes(body) => take_making(store, links, place, names, body),
        Wait::Forks(first, rest) => take_forking(store, links, place, names, first, rest),
    }
}
