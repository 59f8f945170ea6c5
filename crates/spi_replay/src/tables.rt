// The places that wait on each channel, as places change.

ghost use Rattle.std.specs.Prelude.{◌≡◌, Some, true, false, nat_eq, OnOk, OnErr};
ghost use Rattle.indexmap.specs.IndexMap.{get};
ghost use Rattle.spi_replay.specs.Indexed.{out_channel as out_channel_of, in_channel as in_channel_of, is_on as is_on_of, or_none};
ghost use Rattle.spi_replay.specs.Tables.{Rises, AllRise, with_place, SetsPlace, AreAlike, wait_alike as wait_alike_of};

use crate::NoMemory;
use crate::waits::Wait;
use indexmap::IndexMap;
use std::alloc::Global;

fn out_channel(wait: Wait) -> Option<usize>
    ensures { result ≡ out_channel_of wait }
{
    match wait {
        Wait::Puts(channel, _) => Some(channel.place()),
        _ => None,
    }
}

fn in_channel(wait: Wait) -> Option<usize>
    ensures { result ≡ in_channel_of wait }
{
    match wait {
        Wait::Takes(channel, _) => Some(channel.place()),
        Wait::TakesAgain(channel, _) => Some(channel.place()),
        _ => None,
    }
}

fn is_on(channel: usize, on: Option<usize>) -> bool
    ensures { result ≡ is_on_of channel on }
{
    match on {
        Some(other) => channel == other,
        None => false,
    }
}

/// Whether they wait on one channel, and on the same side of it.
pub fn wait_alike(wait: Wait, other: Wait) -> bool
    ensures { result ≡ wait_alike_of wait other }
{
    match wait {
        Wait::Puts(channel, _) => is_on(channel.place(), out_channel(other)),
        Wait::Takes(channel, _) => is_on(channel.place(), in_channel(other)),
        Wait::TakesAgain(channel, _) => is_on(channel.place(), in_channel(other)),
        _ => false,
    }
}

/// The list of a channel.
pub fn list_of(table: &IndexMap<usize, Vec<u32>>, channel: usize) -> &[u32]
    ensures { result.now ≡ or_none (get nat_eq table.now channel) }
{
    match table.get(&channel) {
        Some(places) => places,
        None => &[],
    }
}

// A place comes into an ascending list. After an error the list is as it was.
fn put_in(list: &mut Vec<u32>, place: u32) -> Result<(), NoMemory>
    requires { Rises 0 list.old.items }
    ensures put { OnOk result (list.new.items ≡ with_place place true list.old.items) }
    ensures same { OnErr result (list.new.items ≡ list.old.items) }
{
    match list.binary_search(&place) {
        Ok(_) => Ok(()),
        Err(at) => {
            list.insert(at, place)?;
            Ok(())
        }
    }
}

// A place goes from an ascending list.
fn take_out(list: &mut Vec<u32>, place: u32)
    requires { Rises 0 list.old.items }
    ensures { list.new.items ≡ with_place place false list.old.items }
{
    if let Ok(at) = list.binary_search(&place) {
        list.remove(at);
    }
}

// A place comes to a channel. After an error each list is as it was.
fn come_to(
    alloc: Global,
    table: &mut IndexMap<usize, Vec<u32>>,
    channel: usize,
    place: u32,
) -> Result<(), NoMemory>
    requires { AllRise (get nat_eq table.old) }
    ensures put { OnOk result
        (SetsPlace place true (Some channel) (get nat_eq table.old) (get nat_eq table.new)) }
    ensures same { OnErr result (AreAlike (get nat_eq table.old) (get nat_eq table.new)) }
{
    if let Some(list) = table.get_mut(&channel) {
        return put_in(list, place);
    }
    let mut list = Vec::new(alloc);
    list.push(place)?;
    table.insert(channel, list)?;
    Ok(())
}

// A place goes from a channel.
fn go_from(table: &mut IndexMap<usize, Vec<u32>>, channel: usize, place: u32)
    requires { AllRise (get nat_eq table.old) }
    ensures { SetsPlace place false (Some channel) (get nat_eq table.old) (get nat_eq table.new) }
{
    if let Some(list) = table.get_mut(&channel) {
        take_out(list, place);
    }
}

/// A place comes to the channel that it waits on, if any. After an error each list is as it was.
pub fn enter(
    alloc: Global,
    outs: &mut IndexMap<usize, Vec<u32>>,
    ins: &mut IndexMap<usize, Vec<u32>>,
    place: u32,
    wait: Wait,
) -> Result<(), NoMemory>
    requires outs { AllRise (get nat_eq outs.old) }
    requires ins { AllRise (get nat_eq ins.old) }
    ensures outs { OnOk result
        (SetsPlace place true (out_channel_of wait) (get nat_eq outs.old) (get nat_eq outs.new)) }
    ensures ins { OnOk result
        (SetsPlace place true (in_channel_of wait) (get nat_eq ins.old) (get nat_eq ins.new)) }
    ensures same_outs { OnErr result (AreAlike (get nat_eq outs.old) (get nat_eq outs.new)) }
    ensures same_ins { OnErr result (AreAlike (get nat_eq ins.old) (get nat_eq ins.new)) }
{
    match wait {
        Wait::Puts(channel, _) => come_to(alloc, outs, channel.place(), place),
        Wait::Takes(channel, _) => come_to(alloc, ins, channel.place(), place),
        Wait::TakesAgain(channel, _) => come_to(alloc, ins, channel.place(), place),
        _ => Ok(()),
    }
}

/// A place goes from the channel that it waits on, if any.
pub fn leave(
    outs: &mut IndexMap<usize, Vec<u32>>,
    ins: &mut IndexMap<usize, Vec<u32>>,
    place: u32,
    wait: Wait,
)
    requires outs { AllRise (get nat_eq outs.old) }
    requires ins { AllRise (get nat_eq ins.old) }
    ensures outs { SetsPlace place false (out_channel_of wait) (get nat_eq outs.old) (get nat_eq outs.new) }
    ensures ins { SetsPlace place false (in_channel_of wait) (get nat_eq ins.old) (get nat_eq ins.new) }
{
    match wait {
        Wait::Puts(channel, _) => go_from(outs, channel.place(), place),
        Wait::Takes(channel, _) => go_from(ins, channel.place(), place),
        Wait::TakesAgain(channel, _) => go_from(ins, channel.place(), place),
        _ => {}
    }
}
