//! The places of a pool, by the channels that they wait on.

ghost use Rattle.std.specs.Prelude.{◌≡◌, ◌<◌, ◌-◌, ◌^◌, [], ◌∷◌, ◌++◌, Some, length, take, slice_get, slice_set, nat_eq, OnOk, OnErr};
ghost use Rattle.std.specs.Vec.{vec_len, vec_capacity};
ghost use Rattle.spi_replay.specs.declared.places.Place.{Place as PlaceTerm};
ghost use Rattle.indexmap.specs.IndexMap.{get};
ghost use Rattle.spi_replay.specs.Indexed.{HasPlaces, out_channel, in_channel, places_on, waits_of, places_moved as moved_of, places_settled, place_done as done_of};

use crate::NoMemory;
use crate::places::Place;
use crate::tables::{enter, leave, list_of, wait_alike};
use crate::waits::Wait;
use indexmap::IndexMap;
use spi_intern::MsgId;
use std::alloc::Global;

/// The places of a pool in their order, and for each channel that a place waits on, by the number of its message, the
/// ascending places that put out on it and those that take in on it. That these lists are so is a fact of the type.
#[derive(Drop)]
pub struct Index<'p> {
    alloc: Global,
    places: Vec<Place<'p>>,
    outs: IndexMap<usize, Vec<u32>>,
    ins: IndexMap<usize, Vec<u32>>,
    ghost outs_are: { HasPlaces out_channel (get nat_eq outs) places.items },
    ghost ins_are: { HasPlaces in_channel (get nat_eq ins) places.items },
}

impl<'p> Index<'p> {
    /// No places.
    pub fn new(alloc: Global) -> Index<'p>
        ensures { result.places.items ≡ [] }
    {
        Index {
            alloc,
            places: Vec::new(alloc),
            outs: IndexMap::new(alloc),
            ins: IndexMap::new(alloc),
        }
    }

    /// How many places there are.
    pub fn len(&self) -> usize
        ensures { result ≡ length self.now.places.items }
    {
        self.places.len()
    }

    /// The place with this number.
    pub fn at(&self, place: u32) -> Place<'p>
        requires { place < length self.now.places.items }
        ensures { slice_get self.now.places.items place ≡ Some result }
    {
        self.places[place as usize]
    }

    /// The ascending places that put out on the channel with this number.
    pub fn outs(&self, channel: MsgId) -> &[u32]
        ensures { result.now ≡ places_on out_channel channel.place 0 (waits_of self.now.places.items) }
    {
        list_of(&self.outs, channel.place())
    }

    /// The ascending places that take in on the channel with this number.
    pub fn ins(&self, channel: MsgId) -> &[u32]
        ensures { result.now ≡ places_on in_channel channel.place 0 (waits_of self.now.places.items) }
    {
        list_of(&self.ins, channel.place())
    }

    /// One place more, which comes last. After an error nothing has changed.
    pub fn push(&mut self, place: Place<'p>) -> Result<(), NoMemory>
        requires { length self.old.places.items < 2 ^ 32 - 1 }
        ensures pushed { OnOk result (self.new.places.items ≡ self.old.places.items ++ place.entry ∷ []) }
        ensures same { OnErr result (self.new.places.items ≡ self.old.places.items) }
    {
        self.places.reserve(1)?;
        let next = self.places.len() as u32;
        enter(self.alloc, &mut self.outs, &mut self.ins, next, place.wait)?;
        append(&mut self.places, place);
        Ok(())
    }

    // The last place goes again.
    fn take_back(&mut self)
        requires some { 0 < length self.old.places.items }
        requires few { length self.old.places.items < 2 ^ 32 }
        ensures { self.new.places.items ≡ take (length self.old.places.items - 1) self.old.places.items }
    {
        let last = (self.places.len() - 1) as u32;
        let place = self.at(last);
        leave(&mut self.outs, &mut self.ins, last, place.wait);
        let _ = self.places.pop();
    }

    // A place is replaced. After an error nothing has changed.
    fn set(&mut self, at: u32, now: Place<'p>) -> Result<(), NoMemory>
        requires { at < length self.old.places.items }
        ensures set { OnOk result (self.new.places.items ≡ slice_set self.old.places.items at now.entry) }
        ensures same { OnErr result (self.new.places.items ≡ self.old.places.items) }
    {
        let before = self.places[at as usize].wait;
        if wait_alike(before, now.wait) {
            self.places[at as usize] = now;
            return Ok(());
        }
        enter(self.alloc, &mut self.outs, &mut self.ins, at, now.wait)?;
        leave(&mut self.outs, &mut self.ins, at, before);
        self.places[at as usize] = now;
        Ok(())
    }

    // The output of a place is taken.
    fn finish(&mut self, at: u32)
        requires { at < length self.old.places.items }
        ensures { (p : PlaceTerm) → slice_get self.old.places.items at ≡ Some p
            → self.new.places.items ≡ slice_set self.old.places.items at (done_of p) }
    {
        let place = self.at(at);
        leave(&mut self.outs, &mut self.ins, at, place.wait);
        self.places[at as usize] = done_place(place);
    }

    /// A place as it is after an act, with the one that is appended. After an error nothing has changed.
    pub fn moved(
        &mut self,
        at: u32,
        now: Place<'p>,
        more: Option<Place<'p>>,
    ) -> Result<(), NoMemory>
        requires at { at < length self.old.places.items }
        requires few { length self.old.places.items < 2 ^ 32 - 1 }
        ensures moved { OnOk result
            (self.new.places.items ≡ moved_of self.old.places.items at now.entry more.entry) }
        ensures same { OnErr result (self.new.places.items ≡ self.old.places.items) }
    {
        let Some(more) = more else {
            return self.set(at, now);
        };
        self.push(more)?;
        match self.set(at, now) {
            Ok(()) => Ok(()),
            Err(fault) => {
                self.take_back();
                Err(fault)
            }
        }
    }

    // The output's place is done, and the input's place goes on. After an error nothing has changed.
    fn met_once(&mut self, out: u32, inp: u32, now: Place<'p>) -> Result<(), NoMemory>
        requires out { out < length self.old.places.items }
        requires inp { inp < length self.old.places.items }
        ensures settled { OnOk result
            ((sender : PlaceTerm) → slice_get self.old.places.items out ≡ Some sender
            → self.new.places.items
            ≡ slice_set (slice_set self.old.places.items out (done_of sender)) inp now.entry) }
        ensures same { OnErr result (self.new.places.items ≡ self.old.places.items) }
    {
        self.set(inp, now)?;
        if out != inp {
            self.finish(out);
        }
        Ok(())
    }

    /// The two places as they are after they met: the output is done, and the input's place, or a new one after a replicated
    /// input, goes on. After an error nothing has changed.
    pub fn met(&mut self, out: u32, inp: u32, now: Place<'p>, again: bool) -> Result<(), NoMemory>
        requires out { out < length self.old.places.items }
        requires inp { inp < length self.old.places.items }
        requires few { length self.old.places.items < 2 ^ 32 - 1 }
        ensures settled { OnOk result
            ((sender : PlaceTerm) → slice_get self.old.places.items out ≡ Some sender
            → self.new.places.items ≡ places_settled self.old.places.items out sender inp now.entry again) }
        ensures same { OnErr result (self.new.places.items ≡ self.old.places.items) }
    {
        if again {
            self.push(now)?;
            self.finish(out);
            Ok(())
        } else {
            self.met_once(out, inp, now)
        }
    }
}

// A place whose output is taken.
fn done_place(place: Place<'_>) -> Place<'_>
    ensures { result ≡ done_of place.entry }
{
    Place {
        done: true,
        wait: Wait::Stays,
        ..place
    }
}

// One place more, for which there is room.
fn append<'p>(places: &mut Vec<Place<'p>>, place: Place<'p>)
    requires { vec_len places.old < vec_capacity places.old }
    ensures { places.new.items ≡ places.old.items ++ place.entry ∷ [] }
{
    let _ = places.push(place);
}
