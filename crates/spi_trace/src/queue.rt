// The begins of one label.

ghost use Rattle.std.specs.Prelude.{◌≡◌, ◌<◌, IfOk, OnOk, length, map, slice_get, replicate};
ghost use Rattle.spi_run.specs.View.{event};
ghost use Rattle.spi_trace.specs.Queue.{queue, no_begins, with_begin, next, one_taken, IsPaidFrom};

use crate::NoMemory;
use spi_run::Event;
use std::alloc::Global;

/// The places of the begins of one label, in order, and how many of them ends have taken: the first ones.
#[derive(Drop)]
pub struct Begins {
    places: Vec<u32>,
    taken: usize,
}

impl Begins {
    fn new(alloc: Global) -> Begins
        ensures { queue result ≡ no_begins }
    {
        Begins {
            places: Vec::new(alloc),
            taken: 0,
        }
    }

    fn add(&mut self, place: u32) -> Result<(), NoMemory>
        ensures { OnOk result (queue self.new ≡ with_begin (queue self.old) place) }
    {
        self.places.push(place)?;
        Ok(())
    }

    // The earliest, whether or not it is taken.
    fn first(&self) -> Option<u32>
        ensures { result ≡ slice_get (queue self.now).places 0 }
    {
        self.places.first().copied()
    }

    // The earliest that isn't taken, which then is.
    fn take(&mut self) -> Option<u32>
        ensures next { result ≡ next (queue self.old) }
        ensures left { queue self.new ≡ one_taken (next (queue self.old)) (queue self.old) }
    {
        match self.places.get(self.taken) {
            None => None,
            Some(place) => {
                let place = *place;
                self.taken += 1;
                Some(place)
            }
        }
    }
}

/// The begins of labels with numbers below `bound`: none.
pub fn empty(alloc: Global, bound: usize) -> Result<Vec<Begins>, NoMemory>
    ensures { IfOk result (λ queues. map queue queues.items ≡ replicate bound no_begins) }
{
    let mut queues = Vec::new(alloc);
    for _number in 0..bound {
        queues.push(Begins::new(alloc))?;
    }
    Ok(queues)
}

/// The begin that pays for an event, which has this place, out of those of its label, which has this number. A begin
/// is kept.
pub fn pay(
    queues: &mut [Begins],
    number: usize,
    e: &Event,
    place: u32,
) -> Result<Option<u32>, NoMemory>
    requires { number < length queues.old }
    ensures { IfOk result
        (λ begin. IsPaidFrom (event e.now) place number (map queue queues.old) (map queue queues.new) begin) }
{
    match e {
        Event::Begin(_) => {
            queues[number].add(place)?;
            Ok(None)
        }
        Event::End(_) => Ok(queues[number].take()),
        Event::EndMany(_) => Ok(queues[number].first()),
    }
}
