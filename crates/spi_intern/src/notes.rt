// Places of a table that are noted, so that what stands there needn't be looked for: each is looked at before it's
// believed.

use std::alloc::Global;

/// How many places are noted.
const SLOTS: usize = 1024;

/// Places by their keys. Keys that are the same but for a multiple of the number of places share one.
#[derive(Drop)]
pub struct Notes {
    places: Vec<usize>,
}

impl Notes {
    /// No places.
    pub fn new(alloc: Global) -> Notes {
        Notes {
            places: Vec::new(alloc),
        }
    }

    /// The place that was noted last.
    pub fn get(&self, key: usize) -> Option<usize> {
        self.places.get(key % SLOTS).copied()
    }

    /// Notes a place, as far as there is room.
    pub fn put(&mut self, key: usize, place: usize) {
        let at = key % SLOTS;
        if at < self.places.len() || self.places.resize(SLOTS, 0).is_ok() {
            self.places[at] = place;
        }
    }
}
