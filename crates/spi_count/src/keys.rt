// The keys of messages, by their numbers in a store.
ghost use Rattle.std.specs.Prelude.{◌≡◌, ◌+◌, ◌<◌, ℕ, eqb, if◌then◌else◌, Some, None, IfSome, OnOk, nat_eq};
ghost use Rattle.spi_term.specs.View.{message};
ghost use Rattle.indexmap.specs.IndexMap.{get};
ghost use Rattle.spi_count.specs.Sums.{name_bound, key_of};
ghost use Rattle.spi_count.specs.Keys.{place_of_key};

use indexmap::IndexMap;
use spi_intern::MsgId;
use spi_term::Msg;
use std::alloc::{AllocError, Global};

// How many slots are guessed.
const GUESSES: usize = 1024;

/// The keys of messages that may stand in effects, by their numbers.
#[derive(Drop)]
pub struct Keys {
    keys: IndexMap<usize, u64>,
    /// In which slot of the table a key may stand, so that it needn't be looked for. What stands there is looked at before
    /// it's believed.
    slots: Vec<u32>,
}

// The least number above the names of a message.
fn bound_of(m: &Msg) -> u64
    ensures { result ≡ name_bound (message m.now) }
{
    match m {
        Msg::Bound(_) => 0,
        Msg::Name(x) => *x as u64 + 1,
        Msg::Unit => 0,
        Msg::Pair(two) => bound_of(&two.first).max(bound_of(&two.second)),
        Msg::Inl(a) => bound_of(a),
        Msg::Inr(a) => bound_of(a),
        Msg::Enc(sealed) => bound_of(&sealed.body).max(bound_of(&sealed.key)),
        Msg::Hash(a) => bound_of(a),
    }
}

impl Keys {
    /// No keys.
    pub fn new(alloc: Global) -> Keys
        ensures { (i : ℕ) → get nat_eq result.keys i ≡ None }
    {
        Keys {
            keys: IndexMap::new(alloc),
            slots: Vec::new(alloc),
        }
    }

    // The key of the message in this place, where it stands in the slot that is guessed.
    #[inline(always)]
    fn guessed(&self, place: usize) -> Option<u64>
        ensures { IfSome result (λ key. get nat_eq self.now.keys place ≡ Some key) }
    {
        let slot = self.slots.get(place % GUESSES)?;
        let (known, key) = self.keys.get_index(*slot as usize)?;
        if *known == place { Some(*key) } else { None }
    }

    // The key of the message in this place, which is looked for.
    #[inline(never)]
    fn looked_up(&self, place: usize) -> Option<u64>
        ensures { result ≡ get nat_eq self.now.keys place }
    {
        self.keys.get(&place).copied()
    }

    /// The key of the message with this number, where it has one.
    #[inline(always)]
    pub fn key(&self, id: MsgId) -> Option<u64>
        ensures { result ≡ get nat_eq self.now.keys id.place }
    {
        match self.guessed(id.place()) {
            Some(key) => Some(key),
            None => self.looked_up(id.place()),
        }
    }

    /// The number in this place, where its message has a key.
    pub fn id(&self, place: usize) -> Option<MsgId>
        ensures id { (k : ℕ) → get nat_eq self.now.keys place ≡ Some k → place_of_key result ≡ Some place }
        ensures none { get nat_eq self.now.keys place ≡ None → result ≡ None }
    {
        match self.keys.get(&place) {
            Some(_) => Some(MsgId::at(place)),
            None => None,
        }
    }

    /// Keeps the key of a message. There is no room for 2 ^ 32 messages: a store with so many takes more than 100 GB, so
    /// that memory has run out before. An error is want of memory.
    pub fn keep(&mut self, id: MsgId, m: &Msg) -> Result<(), AllocError>
        ensures kept { OnOk result
            ((i : ℕ) → get nat_eq self.new.keys i
            ≡ (if eqb id.place i then Some (key_of (name_bound (message m.now)) id.place) else get nat_eq
            self.old.keys i)) }
        ensures small { OnOk result (id.place < 4294967296) }
    {
        let above = bound_of(m);
        let place = id.place();
        if place >= 4_294_967_296 || above >= 4_294_967_296 {
            return Err(AllocError);
        }
        let slot = self.keys.len();
        self.keys
            .insert(place, above * 4_294_967_296 + place as u64)?;
        if slot < self.keys.len() {
            self.guess(place, slot);
        }
        Ok(())
    }

    // The slot is guessed for this place, as far as there is room.
    fn guess(&mut self, place: usize, slot: usize)
        ensures { self.new.keys ≡ self.old.keys }
    {
        let at = place % GUESSES;
        if at < self.slots.len() || self.slots.resize(GUESSES, 0).is_ok() {
            self.slots[at] = (slot & 0xffff_ffff) as u32;
        }
    }
}
