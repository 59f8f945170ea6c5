// Messages with numbers.

ghost use Rattle.std.specs.Prelude.{IsTrue, ◌≡◌, List, [], Some, IfOk, IfSome, OnOk, ◌<◌, ◌^◌, OnErr, slice_get, length};
ghost use Rattle.spi_term.specs.Term.{Message, bound, name, unit};
ghost use Rattle.spi_term.specs.View.{message};
ghost use Rattle.spi_intern.specs.Table.{KeepsAll, AllDiffer};
ghost use Rattle.spi_intern.specs.declared.messages.MsgPart.TheVariants as parts;
ghost use Rattle.spi_intern.specs.Hashed.{mixed};
ghost use Rattle.spi_intern.specs.Messages.{message_added, interned, Says, said};

use crate::NoMemory;
use crate::notes::Notes;
use indexmap::IndexSet;
use spi_term::Msg;
use std::alloc::Global;
use std::hash::{Hash, Hasher};
use std::marker::Model;

/// The number of a message of a store.
#[derive(Clone, Copy, PartialEq, Eq, PartialOrd, Ord, Hash)]
pub struct MsgId {
    place: usize,
}

impl MsgId {
    /// The number with this value.
    pub fn at(place: usize) -> MsgId
        ensures { result.place ≡ place }
    {
        MsgId { place }
    }

    /// The number itself: how many messages have lower ones in the store that gave it.
    pub fn place(self) -> usize
        ensures { result ≡ self.place }
    {
        self.place
    }
}

/// Two numbers as one, for a table. Those below 2 ^ 32 stay apart.
pub(crate) fn mixed(first: usize, second: usize) -> usize
    ensures { result ≡ mixed first second }
{
    first.wrapping_mul(4_294_967_296).wrapping_add(second)
}

/// The outermost constructor of a message, with the numbers of its parts.
#[derive(Clone, Copy, PartialEq, Eq)]
pub enum MsgPart {
    Bound(u32),
    Name(u32),
    Unit,
    Pair(MsgId, MsgId),
    Inl(MsgId),
    Inr(MsgId),
    Enc(MsgId, MsgId),
    Hash(MsgId),
}

impl Hash for MsgPart {
    ghost use Rattle.std.specs.Cmp.Rules.{hashing};
    ghost use Rattle.std.proofs.Common.{rules};
    ghost use Rattle.spi_intern.specs.Hashed.{part_fed};

    ghost hash_input = { part_fed };

    ghost respects_eq = { Prim.search (hashing, rules) };

    fn hash<H: Hasher>(&self, state: &mut H) {
        match self {
            MsgPart::Bound(number) | MsgPart::Name(number) => number.hash(state),
            MsgPart::Unit => {}
            MsgPart::Pair(first, second) | MsgPart::Enc(first, second) => {
                mixed(first.place, second.place).hash(state)
            }
            MsgPart::Inl(part) | MsgPart::Inr(part) | MsgPart::Hash(part) => part.hash(state),
        }
    }
}

/// How many names have their numbers noted.
const NOTED: usize = 65_536;

/// Messages, each with its number. Contracts see them as a list, in the order of the numbers.
#[derive(Drop)]
pub struct Messages {
    parts: IndexSet<MsgPart>,
    /// Where the lowest names may stand among the parts, so that they needn't be looked for.
    names: Vec<usize>,
    /// Where other messages may stand.
    notes: Notes,
}

impl Model for Messages {
    ghost use Rattle.std.specs.Prelude.{List};
    ghost use Rattle.spi_term.specs.Term.{Message};
    ghost use Rattle.std.specs.Coded.{coded_list};
    ghost use Rattle.spi_intern.specs.Codes.{coded_message};

    ghost Value = { List Message };

    ghost coded = { coded_list coded_message };

    ghost use Rattle.spi_intern.specs.InsideMessages.{messages_in, IsInterned};

    ghost view = { messages_in };

    ghost invariant = { IsInterned };
}

/// Whether it is this name.
fn is_name(part: MsgPart, x: u32) -> bool
    ensures { IsTrue result → part ≡ parts.Name x }
{
    match part {
        MsgPart::Name(y) => y == x,
        _ => false,
    }
}

/// By which number the place of this part is noted.
fn key_of(part: MsgPart) -> usize {
    match part {
        MsgPart::Bound(number) | MsgPart::Name(number) => number as usize,
        MsgPart::Unit => 0,
        MsgPart::Pair(first, second) | MsgPart::Enc(first, second) => {
            first.place.wrapping_mul(31).wrapping_add(second.place)
        }
        MsgPart::Inl(part) | MsgPart::Inr(part) | MsgPart::Hash(part) => part.place,
    }
}

impl Messages {
    /// No messages.
    pub fn new(alloc: Global) -> Messages
        ensures { result ≡ [] }
    {
        Messages {
            parts: IndexSet::new(alloc),
            names: Vec::new(alloc),
            notes: Notes::new(alloc),
        }
    }

    /// The number of a message of which this is the outermost constructor.
    pub fn put(&mut self, part: MsgPart) -> Result<MsgId, NoMemory>
        requires { Says self.old part (said self.old part) }
        ensures grows { OnOk result (self.new ≡ message_added self.old (said self.old part)) }
        ensures same { OnErr result (self.new ≡ self.old) }
        ensures at { IfOk result (λ id. slice_get self.new id.place ≡ Some (said self.old part)) }
        ensures kept { KeepsAll self.old self.new }
        ensures distinct { AllDiffer self.new }
    {
        match part {
            MsgPart::Name(x) => self.put_name(x),
            _ => self.put_part(part),
        }
    }

    /// The same, looked for only where no place of it was noted.
    #[inline(always)]
    fn put_part(&mut self, part: MsgPart) -> Result<MsgId, NoMemory>
        requires { Says self.old part (said self.old part) }
        ensures grows { OnOk result (self.new ≡ message_added self.old (said self.old part)) }
        ensures same { OnErr result (self.new ≡ self.old) }
        ensures at { IfOk result (λ id. slice_get self.new id.place ≡ Some (said self.old part)) }
        ensures kept { KeepsAll self.old self.new }
        ensures distinct { AllDiffer self.new }
    {
        match self.noted_part(part) {
            Some(id) => Ok(id),
            None => self.put_looked(part),
        }
    }

    /// The same, looked for among all parts, and noted. It stays a function of its own, so that what was noted pays
    /// nothing for it.
    #[inline(never)]
    fn put_looked(&mut self, part: MsgPart) -> Result<MsgId, NoMemory>
        requires { Says self.old part (said self.old part) }
        ensures grows { OnOk result (self.new ≡ message_added self.old (said self.old part)) }
        ensures same { OnErr result (self.new ≡ self.old) }
        ensures at { IfOk result (λ id. slice_get self.new id.place ≡ Some (said self.old part)) }
        ensures kept { KeepsAll self.old self.new }
        ensures distinct { AllDiffer self.new }
    {
        let (place, _) = self.parts.insert_full(part)?;
        self.notes.put(key_of(part), place);
        Ok(MsgId { place })
    }

    /// The number of a message, where it stands in the place that was noted.
    #[inline(always)]
    fn noted_part(&self, part: MsgPart) -> Option<MsgId>
        ensures some { IfSome result (λ id. slice_get self.now id.place ≡ Some (said self.now part)) }
        ensures distinct { AllDiffer self.now }
    {
        let place = self.notes.get(key_of(part))?;
        let known = self.parts.get_index(place)?;
        if *known == part {
            Some(MsgId { place })
        } else {
            None
        }
    }

    /// The number of a name, which is looked for only where no place of it was noted.
    fn put_name(&mut self, x: u32) -> Result<MsgId, NoMemory>
        ensures grows { OnOk result (self.new ≡ message_added self.old (name x)) }
        ensures same { OnErr result (self.new ≡ self.old) }
        ensures at { IfOk result (λ id. slice_get self.new id.place ≡ Some (name x)) }
        ensures kept { KeepsAll self.old self.new }
        ensures distinct { AllDiffer self.new }
    {
        match self.noted(x) {
            Some(id) => Ok(id),
            None => self.put_noted(x),
        }
    }

    /// The number of a name, which is noted where there is room. It stays a function of its own, as it is seldom called.
    #[inline(never)]
    fn put_noted(&mut self, x: u32) -> Result<MsgId, NoMemory>
        ensures grows { OnOk result (self.new ≡ message_added self.old (name x)) }
        ensures same { OnErr result (self.new ≡ self.old) }
        ensures at { IfOk result (λ id. slice_get self.new id.place ≡ Some (name x)) }
        ensures kept { KeepsAll self.old self.new }
        ensures distinct { AllDiffer self.new }
    {
        let id = self.put_part(MsgPart::Name(x))?;
        self.note(x, id.place);
        Ok(id)
    }

    /// The number of a name, where it stands in the place that was noted.
    fn noted(&self, x: u32) -> Option<MsgId>
        ensures some { IfSome result (λ id. slice_get self.now id.place ≡ Some (name x)) }
        ensures distinct { AllDiffer self.now }
    {
        let place = *self.names.get(x as usize)?;
        let part = self.parts.get_index(place)?;
        if is_name(*part, x) {
            Some(MsgId { place })
        } else {
            None
        }
    }

    /// Notes where a name stands, one of the lowest, as far as there is room.
    fn note(&mut self, x: u32, place: usize)
        ensures { self.new ≡ self.old }
    {
        let at = x as usize;
        if at < NOTED && (at < self.names.len() || self.names.resize(at + 1, 0).is_ok()) {
            self.names[at] = place;
        }
    }

    /// The number of a bound variable.
    fn put_bound(&mut self, i: u32) -> Result<MsgId, NoMemory>
        ensures grows { OnOk result (self.new ≡ message_added self.old (bound i)) }
        ensures at { IfOk result (λ id. slice_get self.new id.place ≡ Some (bound i)) }
        ensures kept { KeepsAll self.old self.new }
        ensures distinct { AllDiffer self.new }
    {
        self.put_part(MsgPart::Bound(i))
    }

    /// The number of the unit.
    fn put_unit(&mut self) -> Result<MsgId, NoMemory>
        ensures grows { OnOk result (self.new ≡ message_added self.old unit) }
        ensures at { IfOk result (λ id. slice_get self.new id.place ≡ Some unit) }
        ensures kept { KeepsAll self.old self.new }
        ensures distinct { AllDiffer self.new }
    {
        self.put_part(MsgPart::Unit)
    }

    /// The number of a pair of messages with these numbers.
    fn put_pair(&mut self, first: MsgId, second: MsgId) -> Result<MsgId, NoMemory>
        requires { Says self.old (parts.Pair first second) (said self.old (parts.Pair first second)) }
        ensures grows { OnOk result
            (self.new ≡ message_added self.old (said self.old (parts.Pair first second))) }
        ensures at { IfOk result
            (λ id. slice_get self.new id.place ≡ Some (said self.old (parts.Pair first second))) }
        ensures kept { KeepsAll self.old self.new }
        ensures distinct { AllDiffer self.new }
    {
        self.put_part(MsgPart::Pair(first, second))
    }

    /// The number of the left injection of the message with this number.
    fn put_left(&mut self, part: MsgId) -> Result<MsgId, NoMemory>
        requires { Says self.old (parts.Inl part) (said self.old (parts.Inl part)) }
        ensures grows { OnOk result (self.new ≡ message_added self.old (said self.old (parts.Inl part))) }
        ensures at { IfOk result (λ id. slice_get self.new id.place ≡ Some (said self.old (parts.Inl part))) }
        ensures kept { KeepsAll self.old self.new }
        ensures distinct { AllDiffer self.new }
    {
        self.put_part(MsgPart::Inl(part))
    }

    /// The number of the right injection of the message with this number.
    fn put_right(&mut self, part: MsgId) -> Result<MsgId, NoMemory>
        requires { Says self.old (parts.Inr part) (said self.old (parts.Inr part)) }
        ensures grows { OnOk result (self.new ≡ message_added self.old (said self.old (parts.Inr part))) }
        ensures at { IfOk result (λ id. slice_get self.new id.place ≡ Some (said self.old (parts.Inr part))) }
        ensures kept { KeepsAll self.old self.new }
        ensures distinct { AllDiffer self.new }
    {
        self.put_part(MsgPart::Inr(part))
    }

    /// The number of an encryption of the message with the first number under that with the second one.
    fn put_enc(&mut self, body: MsgId, key: MsgId) -> Result<MsgId, NoMemory>
        requires { Says self.old (parts.Enc body key) (said self.old (parts.Enc body key)) }
        ensures grows { OnOk result (self.new ≡ message_added self.old (said self.old (parts.Enc body key))) }
        ensures at { IfOk result
            (λ id. slice_get self.new id.place ≡ Some (said self.old (parts.Enc body key))) }
        ensures kept { KeepsAll self.old self.new }
        ensures distinct { AllDiffer self.new }
    {
        self.put_part(MsgPart::Enc(body, key))
    }

    /// The number of the hash of the message with this number.
    fn put_hash(&mut self, part: MsgId) -> Result<MsgId, NoMemory>
        requires { Says self.old (parts.Hash part) (said self.old (parts.Hash part)) }
        ensures grows { OnOk result (self.new ≡ message_added self.old (said self.old (parts.Hash part))) }
        ensures at { IfOk result
            (λ id. slice_get self.new id.place ≡ Some (said self.old (parts.Hash part))) }
        ensures kept { KeepsAll self.old self.new }
        ensures distinct { AllDiffer self.new }
    {
        self.put_part(MsgPart::Hash(part))
    }

    /// The number of a message. Its parts get numbers first.
    #[cycle(intern)]
    pub fn intern(&mut self, m: &Msg) -> Result<MsgId, NoMemory>
        ensures grows { OnOk result (self.new ≡ interned self.old (message m.now)) }
        ensures at { IfOk result (λ id. slice_get self.new id.place ≡ Some (message m.now)) }
        ensures kept { KeepsAll self.old self.new }
        ensures distinct { AllDiffer self.new }
    {
        match m {
            Msg::Name(x) => self.put_name(*x),
            _ => self.intern_parts(m),
        }
    }

    /// The same for a message that may have parts. It stays a function of its own, so that a name pays nothing for it.
    #[cycle(intern)]
    #[inline(never)]
    fn intern_parts(&mut self, m: &Msg) -> Result<MsgId, NoMemory>
        ensures grows { OnOk result (self.new ≡ interned self.old (message m.now)) }
        ensures at { IfOk result (λ id. slice_get self.new id.place ≡ Some (message m.now)) }
        ensures kept { KeepsAll self.old self.new }
        ensures distinct { AllDiffer self.new }
    {
        match m {
            Msg::Bound(i) => self.put_bound(*i),
            Msg::Name(x) => self.put_name(*x),
            Msg::Unit => self.put_unit(),
            Msg::Pair(two) => {
                let first = self.intern(&two.first)?;
                let second = self.intern(&two.second)?;
                self.put_pair(first, second)
            }
            Msg::Inl(a) => {
                let part = self.intern(a)?;
                self.put_left(part)
            }
            Msg::Inr(a) => {
                let part = self.intern(a)?;
                self.put_right(part)
            }
            Msg::Enc(sealed) => {
                let body = self.intern(&sealed.body)?;
                let key = self.intern(&sealed.key)?;
                self.put_enc(body, key)
            }
            Msg::Hash(a) => {
                let part = self.intern(a)?;
                self.put_hash(part)
            }
        }
    }

    /// How many messages have numbers. No message has two.
    pub fn count(&self) -> usize
        ensures count { result ≡ length self.now }
        ensures small { result < 2 ^ 63 }
        ensures distinct { AllDiffer self.now }
    {
        self.parts.len()
    }

    /// The outermost constructor of the message with a number of this table.
    pub fn part(&self, m: MsgId) -> MsgPart
        requires { m.place < length self.now }
        ensures { (n : Message) → slice_get self.now m.place ≡ Some n → Says self.now result n }
    {
        match self.parts.get_index(m.place) {
            Some(part) => *part,
            None => MsgPart::Unit,
        }
    }
}
