// Messages and types with numbers.

ghost use Rattle.std.specs.Prelude.{◌≡◌, ◌↔◌, ◌+◌, ◌<◌, ◌≤◌, ℕ, List, [], ◌∷◌, Some, IfOk, OnOk, slice_get, length};
ghost use Rattle.spi_term.specs.Term as Term;
ghost use Rattle.spi_term.specs.Term.{message_size};
ghost use Rattle.spi_term.specs.SameTy.{SameTy};
ghost use Rattle.spi_term.specs.View.{message, atom, effect, ty};
ghost use Rattle.spi_intern.specs.declared.atoms.AtomId.{AtomId};
ghost use Rattle.spi_intern.specs.Messages.{Says};
ghost use Rattle.spi_intern.specs.Atoms.{SaysAtom, IdsMean};
ghost use Rattle.spi_intern.specs.Typed.{SaysKind, said_kind};
ghost use Rattle.spi_intern.specs.Kinds.{un, unit, nonce, same_kind};
ghost use Rattle.spi_intern.specs.Table.{AllDiffer, TellsAll, with_value};
ghost use Rattle.spi_intern.specs.Meaning.{Means, Keeps, NoneTwice};
ghost use Rattle.spi_intern.specs.Parts.{InEffect};
ghost use Rattle.spi_intern.specs.Growing.{AddsMessages, Adds, a_message, a_type, over_messages, over_types};
ghost use Rattle.spi_intern.specs.Lent.{SaysTy};
ghost use Rattle.spi_intern.specs.Given.{IsGiven, IsOverGiven, AreGiven};

use crate::NoMemory;
use crate::atoms::{AtomId, atom_id, atom_ids, canonical};
use crate::effects::Effects;
use crate::messages::{Messages, MsgId, MsgPart};
use crate::types::{TyId, TyNode, Types};
use spi_term::{Atom, Effect, Msg, Ty};
use std::alloc::Global;

/// Messages and types, each with its number: equal messages have equal numbers, and so have types that are equal
/// up to equal counts of atoms within each Nonce. Whatever a call answers, each number means what it meant.
#[derive(Drop)]
pub struct Store {
    messages: Messages,
    effects: Effects,
    types: Types,
}

/// The outermost constructor of a type, with the numbers of its parts.
#[derive(Clone, Copy)]
pub enum TyPart<'s> {
    Un,
    Unit,
    Pair(TyId, TyId),
    Sum(TyId, TyId),
    Key(TyId),
    Nonce(&'s [AtomId]),
}

impl Store {
    /// No terms.
    pub fn new(alloc: Global) -> Store
        ensures messages { result.messages ≡ [] }
        ensures types { result.types ≡ [] }
    {
        Store {
            messages: Messages::new(alloc),
            effects: Effects::new(alloc),
            types: Types::new(alloc),
        }
    }

    /// The number of a message: that of an equal one, and no number of another one. It and its parts have numbers
    /// afterwards, and nothing else is new: at most as many as it has nodes. `NoMemory`: some of its parts may have numbers.
    pub fn message(&mut self, m: &Msg) -> Result<MsgId, NoMemory>
        ensures at { IfOk result (λ id. slice_get self.new.messages id.place ≡ Some (message m.now)) }
        ensures within { IfOk result (λ id. id.place < length self.new.messages) }
        ensures equal { IfOk result
            (λ id. (j : ℕ) (n : Term.Message) → slice_get self.new.messages j ≡ Some n
            → (id.place ≡ j) ↔ (message m.now ≡ n)) }
        ensures adds { OnOk result (Adds self.old self.new (a_message (message m.now))) }
        ensures few { OnOk result
            (length self.new.messages ≤ length self.old.messages + message_size (message m.now)) }
        ensures kept { Keeps self.old self.new }
    {
        self.messages.intern(m)
    }

    /// The number of a type: that of one that is the same, and no number of another one. It, its parts and the
    /// messages in it have numbers afterwards, and nothing else is new. `NoMemory`: some of them may have numbers.
    pub fn ty(&mut self, alloc: Global, t: &Ty) -> Result<TyId, NoMemory>
        ensures at { IfOk result (λ id. Means self.new id.place (ty t.now)) }
        ensures within { IfOk result (λ id. id.place < length self.new.types) }
        ensures equal { IfOk result
            (λ id. (j : ℕ) (u : Term.Ty) → Means self.new j u → (id.place ≡ j) ↔ SameTy (ty t.now) u) }
        ensures adds { OnOk result (Adds self.old self.new (a_type (ty t.now))) }
        ensures kept { Keeps self.old self.new }
    {
        let id = self.intern(alloc, t)?;
        // The count is asked for what its answer says: nothing has two numbers.
        let _ = self.distinct();
        Ok(id)
    }

    /// The number of `Un`, which has one afterwards. Nothing else is new.
    pub fn un(&mut self) -> Result<TyId, NoMemory>
        ensures at { IfOk result (λ id. Means self.new id.place Term.un) }
        ensures adds { OnOk result (Adds self.old self.new (a_type Term.un)) }
        ensures kept { Keeps self.old self.new }
    {
        let id = self.put_un()?;
        Ok(id)
    }

    /// How many different messages and different types have numbers. Where each call on the store answered `Ok`, that is how
    /// many there are among the terms that it was given and their parts (`parts_are_counted`), and else at least so many
    /// (`parts_are_counted_at_least`).
    pub fn distinct(&self) -> u64
        ensures count { result ≡ length self.now.messages + length self.now.types }
        ensures differ { NoneTwice self.now }
    {
        // The count is asked for what its answer says: no effect has two numbers.
        let _ = self.effects.count();
        self.messages.count() as u64 + self.types.count() as u64
    }

    /// How many different messages have numbers.
    pub fn message_count(&self) -> usize
        ensures count { result ≡ length self.now.messages }
        ensures differ { AllDiffer self.now.messages }
    {
        self.messages.count()
    }

    /// The outermost constructor of the message with a number of this store, with the numbers of its parts.
    pub fn part(&self, m: MsgId) -> MsgPart
        requires { m.place < length self.now.messages }
        ensures { (n : Term.Message) → slice_get self.now.messages m.place ≡ Some n
            → Says self.now.messages result n }
    {
        self.messages.part(m)
    }

    /// The outermost constructor of the type with a number of this store, with the numbers of its parts. A Nonce
    /// has each `many` atom once and every other atom as often as it stands in the type, in an order of the
    /// store's own.
    pub fn ty_part(&self, t: TyId) -> TyPart<'_>
        requires { t.place < length self.now.types }
        ensures { (u : Term.Ty) → Means self.now t.place u → SaysTy self.now result u }
    {
        match self.types.node(t) {
            TyNode::Un => TyPart::Un,
            TyNode::Unit => TyPart::Unit,
            TyNode::Pair(first, second) => TyPart::Pair(first, second),
            TyNode::Sum(left, right) => TyPart::Sum(left, right),
            TyNode::Key(payload) => TyPart::Key(payload),
            TyNode::Nonce(place) => TyPart::Nonce(self.effects.atoms(place)),
        }
    }

    /// The number of the message with this outermost constructor, whose parts are numbers of this store. Nothing else is new.
    pub fn message_over(&mut self, part: MsgPart) -> Result<MsgId, NoMemory>
        requires { IsOverGiven self.old.messages part }
        ensures at { IfOk result
            (λ id. (n : Term.Message) → Says self.old.messages part n
            → slice_get self.new.messages id.place ≡ Some n) }
        ensures adds { OnOk result
            ((n : Term.Message) → Says self.old.messages part n → Adds self.old self.new (over_messages n)) }
        ensures kept { Keeps self.old self.new }
    {
        self.messages.put(part)
    }

    /// The number of the type of pairs of these types, which are numbers of this store. Nothing else is new.
    pub fn pair_over(&mut self, first: TyId, second: TyId) -> Result<TyId, NoMemory>
        requires first { IsGiven self.old first.place }
        requires second { IsGiven self.old second.place }
        ensures at { IfOk result
            (λ id. (t u : Term.Ty) → Means self.old first.place t → Means self.old second.place u
            → Means self.new id.place (Term.pair_ty t u)) }
        ensures adds { OnOk result
            ((t u : Term.Ty) → Means self.old first.place t → Means self.old second.place u
            → Adds self.old self.new (over_types (Term.pair_ty t u))) }
        ensures kept { Keeps self.old self.new }
    {
        self.put(TyNode::Pair(first, second))
    }

    /// The number of the sum of these types, which are numbers of this store. Nothing else is new.
    pub fn sum_over(&mut self, left: TyId, right: TyId) -> Result<TyId, NoMemory>
        requires left { IsGiven self.old left.place }
        requires right { IsGiven self.old right.place }
        ensures at { IfOk result
            (λ id. (t u : Term.Ty) → Means self.old left.place t → Means self.old right.place u
            → Means self.new id.place (Term.sum_ty t u)) }
        ensures adds { OnOk result
            ((t u : Term.Ty) → Means self.old left.place t → Means self.old right.place u
            → Adds self.old self.new (over_types (Term.sum_ty t u))) }
        ensures kept { Keeps self.old self.new }
    {
        self.put(TyNode::Sum(left, right))
    }

    /// The number of the type of keys for this payload, which is a number of this store. Nothing else is new.
    pub fn key_over(&mut self, payload: TyId) -> Result<TyId, NoMemory>
        requires { IsGiven self.old payload.place }
        ensures at { IfOk result
            (λ id. (t : Term.Ty) → Means self.old payload.place t → Means self.new id.place (Term.key t)) }
        ensures adds { OnOk result
            ((t : Term.Ty) → Means self.old payload.place t
            → Adds self.old self.new (over_types (Term.key t))) }
        ensures kept { Keeps self.old self.new }
    {
        self.put(TyNode::Key(payload))
    }

    /// The number of the Nonce type with these atoms, over numbers of this store. Nothing else is new.
    pub fn nonce_over(&mut self, alloc: Global, atoms: Vec<AtomId>) -> Result<TyId, NoMemory>
        requires { AreGiven self.old.messages atoms.items }
        ensures at { IfOk result
            (λ id. (es : Term.Effect) → TellsAll (SaysAtom self.old.messages) atoms.items es
            → Means self.new id.place (Term.nonce es)) }
        ensures adds { OnOk result
            ((es : Term.Effect) → TellsAll (SaysAtom self.old.messages) atoms.items es
            → Adds self.old self.new (over_types (Term.nonce es))) }
        ensures kept { Keeps self.old self.new }
    {
        // The count is asked for what its answer says: no message has two numbers.
        let _ = self.messages.count();
        let ids = canonical(alloc, atoms)?;
        let place = self.effects.put(ids)?;
        self.put(TyNode::Nonce(place))
    }

    // The number of a type of which this is the outermost constructor.
    fn put(&mut self, node: TyNode) -> Result<TyId, NoMemory>
        requires { SaysKind self.old.types node (said_kind self.old.types node) }
        ensures at { IfOk result
            (λ id. slice_get self.new.types id.place ≡ Some (said_kind self.old.types node)) }
        ensures grows { OnOk result
            (self.new.types ≡ with_value same_kind self.old.types (said_kind self.old.types node)) }
        ensures kept { Keeps self.old self.new }
        ensures messages { self.new.messages ≡ self.old.messages }
        ensures effects { self.new.effects ≡ self.old.effects }
    {
        self.types.put(node)
    }

    // The number of `Un`.
    fn put_un(&mut self) -> Result<TyId, NoMemory>
        ensures at { IfOk result (λ id. slice_get self.new.types id.place ≡ Some un) }
        ensures grows { OnOk result (self.new.types ≡ with_value same_kind self.old.types un) }
        ensures kept { Keeps self.old self.new }
        ensures messages { self.new.messages ≡ self.old.messages }
        ensures effects { self.new.effects ≡ self.old.effects }
    {
        self.types.put_un()
    }

    // The number of the unit type.
    fn put_unit(&mut self) -> Result<TyId, NoMemory>
        ensures at { IfOk result (λ id. slice_get self.new.types id.place ≡ Some unit) }
        ensures grows { OnOk result (self.new.types ≡ with_value same_kind self.old.types unit) }
        ensures kept { Keeps self.old self.new }
        ensures messages { self.new.messages ≡ self.old.messages }
        ensures effects { self.new.effects ≡ self.old.effects }
    {
        self.put(TyNode::Unit)
    }

    // The number of the Nonce type with the effect that has this number.
    fn put_nonce(&mut self, place: usize) -> Result<TyId, NoMemory>
        ensures at { IfOk result (λ id. slice_get self.new.types id.place ≡ Some (nonce place)) }
        ensures grows { OnOk result (self.new.types ≡ with_value same_kind self.old.types (nonce place)) }
        ensures kept { Keeps self.old self.new }
        ensures messages { self.new.messages ≡ self.old.messages }
        ensures effects { self.new.effects ≡ self.old.effects }
    {
        self.put(TyNode::Nonce(place))
    }

    // The number of the effect of one atom.
    fn atom_alone(&mut self, alloc: Global, a: &Atom) -> Result<usize, NoMemory>
        ensures at { IfOk result
            (λ place. (ids : List AtomId) × (slice_get self.new.effects place ≡ Some ids)
            × IdsMean self.new.messages ids (atom a.now ∷ [])) }
        ensures adds { OnOk result
            (AddsMessages self.old.messages self.new.messages (λ x. InEffect x (atom a.now ∷ []))) }
        ensures types { self.new.types ≡ self.old.types }
        ensures kept { Keeps self.old self.new }
    {
        let id = atom_id(&mut self.messages, a)?;
        // The count is asked for what its answer says: no message has two numbers.
        let _ = self.messages.count();
        let place = self.effects.put_one(alloc, id)?;
        Ok(place)
    }

    // The number of an effect.
    fn effect(&mut self, alloc: Global, e: &Effect) -> Result<usize, NoMemory>
        ensures at { IfOk result
            (λ place. (ids : List AtomId) × (slice_get self.new.effects place ≡ Some ids)
            × IdsMean self.new.messages ids (effect e.now)) }
        ensures adds { OnOk result
            (AddsMessages self.old.messages self.new.messages (λ x. InEffect x (effect e.now))) }
        ensures types { self.new.types ≡ self.old.types }
        ensures kept { Keeps self.old self.new }
    {
        if e.atoms.len() == 1 {
            return self.atom_alone(alloc, &e.atoms[0]);
        }
        let written = atom_ids(alloc, &mut self.messages, e)?;
        // The count is asked for what its answer says: no message has two numbers.
        let _ = self.messages.count();
        let ids = canonical(alloc, written)?;
        self.effects.put(ids)
    }

    // The number of a type, with its parts.
    fn intern(&mut self, alloc: Global, t: &Ty) -> Result<TyId, NoMemory>
        ensures at { IfOk result (λ id. Means self.new id.place (ty t.now)) }
        ensures adds { IfOk result (λ id. Adds self.old self.new (a_type (ty t.now))) }
        ensures kept { Keeps self.old self.new }
    {
        match t {
            Ty::Un => {
                let id = self.put_un()?;
                Ok(id)
            }
            _ => {
                let id = self.intern_parts(alloc, t)?;
                Ok(id)
            }
        }
    }

    // The same for a type that may have parts.
    fn intern_parts(&mut self, alloc: Global, t: &Ty) -> Result<TyId, NoMemory>
        ensures at { IfOk result (λ id. Means self.new id.place (ty t.now)) }
        ensures adds { IfOk result (λ id. Adds self.old self.new (a_type (ty t.now))) }
        ensures kept { Keeps self.old self.new }
    {
        match t {
            Ty::Un => {
                let id = self.put_un()?;
                Ok(id)
            }
            Ty::Unit => {
                let id = self.put_unit()?;
                Ok(id)
            }
            Ty::Pair(two) => {
                let first = self.intern_parts(alloc, &two.first)?;
                let second = self.intern_parts(alloc, &two.second)?;
                let id = self.pair_over(first, second)?;
                Ok(id)
            }
            Ty::Sum(two) => {
                let first = self.intern_parts(alloc, &two.first)?;
                let second = self.intern_parts(alloc, &two.second)?;
                let id = self.sum_over(first, second)?;
                Ok(id)
            }
            Ty::Key(a) => {
                let part = self.intern_parts(alloc, a)?;
                let id = self.key_over(part)?;
                Ok(id)
            }
            Ty::Nonce(e) => {
                let place = self.effect(alloc, e)?;
                let id = self.put_nonce(place)?;
                Ok(id)
            }
        }
    }
}
