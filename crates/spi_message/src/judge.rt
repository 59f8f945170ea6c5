// Judgements in an environment over shared terms.

ghost use Rattle.std.specs.Prelude.{◌≡◌, ◌↔◌, ◌+◌, ◌-◌, ◌<◌, ◌≤◌, ◌^◌, ◌++◌, ◌∷◌, ℕ, [], length, true, Some, IfOk, OnOk, OnErr, slice_get};
ghost use Rattle.spi_term.specs.Term as Term;
ghost use Rattle.spi_term.specs.SameTy.{SameTy};
ghost use Rattle.spi_term.specs.Substitution.{ty_put};
ghost use Rattle.spi_term.specs.View.{message, ty};
ghost use Rattle.spi_rules.specs.Environment.{Env, untrusted};
ghost use Rattle.spi_rules.specs.Messages.{HasType, IsLabel};
ghost use Rattle.spi_rules.specs.Good.{GoodTy};
ghost use Rattle.spi_intern.specs.Given.{IsGiven};
ghost use Rattle.spi_intern.specs.Meaning.{Means};
ghost use Rattle.spi_intern.specs.Growing.{Adds, a_message, a_type, over_types};
ghost use Rattle.spi_message.specs.Giving.{HasParts, GivesOnly, Compared, Examined, HasGiven};
ghost use Rattle.spi_message.specs.Answered.{TellsTest, CanAsk};
ghost use Rattle.spi_message.specs.Added.{AnswerGives};

use crate::NoMemory;
use crate::answering::answered;
use crate::answers::{Answers, Asked};
use crate::filling::filled_type;
use crate::telling::{is_told_good, is_told_label, told_type};
use spi_intern::{MsgId, Store, TyId};
use spi_term::{Msg, Ty};
use std::alloc::Global;
use std::marker::Model;

/// An environment over a store of its own: the type of each name is a number of that store. The first names, given
/// at the start, are of type `Un` and stay. What was answered in an environment is kept for as long as its names are
/// in scope, but for what a name's type or the names in scope tell at once.
pub struct Judge {
    store: Store,
    types: Vec<TyId>,
    free: u32,
    answers: Answers,
}

impl Drop for Judge {
    fn drop(self) {
        let Judge {
            store: _,
            types: _,
            free: _,
            answers: _,
        } = self;
    }
}

impl Model for Judge {
    ghost use Rattle.spi_intern.specs.Codes.{coded_message};
    ghost use Rattle.spi_intern.specs.Kinds.{coded_kind};
    ghost use Rattle.std.specs.Coded.{codes};
    ghost use Rattle.spi_message.specs.Judging.{Numbered};
    ghost use Rattle.spi_message.specs.Answered.{IsInside};

    ghost Value = { Numbered };

    ghost coded = { Prim.hlevel (codes, coded_message, coded_kind) };

    ghost view = { λ j. record { store = j.store; free = j.free; types = j.types.items } };

    ghost invariant = { λ j. IsInside j.store j.free j.types.items j.answers.given.entries };
}

impl Judge {
    ghost use Rattle.spi_message.specs.Judging.{Stands, IsGivenSmall, IsKept, IsJudge};

    /// `free` names of type `Un`, at most 100,000. This type alone has a number.
    pub fn new(alloc: Global, free: u32) -> Result<Judge, NoMemory>
        requires { free ≤ 100_000 }
        ensures free { IfOk result (λ j. j.free ≡ free) }
        ensures length { IfOk result (λ j. length j.types ≡ free) }
        ensures names { IfOk result (λ j. Stands j (untrusted free)) }
        ensures gave { IfOk result (λ j. HasGiven (a_type Term.un ∷ []) j.store) }
    {
        let mut store = Store::new(alloc);
        let un = store.ty(alloc, &Ty::Un)?;
        let mut types = Vec::new(alloc);
        for name in 0..free {
            let _ = name;
            types.push(un)?;
        }
        Ok(Judge {
            store,
            types,
            free,
            answers: Answers::new(alloc),
        })
    }

    /// The number of a message, as `Store::message` of the judge's store gives it.
    pub fn message(&mut self, m: &Msg) -> Result<MsgId, NoMemory>
        ensures at { IfOk result (λ id. slice_get self.new.store.messages id.place ≡ Some (message m.now)) }
        ensures within { IfOk result (λ id. id.place < length self.new.store.messages) }
        ensures equal { IfOk result
            (λ id. (j : ℕ) (n : Term.Message) → slice_get self.new.store.messages j ≡ Some n
            → (id.place ≡ j) ↔ (message m.now ≡ n)) }
        ensures adds { OnOk result (Adds self.old.store self.new.store (a_message (message m.now))) }
        ensures kept { IsKept self.old self.new }
    {
        self.store.message(m)
    }

    /// The number of a type, as `Store::ty` of the judge's store gives it.
    pub fn ty(&mut self, alloc: Global, t: &Ty) -> Result<TyId, NoMemory>
        ensures at { IfOk result (λ id. Means self.new.store id.place (ty t.now)) }
        ensures equal { IfOk result
            (λ id. (j : ℕ) (u : Term.Ty) → Means self.new.store j u → (id.place ≡ j) ↔ SameTy (ty t.now) u) }
        ensures adds { OnOk result (Adds self.old.store self.new.store (a_type (ty t.now))) }
        ensures kept { IsKept self.old self.new }
    {
        self.store.ty(alloc, t)
    }

    /// Adds a name of this type at the end. On `NoMemory` the environment is as before.
    pub fn bind(&mut self, t: TyId) -> Result<(), NoMemory>
        requires room { length self.old.types < 2 ^ 32 - 1 }
        requires ty { IsGiven self.old.store t.place }
        ensures ok { OnOk result (self.new.types ≡ self.old.types ++ t ∷ []) }
        ensures err { OnErr result (self.new.types ≡ self.old.types) }
        ensures store { self.new.store ≡ self.old.store }
        ensures free { self.new.free ≡ self.old.free }
    {
        self.types.push(t)?;
        Ok(())
    }

    /// Takes the last name away. The names that were there at the start stay, so the length is above their number.
    pub fn unbind(&mut self)
        requires { self.old.free < length self.old.types }
        ensures types { (t : TyId) × (self.old.types ≡ self.new.types ++ t ∷ []) }
        ensures store { self.new.store ≡ self.old.store }
        ensures free { self.new.free ≡ self.old.free }
    {
        let _ = self.types.pop();
        self.answers.forget_above(self.types.len());
    }

    /// The number of `t{x := m}`, where `t` stands under one binder x. This type and its parts have numbers afterwards, and
    /// nothing else is new. `m` is to have its parts in the store, as each message whose number a call gave.
    pub fn opened(&mut self, alloc: Global, t: TyId, m: MsgId) -> Result<TyId, NoMemory>
        requires ty { IsGiven self.old.store t.place }
        requires message { m.place < length self.old.store.messages }
        ensures at { IfOk result
            (λ id. (u : Term.Ty) (n : Term.Message) → Means self.old.store t.place u
            → slice_get self.old.store.messages m.place ≡ Some n
            → Means self.new.store id.place (ty_put n u)) }
        ensures adds { OnOk result
            ((u : Term.Ty) (n : Term.Message) → Means self.old.store t.place u
            → slice_get self.old.store.messages m.place ≡ Some n → HasParts self.old.store.messages n
            → Adds self.old.store self.new.store (a_type (ty_put n u))) }
        ensures kept { IsKept self.old self.new }
    {
        filled_type(alloc, &mut self.store, &[m], 0, t)
    }

    /// The number of the type of pairs of these types, as `Store::pair_over` of the judge's store gives it.
    pub fn pair_over(&mut self, first: TyId, second: TyId) -> Result<TyId, NoMemory>
        requires first { IsGiven self.old.store first.place }
        requires second { IsGiven self.old.store second.place }
        ensures at { IfOk result
            (λ id. (t u : Term.Ty) → Means self.old.store first.place t → Means self.old.store second.place u
            → Means self.new.store id.place (Term.pair_ty t u)) }
        ensures adds { OnOk result
            ((t u : Term.Ty) → Means self.old.store first.place t → Means self.old.store second.place u
            → Adds self.old.store self.new.store (over_types (Term.pair_ty t u))) }
        ensures kept { IsKept self.old self.new }
    {
        self.store.pair_over(first, second)
    }

    /// The number of the sum of these types, as `Store::sum_over` of the judge's store gives it.
    pub fn sum_over(&mut self, left: TyId, right: TyId) -> Result<TyId, NoMemory>
        requires left { IsGiven self.old.store left.place }
        requires right { IsGiven self.old.store right.place }
        ensures at { IfOk result
            (λ id. (t u : Term.Ty) → Means self.old.store left.place t → Means self.old.store right.place u
            → Means self.new.store id.place (Term.sum_ty t u)) }
        ensures adds { OnOk result
            ((t u : Term.Ty) → Means self.old.store left.place t → Means self.old.store right.place u
            → Adds self.old.store self.new.store (over_types (Term.sum_ty t u))) }
        ensures kept { IsKept self.old self.new }
    {
        self.store.sum_over(left, right)
    }

    /// The number of the type of keys for this payload, as `Store::key_over` of the judge's store gives it.
    pub fn key_over(&mut self, payload: TyId) -> Result<TyId, NoMemory>
        requires { IsGiven self.old.store payload.place }
        ensures at { IfOk result
            (λ id. (t : Term.Ty) → Means self.old.store payload.place t
            → Means self.new.store id.place (Term.key t)) }
        ensures adds { OnOk result
            ((t : Term.Ty) → Means self.old.store payload.place t
            → Adds self.old.store self.new.store (over_types (Term.key t))) }
        ensures kept { IsKept self.old self.new }
    {
        self.store.key_over(payload)
    }

    // The answer that is kept, or else what the rules say, which is kept from then on.
    fn answer_in_scope(&mut self, alloc: Global, asked: Asked) -> Result<bool, NoMemory>
        requires { CanAsk self.old.store (length self.old.types) asked }
        ensures answer { IfOk result (TellsTest self.old.store self.old.types asked) }
        ensures adds { OnOk result (AnswerGives self.old.store self.new.store self.old.types asked) }
        ensures kept { IsKept self.old self.new }
    {
        answered(
            alloc,
            &mut self.store,
            &mut self.types,
            &mut self.answers,
            asked,
        )
    }

    /// The number of `Un`, as `Store::un` of the judge's store gives it.
    pub fn un(&mut self) -> Result<TyId, NoMemory>
        ensures at { IfOk result (λ id. Means self.new.store id.place Term.un) }
        ensures adds { OnOk result (Adds self.old.store self.new.store (a_type Term.un)) }
        ensures kept { IsKept self.old self.new }
    {
        self.store.un()
    }

    /// Whether the message has the type. Only types that a name of the message was compared with are new.
    #[inline(always)]
    pub fn has_type(&mut self, alloc: Global, m: MsgId, t: TyId) -> Result<bool, NoMemory>
        requires message { m.place < length self.old.store.messages }
        requires ty { IsGiven self.old.store t.place }
        ensures answer { IfOk result
            (λ b. (env : Env) (n : Term.Message) (u : Term.Ty) → Stands self.old env
            → slice_get self.old.store.messages m.place ≡ Some n → Means self.old.store t.place u
            → (b ≡ true) ↔ HasType [] env n u) }
        ensures adds { OnOk result
            ((env : Env) (n : Term.Message) (u : Term.Ty) → Stands self.old env
            → slice_get self.old.store.messages m.place ≡ Some n → Means self.old.store t.place u
            → HasParts self.old.store.messages n
            → GivesOnly (Compared env n u) self.old.store self.new.store) }
        ensures kept { IsKept self.old self.new }
    {
        match told_type(&self.store, &self.types, m, t) {
            Some(answer) => Ok(answer),
            None => self.answer_in_scope(alloc, Asked::Typed(m, t)),
        }
    }

    /// Whether the message is a label. Only types that a name of the message was compared with are new.
    pub fn is_label(&mut self, alloc: Global, m: MsgId) -> Result<bool, NoMemory>
        requires { m.place < length self.old.store.messages }
        ensures answer { IfOk result
            (λ b. (env : Env) (n : Term.Message) → Stands self.old env
            → slice_get self.old.store.messages m.place ≡ Some n → (b ≡ true) ↔ IsLabel [] env n) }
        ensures adds { OnOk result
            ((env : Env) (n : Term.Message) → Stands self.old env
            → slice_get self.old.store.messages m.place ≡ Some n → HasParts self.old.store.messages n
            → GivesOnly (Compared env n Term.un) self.old.store self.new.store) }
        ensures kept { IsKept self.old self.new }
    {
        if is_told_label(&self.store, &self.types, m) {
            return Ok(true);
        }
        self.answer_in_scope(alloc, Asked::Labelled(m))
    }

    /// Whether the type is good. The length of the environment and the nodes of the type are at most 4,294,967,295
    /// together. Only the names for its binders, their types, the messages of its atoms and types that these were compared
    /// with are new.
    pub fn good_type(&mut self, alloc: Global, t: TyId) -> Result<bool, NoMemory>
        requires { IsGivenSmall self.old.store t.place (length self.old.types) }
        ensures answer { IfOk result
            (λ b. (env : Env) (u : Term.Ty) → Stands self.old env → Means self.old.store t.place u
            → (b ≡ true) ↔ GoodTy [] env u) }
        ensures adds { OnOk result
            ((env : Env) (u : Term.Ty) → Stands self.old env → Means self.old.store t.place u
            → GivesOnly (Examined env u) self.old.store self.new.store) }
        ensures kept { IsKept self.old self.new }
    {
        if is_told_good(&self.store, &self.types, t) {
            return Ok(true);
        }
        self.answer_in_scope(alloc, Asked::Good(t))
    }

    /// What holds of every judge: it stands for an environment, in which the names from the start are the first.
    pub fn stands_for_one(&self)
        ensures { IsJudge self.now.store self.now.free self.now.types }
    {
        let _ = &self.types;
    }

    /// How many names there are.
    pub fn len(&self) -> u32
        ensures { result ≡ length self.now.types }
    {
        self.types.len() as u32
    }

    /// The number of a name's type, for a name below the length.
    pub fn at(&self, name: u32) -> TyId
        requires { name < length self.now.types }
        ensures { slice_get self.now.types name ≡ Some result }
    {
        self.types[name as usize]
    }

    /// The store whose numbers the judge gives and takes.
    pub fn store(&self) -> &Store
        ensures { result.now ≡ self.now.store }
    {
        &self.store
    }
}
