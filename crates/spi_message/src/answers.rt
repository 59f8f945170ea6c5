// What a judge has answered, for each environment that it goes back to.

ghost use Rattle.std.specs.Prelude.{◌≡◌, ◌++◌, ◌∷◌, ◌<◌, [], length, true, false, IfSome, IfNone, OnOk, OnErr};
ghost use Rattle.spi_message.specs.Answered.{Entries, question, IsKeptAnswer, IsNew, EndsWithin};

use crate::NoMemory;
use indexmap::IndexMap;
use spi_intern::{MsgId, TyId};
use std::alloc::Global;

/// What is asked about numbers of a store.
#[derive(Clone, Copy, PartialEq, Eq, Hash)]
pub enum Asked {
    Typed(MsgId, TyId),
    Labelled(MsgId),
    Good(TyId),
}

/// What is asked where so many names are in scope.
#[derive(Clone, Copy, PartialEq, Eq, Hash)]
pub struct Question {
    names: usize,
    asked: Asked,
}

/// Answers, each with its question, in the order of being given.
#[derive(Drop)]
pub struct Answers {
    given: IndexMap<Question, bool>,
}

impl Answers {
    /// No answers.
    pub fn new(alloc: Global) -> Answers
        ensures { result.given.entries ≡ [] }
    {
        Answers {
            given: IndexMap::new(alloc),
        }
    }

    /// The answer that is kept.
    pub fn get(&self, names: usize, asked: Asked) -> Option<bool>
        ensures some { IfSome result (IsKeptAnswer self.now.given.entries (question names asked)) }
        ensures none { IfNone result (IsNew self.now.given.entries (question names asked)) }
    {
        self.given.get(&Question { names, asked }).copied()
    }

    /// Keeps an answer.
    pub fn keep(&mut self, names: usize, asked: Asked, answer: bool) -> Result<(), NoMemory>
        requires { IsNew self.old.given.entries (question names asked) }
        ensures ok { OnOk result
            (self.new.given.entries ≡ self.old.given.entries ++ (question names asked, answer) ∷ []) }
        ensures err { OnErr result (self.new.given.entries ≡ self.old.given.entries) }
    {
        self.given.insert(Question { names, asked }, answer)?;
        Ok(())
    }

    // The last answer was given where more names were in scope.
    fn is_above(&self, names: usize) -> bool
        ensures some { result ≡ true → 0 < length self.now.given.entries }
        ensures none { result ≡ false → EndsWithin self.now.given.entries names }
    {
        match self.given.last() {
            Some((question, _)) => question.names > names,
            None => false,
        }
    }

    /// Lets the last answers go, as long as they were given where more names were in scope.
    pub fn forget_above(&mut self, names: usize)
        ensures first { (gone : Entries) × (self.old.given.entries ≡ self.new.given.entries ++ gone) }
        ensures within { EndsWithin self.new.given.entries names }
    {
        while self.is_above(names) {
            let _ = self.given.pop();
        }
    }
}
