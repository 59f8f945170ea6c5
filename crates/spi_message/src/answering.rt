// A question is asked once in an environment: its answer is kept there.

ghost use Rattle.std.specs.Prelude.{◌≡◌, IfOk, OnOk, length};
ghost use Rattle.spi_intern.specs.Meaning.{Keeps};
ghost use Rattle.spi_message.specs.Answered.{TellsTest, CanAsk, AreAnswers};
ghost use Rattle.spi_message.specs.Added.{AnswerGives};
ghost use Rattle.spi_message.specs.Asking.{IsEnvironment};

use crate::NoMemory;
use crate::answers::{Answers, Asked};
use crate::goodness::is_good_type;
use crate::typing::{has_type, is_label};
use spi_intern::{Store, TyId};
use std::alloc::Global;

// What the rules say.
fn ask(
    alloc: Global,
    store: &mut Store,
    types: &mut Vec<TyId>,
    asked: Asked,
) -> Result<bool, NoMemory>
    requires names { IsEnvironment store.old types.old.items }
    requires asked { CanAsk store.old (length types.old.items) asked }
    ensures answer { IfOk result (TellsTest store.old types.old.items asked) }
    ensures adds { OnOk result (AnswerGives store.old store.new types.old.items asked) }
    ensures kept { Keeps store.old store.new }
    ensures types { types.new.items ≡ types.old.items }
{
    let mut values = Vec::new(alloc);
    match asked {
        Asked::Typed(m, t) => has_type(alloc, store, types, m, t, &mut values),
        Asked::Labelled(m) => is_label(alloc, store, types, m),
        Asked::Good(t) => is_good_type(alloc, store, types, t, &mut values),
    }
}

/// The answer that is kept, or else what the rules say, which is kept from then on. The
/// environment is as before.
pub fn answered(
    alloc: Global,
    store: &mut Store,
    types: &mut Vec<TyId>,
    answers: &mut Answers,
    asked: Asked,
) -> Result<bool, NoMemory>
    requires names { IsEnvironment store.old types.old.items }
    requires asked { CanAsk store.old (length types.old.items) asked }
    requires answers { AreAnswers store.old types.old.items answers.old.given.entries }
    ensures answer { IfOk result (TellsTest store.old types.old.items asked) }
    ensures adds { OnOk result (AnswerGives store.old store.new types.old.items asked) }
    ensures kept { Keeps store.old store.new }
    ensures types { types.new.items ≡ types.old.items }
    ensures answers { AreAnswers store.new types.new.items answers.new.given.entries }
{
    let names = types.len();
    match answers.get(names, asked) {
        Some(answer) => Ok(answer),
        None => {
            let answer = ask(alloc, store, types, asked)?;
            answers.keep(names, asked, answer)?;
            Ok(answer)
        }
    }
}
