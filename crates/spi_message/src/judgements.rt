// The judgements on messages, labels, effects and types in an environment.

ghost use Rattle.std.specs.Prelude.{◌≡◌, ◌+◌, ◌^◌, ◌<◌, ◌↔◌, IfOk, [], length, true};
ghost use Rattle.spi_term.specs.Term.{Message, Effect as EffectTerm, Ty as TypeTerm};
ghost use Rattle.spi_term.specs.Spelling.{ty_nodes};
ghost use Rattle.spi_term.specs.View.{message, effect, ty};
ghost use Rattle.spi_rules.specs.Environment as Rules;
ghost use Rattle.spi_rules.specs.Messages.{HasType, IsLabel};
ghost use Rattle.spi_rules.specs.Good.{GoodEffect, GoodTy};
ghost use Rattle.spi_message.specs.Tests.{typed, labelled, good_effect as is_good_effect, good};

use crate::{NoMemory, scoped};
use spi_rules::Env;
use spi_term::{Effect, Msg, Ty};
use std::alloc::Global;

/// Whether the message has the type.
pub fn has_type(alloc: Global, env: &Env, m: &Msg, t: &Ty) -> Result<bool, NoMemory>
    ensures { IfOk result (λ b. (b ≡ true) ↔ HasType [] env.now (message m.now) (ty t.now)) }
{
    scoped::has_type(alloc, m, env.types(), &[], t)
}

/// Whether the message is a label.
pub fn is_label(alloc: Global, env: &Env, m: &Msg) -> Result<bool, NoMemory>
    ensures { IfOk result (λ b. (b ≡ true) ↔ IsLabel [] env.now (message m.now)) }
{
    scoped::is_label(alloc, m, env.types(), &[])
}

/// Whether the effect is good.
pub fn good_effect(alloc: Global, env: &Env, e: &Effect) -> Result<bool, NoMemory>
    ensures { IfOk result (λ b. (b ≡ true) ↔ GoodEffect [] env.now (effect e.now)) }
{
    scoped::is_good_effect(alloc, e, env.types(), &[])
}

/// Whether the type is good. The length of the environment and the nodes of the type are at most 4,294,967,295
/// together.
pub fn good_type(alloc: Global, env: &Env, t: &Ty) -> Result<bool, NoMemory>
    requires { length env.now + ty_nodes (ty t.now) < 2 ^ 32 }
    ensures { IfOk result (λ b. (b ≡ true) ↔ GoodTy [] env.now (ty t.now)) }
{
    let mut inner = Vec::new(alloc);
    scoped::is_good_type(alloc, t, env.types(), &mut inner)
}

/// The tests say exactly what the rules say.
pub fn tests_are_exact()
    ensures types { (e : Rules.Env) (m : Message) (t : TypeTerm) → typed m e t ≡ true ↔ HasType [] e m t }
    ensures labels { (e : Rules.Env) (m : Message) → labelled m e ≡ true ↔ IsLabel [] e m }
    ensures effects { (e : Rules.Env) (es : EffectTerm) → is_good_effect es e ≡ true ↔ GoodEffect [] e es }
    ensures good_types { (e : Rules.Env) (t : TypeTerm) → good e t ≡ true ↔ GoodTy [] e t }
{}
