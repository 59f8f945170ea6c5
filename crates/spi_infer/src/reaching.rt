// The reached environment of a node.
ghost use Rattle.std.specs.Prelude.{◌≡◌, ℕ, ◌+◌, ◌≤◌, ◌<◌, [], ◌∷◌, ◌++◌, IfOk, OnOk, length};
ghost use Rattle.spi_term.specs.Term as Term;
ghost use Rattle.spi_term.specs.Term.{name, process_size};
ghost use Rattle.spi_term.specs.Substitution.{ty_put};
ghost use Rattle.spi_term.specs.View.{ty as type_of, shape_of};
ghost use Rattle.spi_rules.specs.Environment as Rules;
ghost use Rattle.spi_rules.specs.Blocking.{NodeOf};
ghost use Rattle.spi_infer.specs.Inferring.{IsReached};
ghost use Rattle.spi_infer.specs.Reaching.{Descends};

use crate::NoMemory;
use spi_rules::Env;
use spi_term::{Form, Msg, Node, Process, Ty, opened};
use std::alloc::Global;

// One more name of this type, in a process that begins at `body`.
fn enter(t: Ty, body: u32, env: &mut Env) -> Result<u32, NoMemory>
    requires { length env.old ≤ 400000 }
    ensures next { IfOk result (λ next. next ≡ body) }
    ensures env { OnOk result (env.new ≡ env.old ++ type_of t ∷ []) }
{
    env.push(t)?;
    Ok(body)
}

// The two names that a split binds.
fn enter_split(
    alloc: Global,
    first: &Ty,
    second: &Ty,
    body: u32,
    env: &mut Env,
) -> Result<u32, NoMemory>
    requires { length env.old ≤ 300000 }
    ensures next { IfOk result (λ next. next ≡ body) }
    ensures env { OnOk result
        (env.new ≡ env.old ++ type_of first.now
        ∷ (ty_put (name (length env.old)) (type_of second.now) ∷ [])) }
{
    let name = Msg::Name(env.len());
    let _ = enter(first.copy(alloc)?, body, env)?;
    enter(opened(alloc, second, &name)?, body, env)
}

// The side of a case that has the node `target`.
fn enter_side(
    alloc: Global,
    left: &Ty,
    on_left: u32,
    right: &Ty,
    on_right: u32,
    target: u32,
    env: &mut Env,
) -> Result<u32, NoMemory>
    requires { length env.old ≤ 300000 }
    ensures first { IfOk result
        (λ next. target < on_right → (next ≡ on_left) × (env.new ≡ env.old ++ type_of left.now ∷ [])) }
    ensures rest { IfOk result
        (λ next. on_right ≤ target → (next ≡ on_right) × (env.new ≡ env.old ++ type_of right.now ∷ [])) }
{
    if target < on_right {
        enter(left.copy(alloc)?, on_left, env)
    } else {
        enter(right.copy(alloc)?, on_right, env)
    }
}

// The process in a form that has the node `target`, by its number. The names that are bound there come into the
// environment.
fn descend(alloc: Global, node: &Node, target: u32, env: &mut Env) -> Result<u32, NoMemory>
    requires { length env.old ≤ 300000 }
    ensures { IfOk result (λ next. Descends (shape_of node.now) target env.old next env.new) }
{
    match &node.form {
        Form::Recv { ty, body, .. } => enter(ty.copy(alloc)?, *body, env),
        Form::Serve { ty, body, .. } => enter(ty.copy(alloc)?, *body, env),
        Form::Split {
            first,
            second,
            body,
            ..
        } => enter_split(alloc, first, second, *body, env),
        Form::Select {
            equal,
            second,
            body,
            ..
        } => enter(opened(alloc, second, equal)?, *body, env),
        Form::Branch {
            left,
            on_left,
            right,
            on_right,
            ..
        } => enter_side(alloc, left, *on_left, right, *on_right, target, env),
        Form::Decrypt { ty, body, .. } => enter(ty.copy(alloc)?, *body, env),
        Form::Check { body, .. } => Ok(*body),
        Form::Begin { body, .. } => Ok(*body),
        Form::End { body, .. } => Ok(*body),
        Form::EndMany { body, .. } => Ok(*body),
        Form::Cast { ty, body, .. } => enter(ty.copy(alloc)?, *body, env),
        Form::Fresh { ty, body } => enter(ty.copy(alloc)?, *body, env),
        Form::Par { first, rest } if target < *rest => Ok(*first),
        Form::Par { rest, .. } => Ok(*rest),
        Form::Send { .. } => Ok(target),
        Form::Stop => Ok(target),
    }
}

/// The reached environment of the node with this number, where the free names are untrusted.
pub fn reached(alloc: Global, process: &Process, node: u32) -> Result<Env, NoMemory>
    requires { node < process_size process.now.process }
    ensures { IfOk result (IsReached process.now.names process.now.process node) }
{
    let _ = process.len();
    let mut env = Env::of_free(alloc, process.names())?;
    let mut id = 0;
    while id < node {
        id = descend(alloc, process.node(id), node, &mut env)?;
    }
    Ok(env)
}

/// A process has a node for each number below that of its nodes, with one reached environment and one process there.
pub fn nodes_are_reached()
    ensures some { (env : Rules.Env) (p : Term.Process) (i : ℕ) → i < process_size p
        → (e : Rules.Env) × (q : Term.Process) × NodeOf env p i e q }
    ensures one { (env e f : Rules.Env) (p q r : Term.Process) (i : ℕ) → NodeOf env p i e q
        → NodeOf env p i f r → (e ≡ f) × (q ≡ r) }
{}
