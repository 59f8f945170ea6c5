// What is to blame in the messages of a node.

ghost use Rattle.std.specs.Prelude.{◌<◌, IfOk, OnOk, List, [], ◌∷◌, ◌++◌};
ghost use Rattle.spi_blame.specs.Blaming.{Question, typed, labelled};
ghost use Rattle.spi_explain.specs.Premises.{premises, premises_at, AreAnswered};
ghost use Rattle.spi_rules.specs.Blocking.{NodeOf};
ghost use Rattle.spi_rules.specs.Environment as Rules;
ghost use Rattle.spi_rules.specs.Environment.{untrusted};
ghost use Rattle.spi_term.specs.Term as Term;
ghost use Rattle.spi_term.specs.Term.{process_size, un};
ghost use Rattle.spi_term.specs.View.{message, ty as type_of, shape_of};

use crate::NoMemory;
use spi_blame::{Blame, lacking, lacking_label};
use spi_infer::reached;
use spi_message::{key_type, pair_type, sum_type};
use spi_rules::Env;
use spi_term::{Form, Msg, Node, Process, Ty};
use std::alloc::Global;

/// A question that a typing rule asks of a message: whether it has the type, or where none is given whether it is a label;
/// and where it isn't so, what is to blame.
#[derive(Drop)]
pub struct Answer {
    pub message: Msg,
    pub wanted: Option<Ty>,
    pub blame: Option<Blame>,
}

// One question more: whether the message has the type.
fn ask_type(
    alloc: Global,
    env: &Env,
    m: &Msg,
    t: Ty,
    answers: &mut Vec<Answer>,
) -> Result<(), NoMemory>
    ensures { OnOk result ((qs : List Question) → AreAnswered env.now qs answers.old.items
        → AreAnswered env.now (qs ++ typed (message m.now) (type_of t) ∷ []) answers.new.items) }
{
    let blame = lacking(alloc, env, m, &t)?;
    let message = m.copy(alloc)?;
    answers.push(Answer {
        message,
        wanted: Some(t),
        blame,
    })?;
    Ok(())
}

// One question more: whether the message is a label.
fn ask_label(alloc: Global, env: &Env, m: &Msg, answers: &mut Vec<Answer>) -> Result<(), NoMemory>
    ensures { OnOk result ((qs : List Question) → AreAnswered env.now qs answers.old.items
        → AreAnswered env.now (qs ++ labelled (message m.now) ∷ []) answers.new.items) }
{
    let blame = lacking_label(alloc, env, m)?;
    let message = m.copy(alloc)?;
    answers.push(Answer {
        message,
        wanted: None,
        blame,
    })?;
    Ok(())
}

fn send_answers(alloc: Global, env: &Env, m: &Msg, n: &Msg) -> Result<Vec<Answer>, NoMemory>
    ensures { IfOk result (λ v. AreAnswered env.now
        (typed (message m.now) un ∷ typed (message n.now) un ∷ []) v.items) }
{
    let mut answers = Vec::new(alloc);
    ask_type(alloc, env, m, Ty::Un, &mut answers)?;
    ask_type(alloc, env, n, Ty::Un, &mut answers)?;
    Ok(answers)
}

fn untrusted_answers(alloc: Global, env: &Env, m: &Msg) -> Result<Vec<Answer>, NoMemory>
    ensures { IfOk result (λ v. AreAnswered env.now (typed (message m.now) un ∷ []) v.items) }
{
    let mut answers = Vec::new(alloc);
    ask_type(alloc, env, m, Ty::Un, &mut answers)?;
    Ok(answers)
}

fn label_answers(alloc: Global, env: &Env, m: &Msg) -> Result<Vec<Answer>, NoMemory>
    ensures { IfOk result (λ v. AreAnswered env.now (labelled (message m.now) ∷ []) v.items) }
{
    let mut answers = Vec::new(alloc);
    ask_label(alloc, env, m, &mut answers)?;
    Ok(answers)
}

// Of a message that is taken apart, where its parts are of the types of this one.
fn whole_answers(alloc: Global, env: &Env, m: &Msg, whole: Ty) -> Result<Vec<Answer>, NoMemory>
    ensures { IfOk result (λ v. AreAnswered env.now
        (typed (message m.now) (type_of whole) ∷ typed (message m.now) un ∷ []) v.items) }
{
    let mut answers = Vec::new(alloc);
    ask_type(alloc, env, m, whole, &mut answers)?;
    ask_type(alloc, env, m, Ty::Un, &mut answers)?;
    Ok(answers)
}

fn select_answers(
    alloc: Global,
    env: &Env,
    m: &Msg,
    whole: Ty,
    n: &Msg,
    t: &Ty,
) -> Result<Vec<Answer>, NoMemory>
    ensures { IfOk result (λ v. AreAnswered env.now
        (typed (message m.now) (type_of whole) ∷ typed (message n.now) (type_of t.now)
        ∷ typed (message m.now) un ∷ typed (message n.now) un ∷ []) v.items) }
{
    let mut answers = Vec::new(alloc);
    ask_type(alloc, env, m, whole, &mut answers)?;
    let first = t.copy(alloc)?;
    ask_type(alloc, env, n, first, &mut answers)?;
    ask_type(alloc, env, m, Ty::Un, &mut answers)?;
    ask_type(alloc, env, n, Ty::Un, &mut answers)?;
    Ok(answers)
}

fn decrypt_answers(
    alloc: Global,
    env: &Env,
    m: &Msg,
    n: &Msg,
    wanted: Ty,
) -> Result<Vec<Answer>, NoMemory>
    ensures { IfOk result (λ v. AreAnswered env.now
        (typed (message m.now) un ∷ typed (message n.now) (type_of wanted) ∷ typed (message n.now) un ∷ [])
        v.items) }
{
    let mut answers = Vec::new(alloc);
    ask_type(alloc, env, m, Ty::Un, &mut answers)?;
    ask_type(alloc, env, n, wanted, &mut answers)?;
    ask_type(alloc, env, n, Ty::Un, &mut answers)?;
    Ok(answers)
}

// The answers for the questions of a node's form.
fn answers_at(alloc: Global, env: &Env, node: &Node) -> Result<Vec<Answer>, NoMemory>
    ensures { IfOk result (λ v. AreAnswered env.now (premises_at (shape_of node.now)) v.items) }
{
    match &node.form {
        Form::Send { channel, datum } => send_answers(alloc, env, channel, datum),
        Form::Recv { channel, .. } | Form::Serve { channel, .. } => {
            untrusted_answers(alloc, env, channel)
        }
        Form::Split {
            whole,
            first,
            second,
            ..
        } => whole_answers(alloc, env, whole, pair_type(alloc, first, second)?),
        Form::Select {
            whole,
            first,
            equal,
            second,
            ..
        } => {
            let pair = pair_type(alloc, first, second)?;
            select_answers(alloc, env, whole, pair, equal, first)
        }
        Form::Branch {
            whole,
            left,
            right,
            ..
        } => whole_answers(alloc, env, whole, sum_type(alloc, left, right)?),
        Form::Decrypt { whole, ty, key, .. } => {
            decrypt_answers(alloc, env, whole, key, key_type(alloc, ty)?)
        }
        Form::Check { whole, nonce, .. } => send_answers(alloc, env, whole, nonce),
        Form::Begin { label, .. } | Form::End { label, .. } | Form::EndMany { label, .. } => {
            label_answers(alloc, env, label)
        }
        Form::Cast { whole, .. } => untrusted_answers(alloc, env, whole),
        Form::Fresh { .. } => Ok(Vec::new(alloc)),
        Form::Par { .. } => Ok(Vec::new(alloc)),
        Form::Stop => Ok(Vec::new(alloc)),
    }
}

/// What the typing rules for a node's form ask of its messages in its reached environment, where the free names are
/// untrusted, and where that isn't so what is to blame. Where two rules are for the form, the questions of both are asked.
pub fn blames(alloc: Global, process: &Process, node: u32) -> Result<Vec<Answer>, NoMemory>
    requires { node < process_size process.now.process }
    ensures { IfOk result (λ v. (env : Rules.Env) (q : Term.Process)
        → NodeOf (untrusted process.now.names) process.now.process node env q
        → AreAnswered env (premises q) v.items) }
{
    let _ = process.len();
    let env = reached(alloc, process, node)?;
    answers_at(alloc, &env, process.node(node))
}
