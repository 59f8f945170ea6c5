// What is asked of a node, form by form.
ghost use Rattle.std.specs.Prelude.{◌≡◌};
ghost use Rattle.spi_term.specs.Term as Term;
ghost use Rattle.spi_term.specs.Term.{Sends, Recvs, Serves, Splits, Selects, Decrypts, Begins, Casts, Freshes, Branches};
ghost use Rattle.spi_term.specs.View.{message, ty as type_of, shape_of};
ghost use Rattle.spi_fault.specs.Checks as Checks;
ghost use Rattle.spi_fault.specs.Checks.{leaf_checks, prefix_checks, fork_checks, shape_checks, reason_of};
ghost use Rattle.spi_fault.specs.Trying.{check as check_of};
ghost use Rattle.spi_fault.specs.Giving.{GivesCheck, GivesAll};

use crate::{NoMemory, Reason};
use spi_message::{pair_type, sum_type};
use spi_term::{Form, Msg, Node, Ty};
use std::alloc::Global;

/// A check. A process that follows in the node is told by how many nodes stand before it.
pub enum Check {
    Channel(Msg),
    Datum(Msg),
    Untrusted(Ty),
    Good(Ty),
    Scrutinee(Msg, Ty, Ty, Ty),
    Sealed(Msg),
    First(Msg, Ty),
    KeyOf(Msg, Ty),
    NonceOf(Msg),
    Label(Msg),
    Generative(Ty),
    Castable(Ty),
    Served(u32),
    Stays(u32, u32),
    Made(u32),
}

impl Drop for Check {
    fn drop(self) {
        match self {
            Check::Channel(_)
            | Check::Datum(_)
            | Check::Untrusted(_)
            | Check::Good(_)
            | Check::Scrutinee(_, _, _, _)
            | Check::Sealed(_)
            | Check::First(_, _)
            | Check::KeyOf(_, _)
            | Check::NonceOf(_)
            | Check::Label(_)
            | Check::Generative(_)
            | Check::Castable(_)
            | Check::Served(_)
            | Check::Stays(_, _)
            | Check::Made(_) => {}
        }
    }
}

impl Check {
    /// Why a node blocks where the check fails.
    pub fn reason(&self) -> Reason
        ensures { result ≡ reason_of (check_of self.now) }
    {
        match self {
            Check::Channel(_) => Reason::ChannelNotUn,
            Check::Datum(_) => Reason::DatumNotUn,
            Check::Untrusted(_) | Check::Good(_) => Reason::BadType,
            Check::Scrutinee(_, _, _, _) | Check::Sealed(_) => Reason::WrongScrutinee,
            Check::First(_, _) => Reason::WrongFirst,
            Check::KeyOf(_, _) => Reason::WrongKey,
            Check::NonceOf(_) => Reason::NotANonce,
            Check::Label(_) => Reason::NotALabel,
            Check::Generative(_) => Reason::NotGenerative,
            Check::Castable(_) => Reason::BadCast,
            Check::Served(_) => Reason::BodyHasEffect,
            Check::Stays(_, _) | Check::Made(_) => Reason::EffectEscapes,
        }
    }
}

fn scrutinee(alloc: Global, m: &Msg, whole: Ty, first: &Ty, second: &Ty) -> Result<Check, NoMemory>
    ensures { GivesCheck result
        (Checks.scrutinee (message m.now) (type_of whole) (type_of first.now) (type_of second.now)) }
{
    let m = m.copy(alloc)?;
    let first = first.copy(alloc)?;
    Ok(Check::Scrutinee(m, whole, first, second.copy(alloc)?))
}

fn send_checks(alloc: Global, m: &Msg, n: &Msg) -> Result<Vec<Check>, NoMemory>
    ensures { GivesAll result (leaf_checks (Sends (message m.now) (message n.now))) }
{
    let channel = Check::Channel(m.copy(alloc)?);
    let datum = Check::Datum(n.copy(alloc)?);
    Ok(Vec::from_array(alloc, [channel, datum])?)
}

fn receive_checks(alloc: Global, m: &Msg, t: &Ty) -> Result<Vec<Check>, NoMemory>
    ensures { GivesAll result (prefix_checks (Recvs (message m.now) (type_of t.now))) }
{
    let channel = Check::Channel(m.copy(alloc)?);
    let untrusted = Check::Untrusted(t.copy(alloc)?);
    Ok(Vec::from_array(alloc, [channel, untrusted, Check::Stays(1, 1)])?)
}

fn serve_checks(alloc: Global, m: &Msg, t: &Ty) -> Result<Vec<Check>, NoMemory>
    ensures { GivesAll result (prefix_checks (Serves (message m.now) (type_of t.now))) }
{
    let channel = Check::Channel(m.copy(alloc)?);
    let untrusted = Check::Untrusted(t.copy(alloc)?);
    let checks = [channel, untrusted, Check::Served(1), Check::Stays(1, 1)];
    Ok(Vec::from_array(alloc, checks)?)
}

fn split_checks(alloc: Global, whole: &Msg, first: &Ty, second: &Ty) -> Result<Vec<Check>, NoMemory>
    ensures { GivesAll result (prefix_checks (Splits (message whole.now) (type_of first.now)
        (type_of second.now))) }
{
    let good = Check::Good(pair_type(alloc, first, second)?);
    let pair = pair_type(alloc, first, second)?;
    let scrutinee = scrutinee(alloc, whole, pair, first, second)?;
    Ok(Vec::from_array(alloc, [good, scrutinee, Check::Stays(2, 1)])?)
}

fn select_checks(
    alloc: Global,
    whole: &Msg,
    first: &Ty,
    equal: &Msg,
    second: &Ty,
) -> Result<Vec<Check>, NoMemory>
    ensures { GivesAll result (prefix_checks (Selects (message whole.now) (type_of first.now)
        (message equal.now) (type_of second.now))) }
{
    let good = Check::Good(pair_type(alloc, first, second)?);
    let pair = pair_type(alloc, first, second)?;
    let scrutinee = scrutinee(alloc, whole, pair, first, second)?;
    let equal = equal.copy(alloc)?;
    let part = Check::First(equal, first.copy(alloc)?);
    Ok(Vec::from_array(alloc, [good, scrutinee, part, Check::Stays(1, 1)])?)
}

fn branch_checks(
    alloc: Global,
    whole: &Msg,
    left: &Ty,
    right: &Ty,
    rest: u32,
) -> Result<Vec<Check>, NoMemory>
    ensures { GivesAll result (fork_checks (Branches (message whole.now) (type_of left.now)
        (type_of right.now)) rest) }
{
    let on_left = Check::Good(left.copy(alloc)?);
    let on_right = Check::Good(right.copy(alloc)?);
    let scrutinee = scrutinee(alloc, whole, sum_type(alloc, left, right)?, left, right)?;
    let first = Check::Stays(1, 1);
    let second = Check::Stays(1, rest);
    Ok(Vec::from_array(alloc, [on_left, on_right, scrutinee, first, second])?)
}

fn decrypt_checks(alloc: Global, whole: &Msg, t: &Ty, key: &Msg) -> Result<Vec<Check>, NoMemory>
    ensures { GivesAll result (prefix_checks (Decrypts (message whole.now) (type_of t.now)
        (message key.now))) }
{
    let good = Check::Good(t.copy(alloc)?);
    let sealed = Check::Sealed(whole.copy(alloc)?);
    let key = key.copy(alloc)?;
    let by = Check::KeyOf(key, t.copy(alloc)?);
    Ok(Vec::from_array(alloc, [good, sealed, by, Check::Stays(1, 1)])?)
}

fn nonce_checks(alloc: Global, whole: &Msg, nonce: &Msg) -> Result<Vec<Check>, NoMemory>
    ensures { GivesAll result (prefix_checks (Term.Checks (message whole.now) (message nonce.now))) }
{
    let sealed = Check::Sealed(whole.copy(alloc)?);
    let nonce = Check::NonceOf(nonce.copy(alloc)?);
    Ok(Vec::from_array(alloc, [sealed, nonce])?)
}

fn label_checks(alloc: Global, m: &Msg) -> Result<Vec<Check>, NoMemory>
    ensures { GivesAll result (prefix_checks (Begins (message m.now))) }
{
    let label = Check::Label(m.copy(alloc)?);
    Ok(Vec::from_array(alloc, [label])?)
}

fn cast_checks(alloc: Global, whole: &Msg, t: &Ty) -> Result<Vec<Check>, NoMemory>
    ensures { GivesAll result (prefix_checks (Casts (message whole.now) (type_of t.now))) }
{
    let castable = Check::Castable(t.copy(alloc)?);
    let good = Check::Good(t.copy(alloc)?);
    let sealed = Check::Sealed(whole.copy(alloc)?);
    Ok(Vec::from_array(alloc, [castable, good, sealed, Check::Stays(1, 1)])?)
}

fn fresh_checks(alloc: Global, t: &Ty) -> Result<Vec<Check>, NoMemory>
    ensures { GivesAll result (prefix_checks (Freshes (type_of t.now))) }
{
    let generative = Check::Generative(t.copy(alloc)?);
    let good = Check::Good(t.copy(alloc)?);
    Ok(Vec::from_array(alloc, [generative, good, Check::Made(1)])?)
}

/// The checks of the form of node `id`, in their order.
pub fn checks_of(alloc: Global, id: u32, node: &Node) -> Result<Vec<Check>, NoMemory>
    ensures { GivesAll result (shape_checks id (shape_of node.now)) }
{
    match &node.form {
        Form::Send { channel, datum } => send_checks(alloc, channel, datum),
        Form::Recv { channel, ty, .. } => receive_checks(alloc, channel, ty),
        Form::Serve { channel, ty, .. } => serve_checks(alloc, channel, ty),
        Form::Split {
            whole,
            first,
            second,
            ..
        } => split_checks(alloc, whole, first, second),
        Form::Select {
            whole,
            first,
            equal,
            second,
            ..
        } => select_checks(alloc, whole, first, equal, second),
        Form::Branch {
            whole,
            left,
            right,
            on_right,
            ..
        } => branch_checks(alloc, whole, left, right, on_right.saturating_sub(id)),
        Form::Decrypt { whole, ty, key, .. } => decrypt_checks(alloc, whole, ty, key),
        Form::Check { whole, nonce, .. } => nonce_checks(alloc, whole, nonce),
        Form::Begin { label, .. } | Form::End { label, .. } | Form::EndMany { label, .. } => {
            label_checks(alloc, label)
        }
        Form::Cast { whole, ty, .. } => cast_checks(alloc, whole, ty),
        Form::Fresh { ty, .. } => fresh_checks(alloc, ty),
        Form::Par { .. } | Form::Stop => Ok(Vec::new(alloc)),
    }
}
