// The numbers of a form's messages and types: each is looked up once.
ghost use Rattle.std.specs.Prelude.{IfOk, None, Some};
ghost use Rattle.spi_term.specs.View.{message, ty as type_of, shape_of};
ghost use Rattle.spi_message.specs.Judging.{IsKept};
ghost use Rattle.spi_infer.specs.Terms.{terms, AreNumbers, AreTermsOf};

use spi_intern::{MsgId, TyId};
use spi_message::{Judge, NoMemory};
use spi_term::{Form, Msg, Node, Ty};
use std::alloc::Global;

/// The numbers of a form's first and second message and type, and that of `Un`. Where the form has no such term, any
/// number stands there.
#[derive(Clone, Copy)]
pub struct Terms {
    pub un: TyId,
    pub message: MsgId,
    pub other: MsgId,
    pub ty: TyId,
    pub second: TyId,
}

// The numbers of `Un` and of no terms.
#[tactic(auto, using(spi_message::proofs::Tested::kept_more))]
fn of_nothing(judge: &mut Judge) -> Result<Terms, NoMemory>
    ensures each { IfOk result (AreNumbers judge.new (terms None None None None)) }
    ensures kept { IsKept judge.old judge.new }
{
    let un = judge.un()?;
    let message = MsgId::at(0);
    Ok(Terms {
        un,
        message,
        other: message,
        ty: un,
        second: un,
    })
}

// The numbers of `Un` and of a message.
#[tactic(auto, using(spi_message::proofs::Tested::kept_more))]
fn of_message(judge: &mut Judge, m: &Msg) -> Result<Terms, NoMemory>
    ensures each { IfOk result (AreNumbers judge.new (terms (Some (message m.now)) None None None)) }
    ensures kept { IsKept judge.old judge.new }
{
    let un = judge.un()?;
    let message = judge.message(m)?;
    Ok(Terms {
        un,
        message,
        other: message,
        ty: un,
        second: un,
    })
}

// The numbers of `Un` and of two messages.
#[tactic(auto, using(spi_message::proofs::Tested::kept_more))]
fn of_messages(judge: &mut Judge, m: &Msg, n: &Msg) -> Result<Terms, NoMemory>
    ensures each { IfOk result
        (AreNumbers judge.new (terms (Some (message m.now)) (Some (message n.now)) None None)) }
    ensures kept { IsKept judge.old judge.new }
{
    let un = judge.un()?;
    let message = judge.message(m)?;
    let other = judge.message(n)?;
    Ok(Terms {
        un,
        message,
        other,
        ty: un,
        second: un,
    })
}

// The numbers of `Un` and of a type.
#[tactic(auto, using(spi_message::proofs::Tested::kept_more))]
fn of_type(alloc: Global, judge: &mut Judge, t: &Ty) -> Result<Terms, NoMemory>
    ensures each { IfOk result (AreNumbers judge.new (terms None None (Some (type_of t.now)) None)) }
    ensures kept { IsKept judge.old judge.new }
{
    let un = judge.un()?;
    let message = MsgId::at(0);
    let ty = judge.ty(alloc, t)?;
    Ok(Terms {
        un,
        message,
        other: message,
        ty,
        second: un,
    })
}

// The numbers of `Un`, of a message and of a type.
#[tactic(auto, using(spi_message::proofs::Tested::kept_more))]
fn of_both(alloc: Global, judge: &mut Judge, m: &Msg, t: &Ty) -> Result<Terms, NoMemory>
    ensures each { IfOk result
        (AreNumbers judge.new (terms (Some (message m.now)) None (Some (type_of t.now)) None)) }
    ensures kept { IsKept judge.old judge.new }
{
    let un = judge.un()?;
    let message = judge.message(m)?;
    let ty = judge.ty(alloc, t)?;
    Ok(Terms {
        un,
        message,
        other: message,
        ty,
        second: un,
    })
}

// The numbers of `Un`, of a message and of two types.
#[tactic(auto, using(spi_message::proofs::Tested::kept_more))]
fn of_types(alloc: Global, judge: &mut Judge, m: &Msg, t: &Ty, u: &Ty) -> Result<Terms, NoMemory>
    ensures each { IfOk result
        (AreNumbers judge.new
        (terms (Some (message m.now)) None
        (Some (type_of t.now)) (Some (type_of u.now)))) }
    ensures kept { IsKept judge.old judge.new }
{
    let un = judge.un()?;
    let message = judge.message(m)?;
    let ty = judge.ty(alloc, t)?;
    let second = judge.ty(alloc, u)?;
    Ok(Terms {
        un,
        message,
        other: message,
        ty,
        second,
    })
}

// The numbers of `Un`, of two messages and of a type.
#[tactic(auto, using(spi_message::proofs::Tested::kept_more))]
fn of_sealed(alloc: Global, judge: &mut Judge, m: &Msg, n: &Msg, t: &Ty) -> Result<Terms, NoMemory>
    ensures each { IfOk result
        (AreNumbers judge.new
        (terms (Some (message m.now)) (Some (message n.now))
        (Some (type_of t.now)) None)) }
    ensures kept { IsKept judge.old judge.new }
{
    let un = judge.un()?;
    let message = judge.message(m)?;
    let other = judge.message(n)?;
    let ty = judge.ty(alloc, t)?;
    Ok(Terms {
        un,
        message,
        other,
        ty,
        second: un,
    })
}

// The numbers of `Un`, of two messages and of two types.
#[tactic(auto, using(spi_message::proofs::Tested::kept_more))]
fn of_all(
    alloc: Global,
    judge: &mut Judge,
    m: &Msg,
    n: &Msg,
    t: &Ty,
    u: &Ty,
) -> Result<Terms, NoMemory>
    ensures each { IfOk result
        (AreNumbers judge.new
        (terms (Some (message m.now)) (Some (message n.now))
        (Some (type_of t.now)) (Some (type_of u.now)))) }
    ensures kept { IsKept judge.old judge.new }
{
    let un = judge.un()?;
    let message = judge.message(m)?;
    let other = judge.message(n)?;
    let ty = judge.ty(alloc, t)?;
    let second = judge.ty(alloc, u)?;
    Ok(Terms {
        un,
        message,
        other,
        ty,
        second,
    })
}

/// The numbers of `Un` and of a form's terms.
pub fn terms_of(alloc: Global, judge: &mut Judge, node: &Node) -> Result<Terms, NoMemory>
    ensures terms { IfOk result (AreTermsOf judge.new (shape_of node.now)) }
    ensures kept { IsKept judge.old judge.new }
{
    match &node.form {
        Form::Send { channel, datum } => of_messages(judge, channel, datum),
        Form::Recv { channel, ty, .. } | Form::Serve { channel, ty, .. } => {
            of_both(alloc, judge, channel, ty)
        }
        Form::Split {
            whole,
            first,
            second,
            ..
        } => of_types(alloc, judge, whole, first, second),
        Form::Select {
            whole,
            first: t,
            equal: n,
            second: u,
            ..
        } => of_all(alloc, judge, whole, n, t, u),
        Form::Branch {
            whole,
            left,
            right,
            ..
        } => of_types(alloc, judge, whole, left, right),
        Form::Decrypt { whole, ty, key, .. } => of_sealed(alloc, judge, whole, key, ty),
        Form::Check { whole, nonce, .. } => of_messages(judge, whole, nonce),
        Form::Begin { label, .. } => of_message(judge, label),
        Form::End { label, .. } => of_message(judge, label),
        Form::EndMany { label, .. } => of_message(judge, label),
        Form::Cast { whole, ty, .. } => of_both(alloc, judge, whole, ty),
        Form::Fresh { ty, .. } => of_type(alloc, judge, ty),
        Form::Par { .. } | Form::Stop => of_nothing(judge),
    }
}
