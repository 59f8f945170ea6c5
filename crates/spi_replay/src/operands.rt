// The messages that a form looks at.

ghost use Rattle.std.specs.Prelude.{◌≡◌, ℕ};
ghost use Rattle.spi_term.specs.Term.{Message};
ghost use Rattle.spi_term.specs.View.{shape_of};
ghost use Rattle.spi_replay.specs.Moves.{move_of};
ghost use Rattle.spi_replay.specs.Operands.{lone_wait as lone_wait_of, joint_wait as joint_wait_of, operands_move, OperandsOver};
ghost use Rattle.spi_replay.specs.Standing.{AreBelow};

use crate::waits::{Kind, Wait, branch_wait, check_wait, decrypt_wait, select_wait, split_wait};
use spi_intern::{MsgId, MsgPart};
use spi_term::{Form, Msg, Node};

/// What a form that looks at one message does with it, by the nodes that follow.
#[derive(Clone, Copy)]
pub enum Lone {
    /// Takes in on it.
    Takes(u32),
    /// Takes in on it, and stays.
    TakesAgain(u32),
    /// Binds it to a name.
    BindsOne(u32),
    /// Shows an event with it as its label.
    Shows(Kind, u32),
    /// Splits it.
    Splits(u32),
    /// Goes on by its side.
    Branches(u32, u32),
}

/// What a form that looks at two messages does with them, by the node that follows.
#[derive(Clone, Copy)]
pub enum Joint {
    /// Puts the second out on the first.
    Puts,
    /// Takes the second part of the first, whose first part is the second.
    Selects(u32),
    /// Opens the first with the second.
    Decrypts(u32),
    /// Goes on where they are one.
    Checks(u32),
}

/// The messages that a form looks at, and what it does with them, or without any.
#[derive(Clone, Copy)]
pub enum Operands<'n> {
    /// It is never ready.
    Stays,
    /// Binds a name to the next new one.
    Freshes(u32),
    /// Becomes two places.
    Forks(u32, u32),
    /// One message.
    One(&'n Msg, Lone),
    /// Two messages.
    Two(&'n Msg, &'n Msg, Joint),
}

/// What the form of a node looks at.
pub fn operands_of<'n>(node: &'n Node) -> Operands<'n>
    ensures moves { (f : ℕ → Message) → operands_move f result ≡ move_of f (shape_of node.now) }
    ensures over { (n : ℕ) → AreBelow n (shape_of node.now) → OperandsOver n result }
{
    match &node.form {
        Form::Send { channel, datum } => Operands::Two(channel, datum, Joint::Puts),
        Form::Recv { channel, body, .. } => Operands::One(channel, Lone::Takes(*body)),
        Form::Serve { channel, body, .. } => Operands::One(channel, Lone::TakesAgain(*body)),
        Form::Split { whole, body, .. } => Operands::One(whole, Lone::Splits(*body)),
        Form::Select {
            whole,
            equal,
            body,
            ..
        } => Operands::Two(whole, equal, Joint::Selects(*body)),
        Form::Branch {
            whole,
            on_left,
            on_right,
            ..
        } => Operands::One(whole, Lone::Branches(*on_left, *on_right)),
        Form::Decrypt {
            whole,
            key,
            body,
            ..
        } => Operands::Two(whole, key, Joint::Decrypts(*body)),
        Form::Check { whole, nonce, body } => Operands::Two(whole, nonce, Joint::Checks(*body)),
        Form::Begin { label, body } => Operands::One(label, Lone::Shows(Kind::Begin, *body)),
        Form::End { label, body } => Operands::One(label, Lone::Shows(Kind::End, *body)),
        Form::EndMany { label, body } => Operands::One(label, Lone::Shows(Kind::EndMany, *body)),
        Form::Cast { whole, body, .. } => Operands::One(whole, Lone::BindsOne(*body)),
        Form::Fresh { body, .. } => Operands::Freshes(*body),
        Form::Par { first, rest } => Operands::Forks(*first, *rest),
        Form::Stop => Operands::Stays,
    }
}

/// What a form that looks at one message waits for, by the message's number and its parts.
pub fn lone_wait(lone: Lone, id: MsgId, whole: MsgPart) -> Wait
    ensures { result ≡ lone_wait_of lone id whole }
{
    match lone {
        Lone::Takes(body) => Wait::Takes(id, body),
        Lone::TakesAgain(body) => Wait::TakesAgain(id, body),
        Lone::BindsOne(body) => Wait::BindsOne(id, body),
        Lone::Shows(kind, body) => Wait::Shows(kind, id, body),
        Lone::Splits(body) => split_wait(whole, body),
        Lone::Branches(on_left, on_right) => branch_wait(whole, on_left, on_right),
    }
}

/// What a form that looks at two messages waits for, by their numbers and the parts of the first.
pub fn joint_wait(joint: Joint, id: MsgId, whole: MsgPart, other: MsgId) -> Wait
    ensures { result ≡ joint_wait_of joint id whole other }
{
    match joint {
        Joint::Puts => Wait::Puts(id, other),
        Joint::Selects(body) => select_wait(whole, other, body),
        Joint::Decrypts(body) => decrypt_wait(whole, other, body),
        Joint::Checks(body) => check_wait(id, other, body),
    }
}
