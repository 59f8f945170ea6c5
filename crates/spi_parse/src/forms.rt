//! Which form of a process a token begins.

ghost use Rattle.std.specs.Prelude.{◌≡◌};
ghost use Rattle.spi_parse.specs.Seen.{kind_of};
ghost use Rattle.spi_parse.specs.FormMoves.{form_of, form_of_word, form_of_mark};

use crate::seen::Seen;
use spi_lex::{Mark, Reserved};

/// A form that sends or receives.
#[derive(Clone, Copy)]
pub enum Talk {
    Out,
    Inp,
    Repeat,
}

/// A form that opens a message.
#[derive(Clone, Copy)]
pub enum Open {
    Split,
    Match,
    Case,
    Decrypt,
}

/// A form that checks, begins or ends.
#[derive(Clone, Copy)]
pub enum Event {
    Check,
    Begin,
    End,
    EndMany,
}

/// A form of the others.
#[derive(Clone, Copy)]
pub enum Plain {
    Cast,
    New,
    Stop,
    Group,
}

/// A form of a process by its first token.
#[derive(Clone, Copy)]
pub enum Form {
    Talk(Talk),
    Open(Open),
    Event(Event),
    Plain(Plain),
    NoForm,
}

fn form_of_word(later: bool, word: Reserved) -> Form
    ensures { result ≡ form_of_word later word }
{
    match word {
        Reserved::Out => Form::Talk(Talk::Out),
        Reserved::Inp => Form::Talk(Talk::Inp),
        Reserved::Repeat => Form::Talk(Talk::Repeat),
        Reserved::Split => Form::Open(Open::Split),
        Reserved::Match => Form::Open(Open::Match),
        Reserved::Case => Form::Open(Open::Case),
        Reserved::Decrypt => Form::Open(Open::Decrypt),
        Reserved::Check => Form::Event(Event::Check),
        Reserved::Begin => Form::Event(Event::Begin),
        Reserved::End => Form::Event(Event::End),
        Reserved::EndMany => {
            if later {
                Form::Event(Event::EndMany)
            } else {
                Form::NoForm
            }
        }
        Reserved::Cast => Form::Plain(Plain::Cast),
        Reserved::New => Form::Plain(Plain::New),
        Reserved::Stop => Form::Plain(Plain::Stop),
        _ => Form::NoForm,
    }
}

fn form_of_mark(mark: Mark) -> Form
    ensures { result ≡ form_of_mark mark }
{
    match mark {
        Mark::ParenOpen => Form::Plain(Plain::Group),
        _ => Form::NoForm,
    }
}

/// The form that begins with this token.
pub fn form_of(later: bool, kind: &Seen<'_>) -> Form
    ensures { result ≡ form_of later (kind_of kind.now) }
{
    match kind {
        Seen::Word(_) => Form::NoForm,
        Seen::Reserved(word) => form_of_word(later, *word),
        Seen::Number(_) => Form::NoForm,
        Seen::Mark(mark) => form_of_mark(*mark),
    }
}
