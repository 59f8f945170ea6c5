// Steps and events.

use spi_term::Msg;

/// A step of a configuration, by the places that take it, counted from 0.
#[derive(Clone, Copy, Debug, PartialEq, Eq)]
pub enum Step {
    /// The process at this place acts alone.
    Act(u32),
    /// The output at the first place and the input at the second communicate.
    Talk(u32, u32),
}

/// What a step shows: the label of a `begin`, an `end` or an `endmany`.
pub enum Event {
    Begin(Msg),
    End(Msg),
    EndMany(Msg),
}

impl Drop for Event {
    fn drop(self) {
        match self {
            Event::Begin(_) => {}
            Event::End(_) => {}
            Event::EndMany(_) => {}
        }
    }
}
