// What a place waits for.

ghost use Rattle.std.specs.Prelude.{◌≡◌, ◌==◌, if◌then◌else◌};
ghost use Rattle.spi_replay.specs.Waiting.{split_wait as split_wait_of, select_wait as select_wait_of, decrypt_wait as decrypt_wait_of, branch_wait as branch_wait_of, check_wait as check_wait_of, wait_acts, wait_appends, met_if, met_by};

use spi_intern::{MsgId, MsgPart};

/// What an event is of.
#[derive(Clone, Copy)]
pub enum Kind {
    Begin,
    End,
    EndMany,
}

/// What a place waits for, by the numbers of messages and of the nodes that follow.
#[derive(Clone, Copy)]
pub enum Wait {
    /// It is never ready.
    Stays,
    /// An output of a datum on a channel.
    Puts(MsgId, MsgId),
    /// An input on a channel.
    Takes(MsgId, u32),
    /// A replicated input on a channel.
    TakesAgain(MsgId, u32),
    /// Acts, and binds a message to a name.
    BindsOne(MsgId, u32),
    /// Acts, and binds two messages to two names.
    BindsTwo(MsgId, MsgId, u32),
    /// Acts, and goes on.
    GoesOn(u32),
    /// Acts, and shows an event with a label.
    Shows(Kind, MsgId, u32),
    /// Acts, and binds a name to the next new one.
    Freshes(u32),
    /// Acts, and becomes two places.
    Forks(u32, u32),
}

// What is waited for where the two messages are one.
fn wait_if(one: MsgId, other: MsgId, wait: Wait) -> Wait
    ensures { result ≡ (if one.place == other.place then wait else Wait.Stays) }
{
    if one.place() == other.place() {
        wait
    } else {
        Wait::Stays
    }
}

/// What a `split` of a message waits for.
pub fn split_wait(whole: MsgPart, body: u32) -> Wait
    ensures { result ≡ split_wait_of whole body }
{
    match whole {
        MsgPart::Pair(first, second) => Wait::BindsTwo(first, second, body),
        _ => Wait::Stays,
    }
}

/// What a `match` of a message waits for.
pub fn select_wait(whole: MsgPart, equal: MsgId, body: u32) -> Wait
    ensures { result ≡ select_wait_of whole equal body }
{
    match whole {
        MsgPart::Pair(first, second) => wait_if(first, equal, Wait::BindsOne(second, body)),
        _ => Wait::Stays,
    }
}

/// What a `decrypt` of a message waits for.
pub fn decrypt_wait(whole: MsgPart, key: MsgId, body: u32) -> Wait
    ensures { result ≡ decrypt_wait_of whole key body }
{
    match whole {
        MsgPart::Enc(inner, by) => wait_if(by, key, Wait::BindsOne(inner, body)),
        _ => Wait::Stays,
    }
}

/// What a `case` of a message waits for.
pub fn branch_wait(whole: MsgPart, on_left: u32, on_right: u32) -> Wait
    ensures { result ≡ branch_wait_of whole on_left on_right }
{
    match whole {
        MsgPart::Inl(inner) => Wait::BindsOne(inner, on_left),
        MsgPart::Inr(inner) => Wait::BindsOne(inner, on_right),
        _ => Wait::Stays,
    }
}

/// What a `check` of a message waits for.
pub fn check_wait(whole: MsgId, nonce: MsgId, body: u32) -> Wait
    ensures { result ≡ check_wait_of whole nonce body }
{
    wait_if(whole, nonce, Wait::GoesOn(body))
}

/// Whether it acts alone.
pub fn is_act(wait: Wait) -> bool
    ensures { result ≡ wait_acts wait }
{
    match wait {
        Wait::Stays => false,
        Wait::Puts(_, _) => false,
        Wait::Takes(_, _) => false,
        Wait::TakesAgain(_, _) => false,
        Wait::BindsOne(_, _) => true,
        Wait::BindsTwo(_, _, _) => true,
        Wait::GoesOn(_) => true,
        Wait::Shows(_, _, _) => true,
        Wait::Freshes(_) => true,
        Wait::Forks(_, _) => true,
    }
}

/// How many places an act appends.
pub fn appended_by(wait: Wait) -> u32
    ensures { result ≡ wait_appends wait }
{
    match wait {
        Wait::Stays => 0,
        Wait::Puts(_, _) => 0,
        Wait::Takes(_, _) => 0,
        Wait::TakesAgain(_, _) => 0,
        Wait::BindsOne(_, _) => 0,
        Wait::BindsTwo(_, _, _) => 0,
        Wait::GoesOn(_) => 0,
        Wait::Shows(_, _, _) => 0,
        Wait::Freshes(_) => 0,
        Wait::Forks(_, _) => 1,
    }
}

/// What an output hands over, the node that follows the input, and whether the input stays.
#[derive(Clone, Copy)]
pub struct Meeting {
    pub datum: MsgId,
    pub body: u32,
    pub again: bool,
}

fn meeting_if(on: MsgId, at: MsgId, meeting: Meeting) -> Option<Meeting>
    ensures { result ≡ met_if on at meeting }
{
    if on.place() == at.place() {
        Some(meeting)
    } else {
        None
    }
}

/// The meeting of an output and an input on one channel.
pub fn meeting_of(out: Wait, inp: Wait) -> Option<Meeting>
    ensures { result ≡ met_by out inp }
{
    match out {
        Wait::Puts(on, datum) => match inp {
            Wait::Takes(at, body) => meeting_if(
                on,
                at,
                Meeting {
                    datum,
                    body,
                    again: false,
                },
            ),
            Wait::TakesAgain(at, body) => meeting_if(
                on,
                at,
                Meeting {
                    datum,
                    body,
                    again: true,
                },
            ),
            _ => None,
        },
        _ => None,
    }
}
