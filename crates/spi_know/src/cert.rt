// Certificates of knowledge, and their check.

ghost use Rattle.std.specs.Prelude.{◌≡◌, ◌↔◌, IsTrue, MatchOption, slice_get, map};
ghost use Rattle.spi_term.specs.Term.{Message, pair, in_left, in_right, enc};
ghost use Rattle.spi_term.specs.View.{message};
ghost use Rattle.spi_know.specs.Cert.{message_said, Follows, Certifies};

use spi_term::{Msg, same_message};

/// A certificate: each line is a message that is known by the lines before it.
#[derive(Drop)]
pub struct Cert {
    pub lines: Vec<CertLine>,
}

/// A message, and the clause by which it's known.
#[derive(Drop)]
pub struct CertLine {
    pub message: Msg,
    pub by: By,
}

/// The clause by which a message is known. `Sent` has an index into what was sent, and the others
/// have indices of earlier lines, the body or ciphertext first and the key second.
#[derive(Clone, Copy, PartialEq, Eq)]
pub enum By {
    Sent(u32),
    MakeUnit,
    MakePair(u32, u32),
    First(u32),
    Second(u32),
    MakeInl(u32),
    MakeInr(u32),
    TakeInl(u32),
    TakeInr(u32),
    MakeEnc(u32, u32),
    Open(u32, u32),
    MakeHash(u32),
}

fn is_sent(sent: &[Msg], i: u32, m: &Msg) -> bool
    ensures { IsTrue result ↔ slice_get (map message sent.now) i ≡ Some (message m.now) }
{
    match sent.get(i as usize) {
        Some(n) => same_message(n, m),
        None => false,
    }
}

// What the line with that number says.
fn message_at(lines: &[CertLine], i: u32) -> Option<&Msg>
    ensures { MatchOption result (slice_get (map message_said lines.now) i ≡ None)
        (λ m. slice_get (map message_said lines.now) i ≡ Some (message m.now)) }
{
    match lines.get(i as usize) {
        Some(line) => Some(&line.message),
        None => None,
    }
}

// The line number i says m.
fn says(lines: &[CertLine], i: u32, m: &Msg) -> bool
    ensures { IsTrue result ↔ slice_get (map message_said lines.now) i ≡ Some (message m.now) }
{
    match message_at(lines, i) {
        Some(n) => same_message(n, m),
        None => false,
    }
}

// The line number i says a pair with the first part m.
fn says_first(lines: &[CertLine], i: u32, m: &Msg) -> bool
    ensures { IsTrue result
        ↔ ((n : Message) × slice_get (map message_said lines.now) i ≡ Some (pair (message m.now) n)) }
{
    match message_at(lines, i) {
        Some(Msg::Pair(two)) => same_message(&two.first, m),
        _ => false,
    }
}

fn says_second(lines: &[CertLine], i: u32, m: &Msg) -> bool
    ensures { IsTrue result
        ↔ ((n : Message) × slice_get (map message_said lines.now) i ≡ Some (pair n (message m.now))) }
{
    match message_at(lines, i) {
        Some(Msg::Pair(two)) => same_message(&two.second, m),
        _ => false,
    }
}

fn says_left(lines: &[CertLine], i: u32, m: &Msg) -> bool
    ensures { IsTrue result ↔ slice_get (map message_said lines.now) i ≡ Some (in_left (message m.now)) }
{
    match message_at(lines, i) {
        Some(Msg::Inl(a)) => same_message(a, m),
        _ => false,
    }
}

fn says_right(lines: &[CertLine], i: u32, m: &Msg) -> bool
    ensures { IsTrue result ↔ slice_get (map message_said lines.now) i ≡ Some (in_right (message m.now)) }
{
    match message_at(lines, i) {
        Some(Msg::Inr(a)) => same_message(a, m),
        _ => false,
    }
}

// The line number i says a ciphertext of m, and the line number j its key.
fn opens(lines: &[CertLine], i: u32, j: u32, m: &Msg) -> bool
    ensures { IsTrue result
        ↔ ((n : Message) × (slice_get (map message_said lines.now) i ≡ Some (enc (message m.now) n))
        × (slice_get (map message_said lines.now) j ≡ Some n)) }
{
    match message_at(lines, i) {
        Some(Msg::Enc(sealed)) => same_message(&sealed.body, m) && says(lines, j, &sealed.key),
        _ => false,
    }
}

fn follows(sent: &[Msg], before: &[CertLine], line: &CertLine) -> bool
    ensures { IsTrue result
        ↔ Follows (map message sent.now) (map message_said before.now) line.now.by
        (message line.now.message) }
{
    let m = &line.message;
    match line.by {
        By::Sent(i) => is_sent(sent, i, m),
        By::MakeUnit => matches!(m, Msg::Unit),
        By::MakePair(i, j) => match m {
            Msg::Pair(two) => says(before, i, &two.first) && says(before, j, &two.second),
            _ => false,
        },
        By::First(i) => says_first(before, i, m),
        By::Second(i) => says_second(before, i, m),
        By::MakeInl(i) => match m {
            Msg::Inl(a) => says(before, i, a),
            _ => false,
        },
        By::MakeInr(i) => match m {
            Msg::Inr(a) => says(before, i, a),
            _ => false,
        },
        By::TakeInl(i) => says_left(before, i, m),
        By::TakeInr(i) => says_right(before, i, m),
        By::MakeEnc(i, j) => match m {
            Msg::Enc(sealed) => says(before, i, &sealed.body) && says(before, j, &sealed.key),
            _ => false,
        },
        By::Open(i, j) => opens(before, i, j, m),
        By::MakeHash(i) => match m {
            Msg::Hash(a) => says(before, i, a),
            _ => false,
        },
    }
}

/// Whether each line follows from the lines that it names, and the last line's message is the
/// target. It takes no memory.
pub fn check_cert(sent: &[Msg], cert: &Cert, target: &Msg) -> bool
    ensures { IsTrue result ↔ Certifies (map message sent.now) cert.now.lines.items (message target.now) }
{
    let lines = &cert.lines[..];
    for (k, line) in lines.iter().enumerate() {
        if !follows(sent, &lines[..k], line) {
            return false;
        }
    }
    match lines.last() {
        Some(line) => same_message(&line.message, target),
        None => false,
    }
}
