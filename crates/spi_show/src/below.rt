// Whether a report form comes before a text, told without making the form.
ghost use Rattle.std.specs.Prelude.{◌≡◌, ◌∷◌, ◌++◌, ◌↔◌, IsTrue, codes, slice_get};
ghost use Rattle.std.specs.Fmt.{decimal};
ghost use Rattle.std.specs.Cmp.Lexicographic.{slice_cmp};
ghost use Rattle.std.specs.Ordering.{nat_cmp};
ghost use Rattle.std.specs.declared.cmp.Ordering.TheVariants.{Greater};
ghost use Rattle.spi_term.specs.View.{message, atom};
ghost use Rattle.spi_show.specs.Report.{reported_name, message_text, reported_atom};
ghost use Rattle.spi_show.specs.Standing.{Passes};

use itoa::Buffer;
use spi_term::{Atom, Msg};
use spi_text::Text;

/// How a form of which the front was seen stands to a text.
#[derive(Clone, Copy)]
pub(crate) enum Standing<'t> {
    /// The front is one of the text, which goes on so.
    On(&'t [u8]),
    /// The form comes before the text, however it goes on.
    Before,
    /// It comes behind the text.
    Behind,
}

// The same once one more piece of the form is seen, where the text goes on so.
fn beside<'t>(rest: &'t [u8], piece: &[u8]) -> Standing<'t>
    ensures { Passes (Standing.On rest.entry) piece.now result }
{
    for i in 0..piece.len() {
        if i >= rest.len() {
            return Standing::Behind;
        }
        if piece[i] < rest[i] {
            return Standing::Before;
        }
        if piece[i] > rest[i] {
            return Standing::Behind;
        }
    }
    Standing::On(&rest[piece.len()..])
}

// The same once one more piece of the form is seen.
fn past<'t>(from: Standing<'t>, piece: &[u8]) -> Standing<'t>
    ensures { Passes from.entry piece.now result }
{
    match from {
        Standing::On(rest) => beside(rest, piece),
        _ => from,
    }
}

// The same behind `#` and a number.
fn past_number<'t>(from: Standing<'t>, x: u32) -> Standing<'t>
    ensures { Passes from.entry (codes "#" ++ decimal x) result }
{
    let mut buffer = Buffer::new();
    past(past(from, b"#"), buffer.format(x).as_bytes())
}

// The same behind a name.
fn past_name<'t>(from: Standing<'t>, names: &[Text], x: u32) -> Standing<'t>
    ensures { Passes from.entry (reported_name (slice_get names.now x) x) result }
{
    match names.get(x as usize) {
        Some(spelling) => past(from, spelling.as_str().as_bytes()),
        None => past_number(from, x),
    }
}

// The same behind a message.
fn past_message<'t>(from: Standing<'t>, names: &[Text], m: &Msg) -> Standing<'t>
    ensures { Passes from.entry (message_text names.now (message m.now)) result }
{
    match m {
        Msg::Bound(_) => from,
        Msg::Name(x) => past_name(from, names, *x),
        Msg::Unit => past(from, b"()"),
        Msg::Pair(two) => {
            let first = past_message(past(from, b"("), names, &two.first);
            let second = past_message(past(first, b", "), names, &two.second);
            past(second, b")")
        }
        Msg::Inl(part) => past_message(past(from, b"inl "), names, part),
        Msg::Inr(part) => past_message(past(from, b"inr "), names, part),
        Msg::Enc(sealed) => {
            let body = past_message(past(from, b"{"), names, &sealed.body);
            past_message(past(body, b"}"), names, &sealed.key)
        }
        Msg::Hash(part) => {
            let hashed = past_message(past(from, b"hash("), names, part);
            past(hashed, b")")
        }
    }
}

// The same behind an atom.
fn past_atom<'t>(from: Standing<'t>, names: &[Text], a: &Atom) -> Standing<'t>
    ensures { Passes from.entry (reported_atom names.now (atom a.now)) result }
{
    match a {
        Atom::End(m) => past_message(past(from, b"end "), names, m),
        Atom::Check(m) => past_message(past(from, b"check "), names, m),
        Atom::Many(m) => past_message(past(from, b"many "), names, m),
    }
}

/// Whether the report form of an atom comes before a text, by the bytes. It makes no text, and looks at the form up to
/// where the two differ.
pub fn is_before(text: &[u8], names: &[Text], a: &Atom) -> bool
    ensures { IsTrue result
        ↔ (slice_cmp nat_cmp text.now (reported_atom names.now (atom a.now)) ≡ Greater) }
{
    match past_atom(Standing::On(text), names, a) {
        Standing::On(rest) => !rest.is_empty(),
        Standing::Before => true,
        Standing::Behind => false,
    }
}
