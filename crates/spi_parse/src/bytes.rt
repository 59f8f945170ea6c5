//! The tree of a file's bytes.

ghost use Rattle.std.specs.Prelude.{◌≡◌, ◌-◌, ◌≤◌, length, drop, Ok, Err};
ghost use Rattle.spi_lex.specs.Lexing.{Lexes};
ghost use Rattle.spi_lex.specs.Left.{tokens_in, end_of};
ghost use Rattle.spi_tree.specs.declared.tree.Tree.{Tree};
ghost use Rattle.spi_tree.specs.Views.{file_of};
ghost use Rattle.spi_parse.specs.Exact.{Parses};
ghost use Rattle.spi_parse.specs.Faults.{fault_of_stop};
ghost use Rattle.spi_parse.specs.Bytes.{ParsesBytes, start_of_fault};

use crate::cursor::{Reader, syntax};
use crate::fault::{ByteFault, Fault, Stop};
use crate::files::read_file;
use spi_lex::{Seen, Words, fault_behind, fault_in, text_of};
use spi_tree::{Room, Tree};

/// The tree that a file's bytes spell, with the spans of its nodes and words, or the first fault. It is what `parse` gives of
/// what `lex` gives, but the tokens are taken one by one, and are never all there at once.
///
/// A fault of tokens comes before one of syntax, and stands where `lex` tells. `Syntax` is at the token with which no tree
/// goes on, and `TooDeep` at the first token at which a node of some tree starts that is above its nesting limit: each
/// names the offset at which the token begins, and behind all tokens the number of bytes. `NoMemory` comes where memory
/// runs out.
pub fn parse_bytes<'b>(room: Room<'b>, bytes: &[u8]) -> Result<Tree<'b>, ByteFault>
    requires { length bytes.now ≤ 16_777_216 }
    ensures { ParsesBytes file_of result bytes.now }
{
    match text_of(bytes) {
        Ok(text) => parse_text(room, text),
        Err(fault) => Err(ByteFault::Lexical(fault)),
    }
}

/// The tree that a text spells, or the first fault.
fn parse_text<'b>(room: Room<'b>, text: &str) -> Result<Tree<'b>, ByteFault>
    requires { length text.now ≤ 16_777_216 }
    ensures { ParsesBytes file_of result text.now }
{
    let mut at = Reader::of_text(text);
    match read_file(room, &mut at) {
        Ok(tree) => match at.first() {
            Err(_) => whole(text, at.end, tree),
            Ok(_) => Err(fault_at(text, syntax(&at))),
        },
        Err(stop) => Err(fault_at(text, stop)),
    }
}

/// The tree of all the tokens that come from a text, the last of which ends here, if these are the text's.
fn whole<'b>(text: &str, end: u32, tree: Tree<'b>) -> Result<Tree<'b>, ByteFault>
    requires within { length text.now ≤ 16_777_216 }
    requires end { end ≡ end_of 0 (tokens_in text.now) }
    requires tree { Parses file_of (Ok tree) (tokens_in text.now) }
    ensures { ParsesBytes file_of result text.now }
{
    match fault_behind(text, end) {
        Some(fault) => Err(ByteFault::Lexical(fault)),
        None => Ok(tree),
    }
}

/// The fault of a text where reading stopped for this reason: that of its tokens, if they have one.
fn fault_at(text: &str, stop: Stop) -> ByteFault
    requires within { length text.now ≤ 16_777_216 }
    requires stops { Parses {V = Tree} file_of (Err (fault_of_stop (length (tokens_in text.now)) stop))
        (tokens_in text.now) }
    ensures { ParsesBytes {V = Tree} file_of (Err result) text.now }
{
    match fault_in(text) {
        Some(fault) => ByteFault::Lexical(fault),
        None => placed(text, stop),
    }
}

/// The fault, by where it stands.
fn placed(text: &str, stop: Stop) -> ByteFault
    requires within { length text.now ≤ 16_777_216 }
    requires lexed { Lexes text.now (Ok (tokens_in text.now)) }
    requires stops { Parses {V = Tree} file_of (Err (fault_of_stop (length (tokens_in text.now)) stop))
        (tokens_in text.now) }
    ensures { ParsesBytes {V = Tree} file_of (Err result) text.now }
{
    match stop {
        Stop::Fault(Fault::Syntax(left)) => ByteFault::Syntax {
            at: start(text, left),
        },
        Stop::Fault(Fault::TooDeep(left)) => ByteFault::TooDeep {
            at: start(text, left),
        },
        Stop::NoMemory => ByteFault::NoMemory,
    }
}

/// Where the token begins from which on so many are left, and where the text ends if none is.
fn start(text: &str, left: usize) -> u32
    requires { length text.now ≤ 16_777_216 }
    ensures { result
        ≡ start_of_fault text.now (drop (length (tokens_in text.now) - left) (tokens_in text.now)) }
{
    let mut ahead = count(text).saturating_sub(left);
    let mut words = Words::of(text);
    loop {
        match words.kind {
            Seen::Nothing => return text.len() as u32,
            _ => {
                if ahead == 0 {
                    return words.from;
                }
                ahead -= 1;
                words.advance();
            }
        }
    }
}

/// How many tokens come from a text.
fn count(text: &str) -> usize
    requires { length text.now ≤ 16_777_216 }
    ensures { result ≡ length (tokens_in text.now) }
{
    Reader::of_text(text).left()
}
