//! Whole files, with nothing behind them.

ghost use Rattle.std.specs.Prelude.{◌≤◌, length};
ghost use Rattle.spi_lex.specs.Lexing.{kinds_of, is_version_2};
ghost use Rattle.spi_tree.specs.Formed.{AreWordsFit};
ghost use Rattle.spi_tree.specs.Views.{file_of};
ghost use Rattle.spi_parse.specs.Exact.{Parses};

use crate::ParseFault;
use crate::cursor::{Reader, syntax};
use crate::files::read_file;
use crate::parts::fault_of;
use spi_lex::Token;
use spi_tree::{Room, Tree};

/// The tree whose tokens these are, with the spans of its nodes and words, or the first fault.
///
/// A fault names its token by its number from 0. `Syntax` is at the token with which no tree goes on, and at the end it is
/// the number of tokens. `TooDeep` is at the first token at which a node of some tree starts that is above its nesting
/// limit. `NoMemory` comes where memory runs out. `_end` is the length of the file in bytes, where a fault at the end is
/// placed. What `lex` gives of a file meets both conditions (proofs/Lexed and proofs/Counted).
pub fn parse<'b>(room: Room<'b>, tokens: &[Token], _end: u32) -> Result<Tree<'b>, ParseFault>
    requires size { length tokens.now ≤ 16_777_216 }
    requires words { AreWordsFit (is_version_2 (kinds_of tokens.now)) (kinds_of tokens.now) }
    ensures { Parses file_of result tokens.now }
{
    let mut at = Reader::of(tokens);
    match read_file(room, &mut at) {
        Ok(tree) => match at.first() {
            Err(_) => Ok(tree),
            Ok(_) => Err(fault_of(tokens.len(), syntax(&at))),
        },
        Err(stop) => Err(fault_of(tokens.len(), stop)),
    }
}
