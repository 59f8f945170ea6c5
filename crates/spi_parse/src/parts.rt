//! The parts of files, read by themselves.

ghost use Rattle.std.specs.Prelude.{◌≡◌, ◌≤◌, ◌⊎◌, ◌==◌, ◌-◌, length, Ok, Err, IfOk, MatchResult};
ghost use Rattle.spi_lex.specs.Lexing.{kinds_of};
ghost use Rattle.spi_lex.specs.Numbered.{listed};
ghost use Rattle.spi_tree.specs.Trees.{File};
ghost use Rattle.spi_tree.specs.Pieces.{tokens_of};
ghost use Rattle.spi_tree.specs.Formed.{AreWordsFit};
ghost use Rattle.spi_tree.specs.Views.{decl_of, ty_of, msg_of, proc_of};
ghost use Rattle.spi_parse.specs.Bare.{bare_file};
ghost use Rattle.spi_parse.specs.Exact.{Reads};
ghost use Rattle.spi_parse.specs.Faults.{fault_of_stop};
ghost use Rattle.spi_parse.specs.Places.{IsBehind, tokens_in as left_in};
ghost use Rattle.spi_parse.specs.Formed.{IsFile, whole_decl, whole_type, whole_message, whole_process, IsWholeDecl, IsWholeType, IsWholeMessage, IsWholeProcess};

use crate::ParseFault;
use crate::cursor::Reader;
use crate::declarations::declaration;
use crate::fault::{Fault, Stop};
use crate::messages::message;
use crate::processes::process;
use crate::types::read_type;
use spi_lex::{Token, Tokens};
use spi_tree::{Decl, Room, SMsg, SProc, STy};

/// The fault by the number of its token, among so many.
pub fn fault_of(count: usize, stop: Stop) -> ParseFault
    requires { count ≤ 16_777_216 }
    ensures { result ≡ fault_of_stop count stop }
{
    match stop {
        Stop::NoMemory => ParseFault::NoMemory,
        Stop::Fault(Fault::Syntax(left)) => ParseFault::Syntax {
            token: count.saturating_sub(left) as u32,
        },
        Stop::Fault(Fault::TooDeep(left)) => ParseFault::TooDeep {
            token: count.saturating_sub(left) as u32,
        },
    }
}

/// The number of the token that comes next, where it isn't before that of number `from`.
fn number_behind(tokens: &Tokens<'_>, from: u32, at: &Reader<'_>) -> u32
    requires few { length (listed tokens.now) ≤ 16_777_216 }
    requires start { from ≤ length (listed tokens.now) }
    requires behind { IsBehind (listed tokens.now) from (left_in at.now) }
    ensures { result ≡ length (listed tokens.now) - length (left_in at.now) }
{
    match tokens {
        Tokens::List(list) => list.len().saturating_sub(at.left()) as u32,
        Tokens::Text(text) => text.number_of(from, at.start()),
    }
}

/// What reading answered from number `from` on, with the number of the token behind the part, or the fault by the number of
/// its token.
fn by_number<X>(
    tokens: &Tokens<'_>,
    from: u32,
    answer: Result<X, Stop>,
    at: &Reader<'_>,
) -> Result<(X, u32), ParseFault>
    requires few { length (listed tokens.now) ≤ 16_777_216 }
    requires start { from ≤ length (listed tokens.now) }
    requires behind { IfOk answer (λ x. IsBehind (listed tokens.now) from (left_in at.now)) }
    ensures { MatchResult answer (λ x. result ≡ Ok (x, length (listed tokens.now) - length (left_in at.now)))
        (λ e. result ≡ Err (fault_of_stop (length (listed tokens.now)) e)) }
{
    match answer {
        Ok(part) => Ok((part, number_behind(tokens, from, at))),
        Err(stop) => Err(fault_of(tokens.count() as usize, stop)),
    }
}

/// The declaration that the tokens from number `from` on begin with, in a text of the version, and the number of the
/// token behind it.
///
/// Where they begin with none that is within the nesting limits, the fault counts its token in the whole list. `Syntax` is at
/// the token with which no declaration goes on, and at the end it is the number of tokens. `TooDeep` is at the first token at
/// which a node of some declaration starts that is above its nesting limit. `NoMemory` comes where memory runs out.
pub fn decl_at<'b>(
    room: Room<'b>,
    tokens: &[Token],
    from: u32,
    version: u32,
) -> Result<(Decl<'b>, u32), ParseFault>
    requires size { length tokens.now ≤ 16_777_216 }
    requires start { from ≤ length tokens.now }
    requires known { (version ≡ 1) ⊎ (version ≡ 2) }
    requires words { AreWordsFit (version == 2) (kinds_of tokens.now) }
    ensures { Reads decl_of whole_decl (IsWholeDecl (version == 2)) result tokens.now from }
{
    decl_in(room, &Tokens::List(tokens), from, version)
}

/// As `decl_at`, of the tokens of a list or of a text.
pub fn decl_in<'b>(
    room: Room<'b>,
    tokens: &Tokens<'_>,
    from: u32,
    version: u32,
) -> Result<(Decl<'b>, u32), ParseFault>
    requires size { length (listed tokens.now) ≤ 16_777_216 }
    requires start { from ≤ length (listed tokens.now) }
    requires known { (version ≡ 1) ⊎ (version ≡ 2) }
    requires words { AreWordsFit (version == 2) (kinds_of (listed tokens.now)) }
    ensures { Reads decl_of whole_decl (IsWholeDecl (version == 2)) result (listed tokens.now) from }
{
    let mut at = Reader::behind(tokens, from);
    let answer = declaration(room, &mut at, version == 2);
    by_number(tokens, from, answer, &at)
}

/// The type that the tokens from number `from` on begin with, in a text of the version, and the number of the token
/// behind it.
///
/// Where they begin with none that is within the nesting limits, the fault counts its token in the whole list. `Syntax` is at
/// the token with which no type goes on, and at the end it is the number of tokens. `TooDeep` is at the first token at
/// which a node of some type starts that is above its nesting limit. `NoMemory` comes where memory runs out.
pub fn type_at<'b>(
    room: Room<'b>,
    tokens: &[Token],
    from: u32,
    version: u32,
) -> Result<(STy<'b>, u32), ParseFault>
    requires size { length tokens.now ≤ 16_777_216 }
    requires start { from ≤ length tokens.now }
    requires known { (version ≡ 1) ⊎ (version ≡ 2) }
    requires words { AreWordsFit (version == 2) (kinds_of tokens.now) }
    ensures { Reads ty_of whole_type (IsWholeType (version == 2)) result tokens.now from }
{
    type_in(room, &Tokens::List(tokens), from, version)
}

/// As `type_at`, of the tokens of a list or of a text.
pub fn type_in<'b>(
    room: Room<'b>,
    tokens: &Tokens<'_>,
    from: u32,
    version: u32,
) -> Result<(STy<'b>, u32), ParseFault>
    requires size { length (listed tokens.now) ≤ 16_777_216 }
    requires start { from ≤ length (listed tokens.now) }
    requires known { (version ≡ 1) ⊎ (version ≡ 2) }
    requires words { AreWordsFit (version == 2) (kinds_of (listed tokens.now)) }
    ensures { Reads ty_of whole_type (IsWholeType (version == 2)) result (listed tokens.now) from }
{
    let mut at = Reader::behind(tokens, from);
    let answer = read_type(room, &mut at, version == 2, 1);
    by_number(tokens, from, answer, &at)
}

/// The message that the tokens from number `from` on begin with, in a text of the version, and the number of the
/// token behind it.
///
/// Where they begin with none that is within the nesting limits, the fault counts its token in the whole list. `Syntax` is at
/// the token with which no message goes on, and at the end it is the number of tokens. `TooDeep` is at the first token at
/// which a node of some message starts that is above its nesting limit. `NoMemory` comes where memory runs out.
pub fn message_at<'b>(
    room: Room<'b>,
    tokens: &[Token],
    from: u32,
    version: u32,
) -> Result<(SMsg<'b>, u32), ParseFault>
    requires size { length tokens.now ≤ 16_777_216 }
    requires start { from ≤ length tokens.now }
    requires known { (version ≡ 1) ⊎ (version ≡ 2) }
    requires words { AreWordsFit (version == 2) (kinds_of tokens.now) }
    ensures { Reads msg_of whole_message (IsWholeMessage (version == 2)) result tokens.now from }
{
    message_in(room, &Tokens::List(tokens), from, version)
}

/// As `message_at`, of the tokens of a list or of a text.
pub fn message_in<'b>(
    room: Room<'b>,
    tokens: &Tokens<'_>,
    from: u32,
    version: u32,
) -> Result<(SMsg<'b>, u32), ParseFault>
    requires size { length (listed tokens.now) ≤ 16_777_216 }
    requires start { from ≤ length (listed tokens.now) }
    requires known { (version ≡ 1) ⊎ (version ≡ 2) }
    requires words { AreWordsFit (version == 2) (kinds_of (listed tokens.now)) }
    ensures { Reads msg_of whole_message (IsWholeMessage (version == 2)) result (listed tokens.now) from }
{
    let mut at = Reader::behind(tokens, from);
    let answer = message(room, &mut at, version == 2);
    by_number(tokens, from, answer, &at)
}

/// The process that the tokens from number `from` on begin with, in a text of the version, and the number of the
/// token behind it. It goes on as far as a process can: no process's tokens begin with its own and the token behind it.
///
/// Where they begin with none that is within the nesting limits, the fault counts its token in the whole list. `Syntax` is at
/// the token with which no process goes on, and at the end it is the number of tokens. `TooDeep` is at the first token at
/// which a node of some process starts that is above its nesting limit. `NoMemory` comes where memory runs out.
pub fn process_at<'b>(
    room: Room<'b>,
    tokens: &[Token],
    from: u32,
    version: u32,
) -> Result<(SProc<'b>, u32), ParseFault>
    requires size { length tokens.now ≤ 16_777_216 }
    requires start { from ≤ length tokens.now }
    requires known { (version ≡ 1) ⊎ (version ≡ 2) }
    requires words { AreWordsFit (version == 2) (kinds_of tokens.now) }
    ensures { Reads proc_of whole_process (IsWholeProcess (version == 2)) result tokens.now from }
{
    process_in(room, &Tokens::List(tokens), from, version)
}

/// As `process_at`, of the tokens of a list or of a text.
pub fn process_in<'b>(
    room: Room<'b>,
    tokens: &Tokens<'_>,
    from: u32,
    version: u32,
) -> Result<(SProc<'b>, u32), ParseFault>
    requires size { length (listed tokens.now) ≤ 16_777_216 }
    requires start { from ≤ length (listed tokens.now) }
    requires known { (version ≡ 1) ⊎ (version ≡ 2) }
    requires words { AreWordsFit (version == 2) (kinds_of (listed tokens.now)) }
    ensures { Reads proc_of whole_process (IsWholeProcess (version == 2)) result (listed tokens.now) from }
{
    let mut at = Reader::behind(tokens, from);
    let answer = process(room, &mut at, version == 2, 0);
    by_number(tokens, from, answer, &at)
}

/// Two formed trees with the same tokens are equal up to spans.
pub fn one_tree()
    ensures { (f g : File) → IsFile f → IsFile g → tokens_of f ≡ tokens_of g → bare_file f ≡ bare_file g }
{}
