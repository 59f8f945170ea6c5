//! Which tokens could stand where the tokens of a file break off.

ghost use Rattle.std.specs.Prelude.{◌≡◌, ◌↔◌, ◌++◌, ◌∷◌, ◌<◌, ◌≤◌, List, [], length, take, IfOk, OnOk, IsTrue};
ghost use Rattle.spi_lex.specs.declared.token.Kind.{Kind as Token_kind};
ghost use Rattle.spi_lex.specs.Lexing.{kinds_of, is_version_2};
ghost use Rattle.spi_tree.specs.Formed.{AreWordsFit};
ghost use Rattle.spi_parse.specs.Exact.{IsSyntaxAt, NoDeepBefore};
ghost use Rattle.spi_parse.specs.Formed.{whole_file, IsFile};
ghost use Rattle.spi_expected.specs.Expected.{candidates as all, AreThose, GoesOn};

use crate::NoMemory;
use crate::candidates::candidates;
use bumpalo::Bump;
use spi_lex::{Kind, Token};
use spi_parse::{ParseFault, parse};
use spi_text::{Span, Text};
use spi_tree::Room;
use std::alloc::{AllocError, Global};

fn copied_kind(alloc: Global, kind: &Kind) -> Result<Kind, NoMemory>
    ensures { IfOk result (λ k. k ≡ kind.now) }
{
    Ok(match kind {
        Kind::Word(word) => Kind::Word(Text::of(alloc, word.as_str())?),
        Kind::Reserved(word) => Kind::Reserved(*word),
        Kind::Number(value) => Kind::Number(*value),
        Kind::Mark(mark) => Kind::Mark(*mark),
    })
}

/// Appends a token of this kind, at the start of the text.
fn put(alloc: Global, tokens: &mut Vec<Token>, kind: &Kind) -> Result<(), NoMemory>
    ensures kinds { OnOk result (kinds_of tokens.new.items ≡ kinds_of tokens.old.items ++ kind.now ∷ []) }
    ensures popped { OnOk result (take (length tokens.old.items) tokens.new.items ≡ tokens.old.items) }
{
    let kind = copied_kind(alloc, kind)?;
    let span = Span { from: 0, to: 0 };
    tokens.push(Token { kind, span })?;
    Ok(())
}

/// Tokens of the same kinds, all at the start of the text.
fn copied(alloc: Global, tokens: &[Token]) -> Result<Vec<Token>, NoMemory>
    ensures { IfOk result (λ v. kinds_of v.items ≡ kinds_of tokens.now) }
{
    let mut copies = Vec::new(alloc);
    for token in tokens {
        put(alloc, &mut copies, &token.kind)?;
    }
    Ok(copies)
}

fn is_length(token: u32, tokens: &[Token]) -> bool
    ensures { IsTrue result ↔ token ≡ length tokens.now }
{
    token as usize == tokens.len()
}

/// Whether some file's tokens begin with these, of which no node above a nesting limit starts before the last. The tree that
/// is read lies in the room.
fn is_begun_in(room: Room<'_>, tokens: &[Token]) -> Result<bool, NoMemory>
    requires size { length tokens.now ≤ 16_777_216 }
    requires words { AreWordsFit (is_version_2 (kinds_of tokens.now)) (kinds_of tokens.now) }
    ensures { IfOk result
        (λ b. (front : List Token_kind) (k : Token_kind) → kinds_of tokens.now ≡ front ++ k ∷ []
        → NoDeepBefore whole_file IsFile (kinds_of tokens.now) (length front) → IsTrue b ↔ GoesOn front k) }
{
    match parse(room, tokens, 0) {
        Ok(_) => Ok(true),
        Err(ParseFault::Syntax { token }) => Ok(is_length(token, tokens)),
        Err(ParseFault::TooDeep { token: _ }) => Ok(true),
        Err(ParseFault::NoMemory) => Err(AllocError),
    }
}

/// Whether some file's tokens begin with these, of which no node above a nesting limit starts before the last.
fn is_begun(alloc: Global, tokens: &[Token]) -> Result<bool, NoMemory>
    requires size { length tokens.now ≤ 16_777_216 }
    requires words { AreWordsFit (is_version_2 (kinds_of tokens.now)) (kinds_of tokens.now) }
    ensures { IfOk result
        (λ b. (front : List Token_kind) (k : Token_kind) → kinds_of tokens.now ≡ front ++ k ∷ []
        → NoDeepBefore whole_file IsFile (kinds_of tokens.now) (length front) → IsTrue b ↔ GoesOn front k) }
{
    let bump = Bump::new(alloc);
    is_begun_in(Room { alloc, bump: &bump }, tokens)
}

/// Whether some file's tokens begin with these and then with one of this kind.
fn goes_on(alloc: Global, front: &mut Vec<Token>, kind: &Kind) -> Result<bool, NoMemory>
    requires size { length front.old.items < 16_777_216 }
    requires words { let ks = kinds_of front.old.items ++ kind.now ∷ [] in AreWordsFit (is_version_2 ks) ks }
    requires shallow { NoDeepBefore whole_file IsFile (kinds_of front.old.items ++ kind.now ∷ [])
        (length front.old.items) }
    ensures same { IfOk result (λ b. front.new.items ≡ front.old.items) }
    ensures answer { IfOk result (λ b. IsTrue b ↔ GoesOn (kinds_of front.old.items) kind.now) }
{
    put(alloc, front, kind)?;
    let answer = is_begun(alloc, front)?;
    let _last = front.pop();
    Ok(answer)
}

fn keep(alloc: Global, those: &mut Vec<Kind>, kind: &Kind) -> Result<(), NoMemory>
    ensures { OnOk result (those.new.items ≡ those.old.items ++ kind.now ∷ []) }
{
    those.push(copied_kind(alloc, kind)?)?;
    Ok(())
}

/// One kind more is tried, and kept where some file goes on with it.
fn try_kind(
    alloc: Global,
    front: &mut Vec<Token>,
    those: &mut Vec<Kind>,
    kind: &Kind,
) -> Result<(), NoMemory>
    requires size { length front.old.items < 16_777_216 }
    requires words { let ks = kinds_of front.old.items ++ kind.now ∷ [] in AreWordsFit (is_version_2 ks) ks }
    requires shallow { NoDeepBefore whole_file IsFile (kinds_of front.old.items ++ kind.now ∷ [])
        (length front.old.items) }
    ensures front { OnOk result (front.new.items ≡ front.old.items) }
    ensures those { OnOk result
        ((ks : List Token_kind) → AreThose (GoesOn (kinds_of front.old.items)) ks those.old.items
        → AreThose (GoesOn (kinds_of front.old.items)) (ks ++ kind.now ∷ []) those.new.items) }
{
    if goes_on(alloc, front, kind)? {
        keep(alloc, those, kind)
    } else {
        Ok(())
    }
}

/// The kinds of token of which one could stand at this token, with which no file goes on: those of the candidates with which
/// some file's tokens go on behind the tokens before it. Its only error is NoMemory. Each candidate costs one reading of
/// the tokens before it.
pub fn expected(alloc: Global, tokens: &[Token], at: u32) -> Result<Vec<Kind>, NoMemory>
    requires size { length tokens.now < 16_777_216 }
    requires words { AreWordsFit (is_version_2 (kinds_of tokens.now)) (kinds_of tokens.now) }
    requires fault { IsSyntaxAt whole_file IsFile (kinds_of tokens.now) at }
    ensures { IfOk result (λ those. AreThose (GoesOn (take at (kinds_of tokens.now))) all those.items) }
{
    let mut front = copied(alloc, &tokens[..at as usize])?;
    let kinds = candidates(alloc)?;
    let mut those = Vec::new(alloc);
    for kind in &kinds {
        try_kind(alloc, &mut front, &mut those, kind)?;
    }
    Ok(those)
}
