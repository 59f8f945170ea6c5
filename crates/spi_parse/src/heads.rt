//! Names with their types, and the heads of forms.

ghost use Rattle.std.specs.Prelude.{◌≡◌, [], ◌∷◌};
ghost use Rattle.spi_lex.specs.declared.token.Mark.TheVariants.{Comma, ParenClose, Semicolon};
ghost use Rattle.spi_tree.specs.Views.{msg_of, ty_of};
ghost use Rattle.spi_parse.specs.Places.{state_of, GivesPart, GivesName};
ghost use Rattle.spi_parse.specs.Table.{the_mark, named, binder, split_head, match_head, case_head, decrypt_head, check_head, cast_head};
ghost use Rattle.spi_parse.specs.Reading.{Gives, read, read_all, limited};

use crate::cursor::{Reader, syntax};
use crate::fault::Stop;
use crate::messages::message;
use crate::reading::{take_mark, take_reserved, take_word};
use crate::seen::Seen;
use crate::types::read_type;
use spi_lex::{Mark, Reserved};
use spi_tree::{Room, SMsg, STy, SWord};

/// A name with its type, and the place behind them.
type TypedName<'b> = Result<(SWord, STy<'b>), Stop>;

/// A name with its type.
#[inline(always)]
fn named<'b>(room: Room<'b>, at: &mut Reader<'_>, later: bool) -> TypedName<'b>
    ensures { GivesName result (state_of at.new) (read limited (named later) (state_of at.old)) }
{
    at.first()?;
    let name = take_word(room.alloc, at)?;
    take_mark(at, Mark::Colon)?;
    let ty = read_type(room, at, later, 1)?;
    Ok((name, ty))
}

/// The closing parenthesis, and the semicolon.
#[inline(always)]
fn take_closing(at: &mut Reader<'_>) -> Result<(), Stop>
    ensures { GivesPart (λ x. (tt, (tt, tt))) result (state_of at.new)
        (read_all (read limited) (the_mark ParenClose ∷ the_mark Semicolon ∷ []) (state_of at.old)) }
{
    take_mark(at, Mark::ParenClose)?;
    take_mark(at, Mark::Semicolon)?;
    Ok(())
}

/// A name with its type in parentheses, and the semicolon.
#[inline(always)]
pub fn binder<'b>(room: Room<'b>, at: &mut Reader<'_>, later: bool) -> TypedName<'b>
    ensures { GivesName result (state_of at.new) (read limited (binder later) (state_of at.old)) }
{
    let first = at.first()?;
    match first.kind {
        Seen::Mark(Mark::ParenOpen) => {
            at.advance();
            let (name, ty) = named(room, at, later)?;
            take_closing(at)?;
            Ok((name, ty))
        }
        _ => Err(syntax(at)),
    }
}

/// The second name of a split or a match with its type, from the comma on, and what closes the head.
fn second_named<'b>(room: Room<'b>, at: &mut Reader<'_>, later: bool) -> TypedName<'b>
    ensures { GivesPart (λ x. (tt, ((x.0, ty_of x.1), (tt, (tt, tt))))) result (state_of at.new)
        (read_all (read limited)
        (the_mark Comma ∷ named later ∷ the_mark ParenClose ∷ the_mark Semicolon ∷ []) (state_of at.old)) }
{
    take_mark(at, Mark::Comma)?;
    let (name, ty) = named(room, at, later)?;
    take_closing(at)?;
    Ok((name, ty))
}

/// The names of a split, from `is` on.
pub fn split_head<'b>(
    room: Room<'b>,
    at: &mut Reader<'_>,
    later: bool,
) -> Result<(SWord, STy<'b>, SWord, STy<'b>), Stop>
    ensures { GivesPart (λ x. (x.0, ty_of x.1, x.2, ty_of x.3)) result (state_of at.new)
        (read limited (split_head later) (state_of at.old)) }
{
    let first = at.first()?;
    match first.kind {
        Seen::Reserved(Reserved::Is) => {
            at.advance();
            take_mark(at, Mark::ParenOpen)?;
            let (left, left_ty) = named(room, at, later)?;
            let (right, right_ty) = second_named(room, at, later)?;
            Ok((left, left_ty, right, right_ty))
        }
        _ => Err(syntax(at)),
    }
}

/// The names of a match, from `is` on.
pub fn match_head<'b>(
    room: Room<'b>,
    at: &mut Reader<'_>,
    later: bool,
) -> Result<(SWord, STy<'b>, SMsg<'b>, SWord, STy<'b>), Stop>
    ensures { GivesPart (λ x. (x.0, ty_of x.1, msg_of x.2, x.3, ty_of x.4)) result (state_of at.new)
        (read limited (match_head later) (state_of at.old)) }
{
    let first = at.first()?;
    match first.kind {
        Seen::Reserved(Reserved::Is) => {
            at.advance();
            take_mark(at, Mark::ParenOpen)?;
            let (left, left_ty) = named(room, at, later)?;
            take_mark(at, Mark::Equals)?;
            let equal = message(room, at, later)?;
            let (right, right_ty) = second_named(room, at, later)?;
            Ok((left, left_ty, equal, right, right_ty))
        }
        _ => Err(syntax(at)),
    }
}

/// The name of a side of a case, from `is` on.
pub fn case_head<'b>(
    room: Room<'b>,
    at: &mut Reader<'_>,
    later: bool,
    side: Reserved,
) -> TypedName<'b>
    ensures { GivesName result (state_of at.new) (read limited (case_head later side) (state_of at.old)) }
{
    let first = at.first()?;
    match first.kind {
        Seen::Reserved(Reserved::Is) => {
            at.advance();
            take_reserved(at, side)?;
            binder(room, at, later)
        }
        _ => Err(syntax(at)),
    }
}

/// The name and the key of a decryption, from `is` on.
pub fn decrypt_head<'b>(
    room: Room<'b>,
    at: &mut Reader<'_>,
    later: bool,
) -> Result<(SWord, STy<'b>, SMsg<'b>), Stop>
    ensures { GivesPart (λ x. (x.0, ty_of x.1, msg_of x.2)) result (state_of at.new)
        (read limited (decrypt_head later) (state_of at.old)) }
{
    let first = at.first()?;
    match first.kind {
        Seen::Reserved(Reserved::Is) => {
            at.advance();
            take_mark(at, Mark::BraceOpen)?;
            let (name, ty) = named(room, at, later)?;
            take_mark(at, Mark::BraceClose)?;
            let key = message(room, at, later)?;
            take_mark(at, Mark::Semicolon)?;
            Ok((name, ty, key))
        }
        _ => Err(syntax(at)),
    }
}

/// The nonce of a check, from `is` on.
pub fn check_head<'b>(room: Room<'b>, at: &mut Reader<'_>, later: bool) -> Result<SMsg<'b>, Stop>
    ensures { GivesPart msg_of result (state_of at.new) (read limited (check_head later) (state_of at.old)) }
{
    let first = at.first()?;
    match first.kind {
        Seen::Reserved(Reserved::Is) => {
            at.advance();
            let nonce = message(room, at, later)?;
            take_mark(at, Mark::Semicolon)?;
            Ok(nonce)
        }
        _ => Err(syntax(at)),
    }
}

/// The name of a cast, from `is` on.
pub fn cast_head<'b>(room: Room<'b>, at: &mut Reader<'_>, later: bool) -> TypedName<'b>
    ensures { GivesName result (state_of at.new) (read limited (cast_head later) (state_of at.old)) }
{
    let first = at.first()?;
    match first.kind {
        Seen::Reserved(Reserved::Is) => {
            at.advance();
            binder(room, at, later)
        }
        _ => Err(syntax(at)),
    }
}
