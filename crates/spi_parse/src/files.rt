//! Whole files.

ghost use Rattle.std.specs.Prelude.{◌≡◌, [], ◌∷◌};
ghost use Rattle.spi_tree.specs.Views.{opponent_of, schedule_of, derivation_of, file_of};
ghost use Rattle.spi_parse.specs.Places.{state_of, GivesPart};
ghost use Rattle.spi_parse.specs.Wholes.{body_of, first_form, later_form};
ghost use Rattle.spi_parse.specs.Table.{opponent_tail, schedule_tail, derivation_tail, body, file, file_from};
ghost use Rattle.spi_parse.specs.Reading.{read, limited};

use crate::cursor::{Reader, span_from, syntax};
use crate::declarations::all_declarations;
use crate::derivations::derivation;
use crate::fault::Stop;
use crate::processes::process;
use crate::reading::{take_mark, take_two};
use crate::schedules::all_steps;
use crate::seen::Seen;
use spi_lex::{Mark, Reserved};
use spi_text::Span;
use spi_tree::{Decl, Room, SDeriv, SProc, SStep, Tree};
use std::alloc::Global;

/// The parts of a file behind its version.
#[derive(Drop)]
pub struct FileParts<'b> {
    pub decls: Vec<Decl<'b>>,
    pub process: SProc<'b>,
    pub opponent: Option<SProc<'b>>,
    pub schedule: Option<Vec<SStep>>,
    pub derivation: Option<SDeriv<'b>>,
}

fn opponent<'b>(room: Room<'b>, at: &mut Reader<'_>, later: bool) -> Result<Option<SProc<'b>>, Stop>
    ensures { GivesPart opponent_of result (state_of at.new)
        (read limited (opponent_tail later) (state_of at.old)) }
{
    let Ok(first) = at.first() else {
        return Ok(None);
    };
    match first.kind {
        Seen::Reserved(Reserved::Opponent) => {
            at.advance();
            let part = process(room, at, later, 0)?;
            Ok(Some(part))
        }
        _ => Ok(None),
    }
}

fn schedule(alloc: Global, at: &mut Reader<'_>) -> Result<Option<Vec<SStep>>, Stop>
    ensures { GivesPart schedule_of result (state_of at.new) (read limited schedule_tail (state_of at.old)) }
{
    let Ok(first) = at.first() else {
        return Ok(None);
    };
    match first.kind {
        Seen::Reserved(Reserved::Schedule) => {
            at.advance();
            let part = all_steps(alloc, at)?;
            Ok(Some(part))
        }
        _ => Ok(None),
    }
}

fn derivation_part<'b>(
    room: Room<'b>,
    at: &mut Reader<'_>,
    later: bool,
) -> Result<Option<SDeriv<'b>>, Stop>
    ensures { GivesPart derivation_of result (state_of at.new)
        (read limited (derivation_tail later) (state_of at.old)) }
{
    let Ok(first) = at.first() else {
        return Ok(None);
    };
    match first.kind {
        Seen::Reserved(Reserved::Derivation) => {
            at.advance();
            let part = derivation(room, at, later, 1)?;
            Ok(Some(part))
        }
        _ => Ok(None),
    }
}

fn file_parts<'b>(room: Room<'b>, at: &mut Reader<'_>, later: bool) -> Result<FileParts<'b>, Stop>
    ensures { GivesPart body_of result (state_of at.new) (read limited (body later) (state_of at.old)) }
{
    at.first()?;
    let decls = all_declarations(room, at, later)?;
    let process = process(room, at, later, 0)?;
    let opponent = opponent(room, at, later)?;
    let schedule = schedule(room.alloc, at)?;
    let derivation = derivation_part(room, at, later)?;
    let parts = FileParts {
        decls,
        process,
        opponent,
        schedule,
        derivation,
    };
    Ok(parts)
}

fn make_tree<'b>(version: u32, parts: FileParts<'b>, span: Span) -> Tree<'b>
    ensures { file_of result ≡ file_from version span (body_of parts.entry) }
{
    Tree {
        version,
        decls: parts.decls,
        process: parts.process,
        opponent: parts.opponent,
        schedule: parts.schedule,
        derivation: parts.derivation,
        span,
    }
}

/// A file.
pub fn read_file<'b>(room: Room<'b>, at: &mut Reader<'_>) -> Result<Tree<'b>, Stop>
    ensures { GivesPart file_of result (state_of at.new) (read limited file (state_of at.old)) }
{
    let first = at.first()?;
    match first.kind {
        Seen::Word(word) => {
            if word == "version" {
                at.advance();
                return later_file(room, first.span, at);
            }
            Err(syntax(at))
        }
        _ => first_file(room, first.span, at),
    }
}

fn later_file<'b>(room: Room<'b>, first: Span, at: &mut Reader<'_>) -> Result<Tree<'b>, Stop>
    ensures { GivesPart file_of result (state_of at.new) (later_form (first ∷ []) (state_of at.old)) }
{
    take_two(at)?;
    take_mark(at, Mark::Semicolon)?;
    let parts = file_parts(room, at, true)?;
    let span = span_from(first, at);
    Ok(make_tree(2, parts, span))
}

fn first_file<'b>(room: Room<'b>, first: Span, at: &mut Reader<'_>) -> Result<Tree<'b>, Stop>
    ensures { GivesPart file_of result (state_of at.new) (first_form (first ∷ []) (state_of at.old)) }
{
    let parts = file_parts(room, at, false)?;
    let span = span_from(first, at);
    Ok(make_tree(1, parts, span))
}
