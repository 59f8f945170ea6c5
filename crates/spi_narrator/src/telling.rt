//! Narrations, told.

ghost use Rattle.std.specs.Prelude.{◌≡◌, ◌↔◌, ◌⊎◌, ◌<◌, length, map, IfOk, IfErr, OnOk, IsTrue, MatchOption};
ghost use Rattle.spi_scope.specs.StandsFor.{StandsFor};
ghost use Rattle.spi_scope.specs.Files.{meant};
ghost use Rattle.spi_scope.specs.First.{HasFirst};
ghost use Rattle.spi_narrate.specs.Views.{line_of, narration_of};
ghost use Rattle.spi_weave.specs.Woven.{woven};
ghost use Rattle.spi_honest.specs.Narrated.{free_of};
ghost use Rattle.spi_honest.specs.Roles.{IsTellable, HaveChannels};
ghost use Rattle.spi_narrator.specs.Answers.{IsNarrationAnswer, LineIn, RefusesNarration};

use crate::NoMemory;
use crate::answer::{Answer, Refusal};
use crate::free::first_not_free;
use spi_honest::{FreeNames, HonestFault, schedule_of};
use spi_narrate::{Line, Narration};
use spi_scope::{File, ScopeFault, resolve};
use spi_text::{Span, Text};
use spi_tree::Room;
use spi_weave::weave_declared;
use std::alloc::{AllocError, Global};
use std::mem::replace;

/// The span of the line with this number.
fn span_at(lines: &[Line], at: u32) -> Span
    requires { at < length lines.now }
    ensures { LineIn (map line_of lines.now) at result }
{
    match &lines[at as usize] {
        Line::Local { span, .. } => *span,
        Line::Pass { span, .. } => *span,
    }
}

/// The file with its honest schedule, or the first line that has none.
fn scheduled(alloc: Global, n: &Narration, file: File) -> Result<Answer, NoMemory>
    requires tellable { IsTellable (narration_of n.now) }
    requires channels { HaveChannels (free_of (narration_of n.now)) (narration_of n.now).lines }
    requires file { StandsFor (woven (narration_of n.now)) (meant file) }
    ensures { IfOk result (IsNarrationAnswer (narration_of n.now)) }
{
    match schedule_of(alloc, n, &file) {
        Ok(mut honest) => {
            let mut file = file;
            file.schedule = Some(replace(&mut honest.steps, Vec::new(alloc)));
            Ok(Answer::Told(file))
        }
        Err(HonestFault::LineNotReady { line }) => Ok(Answer::Refused(Refusal::NotReady {
            span: span_at(&n.lines, line),
        })),
        Err(HonestFault::NarratedTooLarge { line, nodes }) => {
            Ok(Answer::Refused(Refusal::TooLarge {
                span: span_at(&n.lines, line),
                nodes,
            }))
        }
        Err(HonestFault::NoMemory) => Err(AllocError),
    }
}

fn is_out_of_memory(fault: &ScopeFault) -> bool
    ensures { IsTrue result ↔ fault.now ≡ ScopeFault.NoMemory }
{
    matches!(fault, ScopeFault::NoMemory)
}

/// The refusal of the first word after `on` that isn't a free name, where there is one. Its only error is NoMemory.
fn unfree(alloc: Global, n: &Narration) -> Result<Option<Refusal>, NoMemory>
    ensures { IfOk result (λ r. MatchOption r
        (HaveChannels (free_of (narration_of n.now)) (narration_of n.now).lines)
        (RefusesNarration (narration_of n.now))) }
{
    let names = FreeNames::of(alloc, &n.decls)?;
    match first_not_free(&names, &n.lines) {
        Some(word) => Ok(Some(Refusal::NotFree {
            span: word.span,
            word: Text::of(alloc, word.word.as_str())?,
        })),
        None => Ok(None),
    }
}

/// The file that a narration is woven into. Its declarations are lent to the tree, and are its own again behind it.
fn resolved<'b>(room: Room<'b>, n: &mut Narration<'b>) -> Result<File, ScopeFault>
    ensures file { IfOk result (λ file. StandsFor (woven (narration_of n.old)) (meant file)) }
    ensures same { OnOk result (narration_of n.new ≡ narration_of n.old) }
    ensures fault { IfErr result
        (λ fault. (fault ≡ ScopeFault.NoMemory) ⊎ HasFirst (woven (narration_of n.old)) fault) }
{
    let decls = replace(&mut n.decls, Vec::new(room.alloc));
    let Ok(mut tree) = weave_declared(room, n, decls) else {
        return Err(ScopeFault::NoMemory);
    };
    let file = resolve(room.alloc, &tree)?;
    n.decls = replace(&mut tree.decls, Vec::new(room.alloc));
    Ok(file)
}

/// What a narration answers whose words after `on` are free names. Its only error is NoMemory.
fn answered<'b>(room: Room<'b>, mut n: Narration<'b>) -> Result<Answer, NoMemory>
    requires tellable { IsTellable (narration_of n) }
    requires channels { HaveChannels (free_of (narration_of n)) (narration_of n).lines }
    ensures { IfOk result (IsNarrationAnswer (narration_of n.entry)) }
{
    match resolved(room, &mut n) {
        Ok(file) => scheduled(room.alloc, &n, file),
        Err(fault) => {
            if is_out_of_memory(&fault) {
                Err(AllocError)
            } else {
                Ok(Answer::Refused(Refusal::Scope(fault)))
            }
        }
    }
}

/// The file that a narration is woven into, with an honest schedule, or its first refusal. Each role of its lines is declared
/// once, and it keeps the limits of narrations. Its only error is NoMemory.
pub fn tell<'b>(room: Room<'b>, n: Narration<'b>) -> Result<Answer, NoMemory>
    requires { IsTellable (narration_of n) }
    ensures { IfOk result (IsNarrationAnswer (narration_of n.entry)) }
{
    match unfree(room.alloc, &n)? {
        Some(cause) => Ok(Answer::Refused(cause)),
        None => answered(room, n),
    }
}
