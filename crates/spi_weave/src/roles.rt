//! The processes of roles.

ghost use Rattle.std.specs.Prelude.{◌≡◌, ◌∷◌, if◌then◌else◌, map, IfOk};
ghost use Rattle.spi_tree.specs.Views.{proc_of};
ghost use Rattle.spi_narrate.specs.Views.{line_of};
ghost use Rattle.spi_heading.specs.Views.{shared_of};
ghost use Rattle.spi_weave.specs.Woven.{is_word, role_part, role_process, roles_beside, roles_together, sharing, last_span};

use crate::NoMemory;
use crate::forms::{Form, prefixed, received, sent};
use spi_heading::Shared;
use spi_narrate::Line;
use spi_text::Span;
use spi_tree::{BothParts, Room, SProc, SWord};
use std::alloc::Global;

/// Whether two words are spelled in the same way.
fn is_word(v: &SWord, w: &SWord) -> bool
    ensures { result ≡ is_word v.now w.now }
{
    v.word == w.word
}

// What a role does in a line, before the process that follows.
fn role_part<'b>(
    room: Room<'b>,
    role: &SWord,
    line: &Line<'b>,
    after: SProc<'b>,
) -> Result<SProc<'b>, NoMemory>
    ensures { IfOk result (λ p. proc_of p ≡ role_part role.now (line_of line.now) (proc_of after.entry)) }
{
    match line {
        Line::Local {
            role: who,
            prefix,
            span,
        } => {
            if is_word(who, role) {
                prefixed(room.alloc, *span, prefix, after)
            } else {
                Ok(after)
            }
        }
        Line::Pass {
            from,
            to,
            channel,
            datum,
            name,
            span,
        } => {
            let after = if is_word(to, role) {
                received(room, *span, channel, name, after)?
            } else {
                after
            };
            if is_word(from, role) {
                sent(room, *span, channel, datum, after)
            } else {
                Ok(after)
            }
        }
    }
}

// The lines of a role, in order.
fn role_process<'b>(room: Room<'b>, role: &SWord, lines: &[Line<'b>]) -> Result<SProc<'b>, NoMemory>
    ensures { IfOk result (λ p. proc_of p ≡ role_process role.now (map line_of lines.now)) }
{
    let mut process = SProc::Stop { span: role.span };
    for at in (0..lines.len()).rev() {
        process = role_part(room, role, &lines[at], process)?;
    }
    Ok(process)
}

/// A `new` for each shared name, before the process that follows.
pub fn sharing<'b>(
    alloc: Global,
    shared: &[Shared<'b>],
    after: SProc<'b>,
) -> Result<SProc<'b>, NoMemory>
    ensures { IfOk result (λ p. proc_of p ≡ sharing (map shared_of shared.now) (proc_of after.entry)) }
{
    let mut process = after;
    for at in (0..shared.len()).rev() {
        let Shared { name, ty, span } = &shared[at];
        process = Form::before(alloc, process, *span).new(name, ty)?;
    }
    Ok(process)
}

/// One role and more, beside one another, `whole` in the place of a `Seq`.
pub fn roles_beside<'b>(
    room: Room<'b>,
    lines: &[Line<'b>],
    first: &SWord,
    more: &[SWord],
    whole: bool,
) -> Result<SProc<'b>, NoMemory>
    ensures { IfOk result
        (λ p. proc_of p
        ≡ (if whole then roles_together (map line_of lines.now) (first.now ∷ more.now)
        else roles_beside (map line_of lines.now) first.now more.now)) }
{
    let Some((next, others)) = more.split_first() else {
        return role_process(room, first, lines);
    };
    let rest = roles_beside(room, lines, next, others, false)?;
    let parts = BothParts {
        first: role_process(room, first, lines)?,
        rest,
    };
    let parts = Box::new(room.alloc, parts)?;
    let span = first.span;
    if whole {
        Ok(SProc::Group { parts, span })
    } else {
        Ok(SProc::Par { parts, span })
    }
}

/// Where the word of the last role stands.
pub fn last_span(first: Span, more: &[SWord]) -> Span
    ensures { result ≡ last_span first more.now }
{
    let mut span = first;
    for role in more {
        span = role.span;
    }
    span
}
