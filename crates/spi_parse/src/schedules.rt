//! Schedules.

ghost use Rattle.std.specs.Prelude.{◌≡◌, map};
ghost use Rattle.spi_tree.specs.Views.{step_of};
ghost use Rattle.spi_parse.specs.Places.{state_of, GivesPart};
ghost use Rattle.spi_parse.specs.Table.{act_rest, talk_rest, steps, steps_item};
ghost use Rattle.spi_parse.specs.Reading.{Gives, read, limited, item_of};

use crate::cursor::{Reader, span_from};
use crate::fault::Stop;
use crate::reading::{take_mark, take_number};
use crate::seen::Seen;
use spi_lex::Mark;
use spi_tree::SStep;
use std::alloc::Global;

fn act(at: &mut Reader<'_>) -> Result<u32, Stop>
    ensures { GivesPart (λ x. (x, (state_of at.new).end)) result (state_of at.new)
        (read limited act_rest (state_of at.old)) }
{
    at.first()?;
    let place = take_number(at)?;
    take_mark(at, Mark::Semicolon)?;
    Ok(place)
}

fn talk(at: &mut Reader<'_>) -> Result<(u32, u32), Stop>
    ensures { GivesPart (λ x. (x.0, x.1, (state_of at.new).end)) result (state_of at.new)
        (read limited talk_rest (state_of at.old)) }
{
    at.first()?;
    let from = take_number(at)?;
    let to = take_number(at)?;
    take_mark(at, Mark::Semicolon)?;
    Ok((from, to))
}

fn next_step(at: &mut Reader<'_>) -> Result<Option<SStep>, Stop>
    ensures { GivesPart (item_of step_of tt) result (state_of at.new)
        (read limited steps_item (state_of at.old)) }
{
    let Ok(first) = at.first() else {
        return Ok(None);
    };
    match first.kind {
        Seen::Word(word) => {
            if word == "act" {
                at.advance();
                let place = act(at)?;
                let span = span_from(first.span, at);
                return Ok(Some(SStep::Act { place, span }));
            }
            if word == "talk" {
                at.advance();
                let (from, to) = talk(at)?;
                let span = span_from(first.span, at);
                return Ok(Some(SStep::Talk { from, to, span }));
            }
            Ok(None)
        }
        _ => Ok(None),
    }
}

/// The steps of a schedule.
pub fn all_steps(alloc: Global, at: &mut Reader<'_>) -> Result<Vec<SStep>, Stop>
    ensures { GivesPart (λ v. (map step_of v.items, tt)) result (state_of at.new)
        (read limited steps (state_of at.old)) }
{
    let mut more = Vec::new(alloc);
    'items: loop {
        let item = next_step(at)?;
        match item {
            Some(part) => more.push(part)?,
            None => return Ok(more),
        }
    }
}
