//! The words after `on`.

ghost use Rattle.std.specs.Prelude.{map, MatchOption};
ghost use Rattle.spi_scope.specs.Scope.{Names};
ghost use Rattle.spi_narrate.specs.Views.{line_of};
ghost use Rattle.spi_honest.specs.Free.{NumbersSpellings};
ghost use Rattle.spi_honest.specs.Roles.{HasChannel, HaveChannels};
ghost use Rattle.spi_narrator.specs.Answers.{IsFirstNotFree};
ghost use Rattle.spi_narrator.specs.Free.{IsStrange};

use spi_honest::FreeNames;
use spi_narrate::Line;
use spi_tree::SWord;

/// The word after `on`, where it isn't a free name.
fn strange<'n>(names: &FreeNames<'_>, line: &'n Line) -> Option<&'n SWord>
    ensures { (free : Names) → NumbersSpellings names.now free
        → MatchOption result (HasChannel free (line_of line.now))
        (λ w. IsStrange free (line_of line.now) w.now) }
{
    match line {
        Line::Local { .. } => None,
        Line::Pass { channel, .. } => match names.number(channel) {
            Some(_) => None,
            None => Some(channel),
        },
    }
}

/// The first word after `on` that isn't a free name. The time is that of the lines.
pub fn first_not_free<'n>(names: &FreeNames<'_>, lines: &'n [Line]) -> Option<&'n SWord>
    ensures { (free : Names) → NumbersSpellings names.now free
        → MatchOption result (HaveChannels free (map line_of lines.now))
        (λ w. IsFirstNotFree free (map line_of lines.now) w.now) }
{
    for line in lines {
        if let Some(word) = strange(names, line) {
            return Some(word);
        }
    }
    None
}
