//! Whole benches.

ghost use Rattle.std.specs.Prelude.{◌≡◌, ◌≤◌, length};
ghost use Rattle.spi_lex.specs.Numbered.{listed};
ghost use Rattle.spi_lex.specs.Lexing.{kinds_of, is_version_2};
ghost use Rattle.spi_tree.specs.Formed.{AreWordsFit};
ghost use Rattle.spi_edits.specs.Reads.{ParsesBench};
ghost use Rattle.spi_edits.specs.Spans.{span_of_all};
ghost use Rattle.spi_edits.specs.Views.{bench_of};

use crate::edits::Edits;
use crate::text::BenchText;
use spi_heading::{Heading, heading_at, parts_at, span_between};
use spi_lex::{Token, Tokens};
use spi_parse::ParseFault;
use spi_text::Span;
use spi_tree::Room;

/// From the start of the first token to the end of the last; the empty span at 0 where there is none.
fn whole_span(tokens: &Tokens<'_>) -> Span
    requires size { length (listed tokens.now) ≤ 16_777_216 }
    ensures { result ≡ span_of_all (listed tokens.now) }
{
    if tokens.count() == 0 {
        Span { from: 0, to: 0 }
    } else {
        span_between(tokens, 0, tokens.count())
    }
}

/// The bench whose tokens these are, with the spans of its nodes and words, or the first fault. Limits on what it holds aren't
/// looked at. A bench without tokens has the empty span at 0.
///
/// A fault names its token by its number from 0. `Syntax` is at the token with which no bench goes on, and at the end it is the
/// number of tokens. `TooDeep` is at the first token at which a node of some bench starts that is above its nesting limit.
/// `NoMemory` comes where memory runs out.
pub fn read_bench<'b>(room: Room<'b>, tokens: &[Token]) -> Result<BenchText<'b>, ParseFault>
    requires size { length tokens.now ≤ 16_777_216 }
    requires words { AreWordsFit (is_version_2 (kinds_of tokens.now)) (kinds_of tokens.now) }
    ensures { ParsesBench bench_of result tokens.now }
{
    bench_in(room, &Tokens::List(tokens))
}

/// As `read_bench`, of the tokens of a list or of a text.
pub fn bench_in<'b>(room: Room<'b>, tokens: &Tokens<'_>) -> Result<BenchText<'b>, ParseFault>
    requires size { length (listed tokens.now) ≤ 16_777_216 }
    requires words { let kinds = kinds_of (listed tokens.now) in AreWordsFit (is_version_2 kinds) kinds }
    ensures { ParsesBench bench_of result (listed tokens.now) }
{
    let (heading, start) = heading_at(room, tokens)?;
    let Heading {
        version,
        decls,
        shared,
    } = heading;
    let (edits, _behind) = parts_at::<Edits>(room, tokens, start, version)?;
    Ok(BenchText {
        version,
        decls,
        shared,
        edits,
        span: whole_span(tokens),
    })
}
