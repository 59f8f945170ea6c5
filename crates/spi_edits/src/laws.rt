//! Laws of benches.

ghost use Rattle.std.specs.Prelude.{◌≡◌, List};
ghost use Rattle.spi_lex.specs.declared.token.Token.{Token};
ghost use Rattle.spi_edits.specs.Edits.{Bench};
ghost use Rattle.spi_edits.specs.Reads.{IsBenchSpelled};

/// Tokens spell at most one formed bench, with the span of each of its nodes and words.
pub fn one_bench()
    ensures { (b c : Bench) (ts : List Token) → IsBenchSpelled b ts → IsBenchSpelled c ts → b ≡ c }
{}
