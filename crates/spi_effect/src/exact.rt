// What the lists and tests that compute mean.

ghost use Rattle.std.specs.Prelude.{◌≡◌, ◌↔◌, ℕ, true, false};
ghost use Rattle.spi_term.specs.Term.{Effect, Ty};
ghost use Rattle.spi_term.specs.Names.{EffectAvoids};
ghost use Rattle.spi_term.specs.SameTy.{SameTy};
ghost use Rattle.spi_effect.specs.Effect.{Within, IsDifference, IsGreater, AllMany};
ghost use Rattle.spi_effect.specs.Made.{minus, greater, are_many, is_within, same_ty, mentions};

/// The lists that are made have the counts that they stand for, and the tests say exactly what the relations say.
pub fn tests_are_exact()
    ensures differences { (es fs : Effect) → IsDifference (minus es fs) es fs }
    ensures greatest { (es fs : Effect) → IsGreater (greater es fs) es fs }
    ensures all_many { (es : Effect) → are_many es ≡ true ↔ AllMany es }
    ensures within { (es fs : Effect) → is_within es fs ≡ true ↔ Within es fs }
    ensures same { (t u : Ty) → same_ty t u ≡ true ↔ SameTy t u }
    ensures avoids { (x : ℕ) (es : Effect) → mentions x es ≡ false ↔ EffectAvoids x es }
{}
