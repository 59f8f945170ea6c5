// Laws of counts and of types.

ghost use Rattle.spi_term.specs.Equivalences.{CountsAreEquivalent, TypesAreEquivalent};

/// Equal counts are an equivalence of effects.
pub fn counts_are_equivalent()
    ensures { CountsAreEquivalent }
{}

/// Sameness is an equivalence of types.
pub fn types_are_equivalent()
    ensures { TypesAreEquivalent }
{}
