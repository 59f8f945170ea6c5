// Laws of effects.

ghost use Rattle.spi_effect.specs.Effect.{WithinIsOrder};

/// To be within is an order of effects, in which those with equal counts are the same.
pub fn within_is_an_order()
    ensures { WithinIsOrder }
{}
