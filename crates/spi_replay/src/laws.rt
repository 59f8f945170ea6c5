// Laws of the ready steps.

ghost use Rattle.std.specs.Prelude.{◌≡◌, List};
ghost use Rattle.spi_run.specs.Reduction.{Configuration, Step};
ghost use Rattle.spi_replay.specs.Ready.{AreReady};

/// A configuration has exactly one list of its ready steps in their order.
pub fn one_order()
    ensures most { (c : Configuration) (ss ts : List Step) → AreReady c ss → AreReady c ts → ss ≡ ts }
    ensures least { (c : Configuration) → (ss : List Step) × AreReady c ss }
{}
