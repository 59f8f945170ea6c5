// Laws of canonical derivations.

ghost use Rattle.std.specs.Prelude.{◌≡◌, ℕ, List};
ghost use Rattle.spi_term.specs.Term.{Process};
ghost use Rattle.spi_rules.specs.Derivations.{RuleUse};
ghost use Rattle.spi_deriv.specs.Canonical.{Canonical};

/// A process has one canonical derivation at most.
pub fn one_canonical()
    ensures { (k : ℕ) (p : Process) (d e : List RuleUse) → Canonical d k p → Canonical e k p → d ≡ e }
{}
