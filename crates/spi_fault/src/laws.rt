// The law of blocking nodes.
ghost use Rattle.std.specs.Prelude.{length};
ghost use Rattle.spi_term.specs.Names.{ProcessOver};
ghost use Rattle.spi_term.specs.Term.{Process};
ghost use Rattle.spi_rules.specs.Environment.{Env};
ghost use Rattle.spi_rules.specs.Blocking.{BlocksAt};
ghost use Rattle.spi_fault.specs.Checks.{Check};
ghost use Rattle.spi_fault.specs.Faults.{FailsFirst};

/// Where a process over the names of an environment has no effect there, though each process in it has one, one of its
/// form's checks is the first that fails.
pub fn blocking_fails_a_check()
    ensures { (env : Env) (p : Process) → ProcessOver (length env) p → BlocksAt env p
        → (c : Check) × FailsFirst env p c }
{}
