// Laws of audits.

ghost use Rattle.std.specs.Prelude.{ℕ, List, [], ◌∷◌, length};
ghost use Rattle.spi_term.specs.Counts.{SameEffect};
ghost use Rattle.spi_term.specs.Names.{ProcessOver};
ghost use Rattle.spi_term.specs.Term.{Effect, Process};
ghost use Rattle.spi_rules.specs.Environment.{Env};
ghost use Rattle.spi_rules.specs.Derivations.{RuleUse, Proves};
ghost use Rattle.spi_audit.specs.Fits.{of_process};
ghost use Rattle.spi_audit.specs.Audit.{Judged, AllPay, IsAudited, AreOneAnswer};
ghost use Rattle.spi_audit.specs.declared.audited.Audited.{Audited};

/// There is one answer for each process and derivation, up to the order of an effect's atoms.
pub fn one_audit()
    ensures { (k : ℕ) (p : Process) (us : List RuleUse) (a b : Audited) → IsAudited k p us a
        → IsAudited k p us b → AreOneAnswer a b }
{}

/// The uses of a derivation prove the effect of its root, up to equal counts, exactly where each of them fits and pays.
pub fn judged_is_proved()
    ensures proved { (env : Env) (p : Process) (us : List RuleUse) (es : Effect) → ProcessOver (length env) p
        → (j : Judged (of_process env p ∷ []) us (es ∷ [])) → AllPay j → Proves us env p es }
    ensures judged { (env : Env) (p : Process) (us : List RuleUse) (es : Effect) → Proves us env p es
        → (fs : Effect) × SameEffect fs es × (j : Judged (of_process env p ∷ []) us (fs ∷ [])) × AllPay j }
{}
