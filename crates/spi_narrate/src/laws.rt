//! Laws of narrations.

ghost use Rattle.std.specs.Prelude.{◌≡◌, List};
ghost use Rattle.spi_lex.specs.declared.token.Token.{Token};
ghost use Rattle.spi_narrate.specs.Narrations.{Narration};
ghost use Rattle.spi_narrate.specs.Faults.{items_of, IsFirstFault, IsFaultless};
ghost use Rattle.spi_narrate.specs.Reads.{IsNarrationSpelled};
ghost use Rattle.spi_narrate.specs.declared.fault.NarrateFault.{NarrateFault};

/// Tokens are those of at most one narration, with the span of each of its nodes and words.
pub fn one_narration()
    ensures { (x y : Narration) (ts : List Token) → IsNarrationSpelled x ts → IsNarrationSpelled y ts
        → x ≡ y }
{}

/// A narration has at most one first fault, and none where it is faultless.
pub fn one_first_fault()
    ensures one { (x : Narration) (f g : NarrateFault) → IsFirstFault (items_of x) f
        → IsFirstFault (items_of x) g
        → f ≡ g }
    ensures none { (x : Narration) (f : NarrateFault) → IsFirstFault (items_of x) f → IsFaultless (items_of x)
        → ⊥ }
{}
