// Keys that stay secret.

ghost use Rattle.std.specs.Prelude.{◌≡◌, ◌<◌, ◌++◌, ℕ, List, [], Some, slice_get, length};
ghost use Rattle.spi_term.specs.Lists.{In};
ghost use Rattle.spi_term.specs.Term.{Message, name, Process};
ghost use Rattle.spi_rules.specs.Derivations.{Derivable};
ghost use Rattle.spi_rules.specs.Environment.{untrusted};
ghost use Rattle.spi_run.specs.Reduction.{Configuration, Step, Event, Runs};
ghost use Rattle.spi_run.specs.Knowledge.{names_below, shown_in};
ghost use Rattle.spi_know.specs.Sent.{names_up, sent_in, KeysStayUnknown};

use spi_sound::keys_stay_secret;

/// The names at the start stand at their own numbers, and what was sent is among those names and what was shown.
pub fn sent_is_shown()
    ensures count { (n : ℕ) → length (names_up n) ≡ n }
    ensures names { (n i : ℕ) → i < n → slice_get (names_up n) i ≡ Some (name i) }
    ensures shown { (n : ℕ) (c d : Configuration) (ss : List Step) (es : List Event) (r : Runs c ss es d)
        (m : Message) → In m (sent_in n r) → In m (names_below n ++ shown_in r) }
{}

/// Where the process is derivable with the empty effect, no name that is made at a Key type along a run beside an opponent is
/// known from what was sent.
pub fn keys_stay_unknown()
    ensures { (k : ℕ) (p : Process) → Derivable (untrusted k) p [] → KeysStayUnknown k p }
{
    keys_stay_secret();
}
