// What the numbers of a judge's store count.

ghost use Rattle.std.specs.Prelude.{List, ◌++◌};
ghost use Rattle.spi_term.specs.Term.{Message, Ty};
ghost use Rattle.spi_rules.specs.Environment.{Env};
ghost use Rattle.spi_intern.specs.declared.store.Store.{Store};
ghost use Rattle.spi_intern.specs.Growing.{Given, Has, MessageAmong, CountsParts, CountsPartsAtLeast};
ghost use Rattle.spi_intern.specs.Meaning.{NoneTwice};
ghost use Rattle.spi_message.specs.Giving.{HasParts, GrowsBy, Compared, Examined, IsWholeGiven, AreWhole, HasGiven, HasGivenAtLeast};

/// A judge whose calls each answered `Ok` has one number for each different message and each different type among the
/// terms for which a call gave a number, those that its calls made included, and their parts, and no other. This goes on to
/// hold after a call that gives numbers to whole terms alone, as every call of a judge does. So each part of a message
/// with a number has a number.
pub fn judged_parts_are_counted()
    ensures parts { (gs : List Given) (s : Store) (n : Message) → HasGiven gs s → Has s.messages n
        → HasParts s.messages n }
    ensures counted { (gs : List Given) (s : Store) → HasGiven gs s → NoneTwice s → CountsParts gs s }
    ensures next { (gs hs : List Given) (s r : Store) → HasGiven gs s → GrowsBy s hs r → AreWhole hs
        → HasGiven (hs ++ gs) r }
    ensures typing { (env : Env) (n : Message) (u : Ty) (g : Given) → Compared env n u g → IsWholeGiven g }
    ensures good { (env : Env) (u : Ty) (g : Given) → Examined env u g → IsWholeGiven g }
{}

/// Where calls on it have answered `NoMemory`, a judge has a number for each different message and each different type
/// among the terms for which calls that answered `Ok` gave one, and their parts.
pub fn judged_parts_are_counted_at_least()
    ensures parts { (gs : List Given) (s : Store) (n : Message) → HasGivenAtLeast gs s → MessageAmong gs n
        → HasParts s.messages n }
    ensures counted { (gs : List Given) (s : Store) → HasGivenAtLeast gs s → NoneTwice s
        → CountsPartsAtLeast gs s }
    ensures next { (gs hs : List Given) (s r : Store) → HasGivenAtLeast gs s → GrowsBy s hs r → AreWhole hs
        → HasGivenAtLeast (hs ++ gs) r }
{}
