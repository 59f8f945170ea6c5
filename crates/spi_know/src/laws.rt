// Laws of knowledge.

ghost use Rattle.std.specs.Prelude.{◌↔◌, List};
ghost use Rattle.spi_term.specs.Term.{Message};
ghost use Rattle.spi_term.specs.Lists.{In};
ghost use Rattle.spi_run.specs.Knowledge.{Knows};
ghost use Rattle.spi_know.specs.Reached.{MadeOf, Reached, Made, IsTakenApart, Among, HaveTheirParts, IsSaturated};
ghost use Rattle.spi_know.specs.Cert.{Certifies};
ghost use Rattle.spi_know.specs.declared.cert.CertLine.{CertLine};

/// A message is known exactly where it is made of messages that are reached by taking apart what was
/// sent, opening each ciphertext whose key is made of reached messages.
pub fn known_is_made_of_reached()
    ensures known { (sent : List Message) (m : Message) → Knows sent m ↔ MadeOf (Reached sent) m }
    ensures made { (sent : List Message) (m : Message) → Made sent m ↔ MadeOf (Reached sent) m }
{}

/// Where nothing is left to take apart in a list of messages that holds what was sent, each known
/// message is made of that list, and each reached message stands in it.
pub fn closed_has_all()
    ensures known { (sent parts : List Message) (m : Message) → ((n : Message) → In n sent → In n parts)
        → IsTakenApart (Among parts) → Knows sent m → MadeOf (Among parts) m }
    ensures reached { (sent parts : List Message) (m : Message) → ((n : Message) → In n sent → In n parts)
        → IsTakenApart (Among parts) → Reached sent m → In m parts }
{}

/// And where such a list holds reached messages alone, it decides knowledge.
pub fn reached_is_least()
    ensures { (sent parts : List Message) (m : Message) → ((n : Message) → In n sent → In n parts)
        → ((n : Message) → In n parts → Knows sent n) → IsTakenApart (Among parts)
        → Knows sent m ↔ MadeOf (Among parts) m }
{}

/// A list of messages with all their parts: those of them that are known are found within the list,
/// by the clauses of knowledge until none adds another.
pub fn knowledge_is_local()
    ensures { (sent all known : List Message) (m : Message) → HaveTheirParts (Among all)
        → IsSaturated (Among all) (Among known) → ((n : Message) → In n sent → In n known)
        → ((n : Message) → In n known → In n all) → ((n : Message) → In n known → Knows sent n) → In m all
        → Knows sent m ↔ In m known }
{}

/// What a certificate says last is known.
pub fn certified_is_known()
    ensures { (sent : List Message) (lines : List CertLine) (target : Message) → Certifies sent lines target
        → Knows sent target }
{}
