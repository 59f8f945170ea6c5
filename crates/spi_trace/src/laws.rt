// Laws of pairings.

ghost use Rattle.spi_trace.specs.Laws.{BeginsComeBefore, BeginsPayOnce, PairedIsPaid, PairedIsPaidMany, PairingIsOne};

/// Events have one pairing.
pub fn one_pairing()
    ensures { PairingIsOne }
{}

/// No begin is that of two ends, and the begin of an end or an endmany comes before it and has its label.
pub fn each_begin_once()
    ensures once { BeginsPayOnce }
    ensures before { BeginsComeBefore }
{}

/// Each end has a begin just where the events are paid, and each endmany has one just where they are paid many to
/// one.
pub fn paired_is_paid()
    ensures ends { PairedIsPaid }
    ensures manys { PairedIsPaidMany }
{}
