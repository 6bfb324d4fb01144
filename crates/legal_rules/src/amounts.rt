//! Laws of lumens: fees, sequence numbers and moves.

ghost use Rattle.legal_rules.specs.PaymentLaws.{FeesKeep, SeqNumsKeep, MovesKeep};

/// Charging a fee that an account has keeps the state legal.
pub fn fees_keep()
    ensures { FeesKeep }
{}

/// A sequence number that is set, from 0 to the greatest number of 64 bits, keeps the state legal, whether or not the
/// account records the ledger and the close time of it (CAP-0021).
pub fn seq_nums_keep()
    ensures { SeqNumsKeep }
{}

/// Lumens that move between accounts keep the state legal.
pub fn moves_keep()
    ensures { MovesKeep }
{}
