//! That what a file holds is determined in one way, as a contract.

ghost use Rattle.gate_journal.specs.Laws.{RecordsAreOne, OffsetsAreOne, NeverBoth};

/// A file is a journal of at most one list of records, or it is none, for what is at one offset.
pub fn journals_are_one()
    ensures records { RecordsAreOne }
    ensures offsets { OffsetsAreOne }
    ensures never_both { NeverBoth }
{}
