//! Laws of a subentry that is counted while it doesn't exist.

ghost use Rattle.legal_rules.specs.OneMore.{OneMoreIsRight, SubentriesCounted, SubentriesFreed};

/// What is owed then is owed rightly.
pub fn one_more_is_right()
    ensures { OneMoreIsRight }
{}

/// A subentry that is counted before it exists leaves a legal state, but for that.
pub fn subentries_counted()
    ensures { SubentriesCounted }
{}

/// Where nothing becomes of it, its reserve is freed, and the state is legal.
pub fn subentries_freed()
    ensures { SubentriesFreed }
{}
