//! Laws of pools and of lines of their shares.

ghost use Rattle.pool_shares.specs.Laws.{EntriesSound};

/// Each legal state has its pools and the lines of their shares in order: what is counted of them fits, and each line
/// has its pool beside it.
pub fn entries_sound()
    ensures { EntriesSound }
{}
