//! Laws of pools that are made and removed, and of lines of their shares (CAP-0038).

ghost use Rattle.legal_rules.specs.PoolLaws.{NewPoolsKeep, RemovedPoolsKeep};
ghost use Rattle.legal_rules.specs.ShareLaws.{ShareLineAdded, ShareLineRemoved};
ghost use Rattle.legal_rules.specs.ShareLaws.{AddingShareLinesKeep, RemovingShareLinesKeep};

/// A pool that is put where none existed, and that nobody has shares of, keeps the state legal.
pub fn new_pools_keep()
    ensures { NewPoolsKeep }
{}

/// A pool without lines that is erased leaves the state legal.
pub fn removed_pools_keep()
    ensures { RemovedPoolsKeep }
{}

/// A line of pool shares that is added leaves open its shares and itself for the pool, and a use for each line that its
/// account needs.
pub fn share_line_added()
    ensures { ShareLineAdded }
{}

/// A line of pool shares that is removed takes the same with it.
pub fn share_line_removed()
    ensures { ShareLineRemoved }
{}

/// An empty line of pool shares that is added keeps the state legal, once its pool and the lines that its account needs
/// count it.
pub fn adding_share_lines_keep()
    ensures { AddingShareLinesKeep }
{}

/// An empty line of pool shares that is removed leaves the state legal, once its pool and the lines that its account
/// needed count it no more.
pub fn removing_share_lines_keep()
    ensures { RemovingShareLinesKeep }
{}
