//! Laws of entries that are added, removed and moved (CAP-0033).

ghost use Rattle.legal_rules.specs.EntryLaws.{SubentryAdded, BalanceAdded, AccountAdded, SubentryRemoved};
ghost use Rattle.legal_rules.specs.EntryLaws.{BalanceRemoved, EntryMoved, AddingDataKeeps, RemovingDataKeeps};
ghost use Rattle.legal_rules.specs.EntryLaws.{MovingKeeps, MergesKeep};

/// A line, an offer or data that is added leaves open what it counts beside its reserve.
pub fn subentry_added()
    ensures { SubentryAdded }
{}

/// A claimable balance that is added leaves nothing open.
pub fn balance_added()
    ensures { BalanceAdded }
{}

/// An account that is added leaves nothing open.
pub fn account_added()
    ensures { AccountAdded }
{}

/// A line, an offer or data that is removed takes what it counted beside its reserve.
pub fn subentry_removed()
    ensures { SubentryRemoved }
{}

/// A claimable balance that is removed leaves nothing open.
pub fn balance_removed()
    ensures { BalanceRemoved }
{}

/// An entry that moves to another payer, or to its owner, leaves nothing open.
pub fn entry_moved()
    ensures { EntryMoved }
{}

/// Data that is added keeps the state legal.
pub fn adding_data_keeps()
    ensures { AddingDataKeeps }
{}

/// Data that is removed leaves the state legal.
pub fn removing_data_keeps()
    ensures { RemovingDataKeeps }
{}

/// An entry that moves to another payer, or to its owner, keeps the state legal.
pub fn moving_keeps()
    ensures { MovingKeeps }
{}

/// An account that is removed, and whose lumens go to another one, leaves the state legal.
pub fn merges_keep()
    ensures { MergesKeep }
{}
