//! Bounds on what ledgers can close.

/// The number of the last ledger: none closes after it.
pub const LAST_SEQ: u32 = 2147483647;
