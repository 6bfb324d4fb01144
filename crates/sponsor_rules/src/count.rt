//! The counts that an account's reserve comes from.

/// A count of an account (CAP-0033).
#[derive(Clone, Copy)]
pub enum Count {
    /// `num_sub_entries`: how many trust lines, offers, data and signers it has, where a line of pool shares
    /// counts twice.
    SubEntries,
    /// `num_sponsoring`: how many reserves it pays as a sponsor, those of claimable balances that it makes too.
    Sponsoring,
    /// `num_sponsored`: how many of its reserves others pay.
    Sponsored,
}
