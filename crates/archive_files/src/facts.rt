//! What is kept of the records of an archive's files: plain numbers and hashes.

use ledger_types::Hash;

/// What is kept of a header's record.
#[derive(Clone, Copy)]
pub struct HeaderFact {
    /// The offset of its record mark.
    pub at: usize,
    pub seq: u32,
    /// The hash stated beside the header.
    pub stated: Hash,
    /// The hash of the header's encoding.
    pub own: Hash,
    /// The hash of the header before it, as the header names it.
    pub previous: Hash,
    /// The hash of its transactions, as the header names it.
    pub set: Hash,
    /// The hash of its results, as the header names it.
    pub results: Hash,
}

/// What is kept of a record of transactions or of results.
#[derive(Clone, Copy)]
pub struct RecordFact {
    /// The offset of its record mark.
    pub at: usize,
    pub seq: u32,
    /// The hash of the transactions or of the results.
    pub hash: Hash,
}
