//! What a set closes over.

use ledger_types::{Hash, LedgerHeader};
use signer_check::VouchIndex;

/// What a set closes over.
#[derive(Clone, Copy)]
pub struct Setting<'a> {
    /// The network's id.
    pub network: &'a Hash,
    /// The header of the ledger before.
    pub header: &'a LedgerHeader,
    /// The time of the set's value, in seconds since 1970-01-01T00:00:00Z.
    pub close_time: u64,
    /// What an outside verifier vouches for.
    pub vouches: &'a VouchIndex<'a>,
}
