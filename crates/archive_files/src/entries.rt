//! The entries of an archive's files.

use ledger_types::{Hash, LedgerHeader};
use op_types::{TransactionResultSet, TransactionSet};

/// A header and its hash (LedgerHeaderHistoryEntry in Stellar-ledger.x).
#[derive(Drop)]
pub struct LedgerHeaderHistoryEntry {
    pub hash: Hash,
    pub header: LedgerHeader,
}

/// The transactions of a ledger (TransactionHistoryEntry in Stellar-ledger.x).
#[derive(Drop)]
pub struct TransactionHistoryEntry {
    pub ledger_seq: u32,
    pub tx_set: TransactionSet,
}

/// The results of a ledger (TransactionHistoryResultEntry in Stellar-ledger.x).
#[derive(Drop)]
pub struct TransactionHistoryResultEntry {
    pub ledger_seq: u32,
    pub tx_result_set: TransactionResultSet,
}
