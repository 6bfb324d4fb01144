//! What a transaction asks of the ledger that it closes in, and of its source, beside its sequence number.

use item_list::ItemList;
use ledger_types::SignerKey;

/// When a transaction may close (TimeBounds in Stellar-transaction.x). Times are in seconds since 1970-01-01T00:00:00Z.
#[derive(Clone, Copy)]
pub struct TimeBounds {
    pub min_time: u64,
    /// 0 is no bound.
    pub max_time: u64,
}

/// In which ledgers a transaction may close (LedgerBounds in Stellar-transaction.x; CAP-0021).
#[derive(Clone, Copy)]
pub struct LedgerBounds {
    pub min_ledger: u32,
    /// The first ledger after them. 0 is no bound.
    pub max_ledger: u32,
}

/// What a transaction may ask from protocol 19 on (PreconditionsV2 in Stellar-transaction.x; CAP-0021).
#[derive(Drop)]
pub struct PreconditionsV2 {
    pub time_bounds: Option<TimeBounds>,
    pub ledger_bounds: Option<LedgerBounds>,
    /// The least sequence number that the source may have. Without it, that is one below the transaction's.
    pub min_seq_num: Option<i64>,
    /// How many seconds before the close time the source's sequence number was last set, at least.
    pub min_seq_age: u64,
    /// How many ledgers before this one it was, at least.
    pub min_seq_ledger_gap: u32,
    /// Who has to sign beside the source. At most 2.
    pub extra_signers: ItemList<SignerKey>,
}

/// What a transaction asks beside its sequence number (Preconditions in Stellar-transaction.x; CAP-0021).
pub enum Preconditions {
    /// PRECOND_NONE, 0.
    None,
    /// PRECOND_TIME, 1.
    Time(TimeBounds),
    /// PRECOND_V2, 2.
    V2(PreconditionsV2),
}

impl Drop for Preconditions {
    fn drop(self) {
        match self {
            Preconditions::None => {}
            Preconditions::Time(_) => {}
            Preconditions::V2(cond) => drop(cond),
        }
    }
}
