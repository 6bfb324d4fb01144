//! Transactions, their envelopes, and sets of them.

use crate::operation::Operation;
use crate::preconditions::{Preconditions, TimeBounds};
use item_list::ItemList;
use ledger_types::{Hash, MuxedAccount};

/// What a sender says to the receiver, or to itself (Memo in Stellar-transaction.x).
#[derive(Drop)]
pub enum Memo {
    /// MEMO_NONE, 0.
    None,
    /// MEMO_TEXT, 1. At most 28 bytes, of any values.
    Text(ItemList<u8>),
    /// MEMO_ID, 2.
    Id(u64),
    /// MEMO_HASH, 3.
    Hash(Hash),
    /// MEMO_RETURN, 4: the hash of the transaction that is sent back.
    Return(Hash),
}

/// A signature, with a hint of who made it (DecoratedSignature in Stellar-transaction.x).
#[derive(Drop)]
pub struct DecoratedSignature {
    /// The last four bytes of the signer's key.
    pub hint: [u8; 4],
    /// At most 64 bytes.
    pub signature: ItemList<u8>,
}

/// A transaction (Transaction in Stellar-transaction.x).
#[derive(Drop)]
pub struct Transaction {
    pub source_account: MuxedAccount,
    /// The bid: the most that the transaction pays, in stroops.
    pub fee: u32,
    /// One above the source's sequence number, unless its preconditions say otherwise.
    pub seq_num: i64,
    pub cond: Preconditions,
    pub memo: Memo,
    /// At most 100.
    pub operations: ItemList<Operation>,
}

/// A transaction of the first version (TransactionV0 in Stellar-transaction.x), whose source is a bare key.
#[derive(Drop)]
pub struct TransactionV0 {
    pub source_account_ed25519: [u8; 32],
    /// The bid: the most that the transaction pays, in stroops.
    pub fee: u32,
    /// One above the source's sequence number.
    pub seq_num: i64,
    pub time_bounds: Option<TimeBounds>,
    pub memo: Memo,
    /// At most 100.
    pub operations: ItemList<Operation>,
}

/// A transaction with its signatures (TransactionV1Envelope in Stellar-transaction.x).
#[derive(Drop)]
pub struct TransactionV1Envelope {
    pub tx: Transaction,
    /// At most 20.
    pub signatures: ItemList<DecoratedSignature>,
}

/// A transaction of the first version with its signatures (TransactionV0Envelope in Stellar-transaction.x).
#[derive(Drop)]
pub struct TransactionV0Envelope {
    pub tx: TransactionV0,
    /// At most 20.
    pub signatures: ItemList<DecoratedSignature>,
}

/// A transaction whose fee another account pays (FeeBumpTransaction in Stellar-transaction.x; CAP-0015).
#[derive(Drop)]
pub struct FeeBumpTransaction {
    pub fee_source: MuxedAccount,
    /// The bid, in stroops.
    pub fee: i64,
    pub inner_tx: TransactionV1Envelope,
}

/// A fee bump with its signatures (FeeBumpTransactionEnvelope in Stellar-transaction.x).
#[derive(Drop)]
pub struct FeeBumpTransactionEnvelope {
    pub tx: FeeBumpTransaction,
    /// At most 20.
    pub signatures: ItemList<DecoratedSignature>,
}

/// What is signed and sent (TransactionEnvelope in Stellar-transaction.x).
#[derive(Drop)]
pub enum TransactionEnvelope {
    /// ENVELOPE_TYPE_TX_V0, 0.
    V0(TransactionV0Envelope),
    /// ENVELOPE_TYPE_TX, 2.
    V1(TransactionV1Envelope),
    /// ENVELOPE_TYPE_TX_FEE_BUMP, 5.
    FeeBump(FeeBumpTransactionEnvelope),
}

/// The transactions that close one ledger (TransactionSet in Stellar-ledger.x).
#[derive(Drop)]
pub struct TransactionSet {
    pub previous_ledger_hash: Hash,
    pub txs: ItemList<TransactionEnvelope>,
}
