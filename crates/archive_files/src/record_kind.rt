//! The three kinds of records, and what is kept of each.

ghost use Rattle.std.specs.Prelude.{◌≡◌, ◌≤◌, ◌+◌, ℕ, length, IfOk};
ghost use Rattle.xdr_core.specs.Position.{Reads};
ghost use Rattle.xdr_core.specs.ReadFault.{cause_of};
ghost use Rattle.xdr_core.specs.Format.{Lawful};
ghost use Rattle.xdr_core.specs.Xdr.{Xdr};
ghost use Rattle.archive_files.specs.Entries as entry;
ghost use Rattle.archive_files.specs.Facts as spec;
ghost use Rattle.archive_files.specs.Middle.{middle};
ghost use Rattle.archive_files.specs.EntryLaws as laws;
ghost use Rattle.xdr_core.proofs.FormatLaws.{lawful_of};

use crate::codec::{read_header_entry, read_results_entry, read_set_entry};
use crate::entries::{
    LedgerHeaderHistoryEntry, TransactionHistoryEntry, TransactionHistoryResultEntry,
};
use crate::facts::{HeaderFact, RecordFact};
use fee_rules::set_order;
use hash_ids::hash;
use std::alloc::{AllocError, Global};
use xdr_core::{Cursor, ReadFault};

/// A kind of records: the entry in each, and what is kept of it.
pub(crate) trait RecordKind {
    /// The entry.
    type Value: Drop;

    /// What is kept of it.
    type Fact: Drop;

    // The entry's format.
    ghost format: { Xdr Self.Value };

    // Reading and encoding agree.
    ghost lawful: { Lawful format };

    // What is kept, by the offset of the record's mark.
    ghost fact_of: { ℕ → Self.Value → Self.Fact };

    /// Reads an entry. A failure leaves the cursor as it was.
    fn read(alloc: Global, cursor: &mut Cursor<'_>) -> Result<Self::Value, ReadFault>
        ensures { Reads cause_of result cursor.old cursor.new (format.read cursor.old) };

    /// What is kept of an entry whose record mark is at an offset. `text` is the entry's encoding, so that it is hashed
    /// as it is.
    fn fact(
        alloc: Global,
        at: usize,
        text: &[u8],
        value: &Self::Value,
    ) -> Result<Self::Fact, AllocError>
        requires within { format.within value.now }
        requires encoded { text.now ≡ format.encoding value.now }
        ensures { IfOk result (λ fact. fact ≡ fact_of at value.now) };
}

/// The bytes of a text after the first ones and before the last four.
fn middle_of(text: &[u8], start: usize) -> &[u8]
    requires { start + 4 ≤ length text.now }
    ensures { result.now ≡ middle start text.now }
{
    text.split_at(text.len() - 4).0.split_at(start).1
}

/// Records of headers.
pub(crate) enum HeaderRecords {}

impl RecordKind for HeaderRecords {
    type Value = LedgerHeaderHistoryEntry;

    type Fact = HeaderFact;

    ghost format = { entry.ledger_header_history_entry };

    ghost lawful = { lawful_of laws.header_entry_laws };

    ghost fact_of = { spec.header_fact };

    fn read(alloc: Global, cursor: &mut Cursor<'_>) -> Result<LedgerHeaderHistoryEntry, ReadFault> {
        read_header_entry(alloc, cursor)
    }

    fn fact(
        _alloc: Global,
        at: usize,
        text: &[u8],
        value: &LedgerHeaderHistoryEntry,
    ) -> Result<HeaderFact, AllocError> {
        let header = &value.header;
        Ok(HeaderFact {
            at,
            seq: header.ledger_seq,
            stated: value.hash,
            own: hash(middle_of(text, 32)),
            previous: header.previous_ledger_hash,
            set: header.scp_value.tx_set_hash,
            results: header.tx_set_result_hash,
        })
    }
}

/// Records of transactions.
pub(crate) enum SetRecords {}

impl RecordKind for SetRecords {
    type Value = TransactionHistoryEntry;

    type Fact = RecordFact;

    ghost format = { entry.transaction_history_entry };

    ghost lawful = { lawful_of laws.set_entry_laws };

    ghost fact_of = { spec.set_fact };

    fn read(alloc: Global, cursor: &mut Cursor<'_>) -> Result<TransactionHistoryEntry, ReadFault> {
        read_set_entry(alloc, cursor)
    }

    #[tactic(auto, unfolding(crate::specs::Entries::transaction_history_entry))]
    fn fact(
        alloc: Global,
        at: usize,
        _text: &[u8],
        value: &TransactionHistoryEntry,
    ) -> Result<RecordFact, AllocError> {
        let order = set_order(alloc, &value.tx_set)?;
        Ok(RecordFact {
            at,
            seq: value.ledger_seq,
            hash: order.set_hash,
        })
    }
}

/// Records of results.
pub(crate) enum ResultsRecords {}

impl RecordKind for ResultsRecords {
    type Value = TransactionHistoryResultEntry;

    type Fact = RecordFact;

    ghost format = { entry.transaction_history_result_entry };

    ghost lawful = { lawful_of laws.results_entry_laws };

    ghost fact_of = { spec.results_fact };

    fn read(
        alloc: Global,
        cursor: &mut Cursor<'_>,
    ) -> Result<TransactionHistoryResultEntry, ReadFault> {
        read_results_entry(alloc, cursor)
    }

    fn fact(
        _alloc: Global,
        at: usize,
        text: &[u8],
        value: &TransactionHistoryResultEntry,
    ) -> Result<RecordFact, AllocError> {
        Ok(RecordFact {
            at,
            seq: value.ledger_seq,
            hash: hash(middle_of(text, 4)),
        })
    }
}
