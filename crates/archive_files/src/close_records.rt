//! The records of a close.

ghost use Rattle.std.specs.Prelude.{◌≡◌, ◌↔◌, [], IsTrue};
ghost use Rattle.value_hashes.specs.Hashes.{ledger_hash_of};
ghost use Rattle.xdr_core.specs.Leaves.{mark};
ghost use Rattle.archive_files.specs.Added as spec;
ghost use Rattle.archive_files.specs.Encoded.{record_of};
ghost use Rattle.archive_files.specs.Entries as entry;
ghost use Rattle.archive_files.specs.Made.{IsMade, AreMade};
ghost use Rattle.archive_files.specs.Records.{max_record_len};

use crate::adding::{AddCloseFault, MAX_FILE_LEN};
use crate::codec::{write_header_entry, write_results_entry, write_set_entry};
use crate::records::MAX_RECORD_LEN;
use ledger_types::LedgerHeader;
use op_types::{TransactionResultSet, TransactionSet};
use std::alloc::{AllocError, Global};
use value_hashes::ledger_hash;
use xdr_core::Builder;

/// The records that a close has in the three files. One without transactions has none in the second and the third.
#[derive(Drop)]
pub(crate) struct CloseRecords {
    pub(crate) header: Builder,
    pub(crate) set: Builder,
    pub(crate) results: Builder,
}

/// Whether a set has no transactions.
fn is_empty(set: &TransactionSet) -> bool
    ensures { IsTrue result ↔ (set.now.txs ≡ []) }
{
    set.txs.is_empty()
}

/// An encoding after its record mark, unless a file with it would be too long.
#[tactic(auto, using(crate::proofs::Lengths::record_len), unfolding(xdr_core::specs::Leaves::mark))]
fn marked(alloc: Global, text: &[u8]) -> Result<Builder, AddCloseFault>
    ensures { IsMade result ((mark max_record_len).encoding text.now) }
{
    if text.len() > MAX_FILE_LEN - 4 {
        return Err(AddCloseFault::TooLarge);
    }
    let mut record = Builder::new(alloc);
    record.mark(text, MAX_RECORD_LEN)?;
    Ok(record)
}

/// The record of a close's header.
#[tactic(auto, using(xdr_core::proofs::FormatLaws::written, crate::specs::EntryLaws::header_entry_laws))]
fn header_record(alloc: Global, header: &LedgerHeader) -> Result<Builder, AddCloseFault>
    requires { entry.ledger_header_history_entry.within
        (record { hash = ledger_hash_of header.now; header = header.now }) }
    ensures { IsMade result (record_of entry.ledger_header_history_entry
        (record { hash = ledger_hash_of header.now; header = header.now })) }
{
    let hash = ledger_hash(alloc, header)?;
    let mut text = Builder::new(alloc);
    write_header_entry(&hash, header, &mut text)?;
    marked(alloc, text.as_slice())
}

/// The record of a close's transactions, or nothing where there are none.
#[tactic(auto, using(xdr_core::proofs::FormatLaws::written, crate::specs::EntryLaws::set_entry_laws))]
fn set_record(
    alloc: Global,
    ledger_seq: u32,
    set: &TransactionSet,
) -> Result<Builder, AddCloseFault>
    requires { entry.transaction_history_entry.within (record { ledger_seq = ledger_seq; tx_set = set.now }) }
    ensures { IsMade result (spec.record_unless_empty entry.transaction_history_entry set.now.txs
        (record { ledger_seq = ledger_seq; tx_set = set.now })) }
{
    let mut text = Builder::new(alloc);
    if is_empty(set) {
        return Ok(text);
    }
    write_set_entry(ledger_seq, set, &mut text)?;
    marked(alloc, text.as_slice())
}

/// The record of a close's results, or nothing where it has no transactions.
#[tactic(auto, using(xdr_core::proofs::FormatLaws::written, crate::specs::EntryLaws::results_entry_laws))]
fn results_record(
    alloc: Global,
    ledger_seq: u32,
    set: &TransactionSet,
    results: &TransactionResultSet,
) -> Result<Builder, AddCloseFault>
    requires { entry.transaction_history_result_entry.within
        (record { ledger_seq = ledger_seq; tx_result_set = results.now }) }
    ensures { IsMade result (spec.record_unless_empty entry.transaction_history_result_entry set.now.txs
        (record { ledger_seq = ledger_seq; tx_result_set = results.now })) }
{
    let mut text = Builder::new(alloc);
    if is_empty(set) {
        return Ok(text);
    }
    write_results_entry(ledger_seq, results, &mut text)?;
    marked(alloc, text.as_slice())
}

/// The records of a close, unless one is too long for any file.
pub(crate) fn close_records(
    alloc: Global,
    header: &LedgerHeader,
    set: &TransactionSet,
    results: &TransactionResultSet,
) -> Result<CloseRecords, AddCloseFault>
    requires { spec.IsWithinBounds (record { header = header.now; set = set.now; results = results.now }) }
    ensures { AreMade result (record { header = header.now; set = set.now; results = results.now }) }
{
    let header_text = header_record(alloc, header)?;
    let set_text = set_record(alloc, header.ledger_seq, set)?;
    let results_text = results_record(alloc, header.ledger_seq, set, results)?;
    Ok(CloseRecords {
        header: header_text,
        set: set_text,
        results: results_text,
    })
}
