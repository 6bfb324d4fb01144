//! The encodings of the entries, read and written (RFC 4506). They are written from their parts, which aren't copied.

ghost use Rattle.std.specs.Prelude.{◌≡◌, OnOk};
ghost use Rattle.xdr_core.specs.Position.{Reads};
ghost use Rattle.xdr_core.specs.ReadFault.{cause_of};
ghost use Rattle.archive_files.specs.Entries as spec;

use crate::entries::{
    LedgerHeaderHistoryEntry, TransactionHistoryEntry, TransactionHistoryResultEntry,
};
use ledger_types::{Hash, LedgerHeader};
use op_types::{TransactionResultSet, TransactionSet};
use std::alloc::{AllocError, Global};
use xdr_core::{Builder, Cursor, ReadFault};
use xdr_entries::{read_hash, write_hash};
use xdr_header::{read_ledger_header, write_ledger_header};
use xdr_results::{read_transaction_result_set, write_transaction_result_set};
use xdr_tx::{read_transaction_set, write_transaction_set};

/// Reads a header and its hash. A failure leaves the cursor as it was.
#[tactic(auto, unfolding(crate::specs::Entries::ledger_header_history_entry))]
pub(crate) fn read_header_entry(
    alloc: Global,
    cursor: &mut Cursor<'_>,
) -> Result<LedgerHeaderHistoryEntry, ReadFault>
    ensures { Reads cause_of result cursor.old cursor.new (spec.ledger_header_history_entry.read cursor.old) }
{
    let mut ahead = cursor.fork();
    let hash = read_hash(&mut ahead)?;
    let header = read_ledger_header(alloc, &mut ahead)?;
    ahead.tag(0)?;
    *cursor = ahead;
    Ok(LedgerHeaderHistoryEntry { hash, header })
}

/// Reads the transactions of a ledger. A failure leaves the cursor as it was.
#[tactic(auto, unfolding(crate::specs::Entries::transaction_history_entry))]
pub(crate) fn read_set_entry(
    alloc: Global,
    cursor: &mut Cursor<'_>,
) -> Result<TransactionHistoryEntry, ReadFault>
    ensures { Reads cause_of result cursor.old cursor.new (spec.transaction_history_entry.read cursor.old) }
{
    let mut ahead = cursor.fork();
    let ledger_seq = ahead.u32()?;
    let tx_set = read_transaction_set(alloc, &mut ahead)?;
    ahead.tag(0)?;
    *cursor = ahead;
    Ok(TransactionHistoryEntry { ledger_seq, tx_set })
}

/// Reads the results of a ledger. A failure leaves the cursor as it was.
#[tactic(auto, unfolding(crate::specs::Entries::transaction_history_result_entry))]
pub(crate) fn read_results_entry(
    alloc: Global,
    cursor: &mut Cursor<'_>,
) -> Result<TransactionHistoryResultEntry, ReadFault>
    ensures { Reads cause_of result cursor.old cursor.new (spec.transaction_history_result_entry.read cursor.old) }
{
    let mut ahead = cursor.fork();
    let ledger_seq = ahead.u32()?;
    let tx_result_set = read_transaction_result_set(alloc, &mut ahead)?;
    ahead.tag(0)?;
    *cursor = ahead;
    Ok(TransactionHistoryResultEntry {
        ledger_seq,
        tx_result_set,
    })
}

/// Writes a header after its hash.
#[tactic(auto, unfolding(crate::specs::Entries::ledger_header_history_entry))]
pub(crate) fn write_header_entry(
    hash: &Hash,
    header: &LedgerHeader,
    builder: &mut Builder,
) -> Result<(), AllocError>
    requires { spec.ledger_header_history_entry.within (record { hash = hash.now; header = header.now }) }
    ensures { OnOk result (builder.new
        ≡ spec.ledger_header_history_entry.onto builder.old (record { hash = hash.now; header = header.now })) }
{
    write_hash(hash, builder)?;
    write_ledger_header(header, builder)?;
    builder.tag(0)
}

/// Writes the transactions of a ledger after its number.
#[tactic(auto, unfolding(crate::specs::Entries::transaction_history_entry))]
pub(crate) fn write_set_entry(
    ledger_seq: u32,
    set: &TransactionSet,
    builder: &mut Builder,
) -> Result<(), AllocError>
    requires { spec.transaction_history_entry.within (record { ledger_seq = ledger_seq; tx_set = set.now }) }
    ensures { OnOk result (builder.new
        ≡ spec.transaction_history_entry.onto builder.old (record { ledger_seq = ledger_seq; tx_set = set.now })) }
{
    builder.u32(ledger_seq)?;
    write_transaction_set(set, builder)?;
    builder.tag(0)
}

/// Writes the results of a ledger after its number.
#[tactic(auto, unfolding(crate::specs::Entries::transaction_history_result_entry))]
pub(crate) fn write_results_entry(
    ledger_seq: u32,
    results: &TransactionResultSet,
    builder: &mut Builder,
) -> Result<(), AllocError>
    requires { spec.transaction_history_result_entry.within
        (record { ledger_seq = ledger_seq; tx_result_set = results.now }) }
    ensures { OnOk result (builder.new ≡ spec.transaction_history_result_entry.onto builder.old
        (record { ledger_seq = ledger_seq; tx_result_set = results.now })) }
{
    builder.u32(ledger_seq)?;
    write_transaction_result_set(results, builder)?;
    builder.tag(0)
}
