//! The records of a sample.

ghost use Rattle.std.specs.Prelude.{◌≡◌, ◌≤◌, IfOk};
ghost use Rattle.xdr_header.specs.Header.{ledger_header};
ghost use Rattle.xdr_header.specs.Records.{close_record};
ghost use Rattle.value_hashes.specs.xdr_tx.Transactions.{transaction_set};
ghost use Rattle.fee_rules.specs.SetHash.{hash_of_set};
ghost use Rattle.sample_ledger.specs.Records as spec;

use crate::accounts::Accounts;
use crate::envelope::envelopes;
use fee_rules::{SetOrder, set_order};
use item_list::ItemList;
use ledger_types::{Hash, LedgerHeader, StellarValue};
use op_types::TransactionSet;
use std::alloc::{AllocError, Global};
use value_hashes::ledger_hash;
use xdr_header::CloseRecord;

/// The transactions of a record, after the ledger of this header.
fn set_of(
    alloc: Global,
    seed: u32,
    k: u32,
    header: &LedgerHeader,
) -> Result<TransactionSet, AllocError>
    requires { ledger_header.within header.now }
    ensures { IfOk result (λ set. set ≡ spec.set_of seed k header.now) }
{
    let previous_ledger_hash = ledger_hash(alloc, header)?;
    let accounts = Accounts::new(alloc, seed)?;
    let txs = envelopes(alloc, &accounts, k)?;
    Ok(TransactionSet {
        previous_ledger_hash,
        txs,
    })
}

/// The hash of a set.
fn set_hash(alloc: Global, set: &TransactionSet) -> Result<Hash, AllocError>
    requires { transaction_set.within set.now }
    ensures { IfOk result (λ hash. hash ≡ hash_of_set set.now) }
{
    let SetOrder {
        set_hash,
        indices: _,
    } = set_order(alloc, set)?;
    Ok(set_hash)
}

/// The record that closes ledger `k` + 1 of a sample, after the ledger of this header: from 1 to 20000. The header
/// has an encoding: its upgrades keep their bounds. So has the record.
pub fn make_record(
    alloc: Global,
    seed: u32,
    k: u32,
    header: &LedgerHeader,
) -> Result<CloseRecord, AllocError>
    requires some { 1 ≤ k }
    requires few { k ≤ 20000 }
    requires encoded { ledger_header.within header.now }
    ensures made { IfOk result (λ made. made ≡ spec.record_of seed k header.now) }
    ensures within { IfOk result (λ made. close_record.within made) }
{
    let tx_set = set_of(alloc, seed, k, header)?;
    let tx_set_hash = set_hash(alloc, &tx_set)?;
    Ok(CloseRecord {
        ledger_seq: k + 1,
        tx_set,
        scp_value: StellarValue {
            tx_set_hash,
            close_time: 1000 + 5 * u64::from(k),
            upgrades: ItemList::new(alloc),
            ext: None,
        },
        vouches: None,
    })
}
