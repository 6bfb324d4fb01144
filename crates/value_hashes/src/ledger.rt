//! The hashes of a ledger: of its header, and of the results of its transactions.

ghost use Rattle.std.specs.Prelude.{◌≡◌, IfOk};
ghost use Rattle.xdr_header.specs.Header.{ledger_header};
ghost use Rattle.xdr_results.specs.Results.{transaction_result_set};
ghost use Rattle.value_hashes.specs.Hashes.{ledger_hash_of, results_hash_of};

use hash_ids::{hash, header_hash};
use ledger_types::{Hash, LedgerHeader};
use op_types::TransactionResultSet;
use std::alloc::{AllocError, Global};
use xdr_core::Builder;
use xdr_header::write_ledger_header;
use xdr_results::write_transaction_result_set;

/// The hash of a ledger, that of its header. The header has an encoding: its upgrades keep their bounds.
pub fn ledger_hash(alloc: Global, header: &LedgerHeader) -> Result<Hash, AllocError>
    requires { ledger_header.within header.now }
    ensures { IfOk result (λ hash. hash ≡ ledger_hash_of header.now) }
{
    let mut builder = Builder::new(alloc);
    write_ledger_header(header, &mut builder)?;
    header_hash(builder.as_slice())
}

/// The hash of a ledger's results, which have an encoding: their lists keep their bounds.
pub fn results_hash(alloc: Global, results: &TransactionResultSet) -> Result<Hash, AllocError>
    requires { transaction_result_set.within results.now }
    ensures { IfOk result (λ hash. hash ≡ results_hash_of results.now) }
{
    let mut builder = Builder::new(alloc);
    write_transaction_result_set(results, &mut builder)?;
    Ok(hash(builder.as_slice()))
}
