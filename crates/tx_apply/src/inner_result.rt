//! How a transaction ended, as the inner one of a fee bump.

ghost use Rattle.std.specs.Prelude.{◌≡◌};
ghost use Rattle.tx_apply.specs.InnerResult as spec;

use ledger_types::Hash;
use op_types::{InnerTransactionResult, InnerTransactionResultPair, TransactionOutcome};

/// The hash and the result of an inner transaction, whose fee is 0.
fn inner_pair(hash: &Hash, outcome: TransactionOutcome) -> InnerTransactionResultPair
    ensures { result ≡ spec.inner_pair hash.now outcome }
{
    InnerTransactionResultPair {
        transaction_hash: *hash,
        result: InnerTransactionResult {
            fee_charged: 0,
            outcome: outcome.into_inner(),
        },
    }
}

/// How a fee bump ended whose inner transaction was applied, and ended so.
pub(crate) fn bump_outcome(hash: &Hash, outcome: TransactionOutcome) -> TransactionOutcome
    ensures { result ≡ spec.bump_outcome hash.now outcome }
{
    let is_success = match &outcome {
        TransactionOutcome::Success(_) => true,
        _ => false,
    };
    let pair = inner_pair(hash, outcome);
    if is_success {
        TransactionOutcome::FeeBumpInnerSuccess(pair)
    } else {
        TransactionOutcome::FeeBumpInnerFailed(pair)
    }
}
