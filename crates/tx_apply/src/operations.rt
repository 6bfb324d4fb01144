//! The operations of an envelope.

ghost use Rattle.std.specs.Prelude.{◌≡◌};
ghost use Rattle.tx_apply.specs.Operations as spec;

use op_types::{Operation, TransactionEnvelope};

/// The operations of an envelope; of a fee bump, those of its inner transaction.
pub(crate) fn operations_of(envelope: &TransactionEnvelope) -> &[Operation]
    ensures { result.now ≡ spec.operations_of envelope.now }
{
    match envelope {
        TransactionEnvelope::V0(signed) => signed.tx.operations.as_slice(),
        TransactionEnvelope::V1(signed) => signed.tx.operations.as_slice(),
        TransactionEnvelope::FeeBump(signed) => signed.tx.inner_tx.tx.operations.as_slice(),
    }
}
