//! What the types of operations' numbers say, and how many items their lists have.

ghost use Rattle.std.specs.Prelude.{◌≤◌, length, All};
ghost use Rattle.xdr_tx.specs.Operations.{operation, operation_body};
ghost use Rattle.xdr_tx.specs.Transactions.{transaction_envelope};
ghost use Rattle.op_laws.specs.Laws.{IsFit, AreClaimantsFew};
ghost use Rattle.tx_apply.specs.Laws.{AreFit, AreAllFit};

use crate::operations::operations_of;
use op_types::{CreateClaimableBalanceOp, Operation, OperationBody, TransactionEnvelope};

/// There are at most 10 claimants in an operation that has an encoding. It does nothing.
fn claimants_fit(_op: &CreateClaimableBalanceOp)
    requires { length _op.now.claimants ≤ 10 }
    ensures { AreClaimantsFew _op.now }
{}

/// The numbers of an operation are those of its type, and its lists have as many items as it can be written with. It
/// does nothing.
fn number_fits(body: &OperationBody)
    requires { operation_body.within body.now }
    ensures { IsFit body.now }
{
    match body {
        OperationBody::BumpSequence(op) => {
            let _bump_to = op.bump_to;
        }
        OperationBody::ChangeTrust(op) => {
            let _limit = op.limit;
        }
        OperationBody::CreateClaimableBalance(op) => claimants_fit(op),
        _ => {}
    }
}

/// The same of operations. It does nothing.
fn numbers_fit(operations: &[Operation])
    requires { All operation.within operations.now }
    ensures { AreFit operations.now }
{
    for operation in operations {
        number_fits(&operation.body);
    }
}

/// The same of all operations. It does nothing.
pub(crate) fn all_numbers_fit(envelopes: &[TransactionEnvelope])
    requires { All transaction_envelope.within envelopes.now }
    ensures { AreAllFit envelopes.now }
{
    for envelope in envelopes {
        numbers_fit(operations_of(envelope));
    }
}
