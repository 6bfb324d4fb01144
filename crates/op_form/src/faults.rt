//! What answers a fault of an addition or of a move.

ghost use Rattle.std.specs.Prelude.{◌≡◌};
ghost use Rattle.op_form.specs.Faults as spec;

use op_types::OperationResult;
use sponsor_rules::AddFault;

/// The result of an operation that a fault ends. `low` is the operation's own for a reserve that can't be paid. Want of
/// memory ends a call and not an operation, so it isn't asked for.
pub fn fault_result(fault: AddFault, low: OperationResult) -> OperationResult
    ensures { result ≡ spec.fault_result fault low }
{
    match fault {
        AddFault::TooManySubentries => OperationResult::TooManySubentries,
        AddFault::TooManySponsoring => OperationResult::TooManySponsoring,
        AddFault::LowReserve | AddFault::NoMemory => low,
    }
}
