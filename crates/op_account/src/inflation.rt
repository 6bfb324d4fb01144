//! INFLATION.

ghost use Rattle.std.specs.Prelude.{◌≡◌, Err};
ghost use Rattle.op_account.specs.Inflation as spec;

use op_types::OperationResult;

/// INFLATION: no payouts are made, and it isn't supported.
pub fn inflation() -> OperationResult
    ensures { spec.inflation ≡ Err result }
{
    OperationResult::NotSupported
}
