//! The operations that take an authorisation back.

ghost use Rattle.std.specs.Prelude.{◌≡◌};
ghost use Rattle.op_flags.specs.Outcomes as spec;

use op_types::{AllowTrustResult, OperationResult, OperationResultTr, SetTrustLineFlagsResult};

/// Which operation takes an authorisation back.
#[derive(Clone, Copy)]
pub enum Revoker {
    AllowTrust,
    SetTrustLineFlags,
}

/// The operation's own result for a reserve that can't be paid.
pub fn low_answer(by: Revoker) -> OperationResult
    ensures { result ≡ spec.low_answer by }
{
    OperationResult::Inner(match by {
        Revoker::AllowTrust => OperationResultTr::AllowTrust(AllowTrustResult::LowReserve),
        Revoker::SetTrustLineFlags => {
            OperationResultTr::SetTrustLineFlags(SetTrustLineFlagsResult::LowReserve)
        }
    })
}

/// The operation's own result for success.
pub fn success_answer(by: Revoker) -> OperationResult
    ensures { result ≡ spec.success_answer by }
{
    OperationResult::Inner(match by {
        Revoker::AllowTrust => OperationResultTr::AllowTrust(AllowTrustResult::Success),
        Revoker::SetTrustLineFlags => {
            OperationResultTr::SetTrustLineFlags(SetTrustLineFlagsResult::Success)
        }
    })
}
