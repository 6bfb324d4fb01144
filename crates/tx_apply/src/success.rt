//! Whether an operation succeeded.

ghost use Rattle.std.specs.Prelude.{◌≡◌};
ghost use Rattle.tx_apply.specs.Success as spec;

use op_types::{Coded, OperationResult, OperationResultTr};

/// The number of an operation's own code.
fn own_code(answer: &OperationResultTr) -> i32
    ensures { result ≡ spec.own_code answer.now }
{
    match answer {
        OperationResultTr::CreateAccount(answer) => answer.code(),
        OperationResultTr::Payment(answer) => answer.code(),
        OperationResultTr::PathPaymentStrictReceive(answer) => answer.code(),
        OperationResultTr::ManageSellOffer(answer) => answer.code(),
        OperationResultTr::CreatePassiveSellOffer(answer) => answer.code(),
        OperationResultTr::SetOptions(answer) => answer.code(),
        OperationResultTr::ChangeTrust(answer) => answer.code(),
        OperationResultTr::AllowTrust(answer) => answer.code(),
        OperationResultTr::AccountMerge(answer) => answer.code(),
        OperationResultTr::Inflation(answer) => answer.code(),
        OperationResultTr::ManageData(answer) => answer.code(),
        OperationResultTr::BumpSequence(answer) => answer.code(),
        OperationResultTr::ManageBuyOffer(answer) => answer.code(),
        OperationResultTr::PathPaymentStrictSend(answer) => answer.code(),
        OperationResultTr::CreateClaimableBalance(answer) => answer.code(),
        OperationResultTr::ClaimClaimableBalance(answer) => answer.code(),
        OperationResultTr::BeginSponsoringFutureReserves(answer) => answer.code(),
        OperationResultTr::EndSponsoringFutureReserves(answer) => answer.code(),
        OperationResultTr::RevokeSponsorship(answer) => answer.code(),
        OperationResultTr::Clawback(answer) => answer.code(),
        OperationResultTr::ClawbackClaimableBalance(answer) => answer.code(),
        OperationResultTr::SetTrustLineFlags(answer) => answer.code(),
        OperationResultTr::LiquidityPoolDeposit(answer) => answer.code(),
        OperationResultTr::LiquidityPoolWithdraw(answer) => answer.code(),
    }
}

/// Whether an operation succeeded.
#[tactic(auto, unfolding(crate::specs::Success::is_success))]
pub(crate) fn is_success(answer: &OperationResult) -> bool
    ensures { result ≡ spec.is_success answer.now }
{
    match answer {
        OperationResult::Inner(answer) => own_code(answer) == 0,
        _ => false,
    }
}
