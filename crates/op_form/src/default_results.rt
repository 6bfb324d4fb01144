//! The results of operations that weren't run.

ghost use Rattle.std.specs.Prelude.{◌≡◌};
ghost use Rattle.op_form.specs.DefaultResults as spec;

use item_list::ItemList;
use ledger_types::{AccountId, Asset, ClaimableBalanceId, Hash};
use op_types::{
    AccountMergeResult, AllowTrustResult, BeginSponsoringFutureReservesResult, BumpSequenceResult,
    ChangeTrustResult, ClaimClaimableBalanceResult, ClawbackClaimableBalanceResult, ClawbackResult,
    CreateAccountResult, CreateClaimableBalanceResult, EndSponsoringFutureReservesResult,
    InflationResult, LiquidityPoolDepositResult, LiquidityPoolWithdrawResult, ManageDataResult,
    ManageOfferEffect, ManageOfferResult, ManageOfferSuccess, OperationBody, OperationResult,
    OperationResultTr, PathPaymentStrictReceiveResult, PathPaymentStrictSendResult,
    PathPaymentSuccess, PaymentResult, RevokeSponsorshipResult, SetOptionsResult,
    SetTrustLineFlagsResult, SimplePaymentResult,
};
use std::alloc::Global;

/// No account has this id.
const NO_ACCOUNT: AccountId = AccountId([0; 32]);

/// No claimable balance has this id.
const NO_BALANCE: ClaimableBalanceId = ClaimableBalanceId(Hash([0; 32]));

/// Nothing was traded along a path, and nothing arrived.
fn no_path(alloc: Global) -> PathPaymentSuccess
    ensures { result ≡ spec.no_path }
{
    PathPaymentSuccess {
        offers: ItemList::new(alloc),
        last: SimplePaymentResult {
            destination: NO_ACCOUNT,
            asset: Asset::Native,
            amount: 0,
        },
    }
}

/// Nothing was traded, and no offer is left.
fn no_offer(alloc: Global) -> ManageOfferResult
    ensures { result ≡ spec.no_offer }
{
    ManageOfferResult::Success(ManageOfferSuccess {
        offers_claimed: ItemList::new(alloc),
        offer: ManageOfferEffect::Deleted,
    })
}

/// The result of an operation that wasn't run: the one of its type with code 0, and nothing in it. It takes no memory.
pub fn default_result(alloc: Global, body: &OperationBody) -> OperationResult
    ensures { result ≡ spec.default_result body.now }
{
    OperationResult::Inner(default_answer(alloc, body))
}

/// The same, under its type.
fn default_answer(alloc: Global, body: &OperationBody) -> OperationResultTr
    ensures { result ≡ spec.default_answer body.now }
{
    match body {
        OperationBody::CreateAccount(_) => OperationResultTr::CreateAccount(
            CreateAccountResult::Success,
        ),
        OperationBody::Payment(_) => OperationResultTr::Payment(PaymentResult::Success),
        OperationBody::PathPaymentStrictReceive(_) => OperationResultTr::PathPaymentStrictReceive(
            PathPaymentStrictReceiveResult::Success(no_path(alloc)),
        ),
        OperationBody::ManageSellOffer(_) => OperationResultTr::ManageSellOffer(no_offer(alloc)),
        OperationBody::CreatePassiveSellOffer(_) => OperationResultTr::CreatePassiveSellOffer(
            no_offer(alloc),
        ),
        OperationBody::SetOptions(_) => OperationResultTr::SetOptions(SetOptionsResult::Success),
        OperationBody::ChangeTrust(_) => OperationResultTr::ChangeTrust(ChangeTrustResult::Success),
        OperationBody::AllowTrust(_) => OperationResultTr::AllowTrust(AllowTrustResult::Success),
        OperationBody::AccountMerge(_) => OperationResultTr::AccountMerge(
            AccountMergeResult::Success(0),
        ),
        OperationBody::Inflation => OperationResultTr::Inflation(InflationResult::Success(
            ItemList::new(alloc),
        )),
        OperationBody::ManageData(_) => OperationResultTr::ManageData(ManageDataResult::Success),
        OperationBody::BumpSequence(_) => OperationResultTr::BumpSequence(
            BumpSequenceResult::Success,
        ),
        OperationBody::ManageBuyOffer(_) => OperationResultTr::ManageBuyOffer(no_offer(alloc)),
        OperationBody::PathPaymentStrictSend(_) => OperationResultTr::PathPaymentStrictSend(
            PathPaymentStrictSendResult::Success(no_path(alloc)),
        ),
        OperationBody::CreateClaimableBalance(_) => OperationResultTr::CreateClaimableBalance(
            CreateClaimableBalanceResult::Success(NO_BALANCE),
        ),
        OperationBody::ClaimClaimableBalance(_) => OperationResultTr::ClaimClaimableBalance(
            ClaimClaimableBalanceResult::Success,
        ),
        OperationBody::BeginSponsoringFutureReserves(_) =>
            OperationResultTr::BeginSponsoringFutureReserves(
                BeginSponsoringFutureReservesResult::Success,
            ),
        OperationBody::EndSponsoringFutureReserves =>
            OperationResultTr::EndSponsoringFutureReserves(
                EndSponsoringFutureReservesResult::Success,
            ),
        OperationBody::RevokeSponsorship(_) => OperationResultTr::RevokeSponsorship(
            RevokeSponsorshipResult::Success,
        ),
        OperationBody::Clawback(_) => OperationResultTr::Clawback(ClawbackResult::Success),
        OperationBody::ClawbackClaimableBalance(_) => OperationResultTr::ClawbackClaimableBalance(
            ClawbackClaimableBalanceResult::Success,
        ),
        OperationBody::SetTrustLineFlags(_) => OperationResultTr::SetTrustLineFlags(
            SetTrustLineFlagsResult::Success,
        ),
        OperationBody::LiquidityPoolDeposit(_) => OperationResultTr::LiquidityPoolDeposit(
            LiquidityPoolDepositResult::Success,
        ),
        OperationBody::LiquidityPoolWithdraw(_) => OperationResultTr::LiquidityPoolWithdraw(
            LiquidityPoolWithdrawResult::Success,
        ),
    }
}
