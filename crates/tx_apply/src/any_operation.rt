//! Applying one operation, by its kind.

ghost use Rattle.std.specs.Prelude.{◌<◌, IfOk};
ghost use Rattle.entry_slots.specs.Accounts.{HasAccount};
ghost use Rattle.op_laws.specs.legal_rules.Owing.{AreEntriesLegal};
ghost use Rattle.op_laws.specs.pool_shares.Premises.{ArePoolsSound};
ghost use Rattle.op_form.specs.Sequences.{last_seq};
ghost use Rattle.op_form.specs.Done.{Does};
ghost use Rattle.op_form.specs.Premises as premises;
ghost use Rattle.op_laws.specs.AnyOperation as spec;
ghost use Rattle.op_laws.specs.op_offers.Calls.{IsManageable};

use entry_map::{Base, Entries};
use op_types::{Operation, OperationBody, OperationResult};
use sponsor_rules::Ctx;
use std::alloc::AllocError;

/// Applies an operation of `ctx.op_source`, which is an existing account. Where the operation fails, nothing has
/// changed.
#[tactic(auto, unfolding(op_laws::specs::AnyOperation::any_operation))]
pub(crate) fn apply_operation<B: Base>(
    operation: &Operation,
    ctx: &mut Ctx,
    entries: &mut Entries<'_, B>,
) -> Result<OperationResult, AllocError>
    requires seq { ctx.old.seq < last_seq }
    requires source { HasAccount entries.old.current ctx.old.op_source }
    requires ready { premises.AccountsAreReady entries.old.current }
    requires in_range { premises.BalancesAreInRange entries.old.current }
    requires legal { AreEntriesLegal ctx.old.id_pool entries.old.current }
    requires sound { ArePoolsSound entries.old.current }
    requires amounts { premises.AreAmountsLow entries.old.current }
    requires manageable { IsManageable ctx.old entries.old.current }
    ensures { IfOk result (λ answer. Does answer ctx.new entries.old entries.new
        (spec.any_operation ctx.old operation.now.body entries.old.current)) }
{
    match &operation.body {
        OperationBody::CreateAccount(_)
        | OperationBody::AccountMerge(_)
        | OperationBody::Inflation
        | OperationBody::BumpSequence(_) => op_account::apply(operation, ctx, entries),
        OperationBody::SetOptions(_) | OperationBody::ManageData(_) => {
            op_options::apply(operation, ctx, entries)
        }
        OperationBody::Payment(_)
        | OperationBody::PathPaymentStrictReceive(_)
        | OperationBody::PathPaymentStrictSend(_) => op_laws::op_payment::apply(
            operation, ctx, entries,
        ),
        OperationBody::ChangeTrust(_) => op_laws::op_trust::apply(operation, ctx, entries),
        OperationBody::ManageSellOffer(_)
        | OperationBody::CreatePassiveSellOffer(_)
        | OperationBody::ManageBuyOffer(_) => op_laws::op_offers::apply(operation, ctx, entries),
        OperationBody::AllowTrust(_) | OperationBody::SetTrustLineFlags(_) => {
            op_laws::op_flags::apply(operation, ctx, entries)
        }
        OperationBody::CreateClaimableBalance(_)
        | OperationBody::ClaimClaimableBalance(_)
        | OperationBody::Clawback(_)
        | OperationBody::ClawbackClaimableBalance(_) => op_claim::apply(operation, ctx, entries),
        OperationBody::LiquidityPoolDeposit(_) | OperationBody::LiquidityPoolWithdraw(_) => {
            op_laws::op_pool::apply(operation, ctx, entries)
        }
        OperationBody::BeginSponsoringFutureReserves(_)
        | OperationBody::EndSponsoringFutureReserves
        | OperationBody::RevokeSponsorship(_) => op_sponsor::apply(operation, ctx, entries),
    }
}
