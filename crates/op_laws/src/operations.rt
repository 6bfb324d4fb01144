//! Laws of each operation.

ghost use Rattle.op_account.specs.CreateAccount.{create_account};
ghost use Rattle.op_account.specs.AccountMerge.{account_merge};
ghost use Rattle.op_account.specs.BumpSequence.{bump_sequence};
ghost use Rattle.op_options.specs.SetOptions.{set_options};
ghost use Rattle.op_options.specs.ManageData.{manage_data};
ghost use Rattle.op_offers.specs.Operations.{attempt_of};
ghost use Rattle.op_payment.specs.PathReceive.{path_payment_strict_receive};
ghost use Rattle.op_payment.specs.PathSend.{path_payment_strict_send};
ghost use Rattle.op_payment.specs.Payment.{payment};
ghost use Rattle.op_sponsor.specs.BeginSponsoringFutureReserves.{begin_sponsoring};
ghost use Rattle.op_sponsor.specs.RevokeSponsorship.{revoke_sponsorship};
ghost use Rattle.op_sponsor.specs.EndSponsoringFutureReserves.{end_sponsoring};
ghost use Rattle.op_claim.specs.ClaimClaimableBalance.{claim_claimable_balance};
ghost use Rattle.op_claim.specs.Clawback.{clawback};
ghost use Rattle.op_claim.specs.ClawbackClaimableBalance.{clawback_claimable_balance};
ghost use Rattle.op_claim.specs.CreateClaimableBalance.{create_claimable_balance};
ghost use Rattle.op_flags.specs.AllowTrust.{allow_trust};
ghost use Rattle.op_flags.specs.SetTrustLineFlags.{set_trust_line_flags};
ghost use Rattle.op_pool.specs.Deposit.{liquidity_pool_deposit};
ghost use Rattle.op_pool.specs.Withdraw.{liquidity_pool_withdraw};
ghost use Rattle.op_trust.specs.Operations.{change_trust};
ghost use Rattle.op_laws.specs.Laws.{AreLawful, AreLawfulWhere, AllLawful, IsBumpFit, IsLimitFit};
ghost use Rattle.op_laws.specs.Laws.{AreClaimantsFew};
ghost use Rattle.op_flags.specs.op_types.declared.offer_ops.ManageSellOfferOp.{ManageSellOfferOp};
ghost use Rattle.op_flags.specs.op_types.declared.offer_ops.CreatePassiveSellOfferOp.{CreatePassiveSellOfferOp};
ghost use Rattle.op_flags.specs.op_types.declared.offer_ops.ManageBuyOfferOp.{ManageBuyOfferOp};
ghost use Rattle.op_flags.specs.op_types.declared.operation.OperationBody.TheVariants as body;

/// Each CREATE_ACCOUNT that succeeds is lawful.
pub fn create_account_is_lawful()
    ensures { AreLawful create_account }
{}

/// Each ACCOUNT_MERGE that succeeds is lawful.
pub fn account_merge_is_lawful()
    ensures { AreLawful account_merge }
{}

/// Each BUMP_SEQUENCE to a number of 64 bits that succeeds is lawful.
pub fn bump_sequence_is_lawful()
    ensures { AreLawfulWhere IsBumpFit bump_sequence }
{}

/// Each SET_OPTIONS that succeeds is lawful.
pub fn set_options_is_lawful()
    ensures { AreLawful set_options }
{}

/// Each MANAGE_DATA that succeeds is lawful.
pub fn manage_data_is_lawful()
    ensures { AreLawful manage_data }
{}

/// Each PAYMENT that succeeds is lawful.
pub fn payment_is_lawful()
    ensures { AreLawful payment }
{}

/// Each PATH_PAYMENT_STRICT_RECEIVE that succeeds is lawful.
pub fn path_payment_strict_receive_is_lawful()
    ensures { AreLawful path_payment_strict_receive }
{}

/// Each PATH_PAYMENT_STRICT_SEND that succeeds is lawful.
pub fn path_payment_strict_send_is_lawful()
    ensures { AreLawful path_payment_strict_send }
{}

/// Each CHANGE_TRUST to a limit of 64 bits that succeeds is lawful.
pub fn change_trust_is_lawful()
    ensures { AreLawfulWhere IsLimitFit change_trust }
{}

/// Each ALLOW_TRUST that succeeds is lawful.
pub fn allow_trust_is_lawful()
    ensures { AreLawful allow_trust }
{}

/// Each SET_TRUST_LINE_FLAGS that succeeds is lawful.
pub fn set_trust_line_flags_is_lawful()
    ensures { AreLawful set_trust_line_flags }
{}

/// Each CREATE_CLAIMABLE_BALANCE for at most 10 claimants that succeeds is lawful.
pub fn create_claimable_balance_is_lawful()
    ensures { AreLawfulWhere AreClaimantsFew create_claimable_balance }
{}

/// Each CLAIM_CLAIMABLE_BALANCE that succeeds is lawful.
pub fn claim_claimable_balance_is_lawful()
    ensures { AreLawful claim_claimable_balance }
{}

/// Each CLAWBACK_CLAIMABLE_BALANCE that succeeds is lawful.
pub fn clawback_claimable_balance_is_lawful()
    ensures { AreLawful clawback_claimable_balance }
{}

/// Each CLAWBACK that succeeds is lawful.
pub fn clawback_is_lawful()
    ensures { AreLawful clawback }
{}

/// Each BEGIN_SPONSORING_FUTURE_RESERVES that succeeds is lawful.
pub fn begin_sponsoring_is_lawful()
    ensures { AreLawful begin_sponsoring }
{}

/// Each REVOKE_SPONSORSHIP that succeeds is lawful.
pub fn revoke_sponsorship_is_lawful()
    ensures { AreLawful revoke_sponsorship }
{}

/// Each END_SPONSORING_FUTURE_RESERVES that succeeds is lawful.
pub fn end_sponsoring_is_lawful()
    ensures { AreLawful (λ ctx (_ : Unit {0}) m. end_sponsoring ctx m) }
{}

/// Each MANAGE_SELL_OFFER that succeeds is lawful.
pub fn manage_sell_offer_is_lawful()
    ensures { AreLawful (λ ctx (op : ManageSellOfferOp) m. attempt_of ctx (body.ManageSellOffer op) m) }
{}

/// Each CREATE_PASSIVE_SELL_OFFER that succeeds is lawful.
pub fn create_passive_sell_offer_is_lawful()
    ensures { AreLawful (λ ctx (op : CreatePassiveSellOfferOp) m. attempt_of ctx (body.CreatePassiveSellOffer op) m) }
{}

/// Each MANAGE_BUY_OFFER that succeeds is lawful.
pub fn manage_buy_offer_is_lawful()
    ensures { AreLawful (λ ctx (op : ManageBuyOfferOp) m. attempt_of ctx (body.ManageBuyOffer op) m) }
{}

/// Each LIQUIDITY_POOL_DEPOSIT that succeeds is lawful.
pub fn liquidity_pool_deposit_is_lawful()
    ensures { AreLawful liquidity_pool_deposit }
{}

/// Each LIQUIDITY_POOL_WITHDRAW that succeeds is lawful.
pub fn liquidity_pool_withdraw_is_lawful()
    ensures { AreLawful liquidity_pool_withdraw }
{}

/// Every operation is lawful, whether it succeeds or fails.
pub fn all_are_lawful()
    ensures { AllLawful }
{}
