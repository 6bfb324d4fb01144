//! REVOKE_SPONSORSHIP.

ghost use Rattle.std.specs.Prelude.{◌≡◌, IfOk, is_some};
ghost use Rattle.entry_slots.specs.Balances.{balance_in};
ghost use Rattle.entry_slots.specs.Tests.{first_fault};
ghost use Rattle.op_form.specs.Done.{Makes};
ghost use Rattle.op_form.specs.Premises.{AccountsAreReady};
ghost use Rattle.sponsor_rules.specs.Charge.{owner_of as owner_in_spec};
ghost use Rattle.op_sponsor.specs.RevokeSponsorship as spec;

use entry_map::{Base, Entries};
use entry_slots::{load_account, sponsor_in};
use ledger_types::{
    AccountId, Asset, LedgerEntry, LedgerEntryBody, LedgerKey, SignerKey, TrustLineAsset,
};
use op_form::fault_result;
use op_types::{OperationResult, OperationResultTr, RevokeSponsorshipOp, RevokeSponsorshipResult};
use sponsor_rules::{
    AddFault, Charge, Ctx, charge_of, found_signer, move_entry, move_signer, open_sponsor,
};
use std::alloc::AllocError;
use valid_values::{is_valid_asset, is_valid_text};

/// REVOKE_SPONSORSHIP: an entry or a signer goes to another payer. The source pays for it so far, as its sponsor or its
/// owner; the open sponsor of the source pays from now on, or else the owner.
pub fn revoke_sponsorship<B: Base>(
    op: &RevokeSponsorshipOp,
    ctx: &Ctx,
    entries: &mut Entries<'_, B>,
) -> Result<OperationResult, AllocError>
    requires { AccountsAreReady entries.old.current }
    ensures { IfOk result (λ r.
        Makes r ctx.now entries.old entries.new (spec.revoke_sponsorship ctx.now op.now entries.old.current)) }
{
    match op {
        RevokeSponsorshipOp::LedgerEntry(key) => revoke_entry(ctx, entries, key),
        RevokeSponsorshipOp::Signer {
            account_id,
            signer_key,
        } => revoke_signer(ctx, entries, account_id, signer_key),
    }
}

/// What the operation answers.
fn answer(code: RevokeSponsorshipResult) -> OperationResult
    ensures { result ≡ spec.answer code }
{
    OperationResult::Inner(OperationResultTr::RevokeSponsorship(code))
}

/// Whether a trust line may be in an asset.
fn is_held(id: &AccountId, asset: &TrustLineAsset) -> bool
    ensures { result ≡ spec.is_held id.now asset.now }
{
    match *asset {
        TrustLineAsset::Native => false,
        TrustLineAsset::Alphanum4 { code, issuer } => {
            is_valid_asset(&Asset::Alphanum4 { code, issuer }) && issuer.0 != id.0
        }
        TrustLineAsset::Alphanum12 { code, issuer } => {
            is_valid_asset(&Asset::Alphanum12 { code, issuer }) && issuer.0 != id.0
        }
        TrustLineAsset::PoolShare(_) => true,
    }
}

/// Whether no entry that has a payer exists under a key in any ledger.
fn is_malformed(key: &LedgerKey) -> bool
    ensures { result ≡ spec.is_malformed key.now }
{
    match key {
        LedgerKey::Account { account_id: _ } => false,
        LedgerKey::TrustLine { account_id, asset } => !is_held(account_id, asset),
        LedgerKey::Offer {
            seller_id: _,
            offer_id,
        } => *offer_id <= 0,
        LedgerKey::Data {
            account_id: _,
            data_name,
        } => data_name.is_empty() || !is_valid_text(data_name.as_slice()),
        LedgerKey::ClaimableBalance { balance_id: _ } => false,
        LedgerKey::LiquidityPool { pool_id: _ } => true,
    }
}

/// Whether an account pays for a thing: as its sponsor, or as its owner where it has none.
fn is_payer(id: &AccountId, sponsor: &Option<AccountId>, owner: &Option<AccountId>) -> bool
    ensures { result ≡ spec.is_payer id.now sponsor.now owner.now }
{
    match (sponsor, owner) {
        (Some(sponsor), _) => sponsor.0 == id.0,
        (None, Some(owner)) => owner.0 == id.0,
        (None, None) => false,
    }
}

/// Whose an entry is, where it names an owner.
fn owner_of(body: &LedgerEntryBody) -> Option<AccountId>
    ensures { result ≡ owner_in_spec body.now }
{
    match charge_of(body) {
        Charge::Itself { owner } => Some(owner),
        Charge::Subentry {
            owner,
            multiplicity: _,
        } => Some(owner),
        _ => None,
    }
}

/// Whether an entry is a claimable balance.
fn is_balance(body: &LedgerEntryBody) -> bool
    ensures { result ≡ is_some (balance_in body.now) }
{
    match body {
        LedgerEntryBody::ClaimableBalance(_) => true,
        _ => false,
    }
}

/// Why an entry can't go to another payer, if it can't.
fn entry_refusal(ctx: &Ctx, entry: &LedgerEntry) -> Option<OperationResult>
    ensures { result ≡ first_fault (spec.entry_tests ctx.now entry.now) }
{
    if !is_payer(
        &ctx.op_source,
        &sponsor_in(&entry.ext),
        &owner_of(&entry.body),
    ) {
        return Some(answer(RevokeSponsorshipResult::NotSponsor));
    }
    if is_balance(&entry.body) && open_sponsor(ctx, &ctx.op_source).is_none() {
        return Some(answer(RevokeSponsorshipResult::OnlyTransferable));
    }
    None
}

/// Gives the entry with a key to another payer.
fn revoke_entry<B: Base>(
    ctx: &Ctx,
    entries: &mut Entries<'_, B>,
    key: &LedgerKey,
) -> Result<OperationResult, AllocError>
    requires { AccountsAreReady entries.old.current }
    ensures { IfOk result (λ r.
        Makes r ctx.now entries.old entries.new (spec.revoke_entry ctx.now key.now entries.old.current)) }
{
    if is_malformed(key) {
        return Ok(answer(RevokeSponsorshipResult::Malformed));
    }
    let Some(entry) = entries.get(key)? else {
        return Ok(answer(RevokeSponsorshipResult::DoesNotExist));
    };
    match entry_refusal(ctx, &entry) {
        Some(refusal) => Ok(refusal),
        None => move_to_payer(ctx, entries, key),
    }
}

/// Gives an entry to the open sponsor of the source, or else to its owner.
fn move_to_payer<B: Base>(
    ctx: &Ctx,
    entries: &mut Entries<'_, B>,
    key: &LedgerKey,
) -> Result<OperationResult, AllocError>
    requires { AccountsAreReady entries.old.current }
    ensures { IfOk result (λ r.
        Makes r ctx.now entries.old entries.new (spec.entry_moved ctx.now key.now entries.old.current)) }
{
    match move_entry(entries, ctx, key, open_sponsor(ctx, &ctx.op_source)) {
        Ok(()) => Ok(answer(RevokeSponsorshipResult::Success)),
        Err(AddFault::NoMemory) => Err(AllocError),
        Err(fault) => Ok(fault_result(fault, answer(RevokeSponsorshipResult::LowReserve))),
    }
}

/// Gives a signer of an account to another payer.
fn revoke_signer<B: Base>(
    ctx: &Ctx,
    entries: &mut Entries<'_, B>,
    id: &AccountId,
    key: &SignerKey,
) -> Result<OperationResult, AllocError>
    requires { AccountsAreReady entries.old.current }
    ensures { IfOk result (λ r.
        Makes r ctx.now entries.old entries.new (spec.revoke_signer ctx.now id.now key.now entries.old.current)) }
{
    let Some(signer) = found_signer(key, &load_account(entries, id)?) else {
        return Ok(answer(RevokeSponsorshipResult::DoesNotExist));
    };
    if !is_payer(&ctx.op_source, &signer.sponsor, &Some(*id)) {
        return Ok(answer(RevokeSponsorshipResult::NotSponsor));
    }
    move_signer_to_payer(ctx, entries, id, key)
}

/// Gives a signer to the open sponsor of the source, or else to its account.
fn move_signer_to_payer<B: Base>(
    ctx: &Ctx,
    entries: &mut Entries<'_, B>,
    id: &AccountId,
    key: &SignerKey,
) -> Result<OperationResult, AllocError>
    requires { AccountsAreReady entries.old.current }
    ensures { IfOk result (λ r.
        Makes r ctx.now entries.old entries.new (spec.signer_moved ctx.now id.now key.now entries.old.current)) }
{
    match move_signer(entries, ctx, id, key, open_sponsor(ctx, &ctx.op_source)) {
        Ok(()) => Ok(answer(RevokeSponsorshipResult::Success)),
        Err(AddFault::NoMemory) => Err(AllocError),
        Err(fault) => Ok(fault_result(fault, answer(RevokeSponsorshipResult::LowReserve))),
    }
}
