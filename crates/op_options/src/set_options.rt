//! SET_OPTIONS.

ghost use Rattle.std.specs.Prelude.{◌≡◌, false, IfOk, OnOk, unwrap_or};
ghost use Rattle.entry_map.specs.Undo.{with_current};
ghost use Rattle.entry_slots.specs.Accounts as accounts;
ghost use Rattle.op_form.specs.Done.{Makes};
ghost use Rattle.op_form.specs.Premises.{AccountsAreReady};
ghost use Rattle.op_options.specs.OptionTests as tests;
ghost use Rattle.op_options.specs.SetOptions as spec;

use crate::option_signer::change_signer;
use crate::option_tests::{answer, given_refusal, is_missing, new_flags, source_refusal};
use entry_map::{Base, Entries};
use entry_slots::{AccountSlot, load_account, store_account};
use item_list::ItemList;
use ledger_types::{AccountEntry, AccountId};
use op_types::{OperationResult, SetOptionsOp, SetOptionsResult};
use sponsor_rules::Ctx;
use std::alloc::AllocError;

/// SET_OPTIONS: changes what the source is and who signs for it.
pub fn set_options<B: Base>(
    op: &SetOptionsOp,
    ctx: &Ctx,
    entries: &mut Entries<'_, B>,
) -> Result<OperationResult, AllocError>
    requires ready { AccountsAreReady entries.old.current }
    ensures { IfOk result (λ r.
        Makes r ctx.now entries.old entries.new (spec.set_options ctx.now op.now entries.old.current)) }
{
    if let Some(refusal) = given_refusal(ctx, op) {
        return Ok(refusal);
    }
    if is_missing(entries, &op.inflation_dest)? {
        return Ok(answer(SetOptionsResult::InvalidInflation));
    }
    let source = load_account(entries, &ctx.op_source)?;
    set_options_of(op, ctx, entries, &source)
}

/// Changes what the source is, if it exists and can have what is given.
fn set_options_of<B: Base>(
    op: &SetOptionsOp,
    ctx: &Ctx,
    entries: &mut Entries<'_, B>,
    source: &Option<AccountSlot>,
) -> Result<OperationResult, AllocError>
    requires weights { tests.is_out_of_range op.now ≡ false }
    requires ready { AccountsAreReady entries.old.current }
    ensures { IfOk result (λ r.
        Makes r ctx.now entries.old entries.new (
        spec.options_of ctx.now op.now entries.old.current (accounts.account_of_slot source.now))) }
{
    let Some(slot) = source else {
        return Ok(OperationResult::NoAccount);
    };
    if let Some(refusal) = source_refusal(op, &slot.account) {
        return Ok(refusal);
    }
    if let Some(refusal) = change_signer(ctx, entries, source, &slot.account, &op.signer)? {
        return Ok(refusal);
    }
    change_account(entries, &ctx.op_source, op)?;
    Ok(answer(SetOptionsResult::Success))
}

/// Sets all that is given on an account, but the signer.
#[tactic(auto, unfolding(entry_slots::specs::Accounts::with_account))]
fn change_account<B: Base>(
    entries: &mut Entries<'_, B>,
    id: &AccountId,
    op: &SetOptionsOp,
) -> Result<(), AllocError>
    requires { tests.is_out_of_range op.now ≡ false }
    ensures { OnOk result (
        entries.new ≡
        with_current entries.old (accounts.with_account entries.old.current id.now (spec.with_options op.now))) }
{
    let Some(mut slot) = load_account(entries, id)? else {
        return Ok(());
    };
    set_on(&mut slot.account, op)?;
    store_account(entries, slot)
}

/// Sets all that is given, but the signer.
fn set_on(account: &mut AccountEntry, op: &SetOptionsOp) -> Result<(), AllocError>
    requires { tests.is_out_of_range op.now ≡ false }
    ensures { OnOk result (account.new ≡ spec.with_options op.now account.old) }
{
    if let Some(domain) = &op.home_domain {
        account.home_domain = domain.copy()?;
    }
    if op.inflation_dest.is_some() {
        account.inflation_dest = op.inflation_dest;
    }
    account.flags = new_flags(op, account.flags);
    account.thresholds = new_thresholds(op, account.thresholds);
    Ok(())
}

/// The weight of the account's own key and the three thresholds, as they are given or were.
fn new_thresholds(op: &SetOptionsOp, was: [u8; 4]) -> [u8; 4]
    requires { tests.is_out_of_range op.now ≡ false }
    ensures { result ≡ spec.new_thresholds op.now was }
{
    [
        byte_or(op.master_weight, was[0]),
        byte_or(op.low_threshold, was[1]),
        byte_or(op.med_threshold, was[2]),
        byte_or(op.high_threshold, was[3]),
    ]
}

/// A weight or a threshold as it is given, or was.
fn byte_or(given: Option<u32>, was: u8) -> u8
    requires { tests.is_too_great given ≡ false }
    ensures { result ≡ unwrap_or given was }
{
    match given {
        None => was,
        Some(weight) => weight as u8,
    }
}
