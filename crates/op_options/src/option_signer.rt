//! The signer of SET_OPTIONS: added, given another weight, or removed.

ghost use Rattle.std.specs.Prelude.{◌≡◌, Some, IfOk, OnOk};
ghost use Rattle.entry_map.specs.Undo.{with_current};
ghost use Rattle.entry_slots.specs.Accounts as accounts;
ghost use Rattle.sponsor_rules.specs.SignerIndex.{found_signer};
ghost use Rattle.op_form.specs.Premises.{AccountsAreReady};
ghost use Rattle.op_form.specs.Steps.{IsStep};
ghost use Rattle.op_options.specs.OptionSigner as spec;

use crate::option_tests::answer;
use entry_map::{Base, Entries};
use entry_slots::{AccountSlot, load_account, store_account};
use ledger_types::{AccountEntry, AccountId, MAX_SIGNERS, Signer};
use op_form::fault_result;
use op_types::{OperationResult, SetOptionsResult};
use sponsor_rules::{AddFault, Ctx, add_signer, found_signer, remove_signer};
use std::alloc::AllocError;

/// Adds the signer that is given to the source, gives it its weight, or removes it where the weight is 0. It answers
/// why the operation fails, and nothing has changed, or nothing.
pub fn change_signer<B: Base>(
    ctx: &Ctx,
    entries: &mut Entries<'_, B>,
    source: &Option<AccountSlot>,
    account: &AccountEntry,
    signer: &Option<Signer>,
) -> Result<Option<OperationResult>, AllocError>
    requires ready { AccountsAreReady entries.old.current }
    requires source { accounts.account_of_slot source.now ≡ Some account.now }
    ensures { IfOk result (λ refusal.
        IsStep refusal entries.old entries.new (
        spec.map_after_signer ctx.now account.now entries.old.current signer.now)) }
{
    let Some(signer) = signer else {
        return Ok(None);
    };
    if signer.weight == 0 {
        remove_signer(entries, ctx, &ctx.op_source, &signer.key)?;
        return Ok(None);
    }
    match found_signer(&signer.key, source) {
        None => add_new_signer(ctx, entries, account, *signer),
        Some(found) => {
            weigh(entries, &ctx.op_source, found.index, *signer)?;
            Ok(None)
        }
    }
}

/// Adds a signer to the source.
fn add_new_signer<B: Base>(
    ctx: &Ctx,
    entries: &mut Entries<'_, B>,
    account: &AccountEntry,
    signer: Signer,
) -> Result<Option<OperationResult>, AllocError>
    requires { AccountsAreReady entries.old.current }
    ensures { IfOk result (λ refusal.
        IsStep refusal entries.old entries.new (
        spec.map_after_new_signer ctx.now signer account.now entries.old.current)) }
{
    if MAX_SIGNERS as usize <= account.signers.len() {
        return Ok(Some(answer(SetOptionsResult::TooManySigners)));
    }
    match add_signer(entries, ctx, &ctx.op_source, signer) {
        Ok(()) => Ok(None),
        Err(AddFault::NoMemory) => Err(AllocError),
        Err(fault) => Ok(Some(fault_result(fault, answer(SetOptionsResult::LowReserve)))),
    }
}

/// Gives the signer at an index its weight.
#[tactic(auto, unfolding(entry_slots::specs::Accounts::with_account))]
fn weigh<B: Base>(
    entries: &mut Entries<'_, B>,
    id: &AccountId,
    index: usize,
    signer: Signer,
) -> Result<(), AllocError>
    ensures { OnOk result (
        entries.new ≡
        with_current entries.old (
        accounts.with_account entries.old.current id.now (spec.with_signer_set index signer))) }
{
    let Some(mut slot) = load_account(entries, id)? else {
        return Ok(());
    };
    if index < slot.account.signers.len() {
        slot.account.signers.set(index, signer);
    }
    store_account(entries, slot)
}
