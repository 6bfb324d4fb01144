//! The signature checks of a transaction's source and of its operations' sources.

ghost use Rattle.std.specs.Prelude.{◌≡◌, ◌≤◌, ◌++◌, length, IfOk, IfSome, OnOk};
ghost use Rattle.std.specs.List.{list_all};
ghost use Rattle.std.specs.Option.{option_copied};
ghost use Rattle.entry_slots.specs.Accounts.{account_of};
ghost use Rattle.op_laws.specs.Steps.{AreSignersFew};
ghost use Rattle.tx_apply.specs.Signing as spec;

use entry_map::{Base, Entries};
use entry_slots::account_in;
use item_list::ItemList;
use ledger_types::{AccountId, LedgerEntry, LedgerKey};
use op_form::{ThresholdLevel, default_result, level_of, threshold_at};
use op_types::{Operation, OperationResult};
use signer_check::Checker;
use std::alloc::{AllocError, Global};

/// Whose operation it is: its own source's, or else the transaction's.
pub(crate) fn source_of(source: &AccountId, operation: &Operation) -> AccountId
    ensures { result ≡ spec.source_of source.now operation.now }
{
    match &operation.source_account {
        None => *source,
        Some(own) => own.account_id(),
    }
}

/// Whether the signatures reach a threshold of the account in an entry. One that isn't there is checked as its own key.
fn check_entry(
    checker: &mut Checker,
    id: &AccountId,
    entry: Option<&LedgerEntry>,
    level: ThresholdLevel,
) -> bool
    requires { IfSome (account_of (option_copied entry)) (λ account. length account.signers ≤ 20) }
    ensures passes { result ≡ (spec.auth_by checker.old.hash level checker.old.signatures id.now
        (account_of (option_copied entry.entry))).passes }
    ensures used { checker.new ≡ record checker.old {
      signatures =
          (spec.auth_by checker.old.hash level checker.old.signatures id.now
          (account_of (option_copied entry.entry))).signatures;
    } }
{
    match account_in(entry) {
        None => checker.check_lone(id),
        Some(account) => checker.check(account, u32::from(threshold_at(level, account))),
    }
}

/// Whether the signatures reach a threshold of an account. One that doesn't exist is checked as its own key. An
/// account that has changed is looked at where it is.
#[tactic(auto, unfolding(entry_slots::specs::Accounts::account_at))]
pub(crate) fn check_account<B: Base>(
    entries: &Entries<'_, B>,
    checker: &mut Checker,
    id: &AccountId,
    level: ThresholdLevel,
) -> Result<bool, AllocError>
    requires { AreSignersFew entries.now.current }
    ensures passes { IfOk result (λ passes. passes ≡
        (spec.auth_of checker.old.hash level checker.old.signatures entries.now.current id.now).passes) }
    ensures used { OnOk result (checker.new ≡ record checker.old {
      signatures =
          (spec.auth_of checker.old.hash level checker.old.signatures entries.now.current id.now).signatures;
    }) }
{
    let key = LedgerKey::Account { account_id: *id };
    match entries.changed(&key) {
        Some(entry) => Ok(check_entry(checker, id, entry, level)),
        None => Ok(check_entry(checker, id, entries.base_entry(&key)?.as_ref(), level)),
    }
}

/// Checks the signatures of operations in their order, each for its source. It puts at the end of `passes` whether each
/// check passed.
#[tactic(auto, unfolding(crate::specs::Signing::auths_of))]
pub(crate) fn check_operations<B: Base>(
    entries: &Entries<'_, B>,
    checker: &mut Checker,
    source: &AccountId,
    operations: &[Operation],
    passes: &mut ItemList<bool>,
) -> Result<(), AllocError>
    requires { AreSignersFew entries.now.current }
    ensures passes { OnOk result (passes.new ≡ passes.old ++
        (spec.auths_of checker.old.hash source.now entries.now.current checker.old.signatures operations.now).passes) }
    ensures used { OnOk result (checker.new ≡ record checker.old {
      signatures =
          (spec.auths_of checker.old.hash source.now entries.now.current checker.old.signatures
          operations.now).signatures;
    }) }
{
    match operations {
        [] => Ok(()),
        [first, others @ ..] => {
            let own = source_of(source, first);
            let passed = check_account(entries, checker, &own, level_of(&first.body))?;
            passes.push(passed)?;
            check_operations(entries, checker, source, others, passes)
        }
    }
}

/// The result of an operation that isn't run since a check failed.
fn auth_result(alloc: Global, passed: bool, operation: &Operation) -> OperationResult
    ensures { result ≡ spec.auth_result passed operation.now }
{
    if passed {
        default_result(alloc, &operation.body)
    } else {
        OperationResult::BadAuth
    }
}

/// Puts the results of operations that aren't run at the end of a list, since a check failed.
#[tactic(auto, unfolding(crate::specs::Signing::auth_results))]
pub(crate) fn push_auth_results(
    passes: &[bool],
    operations: &[Operation],
    results: &mut ItemList<OperationResult>,
) -> Result<(), AllocError>
    ensures { OnOk result (results.new ≡ results.old ++ spec.auth_results passes.now operations.now) }
{
    match passes {
        [] => Ok(()),
        [passed, more @ ..] => match operations {
            [] => Ok(()),
            [first, others @ ..] => {
                results.push(auth_result(results.allocator(), *passed, first))?;
                push_auth_results(more, others, results)
            }
        },
    }
}

/// Whether each check passed.
pub(crate) fn all_pass(passes: &[bool]) -> bool
    ensures { result ≡ list_all (λ passes. passes) passes.now }
{
    passes.iter().all(|passed| *passed)
}

/// Whether each signature was used by some check.
pub(crate) fn all_used(checker: &Checker) -> bool
    ensures { result ≡ spec.are_used checker.now.signatures }
{
    checker.all_used()
}
