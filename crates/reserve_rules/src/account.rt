//! What accounts can spend and take.

ghost use Rattle.std.specs.Prelude.{◌≡◌, ◌+ℤ◌, ◌-ℤ◌, ◌*ℤ◌, ◌≤ℤ◌, ◌↔◌, ◌<◌, ◌^◌, pos, neg_ℤ, true, false};
ghost use Rattle.entry_slots.specs.AccountExtensions as extensions;
ghost use Rattle.reserve_rules.specs.Reserve as spec;

use crate::change::changed;
use entry_slots::ledger_types::AccountEntry;
use entry_slots::{AccountFacts, account_liabilities, num_sponsored, num_sponsoring};

/// What an account has to keep, in stroops: two reserves, one for each subentry and each reserve that it pays for
/// others, less those that others pay. `base_reserve` is in stroops.
pub fn min_balance(account: &AccountEntry, base_reserve: u32) -> i128
    ensures { result ≡ spec.min_balance account.now base_reserve }
{
    kept(account, base_reserve)
}

/// What an account can spend, in stroops: its balance less what it has to keep and what its offers would give. It may
/// be below 0.
pub fn available(account: &AccountEntry, base_reserve: u32) -> i128
    ensures { result ≡ spec.available account.now base_reserve }
{
    spendable(
        account.balance,
        kept(account, base_reserve),
        selling(account),
    )
}

/// What an account can spend by its facts, as `available` gives it, and how far from 0 that may be.
pub fn facts_available(facts: &AccountFacts, base_reserve: u32) -> i128
    ensures value { result ≡ spec.facts_available facts.now base_reserve }
    ensures above { neg_ℤ (pos (2 ^ 68)) ≤ℤ result }
    ensures below { result ≤ℤ pos (2 ^ 68) }
{
    spendable(
        facts.balance,
        kept_for(
            facts.num_sub_entries,
            facts.num_sponsoring,
            facts.num_sponsored,
            base_reserve,
        ),
        facts.liabilities.selling,
    )
}

/// What an account can take, in stroops: the greatest balance less the present one and what its offers would take.
pub fn room(account: &AccountEntry) -> i64
    requires { spec.IsInRange account.now }
    ensures { result ≡ spec.room account.now }
{
    i64::MAX - account.balance - account_liabilities(account).buying
}

/// Changes an account's balance. It answers false, and leaves the account, exactly where a credit passes what the
/// account can take, or a debit passes what it can spend.
pub fn add_balance(account: &mut AccountEntry, delta: i64, base_reserve: u32) -> bool
    requires { spec.IsInRange account.old }
    ensures refused { (result ≡ false) ↔
        spec.Passes delta (spec.room account.old) (spec.available account.old base_reserve) }
    ensures done { result ≡ true → account.new ≡ record account.old { balance = account.old.balance +ℤ delta } }
    ensures left { result ≡ false → account.new ≡ account.old }
{
    let room = room(account);
    let available = available(account, base_reserve);
    match changed(account.balance, delta, room, available) {
        Some(balance) => {
            account.balance = balance;
            true
        }
        None => false,
    }
}

/// What an account's offers would give.
fn selling(account: &AccountEntry) -> i64
    ensures { result ≡ (extensions.account_liabilities account.now).selling }
{
    account_liabilities(account).selling
}

/// What an account has to keep, as `min_balance` gives it, and how far from 0 that may be.
fn kept(account: &AccountEntry, base_reserve: u32) -> i128
    ensures value { result ≡ spec.min_balance account.now base_reserve }
    ensures above { neg_ℤ (pos (2 ^ 67)) ≤ℤ result }
    ensures below { result ≤ℤ pos (2 ^ 67) }
{
    kept_for(
        account.num_sub_entries,
        num_sponsoring(account),
        num_sponsored(account),
        base_reserve,
    )
}

/// What has to be kept for these counts of an account, and how far from 0 that may be.
fn kept_for(
    num_sub_entries: u32,
    num_sponsoring: u32,
    num_sponsored: u32,
    base_reserve: u32,
) -> i128
    ensures value { result ≡ spec.kept_for num_sub_entries num_sponsoring num_sponsored base_reserve }
    ensures above { neg_ℤ (pos (2 ^ 67)) ≤ℤ result }
    ensures below { result ≤ℤ pos (2 ^ 67) }
{
    let counted = 2 + num_sub_entries as u64 + num_sponsoring as u64;
    reserves(counted, num_sponsored, base_reserve)
}

/// So many reserves less so many, in stroops.
#[tactic(auto, using(crate::proofs::Bounds::within))]
fn reserves(counted: u64, spared: u32, base_reserve: u32) -> i128
    requires { counted < 2 ^ 35 }
    ensures value { result ≡ (pos counted -ℤ pos spared) *ℤ pos base_reserve }
    ensures above { neg_ℤ (pos (2 ^ 67)) ≤ℤ result }
    ensures below { result ≤ℤ pos (2 ^ 67) }
{
    (counted as i128 - spared as i128) * base_reserve as i128
}

/// What of a balance can be spent: all but what has to be kept and what offers would give.
fn spendable(balance: i64, kept: i128, selling: i64) -> i128
    requires above { neg_ℤ (pos (2 ^ 67)) ≤ℤ kept }
    requires below { kept ≤ℤ pos (2 ^ 67) }
    ensures value { result ≡ balance -ℤ kept -ℤ selling }
    ensures above { neg_ℤ (pos (2 ^ 68)) ≤ℤ result }
    ensures below { result ≤ℤ pos (2 ^ 68) }
{
    balance as i128 - kept - selling as i128
}
