//! The counts of an account.

ghost use Rattle.std.specs.Prelude.{◌≡◌, ◌+◌, ◌<◌, ◌^◌, OnOk};
ghost use Rattle.reserve_rules.specs.entry_slots.AccountExtensions.{sponsorship_of, with_sponsorship};
ghost use Rattle.sponsor_rules.specs.Counting as spec;
ghost use Rattle.sponsor_rules.specs.Keeping.{KeepsCore, KeepsOtherCounts, RaisesNoCount};

use crate::count::Count;
use ledger_types::{AccountEntry, AccountEntryExtensionV1, AccountEntryExtensionV2};
use reserve_rules::entry_slots::{both_extensions, num_sponsored, num_sponsoring};
use std::alloc::AllocError;

/// A count of an account: 0 where its extension isn't there.
pub fn count_in(account: &AccountEntry, count: Count) -> u32
    ensures { result ≡ spec.count_in count account.now }
{
    match count {
        Count::SubEntries => account.num_sub_entries,
        Count::Sponsoring => num_sponsoring(account),
        Count::Sponsored => num_sponsored(account),
    }
}

/// Gives a sponsorship another count. The count of subentries is elsewhere.
fn set_in_sponsorship(sponsorship: &mut AccountEntryExtensionV2, count: Count, value: u32)
    ensures { sponsorship.new ≡ spec.with_count_in count value sponsorship.old }
{
    match count {
        Count::SubEntries => {}
        Count::Sponsoring => sponsorship.num_sponsoring = value,
        Count::Sponsored => sponsorship.num_sponsored = value,
    }
}

/// Gives an account another count of its sponsorship.
fn set_sponsorship_count(
    account: &mut AccountEntry,
    count: Count,
    value: u32,
) -> Result<(), AllocError>
    ensures { OnOk result (
        account.new ≡ with_sponsorship (spec.with_count_in count value (sponsorship_of account.old)) account.old) }
{
    let (liabilities, mut sponsorship) = both_extensions(&account.signers, account.ext.take())?;
    set_in_sponsorship(&mut sponsorship, count, value);
    account.ext = Some(AccountEntryExtensionV1 {
        liabilities,
        ext: Some(sponsorship),
    });
    Ok(())
}

/// Gives an account another count. It gets the extension for it where the count isn't 0.
#[tactic(auto, unfolding(crate::specs::Counting::with_count))]
fn set_count(account: &mut AccountEntry, count: Count, value: u32) -> Result<(), AllocError>
    ensures { OnOk result (account.new ≡ spec.with_count count value account.old) }
{
    if value == count_in(account, count) {
        return Ok(());
    }
    match count {
        Count::SubEntries => {
            account.num_sub_entries = value;
            Ok(())
        }
        _ => set_sponsorship_count(account, count, value),
    }
}

/// Raises a count of an account.
pub fn raise(account: &mut AccountEntry, count: Count, by: u64) -> Result<(), AllocError>
    requires { spec.count_in count account.old + by < 2 ^ 32 }
    ensures raised { OnOk result (account.new ≡ spec.with_more count by account.old) }
    ensures kept { OnOk result (KeepsOtherCounts count account.old account.new) }
    ensures core { OnOk result (KeepsCore account.old account.new) }
{
    let value = count_in(account, count) + by as u32;
    set_count(account, count, value)?;
    Ok(())
}

/// Lowers a count of an account. No count falls below 0.
pub fn lower(account: &mut AccountEntry, count: Count, by: u64) -> Result<(), AllocError>
    ensures lowered { OnOk result (account.new ≡ spec.with_less count by account.old) }
    ensures low { OnOk result (RaisesNoCount account.old account.new) }
    ensures core { OnOk result (KeepsCore account.old account.new) }
{
    let value = u64::from(count_in(account, count)).saturating_sub(by) as u32;
    set_count(account, count, value)?;
    Ok(())
}
