//! Changes of an owner's account, where it has a subentry more or less, or another one pays for something of it.

ghost use Rattle.std.specs.Prelude.{◌≡◌, ◌+◌, ◌<◌, ◌^◌, Some, OnOk};
ghost use Rattle.sponsor_rules.specs.declared.count.Count.TheVariants.{Sponsored};
ghost use Rattle.sponsor_rules.specs.Counting as counting;
ghost use Rattle.sponsor_rules.specs.Paying as spec;
ghost use Rattle.sponsor_rules.specs.Keeping.{FitsSubentry, KeepsCore, RaisesNoCount};

use crate::count::Count;
use crate::counting::{lower, raise};
use ledger_types::{AccountEntry, AccountId};
use std::alloc::AllocError;

/// A sponsor, if there is one, pays `multiplicity` reserves more of an account.
fn pay_more(
    account: &mut AccountEntry,
    multiplicity: u64,
    sponsor: &Option<AccountId>,
) -> Result<(), AllocError>
    requires { counting.count_in Sponsored account.old + multiplicity < 2 ^ 32 }
    ensures paid { OnOk result (account.new ≡ spec.with_more_paid multiplicity sponsor.now account.old) }
    ensures core { OnOk result (KeepsCore account.old account.new) }
{
    match sponsor {
        None => Ok(()),
        Some(_) => raise(account, Count::Sponsored, multiplicity),
    }
}

/// A sponsor, if there is one, pays `multiplicity` reserves less of an account.
fn pay_less(
    account: &mut AccountEntry,
    multiplicity: u64,
    sponsor: &Option<AccountId>,
) -> Result<(), AllocError>
    ensures paid { OnOk result (account.new ≡ spec.with_less_paid multiplicity sponsor.now account.old) }
    ensures low { OnOk result (RaisesNoCount account.old account.new) }
    ensures core { OnOk result (KeepsCore account.old account.new) }
{
    match sponsor {
        None => Ok(()),
        Some(_) => lower(account, Count::Sponsored, multiplicity),
    }
}

/// An account has a subentry more, which counts `multiplicity` times.
pub fn gain_subentry(
    account: &mut AccountEntry,
    multiplicity: u64,
    sponsor: &Option<AccountId>,
) -> Result<(), AllocError>
    requires { FitsSubentry multiplicity (Some account.old) }
    ensures gained { OnOk result (account.new ≡ spec.with_subentry multiplicity sponsor.now account.old) }
    ensures core { OnOk result (KeepsCore account.old account.new) }
{
    raise(account, Count::SubEntries, multiplicity)?;
    pay_more(account, multiplicity, sponsor)
}

/// An account has a subentry less.
pub fn lose_subentry(
    account: &mut AccountEntry,
    multiplicity: u64,
    sponsor: &Option<AccountId>,
) -> Result<(), AllocError>
    ensures lost { OnOk result (account.new ≡ spec.without_subentry multiplicity sponsor.now account.old) }
    ensures low { OnOk result (RaisesNoCount account.old account.new) }
    ensures core { OnOk result (KeepsCore account.old account.new) }
{
    lower(account, Count::SubEntries, multiplicity)?;
    pay_less(account, multiplicity, sponsor)
}

/// Another sponsor, or none, pays `multiplicity` reserves of an account.
pub fn change_payer(
    account: &mut AccountEntry,
    multiplicity: u64,
    old: &Option<AccountId>,
    new: &Option<AccountId>,
) -> Result<(), AllocError>
    requires { counting.count_in Sponsored account.old + multiplicity < 2 ^ 32 }
    ensures changed { OnOk result (account.new ≡ spec.with_other_payer multiplicity old.now new.now account.old) }
    ensures core { OnOk result (KeepsCore account.old account.new) }
{
    pay_less(account, multiplicity, old)?;
    pay_more(account, multiplicity, new)
}
