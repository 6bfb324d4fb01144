//! Rule 7: each entry is in its ranges.

ghost use Rattle.std.specs.Prelude.{◌≢◌, ◌↔◌, None, IsTrue};
ghost use Rattle.sponsor_rules.specs.reserve_rules.Reserve.{IsInRange};
ghost use Rattle.close_rules.specs.legal_rules.Ranges as spec;
ghost use Rattle.image_rules.specs.PoolRanges.{IsBodyInRangeButId, IsEntryInRangeButId};

use crate::claimables::is_claimable_in_range;
use crate::lines::is_line_in_range;
use crate::offers::is_offer_in_range;
use crate::parts::owner_of;
use crate::pool_ranges::is_pool_in_range;
use crate::room::fits_within;
use crate::signers::are_signers_in_range;
use entry_slots::{account_liabilities, sponsor_in};
use ledger_types::{AccountEntry, AccountId, DataEntry, LedgerEntry, LedgerEntryBody};
use valid_values::is_valid_text;

/// Whether an account's balance and liabilities are in their ranges.
fn is_balance_in_range(account: &AccountEntry) -> bool
    ensures { IsTrue result ↔ IsInRange account.now }
{
    let liabilities = account_liabilities(account);
    0 <= account.balance
        && 0 <= liabilities.buying
        && 0 <= liabilities.selling
        && fits_within(account.balance, liabilities.buying, i64::MAX)
}

/// Whether there is no flag but the four of accounts, and 8 beside 2 alone.
fn are_account_flags(flags: u32) -> bool
    ensures { IsTrue result ↔ spec.AreAccountFlags flags }
{
    flags <= 15 && (flags / 8 % 2 != 1 || flags / 2 % 2 == 1)
}

/// Whether an account is in its ranges.
fn is_account_in_range(account: &AccountEntry) -> bool
    ensures { IsTrue result ↔ spec.IsAccountInRange account.now }
{
    let balance = is_balance_in_range(account);
    let flags = are_account_flags(account.flags);
    let domain = is_valid_text(account.home_domain.as_slice());
    let signers = are_signers_in_range(account);
    balance && 0 <= account.seq_num && flags && domain && signers
}

/// Whether data are in their ranges.
fn is_data_in_range(entry: &DataEntry) -> bool
    ensures { IsTrue result ↔ spec.IsDataInRange entry.now }
{
    let name = is_valid_text(entry.data_name.as_slice());
    1 <= entry.data_name.len() && name
}

/// Whether what an entry is, is in its ranges, whatever id a pool has.
fn is_body_in_range(id_pool: u64, body: &LedgerEntryBody) -> bool
    ensures { IsTrue result ↔ IsBodyInRangeButId id_pool body.now }
{
    match body {
        LedgerEntryBody::Account(account) => is_account_in_range(account),
        LedgerEntryBody::TrustLine(line) => is_line_in_range(line),
        LedgerEntryBody::Offer(offer) => is_offer_in_range(id_pool, offer),
        LedgerEntryBody::Data(entry) => is_data_in_range(entry),
        LedgerEntryBody::ClaimableBalance(balance) => is_claimable_in_range(balance),
        LedgerEntryBody::LiquidityPool(pool) => is_pool_in_range(pool),
    }
}

/// Whether a sponsor, if there is one, isn't the owner.
fn is_sponsor_other(owner: Option<AccountId>, sponsor: Option<AccountId>) -> bool
    ensures { IsTrue result ↔ (sponsor ≢ None → sponsor ≢ owner) }
{
    sponsor.is_none() || sponsor != owner
}

/// Whether a claimable balance has a sponsor, a pool has none, and nobody sponsors what is his own.
fn is_paid_rightly(body: &LedgerEntryBody, sponsor: Option<AccountId>) -> bool
    ensures { IsTrue result ↔ spec.IsPaidRightly body.now sponsor }
{
    match body {
        LedgerEntryBody::ClaimableBalance(_) => sponsor.is_some(),
        LedgerEntryBody::LiquidityPool(_) => sponsor.is_none(),
        _ => is_sponsor_other(owner_of(body), sponsor),
    }
}

/// Whether an entry is in its ranges, whatever id a pool has.
pub fn is_entry_in_range(id_pool: u64, entry: &LedgerEntry) -> bool
    ensures { IsTrue result ↔ IsEntryInRangeButId id_pool entry.now }
{
    let body = is_body_in_range(id_pool, &entry.body);
    let paid = is_paid_rightly(&entry.body, sponsor_in(&entry.ext));
    body && paid
}
