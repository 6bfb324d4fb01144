//! Ledgers to which operations may be applied: accounts and lines are in their ranges, others may pay for accounts, and
//! no claimable balance has less than nothing. Where an operation asks that pools are sound, there is neither a pool
//! nor a line of shares.

ghost use Rattle.std.specs.Prelude.{◌≡◌, ◌+ℤ◌, ◌≤ℤ◌, pos, true, Some, None, [], IfOk, IfSome};
ghost use Rattle.std.specs.FinMap.{from_entries};
ghost use Rattle.ledger_types.specs.declared.account.AccountEntry.{AccountEntry as AnAccount};
ghost use Rattle.ledger_types.specs.declared.trust_line.TrustLineEntry.{TrustLineEntry as ALine};
ghost use Rattle.entry_slots.specs.Accounts.{account_in};
ghost use Rattle.entry_slots.specs.LineExtensions.{line_liabilities};
ghost use Rattle.entry_slots.specs.Lines.{line_in};
ghost use Rattle.entry_slots.specs.Pools.{pool_in};
ghost use Rattle.reserve_rules.specs.Reserve.{IsInRange, IsLineInRange};
ghost use Rattle.sponsor_rules.specs.Payers.{IsReadyAccount};
ghost use Rattle.legal_rules.specs.PoolShares.{pool_named};
ghost use Rattle.probe.specs.Ready.{IsReadyLedger, IsAmountLowIn, IsPlain, IsPlainAccount, IsPlainLine};

use entry_map::{Entries, MapBase};
use entry_slots::{account_liabilities, line_liabilities, num_sponsored, use_count};
use ledger_types::{
    AccountEntry, ClaimableBalanceEntry, LedgerEntry, LedgerEntryBody, TrustLineAsset,
    TrustLineEntry,
};
use std::alloc::{AllocError, Global};
use xdr_core::Cursor;
use xdr_entries::read_ledger_entry;

/// A base without entries.
pub fn no_entries(alloc: Global) -> Result<MapBase, AllocError>
    ensures { IfOk result (λ base. base ≡ from_entries []) }
{
    MapBase::from_entries(Vec::new(alloc))
}

/// Whether balance and liabilities are in their ranges.
fn is_in_range(account: &AccountEntry) -> bool
    ensures { result ≡ true → IsInRange account.now }
{
    let liabilities = account_liabilities(account);
    if account.balance < 0 {
        return false;
    }
    if liabilities.buying < 0 {
        return false;
    }
    if liabilities.selling < 0 {
        return false;
    }
    account.balance <= i64::MAX - liabilities.buying
}

/// Whether others may pay for an account.
fn is_ready(account: &AccountEntry) -> bool
    ensures { result ≡ true → IsReadyAccount account.now }
{
    num_sponsored(account) <= u32::MAX - 2
}

fn is_fine_account(account: &AccountEntry) -> bool
    ensures ready { result ≡ true → IsReadyAccount account.now }
    ensures range { result ≡ true → IsInRange account.now }
{
    is_ready(account) && is_in_range(account)
}

/// Whether a line's balance and what would be bought fit its limit.
fn fits_limit(line: &TrustLineEntry) -> bool
    ensures buying { result ≡ true → pos 0 ≤ℤ (line_liabilities line.now).buying }
    ensures fits { result ≡ true → (line.now.balance +ℤ (line_liabilities line.now).buying) ≤ℤ line.now.limit }
{
    let buying = line_liabilities(line).buying;
    if buying < 0 {
        return false;
    }
    if line.limit < 0 {
        return false;
    }
    line.balance <= line.limit - buying
}

/// Whether a line's balance covers what would be sold.
fn is_covered(line: &TrustLineEntry) -> bool
    ensures selling { result ≡ true → pos 0 ≤ℤ (line_liabilities line.now).selling }
    ensures balance { result ≡ true → pos 0 ≤ℤ line.now.balance }
    ensures covered { result ≡ true → (line_liabilities line.now).selling ≤ℤ line.now.balance }
{
    let selling = line_liabilities(line).selling;
    if line.balance < 0 {
        return false;
    }
    if selling < 0 {
        return false;
    }
    selling <= line.balance
}

/// Whether balance and liabilities of a line are in their ranges.
fn is_fine_line(line: &TrustLineEntry) -> bool
    ensures { result ≡ true → IsLineInRange line.now }
{
    is_covered(line) && fits_limit(line)
}

/// Whether a claimable balance has nothing or more.
fn is_fine_balance(balance: &ClaimableBalanceEntry) -> bool
    ensures { result ≡ true → pos 0 ≤ℤ balance.now.amount }
{
    balance.amount >= 0
}

pub fn is_fine(entry: &LedgerEntry) -> bool
    ensures ready { result ≡ true →
        (account : AnAccount) → account_in entry.now.body ≡ Some account → IsReadyAccount account }
    ensures range { result ≡ true →
        (account : AnAccount) → account_in entry.now.body ≡ Some account → IsInRange account }
    ensures lines { result ≡ true →
        (line : ALine) → line_in entry.now.body ≡ Some line → IsLineInRange line }
    ensures amounts { result ≡ true → IsAmountLowIn entry.now.body }
{
    match &entry.body {
        LedgerEntryBody::Account(account) => is_fine_account(account),
        LedgerEntryBody::TrustLine(line) => is_fine_line(line),
        LedgerEntryBody::ClaimableBalance(balance) => is_fine_balance(balance),
        _ => true,
    }
}

/// Whether others pay for no more reserves of an account than it has.
fn is_plain_account(account: &AccountEntry) -> bool
    ensures { result ≡ true → IsPlainAccount account.now }
{
    num_sponsored(account) as u64 <= 2 + account.num_sub_entries as u64
}

/// Whether a line's asset isn't the shares of a pool.
fn is_without_shares(asset: &TrustLineAsset) -> bool
    ensures { result ≡ true → pool_named asset.now ≡ None }
{
    match asset {
        TrustLineAsset::PoolShare(_) => false,
        _ => true,
    }
}

/// Whether a line isn't one of shares, and isn't used less often than never.
fn is_plain_line(line: &TrustLineEntry) -> bool
    ensures { result ≡ true → IsPlainLine line.now }
{
    // The limit is an i64.
    let _limit = line.limit;
    is_without_shares(&line.asset) && use_count(line) >= 0
}

/// Whether an entry is neither a pool nor a line of shares.
fn is_plain(entry: &LedgerEntry) -> bool
    ensures accounts { result ≡ true →
        (account : AnAccount) → account_in entry.now.body ≡ Some account → IsPlainAccount account }
    ensures lines { result ≡ true →
        (line : ALine) → line_in entry.now.body ≡ Some line → IsPlainLine line }
    ensures pools { result ≡ true → pool_in entry.now.body ≡ None }
{
    match &entry.body {
        LedgerEntryBody::Account(account) => is_plain_account(account),
        LedgerEntryBody::TrustLine(line) => is_plain_line(line),
        LedgerEntryBody::LiquidityPool(_) => false,
        _ => true,
    }
}

/// Whether an entry and those before it are plain.
fn are_still_plain(are_plain: bool, entry: &LedgerEntry) -> bool
    ensures before { result ≡ true → are_plain ≡ true }
    ensures entry { result ≡ true → IsPlain entry.now.body }
{
    are_plain && is_plain(entry)
}

/// Puts an entry. Answers whether it and those before it are plain, or none where operations could not be applied
/// beside it.
fn put(entries: &mut Entries<'_, MapBase>, entry: LedgerEntry, are_plain: bool) -> Option<bool>
    requires { IsReadyLedger are_plain entries.old.current }
    ensures { IfSome result (λ plain. IsReadyLedger plain entries.new.current) }
{
    if !is_fine(&entry) {
        return None;
    }
    let plain = are_still_plain(are_plain, &entry);
    match entries.put(entry) {
        Ok(()) => Some(plain),
        Err(_) => None,
    }
}

/// Reads an entry and puts it.
fn put_next(
    alloc: Global,
    entries: &mut Entries<'_, MapBase>,
    input: &mut Cursor<'_>,
    are_plain: bool,
) -> Option<bool>
    requires { IsReadyLedger are_plain entries.old.current }
    ensures { IfSome result (λ plain. IsReadyLedger plain entries.new.current) }
{
    put(entries, read_ledger_entry(alloc, input).ok()?, are_plain)
}

/// Reads a number of entries, and puts these. Answers whether all are plain, or none where operations could
/// not be applied beside one of them.
pub fn put_all(
    alloc: Global,
    entries: &mut Entries<'_, MapBase>,
    input: &mut Cursor<'_>,
) -> Option<bool>
    requires { IsReadyLedger true entries.old.current }
    ensures { IfSome result (λ plain. IsReadyLedger plain entries.new.current) }
{
    let mut are_plain = true;
    for _entry in 0..input.u32().ok()? {
        are_plain = put_next(alloc, entries, input, are_plain)?;
    }
    Some(are_plain)
}
