//! Open sponsorships, and the tests of who pays.

ghost use Rattle.std.specs.Prelude.{◌≡◌, ◌≢◌, ◌+◌, ◌*◌, ◌≤◌, pos, true, false, IfNone};
ghost use Rattle.reserve_rules.specs.entry_slots.Accounts.{account_of_slot};
ghost use Rattle.reserve_rules.specs.entry_slots.Tests.{first_fault};
ghost use Rattle.sponsor_rules.specs.declared.count.Count.TheVariants.{SubEntries, Sponsoring};
ghost use Rattle.sponsor_rules.specs.Counting.{count_if};
ghost use Rattle.sponsor_rules.specs.Payers as spec;

use crate::context::Ctx;
use crate::fault::AddFault;
use ledger_types::AccountId;
use reserve_rules::available;
use reserve_rules::entry_slots::{AccountSlot, num_sponsoring};

/// No account has more subentries.
const MAX_SUBENTRIES: u128 = 1000;

/// Whether two ids name the same account.
pub fn is_same_account(a: &AccountId, b: &AccountId) -> bool
    ensures { result ≡ spec.is_same_account a.now b.now }
{
    a.0 == b.0
}

/// Who opened a sponsorship for an account, if somebody did.
#[tactic(auto, unfolding(crate::specs::Payers::open_sponsor))]
pub fn open_sponsor(ctx: &Ctx, id: &AccountId) -> Option<AccountId>
    ensures { result ≡ spec.open_sponsor ctx.now id.now }
{
    ctx.sponsorships
        .as_slice()
        .iter()
        .find(|sponsorship| is_same_account(&sponsorship.sponsored, id))
        .map(|sponsorship| sponsorship.sponsor)
}

/// The sponsor, or the owner where there is none.
pub fn payer_by(owner: &AccountId, sponsor: Option<AccountId>) -> AccountId
    ensures { result ≡ spec.payer_by owner.now sponsor }
{
    match sponsor {
        None => *owner,
        Some(sponsor) => sponsor,
    }
}

/// The payer, where that is another account than the owner.
pub fn payer_other_than(owner: &AccountId, payer: Option<AccountId>) -> Option<AccountId>
    ensures { result ≡ spec.payer_other_than owner.now payer }
{
    match payer {
        None => None,
        Some(payer) if is_same_account(&payer, owner) => None,
        Some(payer) => Some(payer),
    }
}

/// The subentries of an account, and the reserves that it pays as a sponsor: 0 where it doesn't exist.
fn own_counts(slot: &Option<AccountSlot>) -> (u32, u32)
    ensures { result ≡
        (count_if SubEntries (account_of_slot slot.now), count_if Sponsoring (account_of_slot slot.now)) }
{
    match slot {
        None => (0, 0),
        Some(slot) => (slot.account.num_sub_entries, num_sponsoring(&slot.account)),
    }
}

/// Whether `multiplicity` subentries would be too many for an account.
fn is_full(owner: &Option<AccountSlot>, multiplicity: u64) -> bool
    ensures { result ≡ spec.is_full (account_of_slot owner.now) multiplicity }
{
    let (sub_entries, _) = own_counts(owner);
    MAX_SUBENTRIES < u128::from(sub_entries) + u128::from(multiplicity)
}

/// Whether an account's counts could not take `multiplicity` reserves.
fn is_over(payer: &Option<AccountSlot>, multiplicity: u64) -> bool
    ensures { result ≡ spec.is_over (account_of_slot payer.now) multiplicity }
{
    let (sub_entries, sponsoring) = own_counts(payer);
    u128::from(u32::MAX)
        < u128::from(sub_entries) + u128::from(sponsoring) + u128::from(multiplicity)
}

/// Whether an account cannot spend `multiplicity` reserves.
pub fn is_short(base_reserve: u32, payer: &Option<AccountSlot>, multiplicity: u64) -> bool
    ensures { result ≡ spec.is_short base_reserve (account_of_slot payer.now) multiplicity }
{
    match payer {
        None => false,
        Some(slot) => available(&slot.account, base_reserve)
            < stroops_of(multiplicity, base_reserve),
    }
}

/// So many reserves, in stroops.
fn stroops_of(count: u64, base_reserve: u32) -> i128
    ensures { result ≡ pos (count * base_reserve) }
{
    (u128::from(count) * u128::from(base_reserve)) as i128
}

/// Why an account that isn't the owner of a subentry cannot pay `multiplicity` reserves, if it cannot.
pub fn payer_fault(
    base_reserve: u32,
    payer: &Option<AccountSlot>,
    multiplicity: u64,
) -> Option<AddFault>
    ensures fault { result ≡ first_fault (spec.payer_tests base_reserve (account_of_slot payer.now) multiplicity) }
    ensures room { IfNone result (count_if Sponsoring (account_of_slot payer.now) + multiplicity ≤ 4294967295) }
{
    if is_over(payer, multiplicity) {
        return Some(AddFault::TooManySponsoring);
    }
    if is_short(base_reserve, payer, multiplicity) {
        return Some(AddFault::LowReserve);
    }
    None
}

/// Why an account cannot have a subentry more, if it cannot.
pub fn subentry_fault(
    base_reserve: u32,
    owner: &Option<AccountSlot>,
    payer: &Option<AccountSlot>,
    multiplicity: u64,
) -> Option<AddFault>
    ensures fault { result ≡ first_fault (
        spec.subentry_tests base_reserve (account_of_slot owner.now) (account_of_slot payer.now) multiplicity) }
    ensures few { IfNone result (count_if SubEntries (account_of_slot owner.now) + multiplicity ≤ 1000) }
    ensures room { IfNone result (count_if Sponsoring (account_of_slot payer.now) + multiplicity ≤ 4294967295) }
{
    if is_full(owner, multiplicity) {
        return Some(AddFault::TooManySubentries);
    }
    if is_over(payer, multiplicity) || is_over(owner, multiplicity) {
        return Some(AddFault::TooManySponsoring);
    }
    if is_short(base_reserve, payer, multiplicity) {
        return Some(AddFault::LowReserve);
    }
    None
}
