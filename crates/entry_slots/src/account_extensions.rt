//! What accounts' extensions say. What isn't there reads as zeros and none, and is added for a value that is neither.

ghost use Rattle.std.specs.Prelude.{◌≡◌, None, map, IfOk, OnOk};
ghost use Rattle.entry_slots.specs.AccountExtensions as spec;

use entry_map::ledger_types::{
    AccountEntry, AccountEntryExtensionV1, AccountEntryExtensionV2, AccountEntryExtensionV3,
    AccountId, Liabilities, Signer,
};
use item_list::ItemList;
use std::alloc::AllocError;

/// What is said by an extension that isn't there.
pub const NO_LIABILITIES: Liabilities = Liabilities {
    buying: 0,
    selling: 0,
};

/// Whether offers would take and give nothing.
pub fn is_nothing(liabilities: Liabilities) -> bool
    ensures { result ≡ spec.is_nothing liabilities }
{
    liabilities.buying == 0 && liabilities.selling == 0
}

/// What the account's offers would take and give.
pub fn account_liabilities(account: &AccountEntry) -> Liabilities
    ensures { result ≡ spec.account_liabilities account.now }
{
    match &account.ext {
        Some(ext) => ext.liabilities,
        None => NO_LIABILITIES,
    }
}

/// Gives an account other liabilities. It takes no memory.
pub fn set_account_liabilities(account: &mut AccountEntry, liabilities: Liabilities)
    ensures { account.new ≡ spec.with_account_liabilities liabilities account.old }
{
    match &mut account.ext {
        Some(ext) => ext.liabilities = liabilities,
        None if is_nothing(liabilities) => {}
        None => {
            account.ext = Some(AccountEntryExtensionV1 {
                liabilities,
                ext: None,
            });
        }
    }
}

/// How many of an account's reserves others pay.
pub fn num_sponsored(account: &AccountEntry) -> u32
    ensures { result ≡ spec.num_sponsored account.now }
{
    match &account.ext {
        Some(
            AccountEntryExtensionV1 {
                liabilities: _,
                ext: Some(second),
            },
        ) => second.num_sponsored,
        _ => 0,
    }
}

/// How many reserves an account pays as a sponsor, of claimable balances that it makes too.
pub fn num_sponsoring(account: &AccountEntry) -> u32
    ensures { result ≡ spec.num_sponsoring account.now }
{
    match &account.ext {
        Some(
            AccountEntryExtensionV1 {
                liabilities: _,
                ext: Some(second),
            },
        ) => second.num_sponsoring,
        _ => 0,
    }
}

/// The ledger in which an account's sequence number was last set, or 0 where that isn't recorded (CAP-0021).
pub fn seq_ledger(account: &AccountEntry) -> u32
    ensures { result ≡ spec.seq_ledger account.now }
{
    match extension_v3(account) {
        Some(ext) => ext.seq_ledger,
        None => 0,
    }
}

/// The close time of the ledger in which an account's sequence number was last set, or 0 where that isn't recorded.
pub fn seq_time(account: &AccountEntry) -> u64
    ensures { result ≡ spec.seq_time account.now }
{
    match extension_v3(account) {
        Some(ext) => ext.seq_time,
        None => 0,
    }
}

fn extension_v3(account: &AccountEntry) -> Option<AccountEntryExtensionV3>
    ensures { result ≡ spec.third_in (spec.second_in account.now.ext) }
{
    account.ext.as_ref()?.ext.as_ref()?.ext
}

/// Gives an account extension V3, where there is one to give.
fn set_extension_v3(
    account: &mut AccountEntry,
    ext: Option<AccountEntryExtensionV3>,
) -> Result<(), AllocError>
    ensures { OnOk result (account.new ≡ spec.with_extension_v3 ext account.old) }
{
    if ext.is_none() {
        return Ok(());
    }
    let (liabilities, mut sponsorship) = both_extensions(&account.signers, account.ext.take())?;
    sponsorship.ext = ext;
    account.ext = Some(AccountEntryExtensionV1 {
        liabilities,
        ext: Some(sponsorship),
    });
    Ok(())
}

/// Sets an account's sequence number, and the ledger and the close time in which that happens, where they are recorded.
pub fn set_seq_num(
    account: &mut AccountEntry,
    seq_num: i64,
    ext: Option<AccountEntryExtensionV3>,
) -> Result<(), AllocError>
    ensures { OnOk result (account.new ≡ spec.with_seq_num seq_num ext account.old) }
{
    account.seq_num = seq_num;
    set_extension_v3(account, ext)
}

/// Who pays the reserve of the signer at an index, if somebody does.
pub fn signer_sponsor(account: &AccountEntry, index: usize) -> Option<AccountId>
    ensures { result ≡ spec.signer_sponsor account.now index }
{
    let sponsorship = account.ext.as_ref()?.ext.as_ref()?;
    match sponsorship.signer_sponsoring_ids.as_slice().get(index) {
        Some(sponsor) => *sponsor,
        None => None,
    }
}

/// No sponsor of any of the signers.
fn no_sponsors(signers: &ItemList<Signer>) -> Result<ItemList<Option<AccountId>>, AllocError>
    ensures { IfOk result (λ sponsors. sponsors ≡ map (λ signer. None) signers.now) }
{
    let mut sponsors = ItemList::new(signers.allocator());
    for _signer in signers.as_slice() {
        sponsors.push(None)?;
    }
    Ok(sponsors)
}

/// What a sponsorship of an account without one starts from.
fn no_sponsorship(signers: &ItemList<Signer>) -> Result<AccountEntryExtensionV2, AllocError>
    ensures { IfOk result (λ sponsorship. sponsorship ≡ spec.sponsorship_in signers.now None) }
{
    Ok(AccountEntryExtensionV2 {
        num_sponsored: 0,
        num_sponsoring: 0,
        signer_sponsoring_ids: no_sponsors(signers)?,
        ext: None,
    })
}

/// The liabilities and the sponsorship of an account with these signers, as they are or made anew.
pub fn both_extensions(
    signers: &ItemList<Signer>,
    ext: Option<AccountEntryExtensionV1>,
) -> Result<(Liabilities, AccountEntryExtensionV2), AllocError>
    ensures { IfOk result (λ both.
        both ≡ (spec.liabilities_in ext, spec.sponsorship_in signers.now (spec.second_in ext))) }
{
    match ext {
        None => Ok((NO_LIABILITIES, no_sponsorship(signers)?)),
        Some(
            AccountEntryExtensionV1 {
                liabilities,
                ext: None,
            },
        ) => Ok((liabilities, no_sponsorship(signers)?)),
        Some(
            AccountEntryExtensionV1 {
                liabilities,
                ext: Some(sponsorship),
            },
        ) => Ok((liabilities, sponsorship)),
    }
}
