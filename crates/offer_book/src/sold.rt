//! The offers of an account, sold by it, in rising order of their ids.

ghost use Rattle.std.specs.Prelude.{◌≡◌, IfOk, pos};
ghost use Rattle.ledger_types.specs.declared.key.LedgerKey.TheVariants.{Offer};
ghost use Rattle.entry_map.specs.Book as book;
ghost use Rattle.offer_book.specs.Book as spec;
ghost use Rattle.offer_book.specs.Sold.{AreSold, AreUpTo, IsNextSold, IsSoldIn};

use entry_map::{Base, Entries, EntryWalk, greater_account};
use ledger_types::{
    AccountId, ClaimableBalanceId, Hash, LedgerEntry, LedgerEntryBody, LedgerKey, OfferEntry,
};
use std::alloc::{AllocError, Global};
use std::cmp::Ordering;

/// The offer that an entry is, if it is one.
fn offer_in(entry: &LedgerEntry) -> Option<OfferEntry>
    ensures { result ≡ book.offer_in entry.now.body }
{
    match &entry.body {
        LedgerEntryBody::Offer(offer) => Some(*offer),
        _ => None,
    }
}

/// The offer that an entry is, if it is one of this account.
fn sold_in(entry: &LedgerEntry, seller: &AccountId) -> Option<OfferEntry>
    ensures { IsSoldIn entry.now seller.now result }
{
    match &entry.body {
        LedgerEntryBody::Offer(offer) => match offer.seller_id.cmp(seller) {
            Ordering::Equal => Some(*offer),
            _ => None,
        },
        _ => None,
    }
}

/// The key ahead of all offers of an account, whose ids are at least 1.
fn first_key(seller_id: AccountId) -> LedgerKey
    ensures { result ≡ Offer seller_id (pos 0) }
{
    LedgerKey::Offer {
        seller_id,
        offer_id: 0,
    }
}

/// A key behind those of all offers of an account, with few other keys between.
fn last_key(seller: &AccountId) -> LedgerKey
    ensures { AreUpTo seller.now result }
{
    match greater_account(seller) {
        Some(seller_id) => first_key(seller_id),
        None => LedgerKey::ClaimableBalance {
            balance_id: ClaimableBalanceId(Hash([0; 32])),
        },
    }
}

/// The entry of an account's next offer, where the walk came to one of its offers or to the key ahead of them.
fn next_sold<B: Base>(
    walk: &mut EntryWalk<'_, B>,
    seller: &AccountId,
) -> Result<Option<LedgerEntry>, AllocError>
    ensures entries { walk.new.entries ≡ walk.old.entries }
    ensures last { walk.new.last ≡ walk.old.last }
    ensures next { IfOk result (IsNextSold walk.old walk.new.at seller.now) }
{
    let Some(entry) = walk.next()? else {
        return Ok(None);
    };
    match sold_in(&entry, seller) {
        None => Ok(None),
        Some(_) => Ok(Some(entry)),
    }
}

/// The entries of an account's offers in rising order of their ids. It costs what they are, and not what all entries
/// are.
pub fn sold_entries<B: Base>(
    alloc: Global,
    entries: &Entries<'_, B>,
    seller: &AccountId,
) -> Result<Vec<LedgerEntry>, AllocError>
    ensures { spec.AreNumbered entries.now.current
        → IfOk result (λ sold. AreSold entries.now.current seller.now sold.items) }
{
    let mut walk = entries.walk_from(&first_key(*seller), &last_key(seller))?;
    let mut sold = Vec::new(alloc);
    while let Some(entry) = next_sold(&mut walk, seller)? {
        sold.push(entry)?;
    }
    Ok(sold)
}

/// Those of some entries that are offers.
fn offers_in(alloc: Global, entries: &[LedgerEntry]) -> Result<Vec<OfferEntry>, AllocError>
    ensures { IfOk result (λ offers. offers.items ≡ book.offers_in entries.now) }
{
    let mut offers = Vec::new(alloc);
    for entry in entries {
        if let Some(offer) = offer_in(entry) {
            offers.push(offer)?;
        }
    }
    Ok(offers)
}

/// The offers of an account in rising order of their ids.
pub fn of_account<B: Base>(
    alloc: Global,
    entries: &Entries<'_, B>,
    seller: &AccountId,
) -> Result<Vec<OfferEntry>, AllocError>
    ensures { spec.AreNumbered entries.now.current
        → IfOk result (λ offers. offers.items ≡ spec.offers_by entries.now.current seller.now) }
{
    let sold = sold_entries(alloc, entries, seller)?;
    offers_in(alloc, sold.as_slice())
}
