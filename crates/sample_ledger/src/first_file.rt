//! The file of the accounts with which a sample begins.

ghost use Rattle.std.specs.Prelude.{◌≡◌, ◌++◌, map, IfOk, OnOk};
ghost use Rattle.std.specs.List.{flat_map};
ghost use Rattle.std.specs.FinMap.{entries};
ghost use Rattle.ledger_types.specs.declared.bucket.BucketEntry.TheVariants as item;
ghost use Rattle.xdr_entries.specs.Keys.{bucket_entry};
ghost use Rattle.bucket_core.specs.bucket_items.MarkedItem.{record_of, IsEncodable};
ghost use Rattle.bucket_core.specs.File.{HasFile, file_of as file_with};
ghost use Rattle.sample_ledger.specs.Image as spec;
ghost use Rattle.sample_ledger.specs.Rows.{as_change, AreEncodable};

use crate::accounts::{ACCOUNT_COUNT, Accounts};
use crate::entry::ledger_entry;
use ledger_types::{AccountId, BucketEntry, LedgerEntry};
use shared_tree::{Kept, Tree};
use std::alloc::{AllocError, Global};
use xdr_core::Builder;
use xdr_entries::{write_bucket_entry, write_ledger_entry};

/// The greatest length of an item.
const MAX_ITEM_LEN: u32 = 2_147_483_647;

/// INITENTRY (BucketEntryType in Stellar-ledger.x).
const INITENTRY: i32 = 2;

/// The protocol.
const VERSION: u32 = 18;

/// The accounts' entries, in the order of their ids.
fn rows(alloc: Global, accounts: &Accounts) -> Result<Tree<AccountId, LedgerEntry>, AllocError>
    ensures rows { IfOk result (λ rows. map as_change rows ≡ entries (spec.first_changes accounts.now)) }
    ensures encodable { IfOk result (λ rows. AreEncodable rows) }
{
    let mut rows = Tree::empty();
    for done in 0..ACCOUNT_COUNT {
        let account = ACCOUNT_COUNT - 1 - done;
        let entry = ledger_entry(alloc, accounts, account)?;
        let kept = Kept::new(alloc, accounts.id(account), entry)?;
        rows = rows.put(alloc, &kept)?;
    }
    Ok(rows)
}

/// Writes META after its mark.
#[tactic(auto, unfolding(xdr_core::specs::Leaves::mark))]
fn write_meta(alloc: Global, file: &mut Builder) -> Result<(), AllocError>
    requires { IsEncodable (item.Meta 18) }
    ensures { OnOk result (file.new ≡ file.old ++ record_of (item.Meta 18)) }
{
    let meta = BucketEntry::Meta {
        ledger_version: VERSION,
    };
    let mut text = Builder::new(alloc);
    write_bucket_entry(&meta, &mut text)?;
    file.mark(text.as_slice(), MAX_ITEM_LEN)
}

/// Writes a new entry as an item.
#[tactic(auto, unfolding(xdr_entries::specs::Keys::bucket_entry, xdr_core::specs::Leaves::i32))]
fn write_init(entry: &LedgerEntry, text: &mut Builder) -> Result<(), AllocError>
    requires { bucket_entry.within (item.Init entry.now) }
    ensures { OnOk result (text.new ≡ text.old ++ bucket_entry.encoding (item.Init entry.now)) }
{
    text.i32(INITENTRY)?;
    write_ledger_entry(entry, text)
}

/// Writes a new entry as an item after its mark.
#[tactic(auto, unfolding(xdr_core::specs::Leaves::mark))]
fn write_item(alloc: Global, entry: &LedgerEntry, file: &mut Builder) -> Result<(), AllocError>
    requires { IsEncodable (item.Init entry.now) }
    ensures { OnOk result (file.new ≡ file.old ++ record_of (item.Init entry.now)) }
{
    let mut text = Builder::new(alloc);
    write_init(entry, &mut text)?;
    file.mark(text.as_slice(), MAX_ITEM_LEN)
}

/// Writes the items of entries.
fn write_items(
    alloc: Global,
    rows: &Tree<AccountId, LedgerEntry>,
    file: &mut Builder,
) -> Result<(), AllocError>
    requires { AreEncodable rows.now }
    ensures { OnOk result (file.new ≡ file.old ++ flat_map (λ x. record_of (item.Init x.1)) rows.now) }
{
    for index in 0..rows.len() {
        write_item(alloc, rows.entry(index), file)?;
    }
    Ok(())
}

/// The file of the accounts, each as a new entry.
pub(crate) fn first_file(alloc: Global, accounts: &Accounts) -> Result<Vec<u8>, AllocError>
    ensures file { IfOk result (λ file. file.items ≡ file_with (spec.first_bucket accounts.now)) }
    ensures has { IfOk result (λ _. HasFile (spec.first_bucket accounts.now)) }
{
    let rows = rows(alloc, accounts)?;
    let mut file = Builder::new(alloc);
    write_meta(alloc, &mut file)?;
    write_items(alloc, &rows, &mut file)?;
    Ok(file.finish())
}
