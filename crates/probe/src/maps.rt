//! Cases of maps of entries with undo, and of the books of their offers.
//!
//! The first line of a case has the files of eleven levels, whose entries are the base. Each step changes the map and
//! then asks for what it holds. Its name is `child`, `keep` or `undo` where a child is opened, kept or given up first,
//! or `stay`. Its arguments are the keys that are erased, the entries that are put, and the keys that are asked for,
//! each after their number; and an offer.
//!
//! It writes, of each key that is asked for, the entry with it and the one after it; the best offer of the offer's
//! book, and all in their order; the offers of its seller; what all entries hold of what it sells, and of lumens; and
//! what is new, changed and gone. Of an entry it writes the ledger that changed it, and the number and the amount of an
//! offer.

use crate::levels::read_pairs;
use crate::machine::{Machine, take_all};
use crate::output::Output;
use crate::sheet::Sheet;
use entry_map::Batch;
use ledger_types::{LedgerEntry, LedgerEntryBody, LedgerKey, OfferEntry};
use level_entries::{PlacedEntries, level_entries};
use offer_book::{best, of_account};
use std::alloc::{AllocError, Global};
use tally::{lumens, supply};
use xdr_core::Cursor;
use xdr_entries::{read_ledger_entry, read_ledger_key, read_offer_entry};

// ---- writing

/// Writes an entry.
fn write_entry(output: &mut Output, entry: &LedgerEntry) {
    output.number(entry.last_modified_ledger_seq as i128);
    if let LedgerEntryBody::Offer(offer) = &entry.body {
        output.number(offer.offer_id as i128);
        output.number(offer.amount as i128);
    }
}

/// Writes what was found.
fn write_found(output: &mut Output, found: &Result<Option<LedgerEntry>, AllocError>) {
    match found {
        Ok(Some(entry)) => write_entry(output, entry),
        Ok(None) => output.word("none"),
        Err(_) => output.word("BAD"),
    }
}

/// Writes a word and entries.
fn write_entries(output: &mut Output, word: &str, entries: &[LedgerEntry]) {
    output.word(word);
    for entry in entries {
        write_entry(output, entry);
    }
}

/// Writes the offers that are gone by their numbers.
fn write_gone(output: &mut Output, keys: &[LedgerKey]) {
    output.word("gone");
    for key in keys {
        if let LedgerKey::Offer { offer_id, .. } = key {
            output.number(*offer_id as i128);
        }
    }
}

/// Writes what changed.
pub fn write_changes(output: &mut Output, batch: &Batch) {
    write_entries(output, "new", batch.init.as_slice());
    write_entries(output, "changed", batch.live.as_slice());
    write_gone(output, batch.dead.as_slice());
}

/// Writes a word and the numbers of offers.
fn write_offers(output: &mut Output, word: &str, offers: &[OfferEntry]) {
    output.word(word);
    for offer in offers {
        output.number(offer.offer_id as i128);
    }
}

/// Writes the numbers of the offers of a book, each found by the position of the one before it.
fn write_book(output: &mut Output, sheet: &Sheet<'_>, of: &OfferEntry) -> Option<()> {
    output.word("book");
    let mut index = None;
    for _offer in 0..100u32 {
        let next = sheet
            .entries
            .offer_after(&of.selling, &of.buying, index)
            .ok()?;
        let Some(offer) = next else {
            return Some(());
        };
        output.number(offer.offer_id as i128);
        index = Some((offer.price, offer.offer_id));
    }
    None
}

// ---- steps

/// Erases what has the keys that come next.
fn erase_listed(alloc: Global, sheet: &mut Sheet<'_>, input: &mut Cursor<'_>) -> Option<()> {
    for _key in 0..input.u32().ok()? {
        sheet.erase(&read_ledger_key(alloc, input).ok()?)?;
    }
    Some(())
}

/// Puts the entries that come next.
fn put_listed(alloc: Global, sheet: &mut Sheet<'_>, input: &mut Cursor<'_>) -> Option<()> {
    for _entry in 0..input.u32().ok()? {
        sheet.put(read_ledger_entry(alloc, input).ok()?)?;
    }
    Some(())
}

/// Writes the entry with a key, and the one after it.
fn ask(output: &mut Output, sheet: &Sheet<'_>, key: &LedgerKey) {
    write_found(output, &sheet.entries.get(key));
    write_found(output, &sheet.entries.next_after(key));
}

/// Asks for the keys that come next.
fn ask_listed(
    alloc: Global,
    sheet: &Sheet<'_>,
    input: &mut Cursor<'_>,
    output: &mut Output,
) -> Option<()> {
    for _key in 0..input.u32().ok()? {
        ask(output, sheet, &read_ledger_key(alloc, input).ok()?);
    }
    Some(())
}

/// Writes what is asked by an offer: its book, the offers of its seller, and what is held of what it sells.
fn ask_by_offer(
    alloc: Global,
    sheet: &Sheet<'_>,
    offer: &OfferEntry,
    output: &mut Output,
) -> Option<()> {
    let first = best(&sheet.entries, &offer.selling, &offer.buying).ok()?;
    write_offers(output, "best", first.as_slice());
    write_book(output, sheet, offer)?;
    let offers = of_account(alloc, &sheet.entries, &offer.seller_id).ok()?;
    write_offers(output, "own", offers.as_slice());
    output.number(supply(&sheet.entries, &offer.selling).ok()?);
    output.number(lumens(&sheet.entries).ok()?);
    Some(())
}

/// Opens, keeps or gives up a child, or none.
fn turn(sheet: &mut Sheet<'_>, name: &str) -> Option<()> {
    match name.as_bytes() {
        b"stay" => Some(()),
        b"child" => sheet.child(),
        b"keep" => sheet.keep(),
        b"undo" => sheet.undo(),
        _ => None,
    }
}

impl Machine for Sheet<'_> {
    fn step(
        &mut self,
        alloc: Global,
        name: &str,
        input: &mut Cursor<'_>,
        output: &mut Output,
    ) -> Option<()> {
        turn(self, name)?;
        erase_listed(alloc, self, input)?;
        put_listed(alloc, self, input)?;
        ask_listed(alloc, self, input, output)?;
        ask_by_offer(alloc, self, &read_offer_entry(input).ok()?, output)?;
        write_changes(output, &self.entries.changes().ok()?);
        Some(())
    }
}

// ---- cases

/// Takes the steps of lines over entries.
fn take_over(
    alloc: Global,
    placed: &PlacedEntries<'_>,
    lines: &str,
    output: &mut Output,
) -> Option<()> {
    let mut sheet = Sheet::new(alloc, placed)?;
    take_all(alloc, &mut sheet, lines, output);
    Some(())
}

/// Takes the steps of lines over the entries of levels, if these represent some.
pub fn run_maps(alloc: Global, digits: &str, lines: &str, output: &mut Output) -> Option<()> {
    let bytes = hex::decode(alloc, digits).ok()?;
    let pairs = read_pairs(alloc, &mut Cursor::new(bytes.as_slice()))?;
    match level_entries(alloc, pairs.as_slice()) {
        Ok(Some(placed)) => take_over(alloc, &placed, lines, output),
        _ => None,
    }
}
