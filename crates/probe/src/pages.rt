//! Cases of the pages of files that are kept decoded: of one bucket's file, and of all files of a ledger.
//!
//! Over a bucket's file:
//!
//!     warm KEY      whether the file has a mark of the key, and the numbers of the pages, the most recently used first
//!
//! Over a start image:
//!
//!     get KEY       whether there is an entry under the key
//!     warm KEYS     of how many of the keys, after their number, a file has a mark

use crate::levels::read_bucket;
use crate::machine::{Machine, take_all};
use crate::output::Output;
use ledger_close::Ledger;
use ledger_types::{Hash, LedgerKey};
use page_cache::PageCache;
use std::alloc::Global;
use xdr_core::Cursor;
use xdr_entries::read_ledger_key;
use xdr_header::read_start_image;

/// The most keys of a step.
const MOST_KEYS: usize = 1000;

/// A file with pages of it.
#[derive(Drop)]
struct CachedFile {
    cache: PageCache,
}

impl Machine for CachedFile {
    fn step(
        &mut self,
        alloc: Global,
        name: &str,
        input: &mut Cursor<'_>,
        output: &mut Output,
    ) -> Option<()> {
        if name != "warm" {
            return None;
        }
        let key = read_ledger_key(alloc, input).ok()?;
        let has = self.cache.warm(&key).ok()?;
        output.word(if has { "true" } else { "false" });
        for number in self.cache.pages().ok()? {
            output.number(number as i128);
        }
        Some(())
    }
}

/// A ledger with pages of its files.
#[derive(Drop)]
struct WarmedLedger {
    ledger: Ledger,
}

/// Reads keys after their number.
fn read_keys(alloc: Global, input: &mut Cursor<'_>) -> Option<Vec<LedgerKey>> {
    let mut keys = Vec::new(alloc);
    for _key in 0..input.u32().ok()? {
        keys.push(read_ledger_key(alloc, input).ok()?).ok()?;
    }
    Some(keys)
}

impl Machine for WarmedLedger {
    fn step(
        &mut self,
        alloc: Global,
        name: &str,
        input: &mut Cursor<'_>,
        output: &mut Output,
    ) -> Option<()> {
        match name.as_bytes() {
            b"get" => {
                let key = read_ledger_key(alloc, input).ok()?;
                let entry = self.ledger.get(&key).ok()?;
                output.word(if entry.is_some() { "there" } else { "nothing" });
            }
            b"warm" => {
                let keys = read_keys(alloc, input)?;
                if keys.len() > MOST_KEYS {
                    return None;
                }
                output.number(self.ledger.warm(keys.as_slice()).ok()? as i128);
            }
            _ => return None,
        }
        Some(())
    }
}

/// Takes the steps of lines over the file of a bucket.
pub fn run_pages(alloc: Global, digits: &str, lines: &str, output: &mut Output) -> Option<()> {
    let bytes = hex::decode(alloc, digits).ok()?;
    let bucket = read_bucket(alloc, &mut Cursor::new(bytes.as_slice()))?;
    let cache = PageCache::new(bucket).ok()?;
    take_all(alloc, &mut CachedFile { cache }, lines, output);
    Some(())
}

/// Takes the steps of lines over the ledger of a start image.
pub fn run_warming(alloc: Global, digits: &str, lines: &str, output: &mut Output) -> Option<()> {
    let bytes = hex::decode(alloc, digits).ok()?;
    let image = read_start_image(alloc, &mut Cursor::new(bytes.as_slice())).ok()?;
    let ledger = Ledger::from_image(image, Hash([0; 32])).ok()?;
    take_all(alloc, &mut WarmedLedger { ledger }, lines, output);
    Some(())
}
