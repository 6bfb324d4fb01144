//! The parts of verifying a history: its three files are decoded, each envelope is hashed twice and the rest once.

use archive_files::read_stated_history;
use hash_ids::hash;
use std::alloc::Global;
use xdr_core::Cursor;
use xdr_entries::read_hash;
use xdr_header::read_ledger_header;
use xdr_results::read_transaction_result_set;
use xdr_tx::read_transaction_envelope;

/// The greatest length that a record mark can state.
const MOST_OF_RECORD: u32 = 2147483647;

/// The first byte of the hash of a text.
fn first_of_hash(text: &[u8]) -> u64 {
    hash(text).0[0] as u64
}

/// Hashes a header and decodes it.
fn pass_header(alloc: Global, text: &[u8]) -> Option<u64> {
    let mut ahead = Cursor::new(text);
    read_hash(&mut ahead).ok()?;
    read_ledger_header(alloc, &mut ahead).ok()?;
    Some(first_of_hash(text))
}

/// Hashes results and decodes them.
fn pass_results(alloc: Global, text: &[u8]) -> Option<u64> {
    let mut ahead = Cursor::new(text);
    ahead.u32().ok()?;
    read_transaction_result_set(alloc, &mut ahead).ok()?;
    Some(first_of_hash(text))
}

/// Hashes transactions, and each envelope apart, and decodes them.
fn pass_set(alloc: Global, text: &[u8]) -> Option<u64> {
    let mut ahead = Cursor::new(text);
    ahead.u32().ok()?;
    read_hash(&mut ahead).ok()?;
    let mut sum = first_of_hash(text);
    for _envelope in 0..ahead.u32().ok()? {
        let start = ahead.at();
        read_transaction_envelope(alloc, &mut ahead).ok()?;
        sum = sum.wrapping_add(first_of_hash(text.get(start..ahead.at())?));
    }
    Some(sum)
}

/// What the records of a file are of.
#[derive(Clone, Copy)]
enum FileKind {
    Headers,
    Sets,
    Results,
}

/// Hashes and decodes the records of a file, and answers the sum of the hashes' first bytes.
fn pass_file(alloc: Global, kind: FileKind, file: &[u8]) -> Option<u64> {
    let mut sum: u64 = 0;
    let mut ahead = Cursor::new(file);
    // A record has its mark at least.
    for _record in 0..file.len() / 4 {
        if ahead.end().is_ok() {
            return Some(sum);
        }
        let text = ahead.mark(MOST_OF_RECORD).ok()?;
        let first = match kind {
            FileKind::Headers => pass_header(alloc, text)?,
            FileKind::Sets => pass_set(alloc, text)?,
            FileKind::Results => pass_results(alloc, text)?,
        };
        sum = sum.wrapping_add(first);
    }
    Some(sum)
}

/// Hashes and decodes the records of what `history` writes, and answers the sum of the hashes' first bytes.
pub fn pass_history(alloc: Global, text: &[u8]) -> Option<u64> {
    let stated = read_stated_history(alloc, &mut Cursor::new(text)).ok()?;
    let headers = pass_file(alloc, FileKind::Headers, stated.history.headers.as_slice())?;
    let sets = pass_file(alloc, FileKind::Sets, stated.history.sets.as_slice())?;
    let results = pass_file(alloc, FileKind::Results, stated.history.results.as_slice())?;
    Some(headers.wrapping_add(sets).wrapping_add(results))
}
