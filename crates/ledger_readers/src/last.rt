//! What readers answer that are told of all that was published.

ghost use Rattle.std.specs.Prelude.{◌≡◌, All, IfOk, length};
ghost use Rattle.std.specs.List.{AllZip};
ghost use mathlib.Core.List.{IsPrefix};
ghost use Rattle.ledger_readers.specs.Published.{published, reader_count};
ghost use Rattle.ledger_readers.specs.Views.{IsAnswerOf};
ghost use Rattle.ledger_readers.specs.Reads.{IsToldRead};

use crate::lookup::{Lookup, Read};
use crate::prefix::Publication;
use crate::publisher::Publisher;
use crate::reader::LedgerReader;
use std::alloc::{AllocError, Global};
use std::sync::Wait;

/// A reader is told of all that was published, and reads.
fn read_told<S: Lookup + Drop, J: Publication>(
    publisher: &Publisher<S, J>,
    reader: &mut LedgerReader<S, J>,
    key: &S::Key,
) -> Result<Read<S::Entry>, AllocError>
    ensures all { IsPrefix (published publisher.now) reader.new }
    ensures answer { IfOk result (λ r. IsAnswerOf S.seq_of S.finds reader.new key.now r.number r.seq r.entry) }
{
    reader.learn(publisher.tell());
    reader.read(key)
}

/// Each reader is told of all that was published, and reads.
fn read_all_told<S: Lookup + Drop, J: Publication>(
    alloc: Global,
    publisher: &Publisher<S, J>,
    readers: &mut [LedgerReader<S, J>],
    key: &S::Key,
) -> Result<Vec<Read<S::Entry>>, AllocError>
    ensures count { length readers.new ≡ length readers.old }
    ensures reads { IfOk result (λ reads.
        AllZip (IsToldRead S.seq_of S.finds (published publisher.now) key.now) readers.new reads.items) }
{
    let mut reads = Vec::with_capacity(alloc, readers.len())?;
    for reader in readers {
        reads.push(read_told(publisher, reader, key)?)?;
    }
    Ok(reads)
}

/// Ends a publisher and all its readers, each of which is told of all that was published and reads once more. Each
/// answers by the last view that was published.
pub fn last_reads<S: Lookup + Drop, J: Publication, R: Wait>(
    rt: &R,
    alloc: Global,
    publisher: Publisher<S, J>,
    mut readers: Vec<LedgerReader<S, J>>,
    key: &S::Key,
) -> Result<Vec<Read<S::Entry>>, AllocError>
    requires { length readers.items ≡ reader_count publisher }
    ensures count { IfOk result (λ reads. length reads.items ≡ reader_count publisher) }
    ensures answers { IfOk result (λ reads. All (λ r.
        IsAnswerOf S.seq_of S.finds (published publisher) key.now r.number r.seq r.entry) reads.items) }
{
    let reads = read_all_told(alloc, &publisher, readers.as_mut_slice(), key);
    publisher.end(rt, readers);
    reads
}
