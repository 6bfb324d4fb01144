//! A ledger that closes while readers read an account of it, and what a read takes.

ghost use Rattle.std.specs.Prelude.{◌≡◌, ◌≤◌, ◌<◌, length};
ghost use denote.Param.Send.{IsSend, IsSync};
ghost use Rattle.ledger_readers.specs.Published.{reader_count};

use crate::stores::image_in;
use hash_ids::network_id;
use ledger_close::{Ledger, View};
use ledger_readers::{EmptyList, LedgerReader, Publication, Publisher, last_reads, make};
use ledger_types::{AccountId, LedgerKey};
use outside::Steps;
use std::alloc::Global;
use std::marker::Brand;
use std::sync::Wait;
use std::sync::atomic::{AtomicBool, AtomicU64, Ordering};
use std::sync::ledger::{Blank, Ledger as Count};
use std::thread::{self, Threads, join_mut};
use xdr_core::Cursor;

/// How many readers read beside the closing thread.
const READERS: u32 = 3;

/// How often a reader reads at most.
const MOST_READS: u64 = 1_000_000_000_000;

/// The passphrase of the network.
const NETWORK: &str = "Test SDF Network ; September 2015";

/// The most bytes of a record.
const MAX_RECORD_LEN: u32 = 16_777_216;

/// What was done.
#[derive(Clone, Copy)]
pub struct Done {
    /// How many ledgers were closed.
    pub ledgers: u64,
    /// How many reads were answered.
    pub reads: u64,
}

/// The account that is read: its key has 32 bytes of 7.
fn read_key() -> LedgerKey {
    LedgerKey::Account {
        account_id: AccountId([7; 32]),
    }
}

/// The ledger of an image.
fn ledger_of(alloc: Global, image: &[u8]) -> Option<Ledger> {
    let network = network_id(NETWORK).ok()?;
    Ledger::from_image(image_in(alloc, image)?, network).ok()
}

/// Closes the ledger of the next record. None where there is no record, or it is refused.
fn close_next<L: Count>(
    ledger: &mut Ledger,
    records: &mut Cursor<'_>,
    steps: &mut Steps<L>,
) -> Option<()> {
    let record = records.mark(MAX_RECORD_LEN).ok()?;
    if record.len() > MAX_RECORD_LEN as usize {
        return None;
    }
    let Ok(prepared) = ledger.prepare(record, steps) else {
        return None;
    };
    ledger.install(prepared);
    Some(())
}

/// Closes the ledgers of records, as long as one is accepted, and says how many.
fn close_alone<L: Count>(ledger: &mut Ledger, records: &[u8], steps: &mut Steps<L>) -> u64 {
    let mut cursor = Cursor::new(records);
    let mut ledgers = 0u64;
    for _ in 0..records.len() {
        if close_next(ledger, &mut cursor, steps).is_none() {
            break;
        }
        ledgers = ledgers.saturating_add(1);
    }
    ledgers
}

/// The same, publishing each ledger.
fn close_publishing<R: Wait, J: Publication, L: Count>(
    rt: &R,
    ledger: &mut Ledger,
    records: &[u8],
    publisher: &mut Publisher<View, J>,
    steps: &mut Steps<L>,
) -> u64
    ensures { reader_count publisher.new ≡ reader_count publisher.old }
{
    let mut cursor = Cursor::new(records);
    let mut ledgers = 0u64;
    for _ in 0..records.len() {
        if close_next(ledger, &mut cursor, steps).is_none() {
            break;
        }
        let Ok(view) = ledger.view() else {
            break;
        };
        if publisher.publish(rt, view).is_err() {
            break;
        }
        ledgers = ledgers.saturating_add(1);
    }
    ledgers
}

/// Reads an account so often, unless it is told to stop before, and adds how many reads were answered.
fn read_until<J: Publication>(
    reader: &mut LedgerReader<View, J>,
    most: u64,
    stop: &AtomicBool,
    reads: &AtomicU64,
) {
    let key = read_key();
    let mut answered = 0u64;
    for _ in 0..most {
        if stop.load(Ordering::Relaxed) {
            break;
        }
        if reader.read(&key).is_ok() {
            answered = answered.saturating_add(1);
        }
    }
    let _ = reads.fetch_add(answered, Ordering::SeqCst);
}

/// Readers read in threads of their own until they are told to stop.
fn read_all<R: Threads + Sync, J: Publication + Send + Sync>(
    rt: &R,
    readers: &mut [LedgerReader<View, J>],
    stop: &AtomicBool,
    reads: &AtomicU64,
)
    ensures { length readers.new ≡ length readers.old }
{
    thread::for_each_mut(
        rt,
        readers,
        READERS as usize,
        &|_index: usize, reader: &mut LedgerReader<View, J>| {
            read_until(reader, MOST_READS, stop, reads)
        },
    );
}

/// Closes the ledgers of records in this thread, beside readers.
fn close_beside<R: Threads + Wait + Sync, J: Publication + Send + Sync, L: Count>(
    rt: &R,
    ledger: &mut Ledger,
    records: &[u8],
    publisher: &mut Publisher<View, J>,
    readers: &mut [LedgerReader<View, J>],
    stop: &AtomicBool,
    reads: &AtomicU64,
    steps: &mut Steps<L>,
) -> u64
    ensures publisher { reader_count publisher.new ≡ reader_count publisher.old }
    ensures readers { length readers.new ≡ length readers.old }
{
    join_mut(
        rt,
        &mut ||
            requires { IsSync R.row × IsSend J.row × IsSync J.row }
            ensures { length readers.exit.now ≡ length readers.entry.now }
        { read_all(rt, readers, stop, reads) },
        &mut || -> u64
            ensures { reader_count publisher.exit.now ≡ reader_count publisher.entry.now }
        {
            let ledgers = close_publishing(rt, ledger, records, publisher, steps);
            stop.store(true, Ordering::Relaxed);
            ledgers
        },
    )
    .1
}

/// Makes a publisher and its readers, closes the ledgers of records beside them, and ends them.
fn close_read<R: Threads + Wait + Sync, J: Publication + Send + Sync, L: Count>(
    rt: &R,
    alloc: Global,
    list: EmptyList<View>,
    mut ledger: Ledger,
    records: &[u8],
    steps: &mut Steps<L>,
) -> Option<Done>
    requires { list ≡ J.book }
{
    let view = ledger.view().ok()?;
    let Ok((mut publisher, mut readers)) = make::<View, J>(alloc, list, view, READERS) else {
        return None;
    };
    let (stop, reads) = (AtomicBool::new(false), AtomicU64::new(0));
    let ledgers = close_beside(
        rt,
        &mut ledger,
        records,
        &mut publisher,
        readers.as_mut_slice(),
        &stop,
        &reads,
        steps,
    );
    let last = last_reads(rt, alloc, publisher, readers, &read_key()).ok()?;
    if last.is_empty() {
        return None;
    }
    Some(Done {
        ledgers,
        reads: reads.load(Ordering::SeqCst),
    })
}

/// Closes the ledgers of records after an image, beside readers or alone.
pub fn pass_closes<R: Threads + Wait + Sync>(
    rt: &R,
    alloc: Global,
    image: &[u8],
    records: &[u8],
    beside: bool,
) -> Option<Done> {
    pass_counted::<R, Brand>(rt, alloc, image, records, beside, Blank::new(1))
}

/// The same, with a counter of steps.
fn pass_counted<R: Threads + Wait + Sync, L: Count>(
    rt: &R,
    alloc: Global,
    image: &[u8],
    records: &[u8],
    beside: bool,
    blank: Blank,
) -> Option<Done>
    requires name { blank.name ≡ L.name }
    requires parts { blank.parts ≡ L.parts }
    requires some { 0 < L.parts }
{
    let mut ledger = ledger_of(alloc, image)?;
    let mut steps: Steps<L> = Steps::new(blank);
    if beside {
        let list = EmptyList::new();
        return close_read::<R, Brand, L>(rt, alloc, list, ledger, records, &mut steps);
    }
    let ledgers = close_alone(&mut ledger, records, &mut steps);
    Some(Done { ledgers, reads: 0 })
}

/// Reads the account of an image's ledger so often by one reader.
fn read_often<R: Wait, J: Publication>(
    rt: &R,
    alloc: Global,
    list: EmptyList<View>,
    ledger: &Ledger,
    count: u64,
) -> Option<Done>
    requires { list ≡ J.book }
{
    let view = ledger.view().ok()?;
    let Ok((publisher, mut readers)) = make::<View, J>(alloc, list, view, 1) else {
        return None;
    };
    let (stop, reads) = (AtomicBool::new(false), AtomicU64::new(0));
    if let Some(reader) = readers.as_mut_slice().first_mut() {
        read_until(reader, count, &stop, &reads);
    }
    let last = last_reads(rt, alloc, publisher, readers, &read_key()).ok()?;
    if last.is_empty() {
        return None;
    }
    Some(Done {
        ledgers: 0,
        reads: reads.load(Ordering::SeqCst),
    })
}

/// Looks the account of a ledger up so often.
fn look_often(ledger: &Ledger, count: u64) -> Done {
    let key = read_key();
    let mut reads = 0u64;
    for _ in 0..count {
        if ledger.get(&key).is_ok() {
            reads = reads.saturating_add(1);
        }
    }
    Done { ledgers: 0, reads }
}

/// Reads an account of the ledger of an image so often, by a reader or from the ledger.
pub fn pass_reads<R: Wait>(
    rt: &R,
    alloc: Global,
    image: &[u8],
    count: u64,
    by_reader: bool,
) -> Option<Done> {
    let ledger = ledger_of(alloc, image)?;
    if by_reader {
        return read_often::<R, Brand>(rt, alloc, EmptyList::new(), &ledger, count);
    }
    Some(look_often(&ledger, count))
}
