ghost use Rattle.std.specs.Prelude.{◌≡◌};
ghost use Rattle.ledger_readers.specs.Published.{reader_count};

use ledger_readers::{
    EmptyList, LedgerReader, Lookup, Publication, Publisher, Read, last_reads, make,
};
use std::alloc::{AllocError, Global};
use std::marker::Brand;
use std::process::Abort;
use std::sync::{Arc, Wait};
use std::test::*;
use std::thread::{Threads, join_mut};

// A ledger whose accounts have all one balance.
#[derive(Drop)]
struct Flat {
    seq: u32,
    balance: u64,
}

impl Lookup for Flat {
    type Key = u64;

    type Entry = u64;

    ghost use Rattle.std.specs.Prelude.{◌≡◌, Some};

    ghost seq_of = { λ l. l.seq };

    ghost finds = { λ l key entry. entry ≡ Some l.balance };

    fn seq(&self) -> u32 {
        self.seq
    }

    fn find(&self, _key: &u64) -> Result<Option<u64>, AllocError> {
        Ok(Some(self.balance))
    }
}

fn make_flat(alloc: Global, seq: u32) -> Result<Arc<Flat>, AllocError> {
    Ok(Arc::new(
        alloc,
        Flat {
            seq,
            balance: 1000 - (seq % 1000) as u64,
        },
    )?)
}

// Whether this is what the ledgers of `make_flat` say, from 1 on.
fn is_flat(read: &Read<u64>) -> bool {
    let seq = read.seq as u64;
    seq == read.number.wrapping_add(1) && read.entry == Some(1000 - seq % 1000)
}

// The ledgers that a reader read before and after it was told of the third one.
fn read_told<J: Publication, R: Wait>(
    rt: &R,
    alloc: Global,
    publisher: &mut Publisher<Flat, J>,
    reader: &mut LedgerReader<Flat, J>,
) -> Result<(u32, u32), AllocError>
    ensures { reader_count publisher.new ≡ reader_count publisher.old }
{
    publisher.publish(rt, make_flat(alloc, 2)?)?;
    let before = reader.read(&7)?;
    publisher.publish(rt, make_flat(alloc, 3)?)?;
    reader.learn(publisher.tell());
    let after = reader.read(&7)?;
    if is_flat(&before) && is_flat(&after) && publisher.includes(reader) {
        Ok((before.seq, after.seq))
    } else {
        Err(AllocError)
    }
}

#[test]
fn a_reader_that_is_told_reads_the_last(rt: HostRuntime) -> Result<(), Fail> {
    told_in::<Brand, _>(&rt, rt.alloc(), EmptyList::new())
}

fn told_in<J: Publication + Send + Sync, R: Threads + Wait + Abort + Sync>(
    rt: &R,
    alloc: Global,
    list: EmptyList<Flat>,
) -> Result<(), Fail>
    requires { list ≡ J.book }
{
    let (mut publisher, mut readers) = make::<Flat, J>(alloc, list, make_flat(alloc, 1)?, 1)?;
    let seen = read_told(rt, alloc, &mut publisher, &mut readers[0]);
    publisher.end(rt, readers);
    assert_eq!(rt; seen?, (2, 3));
    Ok(())
}

const LEDGERS: u32 = 500;

fn publish_all<J: Publication, R: Wait>(
    rt: &R,
    alloc: Global,
    publisher: &mut Publisher<Flat, J>,
) -> bool
    ensures { reader_count publisher.new ≡ reader_count publisher.old }
{
    let mut fine = true;
    for seq in 2..LEDGERS + 1 {
        if let Ok(view) = make_flat(alloc, seq) {
            fine = publisher.publish(rt, view).is_ok() && fine;
        }
    }
    fine
}

fn read_all<J: Publication>(reader: &mut LedgerReader<Flat, J>) -> bool {
    let (mut last, mut fine) = (0, true);
    for _ in 0..5_000 {
        fine = match reader.read(&7) {
            Ok(read) if is_flat(&read) && read.number >= last => {
                last = read.number;
                fine
            }
            _ => false,
        };
    }
    fine
}

#[test]
fn readers_beside_a_publisher(rt: HostRuntime) -> Result<(), Fail> {
    race_in::<Brand, _>(&rt, rt.alloc(), EmptyList::new())
}

fn race_in<J: Publication + Send + Sync, R: Threads + Wait + Abort + Sync>(
    rt: &R,
    alloc: Global,
    list: EmptyList<Flat>,
) -> Result<(), Fail>
    requires { list ≡ J.book }
{
    let (mut publisher, mut readers) = make::<Flat, J>(alloc, list, make_flat(alloc, 1)?, 1)?;
    let reader = &mut readers[0];
    let (read, published) = join_mut(
        rt,
        &mut || read_all(reader),
        &mut || publish_all(rt, alloc, &mut publisher),
    );
    let last = last_reads(rt, alloc, publisher, readers, &7)?;
    assert!(rt; published && read);
    assert_eq!(rt; last[0].seq, LEDGERS);
    Ok(())
}
