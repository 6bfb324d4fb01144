//! A run of `watch` whose reader and whose input wait for each other.

ghost use Rattle.std.specs.Prelude.{◌≡◌, ◌<◌};

use ledger_types::AccountId;
use outside::{Failed, Gate, MemSink, Source, Steps, SureSource};
use std::alloc::Global;
use std::marker::Brand;
use std::sync::Wait;
use std::sync::atomic::{AtomicBool, Ordering};
use std::sync::ledger::{Blank, Ledger};
use std::test::*;
use std::thread::{self, Threads};
use watch_run::do_watch;

// The image of ledger 3 on the network `oracle`, which has no entries.
const IMAGE: [&str; 11] = [
    "534c4931800001440000001200000000000000000000000000000000000000000000000000000000000000000000000000000000",
    "00000000000000000000000000000000000000000000000000000000000003e80000000000000000000000000000000000000000",
    "000000000000000000000000000000000000000045634a45cb1910fb9730c398a6564fd23dd6064c6f13d760e20e50cb1aab781a",
    "000000030000000000000000000000000000000000000000000000000000000000000064004c4b40000003e80000000000000000",
    "00000000000000000000000000000000000000000000000000000000000000000000000000000000000000000000000000000000",
    "00000000000000000000000000000000000000000000000000000000000000000000000000000000000000000000000000000000",
    "000000000000000000000000000000000000000000000000000000108000000cffffffff00000012000000000000000000000000",
    "00000000000000000000000000000000000000000000000000000000000000000000000000000000000000000000000000000000",
    "00000000000000000000000000000000000000000000000000000000000000000000000000000000000000000000000000000000",
    "00000000000000000000000000000000000000000000000000000000000000000000000000000000000000000000000000000000",
    "00000000",
];

// The record of ledger 4, without transactions, after its mark.
const RECORD: [&str; 2] = [
    "80000058000000040baa7252ecfed82a86f2b96f6539353a0b3c0c1d1ecd00136525a836e7045a7a00000000d0bdfa59a0fa84c3",
    "b8c6a8a4e82b6f359c14920053b90b1f93290ed86095503e00000000000003e90000000000000000",
];

// How often each side looks, at most.
const LOOKS: u64 = 100_000_000;

// What the two sides tell each other, and whether one waited in vain.
#[derive(Drop)]
struct Meeting {
    reached: AtomicBool,
    given: AtomicBool,
    missed: AtomicBool,
}

impl Meeting {
    fn new() -> Meeting {
        Meeting {
            reached: AtomicBool::new(false),
            given: AtomicBool::new(false),
            missed: AtomicBool::new(false),
        }
    }

    fn await_flag(&self, flag: &AtomicBool) {
        for _ in 0..LOOKS {
            if flag.load(Ordering::SeqCst) {
                return;
            }
            thread::yield_now();
        }
        self.missed.store(true, Ordering::SeqCst);
    }
}

// Holds the first reader until the record was given.
#[derive(Drop)]
struct HeldReader<'a> {
    meeting: &'a Meeting,
}

impl Gate for HeldReader<'_> {
    fn pass(&self, _level: u32, number: u32) {
        if number == 1 {
            self.meeting.reached.store(true, Ordering::SeqCst);
            self.meeting.await_flag(&self.meeting.given);
        }
    }
}

// Gives an image, and then a record once the first reader was reached.
#[derive(Drop)]
struct HeldSource<'a> {
    meeting: &'a Meeting,
    image: SureSource<'a>,
    record: SureSource<'a>,
}

impl Source for HeldSource<'_> {
    ghost use Rattle.std.specs.Prelude.{None};

    ghost left = { λ _. None };

    ghost faults = { λ _. 0 };

    fn read(&mut self, buf: &mut [u8]) -> Result<usize, Failed> {
        match self.image.read(buf) {
            Ok(0) => {
                self.meeting.await_flag(&self.meeting.reached);
                let Ok(count) = self.record.read(buf) else {
                    return Ok(0);
                };
                self.meeting.given.store(true, Ordering::SeqCst);
                Ok(count)
            }
            Ok(count) => Ok(count),
            Err(_) => Ok(0),
        }
    }
}

// The bytes of lines of hexadecimal digits.
fn decoded(alloc: Global, lines: &[&str]) -> Option<Vec<u8>> {
    let mut bytes = Vec::new(alloc);
    for line in lines {
        let part = hex::decode(alloc, *line).ok()?;
        bytes.extend_from_slice(part.as_slice()).ok()?;
    }
    Some(bytes)
}

// Whether both sides met, and the reader's line is that of the last ledger.
fn meets<R: Threads + Wait + Sync, L: Ledger>(rt: &R, alloc: Global, blank: Blank) -> Option<bool>
    requires name { blank.name ≡ L.name }
    requires parts { blank.parts ≡ L.parts }
    requires some { 0 < L.parts }
{
    let (image_bytes, record_bytes) = (decoded(alloc, &IMAGE)?, decoded(alloc, &RECORD)?);
    let meeting = Meeting::new();
    let image = SureSource::new(image_bytes.as_slice());
    let record = SureSource::new(record_bytes.as_slice());
    let mut input = HeldSource {
        meeting: &meeting,
        image,
        record,
    };
    let gate = HeldReader { meeting: &meeting };
    let mut out = MemSink::new(alloc, 100, Vec::new(alloc));
    let mut err = MemSink::new(alloc, 100, Vec::new(alloc));
    let mut steps: Steps<L> = Steps::new(blank);
    let account = AccountId([0; 32]);
    let status = do_watch(
        rt, alloc, "oracle", account, 1, &mut input, &mut out, &mut err, &gate, &mut steps,
    );
    let missed = meeting.missed.load(Ordering::SeqCst);
    Some(
        status == 0
            && !missed
            && out.bytes() == b"reader 1 4 none\n".as_slice()
            && err.bytes().is_empty(),
    )
}

fn watch_meets<R: Threads + Wait + Sync>(rt: &R, alloc: Global) -> Option<bool> {
    meets::<R, Brand>(rt, alloc, Blank::new(1))
}

#[test]
fn a_reader_reads_while_records_are_awaited(rt: HostRuntime) {
    assert!(rt; watch_meets(&rt, rt.alloc()) == Some(true));
}
