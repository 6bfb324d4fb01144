//! Reading the records of transactions and of results, up to the first stray one.

ghost use Rattle.std.specs.Prelude.{◌≡◌, ◌↔◌, ◌++◌, ◌∷◌, [], List, IsTrue, IfOk, IfErr, IfSome, OnOk, None};
ghost use Rattle.std.specs.List.Sorted.{IsNonDecreasing};
ghost use Rattle.xdr_core.specs.ReadFault.{cause_of};
ghost use Rattle.archive_files.specs.Chain as spec;
ghost use Rattle.archive_files.specs.Records.{fact_at, HasFault};
ghost use Rattle.archive_files.specs.Screening as screening;
ghost use Rattle.archive_files.specs.Walk as walk;
ghost use Rattle.archive_files.specs.declared.facts.HeaderFact.{HeaderFact as AHeaderFact};
ghost use Rattle.archive_files.specs.declared.facts.RecordFact.{RecordFact as ARecordFact};

use crate::facts::RecordFact;
use crate::numbers::is_one_of;
use crate::record_kind::RecordKind;
use crate::records::{is_at_end, read_record};
use std::alloc::{AllocError, Global};
use xdr_core::{Cursor, ReadFault};

/// What is kept of a file's records: nothing of the first stray one but its offset, and nothing of those after it, so
/// that no more is kept than there are headers.
#[derive(Drop)]
pub(crate) struct Screened {
    /// Of the records up to the first stray one.
    pub(crate) facts: Vec<RecordFact>,
    /// The number of the last of these.
    pub(crate) last: Option<u32>,
    /// The offset of the first stray record's mark.
    pub(crate) stray: Option<usize>,
}

/// Whether a number is above the one before it, if there is one.
fn is_above(before: Option<u32>, number: u32) -> bool
    ensures { IsTrue result ↔ spec.IsAbove before number }
{
    match before {
        None => true,
        Some(before) => before < number,
    }
}

/// Whether a record's number is above the one before it, and that of a header.
fn is_in_place(numbers: &[u32], before: Option<u32>, seq: u32) -> bool
    requires { IsNonDecreasing numbers.now }
    ensures { IsTrue result ↔ screening.IsNumberInPlace numbers.now before seq }
{
    is_above(before, seq) && is_one_of(numbers, seq)
}

impl Screened {
    /// Before the first record.
    fn new(alloc: Global) -> Screened
        ensures kept { screening.AreKept result.facts.items result.last }
        ensures none { (heads : List AHeaderFact) → screening.AreScreened heads [] result }
    {
        Screened {
            facts: Vec::new(alloc),
            last: None,
            stray: None,
        }
    }

    /// Takes the next record.
    fn add(&mut self, numbers: &[u32], fact: RecordFact) -> Result<(), AllocError>
        requires sorted { IsNonDecreasing numbers.now }
        requires kept { screening.AreKept self.old.facts.items self.old.last }
        ensures kept { OnOk result (screening.AreKept self.new.facts.items self.new.last) }
        ensures screened { OnOk result ((heads : List AHeaderFact) (all : List ARecordFact)
            → screening.AreNumbersOf numbers.now heads → screening.AreScreened heads all self.old
            → screening.AreScreened heads (all ++ fact ∷ []) self.new) }
    {
        if self.stray.is_some() {
            return Ok(());
        }
        if is_in_place(numbers, self.last, fact.seq) {
            self.facts.push(fact)?;
            self.last = Some(fact.seq);
        } else {
            self.stray = Some(fact.at);
        }
        Ok(())
    }
}

/// Reads a file of records of transactions or of results, by the numbers of the headers in ascending order.
pub(crate) fn read_screened<K: RecordKind<Fact = RecordFact>>(
    alloc: Global,
    numbers: &[u32],
    file: &[u8],
) -> Result<Screened, ReadFault>
    requires { IsNonDecreasing numbers.now }
    ensures rising { IfOk result (λ screened. walk.AreRising None screened.facts.items) }
    ensures facts { IfOk result (λ screened. (heads : List AHeaderFact) → screening.AreNumbersOf numbers.now heads
        → screening.IsScreenedFile (fact_at K.format K.fact_of) file.now heads screened) }
    ensures fault { IfErr result (λ failure. IfSome (cause_of failure)
        (HasFault (fact_at K.format K.fact_of) file.now)) }
{
    let mut screened = Screened::new(alloc);
    let mut ahead = Cursor::new(file);
    while !is_at_end(&ahead) {
        let fact = read_record::<K>(alloc, &mut ahead)?;
        screened.add(numbers, fact)?;
    }
    Ok(screened)
}
