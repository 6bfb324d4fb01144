//! Reading the records of a file one after another.

ghost use Rattle.std.specs.Prelude.{◌≡◌, ◌↔◌, [], IsTrue, IfOk, IfErr, IfSome};
ghost use Rattle.xdr_core.specs.Position.{Reads};
ghost use Rattle.xdr_core.specs.ReadFault.{cause_of};
ghost use Rattle.archive_files.specs.Chain.{header_at};
ghost use Rattle.archive_files.specs.Records as spec;

use crate::facts::HeaderFact;
use crate::record_kind::{HeaderRecords, RecordKind};
use std::alloc::Global;
use xdr_core::{Cursor, ReadFault};

/// The greatest length that a record mark can state.
pub(crate) const MAX_RECORD_LEN: u32 = 2_147_483_647;

/// Whether no byte is ahead.
pub(crate) fn is_at_end(ahead: &Cursor<'_>) -> bool
    ensures { IsTrue result ↔ (ahead.now.rest ≡ []) }
{
    ahead.end().is_ok()
}

/// Reads an entry that is all that is ahead.
fn read_entire<K: RecordKind>(alloc: Global, inner: &Cursor<'_>) -> Result<K::Value, ReadFault>
    ensures entire { IfOk result (λ value. spec.entire_at K.format inner.now ≡ Ok value) }
    ensures fault { IfErr result (λ failure. IfSome (cause_of failure) (λ fault.
        spec.entire_at K.format inner.now ≡ Err fault)) }
{
    let mut ahead = inner.fork();
    let value = K::read(alloc, &mut ahead)?;
    ahead.end()?;
    Ok(value)
}

/// What is kept of the entry that is the whole of a text. `inner` is at the text's start, and `at` is the offset of its
/// record mark.
fn fact_of_entire<K: RecordKind>(
    alloc: Global,
    at: usize,
    text: &[u8],
    inner: &Cursor<'_>,
) -> Result<K::Fact, ReadFault>
    requires { inner.now.rest ≡ text.now }
    ensures fact { IfOk result (λ fact. spec.IsFactOf (spec.entire_at K.format inner.now) (K.fact_of at) fact) }
    ensures fault { IfErr result (λ failure. IfSome (cause_of failure) (λ fault.
        spec.entire_at K.format inner.now ≡ Err fault)) }
{
    let value = read_entire::<K>(alloc, inner)?;
    Ok(K::fact(alloc, at, text, &value)?)
}

/// Reads the next record, and answers what is kept of it. A failure leaves the cursor as it was.
#[tactic(auto, unfolding(crate::specs::Records::fact_at))]
pub(crate) fn read_record<K: RecordKind>(
    alloc: Global,
    cursor: &mut Cursor<'_>,
) -> Result<K::Fact, ReadFault>
    ensures { Reads cause_of result cursor.old cursor.new (spec.fact_at K.format K.fact_of cursor.old) }
{
    let mut ahead = cursor.fork();
    let text = ahead.mark(MAX_RECORD_LEN)?;
    let inner = cursor.fork().marked(MAX_RECORD_LEN)?;
    let fact = fact_of_entire::<K>(alloc, cursor.at(), text, &inner)?;
    *cursor = ahead;
    Ok(fact)
}

/// Reads a file of headers.
pub(crate) fn read_headers(alloc: Global, file: &[u8]) -> Result<Vec<HeaderFact>, ReadFault>
    ensures facts { IfOk result (λ facts. spec.HasFacts header_at file.now facts.items) }
    ensures fault { IfErr result (λ failure. IfSome (cause_of failure) (spec.HasFault header_at file.now)) }
{
    let mut facts = Vec::new(alloc);
    let mut ahead = Cursor::new(file);
    while !is_at_end(&ahead) {
        let fact = read_record::<HeaderRecords>(alloc, &mut ahead)?;
        if let Err(_) = facts.push(fact) {
            return Err(ReadFault::NoMemory);
        }
    }
    Ok(facts)
}
