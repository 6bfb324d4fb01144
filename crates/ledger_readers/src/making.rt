//! How a publisher and its readers are made.

ghost use Rattle.std.specs.Prelude.{◌≡◌, ◌<◌, ◌≤◌, ◌^◌, ◌∷◌, [], length, drop, Some, All, IfOk, vec_capacity};
ghost use Rattle.std.specs.Arc.{arc_value};
ghost use Rattle.ledger_readers.specs.Published.{published, reader_count};

use crate::prefix::{EmptyList, Publication, PublishedCount, PublishedPrefix};
use crate::publisher::{Publisher, PublisherOf};
use crate::reader::LedgerReader;
use crate::side::{ReadingSide, Shown, SideWriter};
use left_right::writer::Writer;
use std::alloc::{AllocError, Global};
use std::sync::Arc;

/// The two sides, of which one shows the first view.
fn make_sides<S: Drop, J: Publication>(
    alloc: Global,
    count: PublishedCount<S, J>,
    mut prefix: PublishedPrefix<S, J>,
    first: Arc<S>,
    readers: usize,
) -> Result<(SideWriter<S, J>, PublishedPrefix<S, J>), AllocError>
    requires empty { prefix ≡ [] }
    requires some { 0 < readers }
    requires few { readers < 2 ^ 32 }
    ensures list { IfOk result (λ made. made.1 ≡ arc_value first ∷ []) }
    ensures shown { IfOk result (λ made. made.0.desk.shown.value.shown.prefix ≡ Some made.1) }
    ensures rest { IfOk result (λ made. drop made.0.behind made.0.log.items ≡ []) }
{
    if !prefix.append(&count, &first) {
        return Err(AllocError);
    }
    let count = Arc::new(alloc, count)?;
    let spare = ReadingSide {
        shown: Shown {
            view: Arc::try_clone(&first)?,
            prefix: None,
        },
        count: Arc::try_clone(&count)?,
    };
    let shown = ReadingSide {
        shown: Shown {
            view: first,
            prefix: Some(prefix.copy()),
        },
        count,
    };
    let writer = Writer::new(alloc, shown, spare, readers)?;
    Ok((writer, prefix))
}

/// The readers. One that found no seat at the writer can't read, which no reader of 1 to 4 meets.
fn make_readers<S: Drop, J: Publication>(
    mut made: Vec<LedgerReader<S, J>>,
    writer: &SideWriter<S, J>,
    prefix: &PublishedPrefix<S, J>,
    readers: u32,
) -> Vec<LedgerReader<S, J>>
    requires empty { made.items ≡ [] }
    requires room { readers ≤ vec_capacity made }
    ensures count { length result.items ≡ readers }
    ensures known { All (λ known. known ≡ prefix.now) result.items }
{
    for _ in 0..readers {
        made.push_reserved(LedgerReader {
            side: writer.factory().reader().ok(),
            prefix: prefix.copy(),
        });
    }
    made
}

/// A publisher whose list has one view, and 1 to 4 readers, unless memory is refused. It waits for nobody.
pub fn make<S: Drop, J: Publication>(
    alloc: Global,
    list: EmptyList<S>,
    first: Arc<S>,
    readers: u32,
) -> Result<(Publisher<S, J>, Vec<LedgerReader<S, J>>), AllocError>
    requires publication { list ≡ J.book }
    requires some { 1 ≤ readers }
    requires few { readers ≤ 4 }
    ensures publisher { IfOk result (λ made.
        (published made.0 ≡ arc_value first ∷ []) × (reader_count made.0 ≡ readers)) }
    ensures readers { IfOk result (λ made. All (λ known. known ≡ arc_value first ∷ []) made.1.items) }
    ensures count { IfOk result (λ made. length made.1.items ≡ readers) }
{
    let (count, prefix) = list.named::<J>();
    let made = Vec::with_capacity(alloc, readers as usize)?;
    let (writer, prefix) = make_sides(alloc, count, prefix, first, readers as usize)?;
    let made = make_readers(made, &writer, &prefix, readers);
    Ok((
        PublisherOf {
            writer,
            prefix,
            readers,
        },
        made,
    ))
}
