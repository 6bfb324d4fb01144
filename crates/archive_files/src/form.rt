//! A history in one text. Its length is found without memory, so that no more is read of a source than it needs.

ghost use Rattle.std.specs.Prelude.{◌≡◌, IfOk};
ghost use Rattle.xdr_core.specs.Position.{Reads, ReadsBy, itself};
ghost use Rattle.xdr_core.specs.ReadFault.{cause_of};
ghost use Rattle.archive_files.specs.Form.{stated_history};
ghost use Rattle.archive_files.specs.Stated as spec;

use crate::adding::MAX_FILE_LEN;
use crate::history::History;
use item_list::ItemList;
use ledger_types::Hash;
use std::alloc::{AllocError, Global};
use xdr_core::{Cursor, ReadFault, XdrFault};
use xdr_entries::read_hash;
use xdr_header::read_file;

/// What `history` writes: the hash of the ledger before a chain and the number of its first ledger, and the files.
#[derive(Drop)]
pub struct StatedHistory {
    pub before: Hash,
    pub first: u32,
    pub history: History,
}

/// The bytes `SLH1`, as a discriminant.
const MAGIC: i32 = 0x534C4831;

/// The same, with files that are pieces of a text.
#[derive(Clone, Copy)]
pub(crate) struct Pieces<'a> {
    pub(crate) before: Hash,
    pub(crate) first: u32,
    pub(crate) headers: &'a [u8],
    pub(crate) sets: &'a [u8],
    pub(crate) results: &'a [u8],
}

/// Reads a history and copies none of it. A failure leaves the cursor as it was.
#[tactic(auto, unfolding(crate::specs::Form::stated_history))]
fn read_pieces<'a>(cursor: &mut Cursor<'a>) -> Result<Pieces<'a>, XdrFault>
    ensures { ReadsBy spec.stated_in itself result cursor.old cursor.new (stated_history.read cursor.old) }
{
    let mut ahead = cursor.fork();
    ahead.tag(MAGIC)?;
    let before = read_hash(&mut ahead)?;
    let first = ahead.u32()?;
    let headers = read_file(MAX_FILE_LEN as u64, &mut ahead)?;
    let sets = read_file(MAX_FILE_LEN as u64, &mut ahead)?;
    let results = read_file(MAX_FILE_LEN as u64, &mut ahead)?;
    *cursor = ahead;
    Ok(Pieces {
        before,
        first,
        headers,
        sets,
        results,
    })
}

/// Where the history at the start of a text ends, or its first fault. No memory is taken for it.
pub fn stated_history_length(text: &[u8]) -> Result<usize, XdrFault>
    ensures { spec.IsStatedLength text.now result }
{
    let mut ahead = Cursor::new(text);
    read_pieces(&mut ahead)?;
    Ok(ahead.at())
}

/// Copies of the files.
fn copy_of(alloc: Global, pieces: &Pieces<'_>) -> Result<StatedHistory, AllocError>
    ensures { IfOk result (λ stated. stated ≡ spec.stated_in pieces.now) }
{
    let headers = ItemList::from_slice(alloc, pieces.headers)?;
    let sets = ItemList::from_slice(alloc, pieces.sets)?;
    let results = ItemList::from_slice(alloc, pieces.results)?;
    let history = History {
        headers,
        sets,
        results,
    };
    Ok(StatedHistory {
        before: pieces.before,
        first: pieces.first,
        history,
    })
}

/// Reads a history. A failure leaves the cursor as it was.
pub fn read_stated_history(
    alloc: Global,
    cursor: &mut Cursor<'_>,
) -> Result<StatedHistory, ReadFault>
    ensures { Reads cause_of result cursor.old cursor.new (stated_history.read cursor.old) }
{
    let mut ahead = cursor.fork();
    let pieces = read_pieces(&mut ahead)?;
    let stated = copy_of(alloc, &pieces)?;
    *cursor = ahead;
    Ok(stated)
}
