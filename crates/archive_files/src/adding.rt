//! Adding closes to a history.

ghost use Rattle.std.specs.Prelude.{◌≡◌, ◌↔◌, ◌++◌, ◌+◌, ◌≤◌, ℕ, length, take, IsTrue, OnOk, OnErr};
ghost use Rattle.archive_files.specs.declared.adding.AddCloseFault.TheVariants.{NoMemory};
ghost use Rattle.archive_files.specs.Added as spec;

use crate::close_records::close_records;
use crate::closed::Closed;
use crate::history::History;
use item_list::ItemList;
use ledger_types::LedgerHeader;
use op_types::{TransactionResultSet, TransactionSet};
use std::alloc::{AllocError, Global};
use std::mem;

/// The greatest length of a history's file, in bytes.
pub(crate) const MAX_FILE_LEN: usize = 268_435_456;

/// Why a close isn't added.
#[derive(Clone, Copy, Debug, PartialEq, Eq)]
pub enum AddCloseFault {
    /// A file would have more than 268435456 bytes.
    TooLarge,
    /// Memory was refused.
    NoMemory,
}

impl From<AllocError> for AddCloseFault {
    ghost from_gives = { λ _ fault. fault ≡ NoMemory };

    fn from(_refused: AllocError) -> AddCloseFault {
        AddCloseFault::NoMemory
    }
}

/// Whether a file has room for more bytes.
fn has_room(file: &ItemList<u8>, bytes: &[u8]) -> bool
    ensures { IsTrue result ↔ (length (file.now ++ bytes.now) ≤ spec.max_file_len) }
{
    bytes.len() <= MAX_FILE_LEN && file.len() <= MAX_FILE_LEN - bytes.len()
}

/// Adds bytes at the end of a file. Where memory is refused the file stays as it was.
fn append(file: &mut ItemList<u8>, bytes: &[u8]) -> Result<(), AllocError>
    ensures ok { OnOk result (file.new ≡ file.old ++ bytes.now) }
    ensures err { OnErr result (file.new ≡ file.old) }
{
    let empty = ItemList::new(file.allocator());
    let mut all = mem::replace(file, empty).into_vec();
    let appended = all.extend_from_slice(bytes);
    *file = ItemList::from_vec(all);
    appended
}

/// Cuts a file back to a length.
fn cut_back(file: &mut ItemList<u8>, len: usize)
    ensures { file.new ≡ take len file.old }
{
    let empty = ItemList::new(file.allocator());
    let mut all = mem::replace(file, empty).into_vec();
    all.truncate(len);
    *file = ItemList::from_vec(all);
}

/// Adds a record at the end of each file. Where memory is refused the files stay as they were.
fn append_all(
    history: &mut History,
    header: &[u8],
    set: &[u8],
    results: &[u8],
) -> Result<(), AllocError>
    ensures ok { OnOk result (history.new ≡ spec.extended history.old header.now set.now results.now) }
    ensures err { OnErr result (history.new ≡ history.old) }
{
    let headers_len = history.headers.len();
    let sets_len = history.sets.len();
    append(&mut history.headers, header)?;
    if let Err(refused) = append(&mut history.sets, set) {
        cut_back(&mut history.headers, headers_len);
        return Err(refused);
    }
    if let Err(refused) = append(&mut history.results, results) {
        cut_back(&mut history.headers, headers_len);
        cut_back(&mut history.sets, sets_len);
        return Err(refused);
    }
    Ok(())
}

/// Adds the records of a close, of which these are the parts, at the ends of a history's files: its header's, and where
/// it has transactions theirs and their results'. A failure leaves the files as they were.
pub fn add_records(
    alloc: Global,
    history: &mut History,
    header: &LedgerHeader,
    set: &TransactionSet,
    results: &TransactionResultSet,
) -> Result<(), AddCloseFault>
    requires { spec.IsWithinBounds (record { header = header.now; set = set.now; results = results.now }) }
    ensures { spec.IsCloseAdded history.old (record { header = header.now; set = set.now; results = results.now })
        result history.new }
{
    let records = close_records(alloc, header, set, results)?;
    let (header, set, results) = (
        records.header.as_slice(),
        records.set.as_slice(),
        records.results.as_slice(),
    );
    let has_room = has_room(&history.headers, header)
        && has_room(&history.sets, set)
        && has_room(&history.results, results);
    if !has_room {
        return Err(AddCloseFault::TooLarge);
    }
    append_all(history, header, set, results)?;
    Ok(())
}

/// Adds the records of a close at the ends of a history's files, as `add_records` does.
pub fn add_close(alloc: Global, history: &mut History, close: &Closed) -> Result<(), AddCloseFault>
    requires { spec.IsWithinBounds close.now }
    ensures { spec.IsCloseAdded history.old close.now result history.new }
{
    add_records(alloc, history, &close.header, &close.set, &close.results)
}
