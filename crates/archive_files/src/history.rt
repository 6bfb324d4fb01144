//! Histories, and what is said of them.

ghost use Rattle.std.specs.Prelude.{◌≡◌};
ghost use Rattle.archive_files.specs.declared.history.HistoryFault.TheVariants.{NoMemory};

use item_list::ItemList;
use ledger_types::Hash;
use std::alloc::AllocError;
use xdr_core::XdrKind;

/// The three files of an archive, uncompressed.
#[derive(Drop)]
pub struct History {
    pub headers: ItemList<u8>,
    pub sets: ItemList<u8>,
    pub results: ItemList<u8>,
}

/// How many ledgers a chain has, and the hash of the last, which is the one before them all where there are none.
#[derive(Clone, Copy)]
pub struct Verified {
    pub closes: u32,
    pub last: Hash,
}

/// Why a history is no chain. Files are numbered from 0: headers, transactions, results. But for `Xdr`, the offset `at`
/// is that of a record mark.
#[derive(Clone, Copy)]
pub enum HistoryFault {
    /// A record isn't read: it has this fault at this offset of its file.
    Xdr { file: u32, at: usize, kind: XdrKind },
    /// A record's number isn't above that of the record before it, or is that of no header.
    Stray { file: u32, at: usize },
    /// A header has another number than is wanted.
    Seq { at: usize, want: u64, given: u32 },
    /// A header has another hash than the one stated beside it.
    HeaderHash { at: usize },
    /// A header names another hash than that of the header before it.
    Link { at: usize },
    /// A header names the hash of another set.
    SetHash { at: usize },
    /// A header names the hash of other results.
    ResultHash { at: usize },
    /// Memory was refused, which says nothing of the history.
    NoMemory,
}

impl From<AllocError> for HistoryFault {
    ghost from_gives = { λ _ fault. fault ≡ NoMemory };

    fn from(_refused: AllocError) -> HistoryFault {
        HistoryFault::NoMemory
    }
}
