//! What a volume in memory counts of a call.

/// A call on a volume in memory that counts a range, or a sync that was made.
#[derive(Drop)]
pub(crate) enum Call {
    /// A piece was to be written from `at` on, and was, or the call failed.
    Write {
        file: u8,
        at: u64,
        piece: Vec<u8>,
        done: bool,
    },
    /// A file was to be cut, and was, or the call failed.
    Cut {
        file: u8,
        size: u64,
        done: bool,
    },
    /// What the files held was kept.
    Sync,
}
