//! Why a call of a store or of a journal failed.

/// Why a call of a store, or of one of its journals, failed.
#[derive(Clone, Copy, Debug, PartialEq, Eq)]
pub enum StoreFault {
    /// A call on the volume failed.
    DiskFault,
    /// An earlier call on the volume failed, and the store was not mounted since.
    Failed,
    /// The volume holds no store: this is wrong at this offset of this file.
    BadStore { file: u8, place: u64 },
    /// No image is open.
    Missing,
    /// An image is open already.
    AlreadyThere,
    /// Memory was refused.
    NoMemory,
}
