//! Why changes are not applied.

ghost use Rattle.std.specs.Prelude.{◌≡◌};
ghost use Rattle.change_stream.specs.declared.fault.StreamFault.TheVariants.{NoMemory};

use std::alloc::AllocError;

/// Why changes are not applied.
#[derive(Clone, Copy, Debug, PartialEq, Eq)]
pub enum StreamFault {
    /// The change at this index is the first that doesn't fit the entries that exist.
    Mismatch { index: usize },
    /// Memory was refused: the entries may only be dropped.
    NoMemory,
}

impl From<AllocError> for StreamFault {
    ghost from_gives = { λ _ fault. fault ≡ NoMemory };

    fn from(_refused: AllocError) -> StreamFault {
        StreamFault::NoMemory
    }
}
