//! Why a set can't be applied.

ghost use Rattle.std.specs.Prelude.{◌≡◌};
ghost use Rattle.tx_apply.specs.declared.fault.SetFault.TheVariants.{NoMemory};

use std::alloc::AllocError;
use thiserror::Error;

/// Why a set can't be applied. Nothing has changed then, but where memory was refused: after that the entries may only
/// be dropped.
#[derive(Clone, Copy, PartialEq, Eq, Debug, Error)]
pub enum SetFault {
    /// The transaction at this index of the set's list is the first in the order of application whose fee source has no
    /// account.
    #[error("no fee source for transaction {index}")]
    FeeSourceMissing { index: u32 },
    /// Memory was refused.
    #[error("no memory")]
    NoMemory,
}

impl From<AllocError> for SetFault {
    ghost from_gives = { λ _ fault. fault ≡ NoMemory };

    fn from(_refused: AllocError) -> SetFault {
        SetFault::NoMemory
    }
}
