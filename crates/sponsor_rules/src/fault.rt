//! Why something is not added or moved.

ghost use Rattle.std.specs.Prelude.{◌≡◌};
ghost use Rattle.sponsor_rules.specs.declared.fault.AddFault.TheVariants.{NoMemory};

use std::alloc::AllocError;

/// Why an entry or a signer is not added, or not moved to another payer (SponsorshipResult in stellar-core). Each but
/// `NoMemory` leaves the map as it was.
#[derive(Clone, Copy, Debug, PartialEq, Eq)]
pub enum AddFault {
    /// The owner would have more than 1000 subentries.
    TooManySubentries,
    /// The subentries of the payer or of the owner, and the reserves that it pays as a sponsor, would not fit 32 bits
    /// together.
    TooManySponsoring,
    /// The payer cannot spend the reserve.
    LowReserve,
    /// Memory was refused. The map may only be dropped.
    NoMemory,
}

impl From<AllocError> for AddFault {
    ghost from_gives = { λ _ fault. fault ≡ NoMemory };

    fn from(_: AllocError) -> AddFault {
        AddFault::NoMemory
    }
}
