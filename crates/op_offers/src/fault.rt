//! Why an operation on offers fails.

ghost use Rattle.std.specs.Prelude.{◌≡◌};
ghost use Rattle.op_offers.specs.declared.fault.OfferFault.TheVariants.{NoMemory};

use sponsor_rules::AddFault;
use std::alloc::AllocError;

/// Why an operation on offers fails, by its steps in their order (ManageOfferOpFrameBase in stellar-core).
#[derive(Clone, Copy)]
pub enum OfferFault {
    /// A field of the operation is not valid.
    Malformed,
    /// The source has no offer with this id.
    NotFound,
    /// The source has no line in what is sold.
    SellNoTrust,
    /// That line is empty.
    NothingToSell,
    /// That line doesn't carry AUTHORIZED.
    SellNotAuthorized,
    /// The source has no line in what is bought.
    BuyNoTrust,
    /// That line doesn't carry AUTHORIZED.
    BuyNotAuthorized,
    /// The reserve of a new offer isn't paid.
    Reserve(AddFault),
    /// The source can't take in what is asked for.
    LineFull,
    /// The source can't give what is offered.
    Underfunded,
    /// The next offer to be crossed is the source's own.
    CrossSelf,
    /// More offers would be crossed than an operation may.
    TooMany,
    /// Memory was refused. The map may only be dropped.
    NoMemory,
}

impl From<AllocError> for OfferFault {
    ghost from_gives = { λ _ fault. fault ≡ NoMemory };

    fn from(_: AllocError) -> OfferFault {
        OfferFault::NoMemory
    }
}
