//! Laws of offers that are sold.

ghost use Rattle.op_offers.specs.SellingLaws.{SellingKeeps, OldOffersOut};

/// An offer that is counted and doesn't exist is sold from a legal state to a legal one, in which aggregates owe
/// nothing.
pub fn selling_keeps()
    ensures { SellingKeeps }
{}

/// An old offer that is taken out of its book leaves a legal state, in which it is still counted, and its source
/// holds both of its assets.
pub fn old_offers_out()
    ensures { OldOffersOut }
{}
