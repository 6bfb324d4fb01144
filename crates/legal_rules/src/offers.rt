//! Laws of offers and of what they bind (CAP-0003).

ghost use Rattle.legal_rules.specs.OfferLaws.{LiabilitiesAcquired, LiabilitiesReleased, OfferChanged, NewOffersKeep};
ghost use Rattle.legal_rules.specs.OfferLaws.{ChangedOffersKeep};

/// What an offer binds is not open any more once it is bound.
pub fn liabilities_acquired()
    ensures { LiabilitiesAcquired }
{}

/// What an offer that exists binds can be released, and is open then.
pub fn liabilities_released()
    ensures { LiabilitiesReleased }
{}

/// An offer that is changed leaves open what it counts more.
pub fn offer_changed()
    ensures { OfferChanged }
{}

/// An offer that is added, and what it binds bound, keeps the state legal.
pub fn new_offers_keep()
    ensures { NewOffersKeep }
{}

/// An offer that is changed, with what it binds released before and bound again, keeps the state legal.
pub fn changed_offers_keep()
    ensures { ChangedOffersKeep }
{}
