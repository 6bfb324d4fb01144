//! Laws of counts.

ghost use Rattle.sponsor_laws.specs.Laws.{ZeroSponsorsNothing, SponsoredAtMost};

/// An account whose count of reserves that it pays as a sponsor is 0 is the sponsor of no entry and of no signer, where
/// claimable balances have claimants and pools have no sponsor.
pub fn zero_sponsors_nothing()
    ensures { ZeroSponsorsNothing }
{}

/// Others pay at most an account's own two reserves and one for each of its subentries, so its minimum balance is not
/// below 0.
pub fn sponsored_at_most()
    ensures { SponsoredAtMost }
{}
