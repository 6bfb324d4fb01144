//! Laws of takers that cross a book, and of offers that are cancelled.

ghost use Rattle.trade_cross.specs.Cancelling.{CancelledOffersKeep};
ghost use Rattle.trade_cross.specs.CrossingLaws.{CrossingKeeps};
ghost use Rattle.trade_cross.specs.HopLaws.{HopKeeps};

/// Crossing keeps a state legal, also where something is counted that doesn't exist. Each holder has what the atoms
/// give it, less what they take, no account ends with less than nothing available unless it had less, and who isn't
/// crossed keeps what it had.
pub fn crossing_keeps()
    ensures { CrossingKeeps }
{}

/// A hop keeps a state legal, by the book and by the pool. Each holder has what the atoms give it, less what they take,
/// no account ends with less than nothing available unless it had less, and no more offers are crossed than may be.
pub fn hop_keeps()
    ensures { HopKeeps }
{}

/// An offer that is removed without a trade leaves a state that is as legal as before.
pub fn cancelled_offers_keep()
    ensures { CancelledOffersKeep }
{}
