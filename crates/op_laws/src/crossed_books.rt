//! Laws of books that are crossed.

ghost use Rattle.op_laws.specs.CrossedBooks.{CrossedOffersGo, CrossedOffersRest, CrossingFollowsBook};

/// An offer that is crossed and goes leaves the rest of its book, in the same order.
pub fn crossed_offers_go()
    ensures { CrossedOffersGo }
{}

/// An offer that is crossed and stays is still the first of its book, with what rests of it, before the same others.
pub fn crossed_offers_rest()
    ensures { CrossedOffersRest }
{}

/// Crossing meets the offers of a book as it was ranked at first.
pub fn crossing_follows_book()
    ensures { CrossingFollowsBook }
{}
