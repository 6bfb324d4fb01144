//! Laws of indexes.

ghost use Rattle.entry_map.specs.Indexes.{IndexesAreOfOffers, IndexStaysRight};

/// An index that `OfferIndex::with_changes` made again and again, by any list of batches, is that of the changed list.
pub fn an_index_stays_right()
    ensures { IndexStaysRight }
{}

/// The index that `Entries` carry is that of the map's offers, so what is said of lists of offers holds of it.
pub fn indexes_are_of_offers()
    ensures { IndexesAreOfOffers }
{}
