//! The best offer of a pair.

ghost use Rattle.std.specs.Prelude.{◌≡◌, IfOk};
ghost use Rattle.entry_map.specs.Book.{AreOffersSound};
ghost use Rattle.offer_book.specs.Book as spec;

use entry_map::{Base, Entries};
use ledger_types::{Asset, OfferEntry};
use std::alloc::AllocError;

/// The offer at the head of a pair's book, of the least price and then of the least id (loadBestOffer in stellar-core).
/// None exactly where the book is empty.
#[tactic(auto, unfolding(crate::specs::Book::best, crate::specs::Book::book, entry_map::specs::Book::next_in))]
pub fn best<B: Base>(
    entries: &Entries<'_, B>,
    selling: &Asset,
    buying: &Asset,
) -> Result<Option<OfferEntry>, AllocError>
    ensures { AreOffersSound entries.now.current
        → IfOk result (λ offer. offer ≡ spec.best entries.now.current selling.now buying.now) }
{
    entries.offer_after(selling, buying, None)
}
