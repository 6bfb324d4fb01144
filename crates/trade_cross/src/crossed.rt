//! What a trade yielded.

use item_list::ItemList;
use ledger_types::ClaimAtom;

/// Why a trade ended (ConvertResult and CrossOfferResult in stellar-core).
#[derive(Clone, Copy, PartialEq, Eq)]
pub enum CrossEnd {
    /// One of the taker's bounds is used up.
    Converted,
    /// The book is used up.
    Partial,
    /// The next offer costs more than the taker accepts.
    BadPrice,
    /// The next offer is the taker's own.
    CrossSelf,
    /// No more offers may be crossed, and there is a next one.
    TooMany,
}

/// What was sent and received in all, and each offer that was crossed, in order. The taker's own entries haven't
/// changed yet.
#[derive(Drop)]
pub struct Crossed {
    pub sheep: i64,
    pub wheat: i64,
    pub atoms: ItemList<ClaimAtom>,
    pub end: CrossEnd,
}
