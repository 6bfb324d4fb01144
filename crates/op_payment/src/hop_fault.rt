//! Why a hop of a path isn't served.

/// Why a hop isn't served.
#[derive(Clone, Copy, PartialEq, Eq)]
pub enum HopFault {
    /// The next offer to be crossed is the source's own, and no pool can serve.
    CrossSelf,
    /// More offers would be crossed than an operation may, and no pool can serve.
    TooMany,
    /// Neither the book nor a pool has enough.
    TooFew,
}
