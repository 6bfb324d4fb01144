//! The bounds of a trade.

/// How much a trade may move at most: the resting offer sends wheat and receives sheep, and the taker the other way
/// round. Each is at least 0; the greatest i64 is no bound.
#[derive(Clone, Copy, PartialEq, Eq)]
pub struct Bounds {
    pub wheat_send: i64,
    pub wheat_receive: i64,
    pub sheep_send: i64,
    pub sheep_receive: i64,
}
