//! A queue under a rule whose seats count what the queue answered: each look that found nothing, each of these that was
//! begun after the queue was closed, and each value that found no slot.
//!
//! A seat's counts are private, and the methods here alone raise them, each where the queue below it answered so: that
//! they stand in the arm of that answer, and in no other, is what a reader of these bodies sees and no clause says.
#![tactic(auto)]

mod queue;
mod seat;

pub use queue::{Closing, CountedQueue};
pub use seat::Seat;
