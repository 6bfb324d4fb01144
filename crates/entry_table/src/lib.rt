//! What a batch of changes leaves of entries, and rows of values under keys laid over one another.
#![tactic(auto)]

mod kept;
mod next;
mod rows;

pub use kept::Kept;
pub use next::{count_after, stamp_batch};
pub use rows::overlay;
