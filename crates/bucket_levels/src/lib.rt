//! The eleven levels of a ledger's buckets (BucketList in stellar-core): two files each, of which a close moves some.
#![tactic(auto)]

mod hand_in;
mod hash;
mod jobs;
mod laws;
mod levels;
mod pair;
mod pending;
mod plan;
mod size;
mod spills;

pub use hand_in::{HandInBack, HandInFault};
pub use laws::{steps_are_in_order, steps_represent};
pub use levels::Levels;
pub use pair::LevelPair;
pub use plan::LevelStep;
pub use size::file_total;
