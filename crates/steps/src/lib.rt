//! Counting steps, and the point that a worker passes before each merge: all that the crates of buckets and closing
//! need to know of the outside.
#![tactic(auto)]

mod gate;
mod steps;

pub use gate::{Gate, OpenGate};
pub use steps::Steps;
