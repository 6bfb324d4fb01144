//! Tests of the merge board, by one thread and by several.
#![tactic(auto)]

pub mod alone;
#[cfg(test)]
mod beside;
#[cfg(test)]
mod hold;
mod jobs;
pub mod slots;
