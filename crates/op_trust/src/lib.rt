//! CHANGE_TRUST, of lines in issued assets and in pool shares.
#![tactic(auto)]

mod change_trust;
mod operations;
mod share_trust;

pub use operations::apply;
