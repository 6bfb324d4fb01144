//! The laws of sponsorship: adding, removing and moving keep the counts of accounts equal to their sums over all
//! entries (CAP-0033).
#![tactic(auto)]

pub mod counts;
pub mod entries;
pub mod signers;
