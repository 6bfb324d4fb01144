//! The program `watch`: readers of an account beside a ledger that closes.
#![tactic(auto)]

mod asked;
mod beside;
pub mod laws;
mod lines;
mod publishing;
mod reading;
mod run;

pub use run::{do_watch, run_watch};
