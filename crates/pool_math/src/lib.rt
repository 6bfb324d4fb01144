//! What liquidity pools of constant product give and take (CAP-0038): swaps, deposits and withdrawals, exact for all
//! amounts. No call takes memory.
#![tactic(auto)]

mod deposits;
mod swaps;
mod withdrawals;

pub use deposits::{Deposited, deposit};
pub use swaps::{swap_in, swap_out};
pub use withdrawals::withdraw;
