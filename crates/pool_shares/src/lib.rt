//! Shares of pools: what they give of a pool's reserves, the lines that they are in, and the pools of which an account
//! has such lines (CAP-0038).
#![tactic(auto)]

mod account_pools;
pub mod laws;
mod share_lines;
mod withdrawing;

pub use account_pools::pools_held_by;
pub use share_lines::{count_share_lines, put_pool, remove_share_line};
pub use withdrawing::{Part, ShareChange, part_of, store_shares};
