//! Operations on liquidity pools: LIQUIDITY_POOL_DEPOSIT and LIQUIDITY_POOL_WITHDRAW (CAP-0038).
#![tactic(auto)]

mod deposit;
mod depositing;
mod holdings;
mod operations;
mod withdraw;

pub use operations::apply;
