//! The next header of a chain: upgrades, and the hashes of earlier levels.
#![tactic(auto)]

mod skip_list;
mod upgrades;

pub use skip_list::finish;
pub use upgrades::{UpgradeFault, apply_upgrades};
