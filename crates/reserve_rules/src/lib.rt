//! What accounts and trust lines can spend and take. No call takes memory.
#![tactic(auto)]

mod account;
mod change;
mod line;

pub use account::{add_balance, available, facts_available, min_balance, room};
pub use entry_slots;
pub use entry_slots::entry_map;
pub use line::{line_add, line_available, line_room};
