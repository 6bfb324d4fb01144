//! Rows of values under keys, in the keys' order, as trees that share what they have alike.
#![tactic(auto)]

mod change;
mod changes;
mod find;
mod kept;
mod level;
mod tree;

pub use change::Change;
pub use kept::Kept;
pub use tree::Tree;
