//! Laws of a close, over its definitions: what a state and a record that isn't refused lead to, and what an image does.
#![tactic(auto)]

pub mod closes;
pub mod entries;
pub mod header;
pub mod images;
pub mod records;
pub mod results;

pub use close_rules;
pub use close_rules::tx_apply;
