//! Which texts, assets and predicates are valid, wherever they are: in entries and in operations.
#![tactic(auto)]

mod asset;
mod predicate;
mod text;

pub use asset::is_valid_asset;
pub use predicate::{is_valid_predicate, is_valid_stored_predicate};
pub use text::is_valid_text;
