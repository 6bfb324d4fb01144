//! The entries that eleven levels represent.
#![tactic(auto)]

mod file_row;
mod judge;
mod left;
mod levels;
mod offers;
mod overlay;
mod placed;

pub use levels::level_entries;
pub use placed::PlacedEntries;
