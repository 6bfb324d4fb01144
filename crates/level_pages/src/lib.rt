//! Entries looked up in the files of levels.
#![tactic(auto)]

mod after;
mod newest;
mod next;
mod stored_entries;

pub use after::{next_entry, next_entry_up_to};
pub use newest::find_entry;
pub use stored_entries::{StoredEntries, share_pair, share_pairs};
