//! What a close changed of the ledger's entries, as a list of changes: made of a batch, reversed, applied, and encoded.
#![tactic(auto)]

mod applying;
mod change;
mod codec;
mod fault;
pub mod laws;
mod making;
mod sorting;

pub use applying::apply_changes;
pub use change::{Change, reverse};
pub use codec::{read_change, write_change};
pub use fault::StreamFault;
pub use making::changes;
