//! Who pays the reserve of an entry or of a signer: what an account adds counts for it or for a sponsor (CAP-0033).
#![tactic(auto)]

mod adding;
mod charge;
mod context;
mod count;
mod counting;
mod fault;
mod moving;
mod owner;
mod payers;
mod paying;
mod removing;
mod signer_edits;
mod signer_index;
mod signers;
mod stored;

pub use adding::{add_entry, count_subentry};
pub use charge::{Charge, charge_of};
pub use context::{Ctx, Sponsorship};
pub use count::Count;
pub use counting::count_in;
pub use fault::AddFault;
pub use moving::move_entry;
pub use payers::open_sponsor;
pub use removing::{discount_subentry, remove_entry, remove_found};
pub use signer_index::{FoundSigner, found_signer};
pub use signers::{add_signer, move_signer, remove_preauth, remove_signer};
