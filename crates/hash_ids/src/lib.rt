//! The ids and hashes of the protocol, each SHA-256 (FIPS 180-4) of the encoding of its preimage.
#![tactic(auto)]

mod digest;
mod operation_id;
mod pool;
mod transaction;

pub use digest::{full_hash, hash, header_hash, network_id};
pub use operation_id::{balance_id, revoke_id};
pub use pool::pool_id;
pub use transaction::{set_hash, tx_hash};
