//! The files of buckets (CAP-0020): what became of entries in a span of ledgers, as one text in the order of keys.
#![tactic(auto)]

mod bucket;
mod cursor;
mod fault;
mod filter;
mod hints;
mod index;
mod item_key;
mod judge;
mod key_encoding;
pub mod laws;
mod stored;

pub use bucket::Bucket;
pub use bucket_items::{BucketEntryType, BucketItem};
pub use cursor::BucketCursor;
pub use fault::BucketFault;
pub use filter::fingerprint;
pub use key_encoding::{encoded_bound, encoded_key};
pub use stored::StoredItem;
