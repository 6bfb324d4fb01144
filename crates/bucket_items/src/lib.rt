//! The items of a bucket's file where they lie there, and their keys in order, without memory for any of them.
#![tactic(auto)]

mod item;
mod key_ref;
mod key_text;
mod marked_item;
mod text;

pub use item::{BucketEntryType, BucketItem, from_key};
pub use key_ref::{KeyRef, read_key_ref};
pub use key_text::{compare, compare_with, order, order_prefix};
pub use marked_item::{item_text, next_item, read_marked_item};
