//! What mounting a volume gives.

use crate::store::Store;
use item_list::ItemList;
use ledger_types::Hash;
use xdr_header::StartImage;

/// What a volume keeps, and the store that represents it.
#[derive(Drop)]
pub struct Mounted {
    pub store: Store,
    /// The network id of the ledger.
    pub network: Hash,
    /// The ledger from which the records go on.
    pub image: StartImage,
    /// The records since, each of at most 16777216 bytes, in their order.
    pub closes: ItemList<ItemList<u8>>,
    /// The epoch of the image, which is even in file 0 and odd in file 1.
    pub epoch: u64,
    /// The format of the image's file, 1 or 2.
    pub format: u8,
}
