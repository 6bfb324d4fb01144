//! The image of a sample.

ghost use Rattle.std.specs.Prelude.{◌≡◌, ◌∷◌, [], IfOk, None, length, map, replicate};
ghost use Rattle.xdr_header.specs.Header.{ledger_header};
ghost use Rattle.bucket_levels.specs.Hash.{list_hash as hash_of_list};
ghost use Rattle.bucket_levels.specs.Levels.{pair_of};
ghost use Rattle.sample_ledger.specs.Image as spec;

use crate::accounts::Accounts;
use crate::first_file::first_file;
use bucket_core::Bucket;
use bucket_levels::{LevelPair, Levels};
use item_list::ItemList;
use ledger_types::{Hash, LedgerHeader, StellarValue};
use std::alloc::{AllocError, Global};
use std::sync::Arc;
use xdr_core::Builder;
use xdr_header::{StartImage, write_ledger_header};

/// How many levels are below the first one.
const OTHER_LEVELS: usize = 10;

/// How many files follow the first one.
const OTHER_FILES: usize = 21;

/// The files of the levels, of which the first one alone isn't empty.
fn first_pairs(alloc: Global, bucket: &Arc<Bucket>) -> Result<Vec<LevelPair>, AllocError>
    ensures { IfOk result (λ pairs. map pair_of pairs.items ≡ spec.levels_with bucket.now.value) }
{
    let mut pairs = Vec::new(alloc);
    pairs.push(LevelPair {
        curr: Arc::try_clone(bucket)?,
        snap: Bucket::empty(alloc)?,
    })?;
    for _level in 0..OTHER_LEVELS {
        pairs.push(LevelPair {
            curr: Bucket::empty(alloc)?,
            snap: Bucket::empty(alloc)?,
        })?;
    }
    Ok(pairs)
}

/// The hash of the levels.
fn list_hash(alloc: Global, bucket: &Arc<Bucket>) -> Result<Hash, AllocError>
    ensures { IfOk result (λ hash. hash ≡ hash_of_list (spec.levels_with bucket.now.value)) }
{
    let pairs = first_pairs(alloc, bucket)?;
    let levels = Levels::restart(pairs, 1)?;
    Ok(levels.hash())
}

/// The header of ledger 1, whose levels have this hash.
fn header_with(alloc: Global, levels: Hash) -> LedgerHeader
    ensures { result ≡ spec.header_with levels }
{
    let nothing = Hash([0; 32]);
    LedgerHeader {
        ledger_version: 18,
        previous_ledger_hash: nothing,
        scp_value: StellarValue {
            tx_set_hash: nothing,
            close_time: 1000,
            upgrades: ItemList::new(alloc),
            ext: None,
        },
        tx_set_result_hash: nothing,
        bucket_list_hash: levels,
        ledger_seq: 1,
        total_coins: 9_000_000_000_000,
        fee_pool: 0,
        inflation_seq: 0,
        id_pool: 0,
        base_fee: 100,
        base_reserve: 5_000_000,
        max_tx_set_size: 1000,
        skip_list: [nothing; 4],
        ext: None,
    }
}

/// The encoding of a header.
fn header_bytes(alloc: Global, header: &LedgerHeader) -> Result<ItemList<u8>, AllocError>
    requires { ledger_header.within header.now }
    ensures { IfOk result (λ bytes. bytes ≡ ledger_header.encoding header.now) }
{
    let mut builder = Builder::new(alloc);
    write_ledger_header(header, &mut builder)?;
    Ok(ItemList::from_vec(builder.finish()))
}

/// The files of the image, of which the first one alone isn't empty.
fn files_with(alloc: Global, file: &[u8]) -> Result<ItemList<ItemList<u8>>, AllocError>
    ensures { IfOk result (λ files. files ≡ file.now ∷ replicate 21 []) }
{
    let mut files = ItemList::new(alloc);
    files.push(ItemList::from_slice(alloc, file)?)?;
    for _index in 0..OTHER_FILES {
        files.push(ItemList::new(alloc))?;
    }
    Ok(files)
}

/// The bucket of the accounts.
fn first_bucket(alloc: Global, seed: u32) -> Result<Arc<Bucket>, AllocError>
    ensures { IfOk result (λ bucket. bucket.value ≡ spec.first_bucket seed) }
{
    let accounts = Accounts::new(alloc, seed)?;
    let file = first_file(alloc, &accounts)?;
    Bucket::of_file(file)
}

/// The image of ledger 1, from which the sample of a seed begins.
pub fn image(alloc: Global, seed: u32) -> Result<StartImage, AllocError>
    ensures { IfOk result (λ image. image ≡ spec.first_image seed) }
{
    let bucket = first_bucket(alloc, seed)?;
    let header = header_with(alloc, list_hash(alloc, &bucket)?);
    Ok(StartImage {
        header: header_bytes(alloc, &header)?,
        files: files_with(alloc, bucket.bytes())?,
    })
}
