//! The ids of pools.

ghost use Rattle.std.specs.Prelude.{◌≡◌, IfOk};
ghost use Rattle.hash_ids.specs.Ids.{pool_id_of};

use crate::digest::hash;
use ledger_types::{Asset, Hash, PoolParams};
use std::alloc::{AllocError, Global};
use xdr_core::Builder;
use xdr_entries::write_pool_params;

/// The fee of every pool, in hundredths of a percent (LIQUIDITY_POOL_FEE_V18 in Stellar-ledger-entries.x).
const POOL_FEE: i32 = 30;

/// The id of the pool of two assets.
#[tactic(auto, using(crate::proofs::Pieces::written_pieces))]
pub fn pool_id(alloc: Global, a: &Asset, b: &Asset) -> Result<Hash, AllocError>
    ensures { IfOk result (λ id. id ≡ pool_id_of a.now b.now) }
{
    let params = PoolParams {
        asset_a: *a,
        asset_b: *b,
        fee: POOL_FEE,
    };
    let mut builder = Builder::new(alloc);
    write_pool_params(&params, &mut builder)?;
    Ok(hash(builder.as_slice()))
}
