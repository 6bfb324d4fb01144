//! The ids of claimable balances (OperationID in Stellar-transaction.x).

ghost use Rattle.std.specs.Prelude.{◌≡◌, ◌++◌, pos, IfOk, OnOk};
ghost use Rattle.xdr_core.specs.Leaves.{i32, i64, u32};
ghost use Rattle.xdr_entries.specs.Basic.{account_id};
ghost use Rattle.hash_ids.specs.Ids.{balance_id_of, revoke_id_of};

use crate::digest::hash;
use ledger_types::{AccountId, Asset, ENVELOPE_TYPE_OP_ID, ENVELOPE_TYPE_POOL_REVOKE_OP_ID, Hash};
use std::alloc::{AllocError, Global};
use xdr_core::Builder;
use xdr_entries::{write_account_id, write_asset, write_hash};

/// The id of the claimable balance that the operation at index `op`, counted from 0, of a transaction makes.
pub fn balance_id(alloc: Global, source: &AccountId, seq: i64, op: u32) -> Result<Hash, AllocError>
    ensures { IfOk result (λ id. id ≡ balance_id_of source.now seq op) }
{
    let mut builder = Builder::new(alloc);
    write_operation(ENVELOPE_TYPE_OP_ID, source, seq, op, &mut builder)?;
    Ok(hash(builder.as_slice()))
}

/// The id of the claimable balance that the operation at index `op`, counted from 0, of a transaction makes of an asset
/// of a pool, as it revokes an authorisation.
#[tactic(auto, using(crate::proofs::Pieces::written_pieces))]
pub fn revoke_id(
    alloc: Global,
    source: &AccountId,
    seq: i64,
    op: u32,
    pool: &Hash,
    asset: &Asset,
) -> Result<Hash, AllocError>
    ensures { IfOk result (λ id. id ≡ revoke_id_of source.now seq op pool.now asset.now) }
{
    let mut builder = Builder::new(alloc);
    write_operation(
        ENVELOPE_TYPE_POOL_REVOKE_OP_ID,
        source,
        seq,
        op,
        &mut builder,
    )?;
    write_hash(pool, &mut builder)?;
    write_asset(asset, &mut builder)?;
    Ok(hash(builder.as_slice()))
}

/// Writes what names an operation.
#[tactic(auto, using(crate::proofs::Pieces::written_pieces))]
fn write_operation(
    kind: i32,
    source: &AccountId,
    seq: i64,
    op: u32,
    builder: &mut Builder,
) -> Result<(), AllocError>
    ensures { OnOk result (builder.new
        ≡ builder.old ++ i32.encoding kind ++ account_id.encoding source.now ++ i64.encoding seq ++ u32.encoding op) }
{
    builder.i32(kind)?;
    write_account_id(source, builder)?;
    builder.i64(seq)?;
    builder.u32(op)
}
