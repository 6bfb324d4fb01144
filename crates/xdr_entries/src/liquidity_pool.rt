//! Liquidity pools.

ghost use Rattle.std.specs.Prelude.{◌≡◌, OnOk};
ghost use Rattle.xdr_core.specs.Position.{Reads, itself};
ghost use Rattle.xdr_entries.specs.Entries as spec;

use crate::asset::{read_pool_params, write_pool_params};
use crate::ids::{read_hash, write_hash};
use ledger_types::LiquidityPoolEntry;
use std::alloc::AllocError;
use xdr_core::{Builder, Cursor, XdrFault};

/// Reads a pool.
#[tactic(auto, unfolding(crate::specs::Entries::liquidity_pool_entry))]
pub fn read_liquidity_pool_entry(cursor: &mut Cursor<'_>) -> Result<LiquidityPoolEntry, XdrFault>
    ensures { Reads itself result cursor.old cursor.new (spec.liquidity_pool_entry.read cursor.old) }
{
    let mut ahead = cursor.fork();
    let pool = LiquidityPoolEntry {
        pool_id: read_hash(&mut ahead)?,
        params: read_pool_params(&mut ahead)?,
        reserve_a: ahead.i64()?,
        reserve_b: ahead.i64()?,
        total_pool_shares: ahead.i64()?,
        pool_shares_trust_line_count: ahead.i64()?,
    };
    *cursor = ahead;
    Ok(pool)
}

/// Writes a pool.
#[tactic(auto, unfolding(crate::specs::Entries::liquidity_pool_entry))]
pub fn write_liquidity_pool_entry(
    value: &LiquidityPoolEntry,
    builder: &mut Builder,
) -> Result<(), AllocError>
    ensures { OnOk result (builder.new ≡ spec.liquidity_pool_entry.onto builder.old value.now) }
{
    write_hash(&value.pool_id, builder)?;
    write_pool_params(&value.params, builder)?;
    builder.i64(value.reserve_a)?;
    builder.i64(value.reserve_b)?;
    builder.i64(value.total_pool_shares)?;
    builder.i64(value.pool_shares_trust_line_count)
}
