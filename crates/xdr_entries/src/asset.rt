//! Assets, what trust lines are in, and the parameters of pools.

ghost use Rattle.std.specs.Prelude.{◌≡◌, OnOk};
ghost use Rattle.xdr_core.specs.Position.{Reads, itself};
ghost use Rattle.xdr_core.specs.Leaves.{fixed};
ghost use Rattle.xdr_core.specs.Combinators.{◌⨾◌};
ghost use Rattle.xdr_entries.specs.Basic as spec;

use crate::ids::{read_account_id, read_hash, write_account_id, write_hash};
use ledger_types::{AccountId, Asset, ChangeTrustAsset, PoolParams, TrustLineAsset};
use std::alloc::{AllocError, Global};
use xdr_core::{Builder, Cursor, Decode, Encode, ReadFault, XdrFault, XdrKind};

/// ASSET_TYPE_NATIVE (Stellar-ledger-entries.x).
const ASSET_TYPE_NATIVE: i32 = 0;

/// ASSET_TYPE_CREDIT_ALPHANUM4 (Stellar-ledger-entries.x).
const ASSET_TYPE_CREDIT_ALPHANUM4: i32 = 1;

/// ASSET_TYPE_CREDIT_ALPHANUM12 (Stellar-ledger-entries.x).
const ASSET_TYPE_CREDIT_ALPHANUM12: i32 = 2;

/// ASSET_TYPE_POOL_SHARE (Stellar-ledger-entries.x).
const ASSET_TYPE_POOL_SHARE: i32 = 3;

/// LIQUIDITY_POOL_CONSTANT_PRODUCT (Stellar-ledger-entries.x).
const LIQUIDITY_POOL_CONSTANT_PRODUCT: i32 = 0;

/// Reads a code of `N` bytes and the issuer of its asset.
fn read_code_and_issuer<const N: usize>(
    cursor: &mut Cursor<'_>,
) -> Result<([u8; N], AccountId), XdrFault>
    ensures { Reads itself result cursor.old cursor.new ((fixed N ⨾ spec.account_id).read cursor.old) }
{
    let mut ahead = cursor.fork();
    let code = ahead.array::<N>()?;
    let issuer = read_account_id(&mut ahead)?;
    *cursor = ahead;
    Ok((code, issuer))
}

/// Reads an asset.
#[tactic(auto, unfolding(crate::specs::Basic::asset))]
pub fn read_asset(cursor: &mut Cursor<'_>) -> Result<Asset, XdrFault>
    ensures { Reads itself result cursor.old cursor.new (spec.asset.read cursor.old) }
{
    let mut ahead = cursor.fork();
    let asset = match ahead.i32()? {
        ASSET_TYPE_NATIVE => Asset::Native,
        ASSET_TYPE_CREDIT_ALPHANUM4 => {
            let (code, issuer) = read_code_and_issuer::<4>(&mut ahead)?;
            Asset::Alphanum4 { code, issuer }
        }
        ASSET_TYPE_CREDIT_ALPHANUM12 => {
            let (code, issuer) = read_code_and_issuer::<12>(&mut ahead)?;
            Asset::Alphanum12 { code, issuer }
        }
        _ => return Err(cursor.fault(XdrKind::BadEnum)),
    };
    *cursor = ahead;
    Ok(asset)
}

/// Writes an asset.
#[tactic(auto, unfolding(crate::specs::Basic::asset))]
pub fn write_asset(value: &Asset, builder: &mut Builder) -> Result<(), AllocError>
    ensures { OnOk result (builder.new ≡ spec.asset.onto builder.old value.now) }
{
    match value {
        Asset::Native => builder.i32(ASSET_TYPE_NATIVE),
        Asset::Alphanum4 { code, issuer } => {
            builder.i32(ASSET_TYPE_CREDIT_ALPHANUM4)?;
            builder.fixed(code)?;
            write_account_id(issuer, builder)
        }
        Asset::Alphanum12 { code, issuer } => {
            builder.i32(ASSET_TYPE_CREDIT_ALPHANUM12)?;
            builder.fixed(code)?;
            write_account_id(issuer, builder)
        }
    }
}

/// Reads what a trust line is in.
#[tactic(auto, unfolding(crate::specs::Basic::trust_line_asset))]
pub fn read_trust_line_asset(cursor: &mut Cursor<'_>) -> Result<TrustLineAsset, XdrFault>
    ensures { Reads itself result cursor.old cursor.new (spec.trust_line_asset.read cursor.old) }
{
    let mut ahead = cursor.fork();
    let asset = match ahead.i32()? {
        ASSET_TYPE_NATIVE => TrustLineAsset::Native,
        ASSET_TYPE_CREDIT_ALPHANUM4 => {
            let (code, issuer) = read_code_and_issuer::<4>(&mut ahead)?;
            TrustLineAsset::Alphanum4 { code, issuer }
        }
        ASSET_TYPE_CREDIT_ALPHANUM12 => {
            let (code, issuer) = read_code_and_issuer::<12>(&mut ahead)?;
            TrustLineAsset::Alphanum12 { code, issuer }
        }
        ASSET_TYPE_POOL_SHARE => TrustLineAsset::PoolShare(read_hash(&mut ahead)?),
        _ => return Err(cursor.fault(XdrKind::BadEnum)),
    };
    *cursor = ahead;
    Ok(asset)
}

/// Writes what a trust line is in.
#[tactic(auto, unfolding(crate::specs::Basic::trust_line_asset))]
pub fn write_trust_line_asset(
    value: &TrustLineAsset,
    builder: &mut Builder,
) -> Result<(), AllocError>
    ensures { OnOk result (builder.new ≡ spec.trust_line_asset.onto builder.old value.now) }
{
    match value {
        TrustLineAsset::Native => builder.i32(ASSET_TYPE_NATIVE),
        TrustLineAsset::Alphanum4 { code, issuer } => {
            builder.i32(ASSET_TYPE_CREDIT_ALPHANUM4)?;
            builder.fixed(code)?;
            write_account_id(issuer, builder)
        }
        TrustLineAsset::Alphanum12 { code, issuer } => {
            builder.i32(ASSET_TYPE_CREDIT_ALPHANUM12)?;
            builder.fixed(code)?;
            write_account_id(issuer, builder)
        }
        TrustLineAsset::PoolShare(pool) => {
            builder.i32(ASSET_TYPE_POOL_SHARE)?;
            write_hash(pool, builder)
        }
    }
}

/// Reads the parameters of a pool.
#[tactic(auto, unfolding(crate::specs::Basic::pool_params))]
pub fn read_pool_params(cursor: &mut Cursor<'_>) -> Result<PoolParams, XdrFault>
    ensures { Reads itself result cursor.old cursor.new (spec.pool_params.read cursor.old) }
{
    let mut ahead = cursor.fork();
    ahead.tag(LIQUIDITY_POOL_CONSTANT_PRODUCT)?;
    let params = PoolParams {
        asset_a: read_asset(&mut ahead)?,
        asset_b: read_asset(&mut ahead)?,
        fee: ahead.i32()?,
    };
    *cursor = ahead;
    Ok(params)
}

/// Writes the parameters of a pool.
#[tactic(auto, unfolding(crate::specs::Basic::pool_params))]
pub fn write_pool_params(value: &PoolParams, builder: &mut Builder) -> Result<(), AllocError>
    ensures { OnOk result (builder.new ≡ spec.pool_params.onto builder.old value.now) }
{
    builder.tag(LIQUIDITY_POOL_CONSTANT_PRODUCT)?;
    write_asset(&value.asset_a, builder)?;
    write_asset(&value.asset_b, builder)?;
    builder.i32(value.fee)
}

/// Reads what a trust line is asked for.
#[tactic(auto, unfolding(crate::specs::Basic::change_trust_asset))]
pub fn read_change_trust_asset(cursor: &mut Cursor<'_>) -> Result<ChangeTrustAsset, XdrFault>
    ensures { Reads itself result cursor.old cursor.new (spec.change_trust_asset.read cursor.old) }
{
    let mut ahead = cursor.fork();
    let asset = match ahead.i32()? {
        ASSET_TYPE_NATIVE => ChangeTrustAsset::Native,
        ASSET_TYPE_CREDIT_ALPHANUM4 => {
            let (code, issuer) = read_code_and_issuer::<4>(&mut ahead)?;
            ChangeTrustAsset::Alphanum4 { code, issuer }
        }
        ASSET_TYPE_CREDIT_ALPHANUM12 => {
            let (code, issuer) = read_code_and_issuer::<12>(&mut ahead)?;
            ChangeTrustAsset::Alphanum12 { code, issuer }
        }
        ASSET_TYPE_POOL_SHARE => ChangeTrustAsset::PoolShare(read_pool_params(&mut ahead)?),
        _ => return Err(cursor.fault(XdrKind::BadEnum)),
    };
    *cursor = ahead;
    Ok(asset)
}

/// Writes what a trust line is asked for.
#[tactic(auto, unfolding(crate::specs::Basic::change_trust_asset))]
pub fn write_change_trust_asset(
    value: &ChangeTrustAsset,
    builder: &mut Builder,
) -> Result<(), AllocError>
    ensures { OnOk result (builder.new ≡ spec.change_trust_asset.onto builder.old value.now) }
{
    match value {
        ChangeTrustAsset::Native => builder.i32(ASSET_TYPE_NATIVE),
        ChangeTrustAsset::Alphanum4 { code, issuer } => {
            builder.i32(ASSET_TYPE_CREDIT_ALPHANUM4)?;
            builder.fixed(code)?;
            write_account_id(issuer, builder)
        }
        ChangeTrustAsset::Alphanum12 { code, issuer } => {
            builder.i32(ASSET_TYPE_CREDIT_ALPHANUM12)?;
            builder.fixed(code)?;
            write_account_id(issuer, builder)
        }
        ChangeTrustAsset::PoolShare(params) => {
            builder.i32(ASSET_TYPE_POOL_SHARE)?;
            write_pool_params(params, builder)
        }
    }
}

/// Assets, as a format.
pub enum AssetFormat {}

impl Decode for AssetFormat {
    type Value = Asset;

    type Failure = ReadFault;

    ghost format = { spec.asset };

    fn decode(_alloc: Global, cursor: &mut Cursor<'_>) -> Result<Asset, ReadFault> {
        Ok(read_asset(cursor)?)
    }
}

impl Encode for AssetFormat {
    #[tactic(auto, using(crate::proofs::AllLaws::written_values))]
    fn encode(value: &Asset, builder: &mut Builder) -> Result<(), AllocError> {
        write_asset(value, builder)
    }
}
