//! Trust lines, and what their issuers do.

ghost use Rattle.std.specs.Prelude.{◌≡◌, OnOk};
ghost use Rattle.xdr_core.specs.Position.{Reads, itself};
ghost use Rattle.xdr_tx.specs.Operations as spec;

use op_types::{AllowTrustOp, AssetCode, ChangeTrustOp, ClawbackOp, SetTrustLineFlagsOp};
use std::alloc::AllocError;
use xdr_core::{Builder, Cursor, XdrFault, XdrKind};
use xdr_entries::{
    read_account_id, read_asset, read_change_trust_asset, read_muxed_account, write_account_id,
    write_asset, write_change_trust_asset, write_muxed_account,
};

/// ASSET_TYPE_CREDIT_ALPHANUM4 (Stellar-ledger-entries.x).
const ASSET_TYPE_CREDIT_ALPHANUM4: i32 = 1;

/// ASSET_TYPE_CREDIT_ALPHANUM12 (Stellar-ledger-entries.x).
const ASSET_TYPE_CREDIT_ALPHANUM12: i32 = 2;

/// Reads the code of an asset.
#[tactic(auto, unfolding(crate::specs::Operations::asset_code))]
pub fn read_asset_code(cursor: &mut Cursor<'_>) -> Result<AssetCode, XdrFault>
    ensures { Reads itself result cursor.old cursor.new (spec.asset_code.read cursor.old) }
{
    let mut ahead = cursor.fork();
    let code = match ahead.i32()? {
        ASSET_TYPE_CREDIT_ALPHANUM4 => AssetCode::Alphanum4(ahead.array::<4>()?),
        ASSET_TYPE_CREDIT_ALPHANUM12 => AssetCode::Alphanum12(ahead.array::<12>()?),
        _ => return Err(cursor.fault(XdrKind::BadEnum)),
    };
    *cursor = ahead;
    Ok(code)
}

/// Writes the code of an asset.
#[tactic(auto, unfolding(crate::specs::Operations::asset_code))]
pub fn write_asset_code(value: &AssetCode, builder: &mut Builder) -> Result<(), AllocError>
    ensures { OnOk result (builder.new ≡ spec.asset_code.onto builder.old value.now) }
{
    match value {
        AssetCode::Alphanum4(code) => {
            builder.i32(ASSET_TYPE_CREDIT_ALPHANUM4)?;
            builder.fixed(code)
        }
        AssetCode::Alphanum12(code) => {
            builder.i32(ASSET_TYPE_CREDIT_ALPHANUM12)?;
            builder.fixed(code)
        }
    }
}

/// Reads what makes, changes or removes a trust line.
#[tactic(auto, unfolding(crate::specs::Operations::change_trust_op))]
pub fn read_change_trust_op(cursor: &mut Cursor<'_>) -> Result<ChangeTrustOp, XdrFault>
    ensures { Reads itself result cursor.old cursor.new (spec.change_trust_op.read cursor.old) }
{
    let mut ahead = cursor.fork();
    let line = read_change_trust_asset(&mut ahead)?;
    let limit = ahead.i64()?;
    *cursor = ahead;
    Ok(ChangeTrustOp { line, limit })
}

/// Writes what makes, changes or removes a trust line.
#[tactic(auto, unfolding(crate::specs::Operations::change_trust_op))]
pub fn write_change_trust_op(value: &ChangeTrustOp, builder: &mut Builder) -> Result<(), AllocError>
    ensures { OnOk result (builder.new ≡ spec.change_trust_op.onto builder.old value.now) }
{
    write_change_trust_asset(&value.line, builder)?;
    builder.i64(value.limit)
}

/// Reads what says whether a trust line may be used.
#[tactic(auto, unfolding(crate::specs::Operations::allow_trust_op))]
pub fn read_allow_trust_op(cursor: &mut Cursor<'_>) -> Result<AllowTrustOp, XdrFault>
    ensures { Reads itself result cursor.old cursor.new (spec.allow_trust_op.read cursor.old) }
{
    let mut ahead = cursor.fork();
    let trustor = read_account_id(&mut ahead)?;
    let asset = read_asset_code(&mut ahead)?;
    let authorize = ahead.u32()?;
    *cursor = ahead;
    Ok(AllowTrustOp {
        trustor,
        asset,
        authorize,
    })
}

/// Writes what says whether a trust line may be used.
#[tactic(auto, unfolding(crate::specs::Operations::allow_trust_op))]
pub fn write_allow_trust_op(value: &AllowTrustOp, builder: &mut Builder) -> Result<(), AllocError>
    ensures { OnOk result (builder.new ≡ spec.allow_trust_op.onto builder.old value.now) }
{
    write_account_id(&value.trustor, builder)?;
    write_asset_code(&value.asset, builder)?;
    builder.u32(value.authorize)
}

/// Reads what changes the flags of a trust line.
#[tactic(auto, unfolding(crate::specs::Operations::set_trust_line_flags_op))]
pub fn read_set_trust_line_flags_op(
    cursor: &mut Cursor<'_>,
) -> Result<SetTrustLineFlagsOp, XdrFault>
    ensures { Reads itself result cursor.old cursor.new (spec.set_trust_line_flags_op.read cursor.old) }
{
    let mut ahead = cursor.fork();
    let trustor = read_account_id(&mut ahead)?;
    let asset = read_asset(&mut ahead)?;
    let clear_flags = ahead.u32()?;
    let set_flags = ahead.u32()?;
    *cursor = ahead;
    Ok(SetTrustLineFlagsOp {
        trustor,
        asset,
        clear_flags,
        set_flags,
    })
}

/// Writes what changes the flags of a trust line.
#[tactic(auto, unfolding(crate::specs::Operations::set_trust_line_flags_op))]
pub fn write_set_trust_line_flags_op(
    value: &SetTrustLineFlagsOp,
    builder: &mut Builder,
) -> Result<(), AllocError>
    ensures { OnOk result (builder.new ≡ spec.set_trust_line_flags_op.onto builder.old value.now) }
{
    write_account_id(&value.trustor, builder)?;
    write_asset(&value.asset, builder)?;
    builder.u32(value.clear_flags)?;
    builder.u32(value.set_flags)
}

/// Reads what takes an asset back.
#[tactic(auto, unfolding(crate::specs::Operations::clawback_op))]
pub fn read_clawback_op(cursor: &mut Cursor<'_>) -> Result<ClawbackOp, XdrFault>
    ensures { Reads itself result cursor.old cursor.new (spec.clawback_op.read cursor.old) }
{
    let mut ahead = cursor.fork();
    let asset = read_asset(&mut ahead)?;
    let from = read_muxed_account(&mut ahead)?;
    let amount = ahead.i64()?;
    *cursor = ahead;
    Ok(ClawbackOp {
        asset,
        from,
        amount,
    })
}

/// Writes what takes an asset back.
#[tactic(auto, unfolding(crate::specs::Operations::clawback_op))]
pub fn write_clawback_op(value: &ClawbackOp, builder: &mut Builder) -> Result<(), AllocError>
    ensures { OnOk result (builder.new ≡ spec.clawback_op.onto builder.old value.now) }
{
    write_asset(&value.asset, builder)?;
    write_muxed_account(&value.from, builder)?;
    builder.i64(value.amount)
}
