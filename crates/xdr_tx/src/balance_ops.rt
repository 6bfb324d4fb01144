//! Claimable balances.

ghost use Rattle.std.specs.Prelude.{◌≡◌, OnOk};
ghost use Rattle.xdr_core.specs.Position.{Reads, itself};
ghost use Rattle.xdr_core.specs.ReadFault.{cause_of};
ghost use Rattle.xdr_tx.specs.Operations as spec;

use op_types::{ClaimClaimableBalanceOp, ClawbackClaimableBalanceOp, CreateClaimableBalanceOp};
use std::alloc::{AllocError, Global};
use xdr_core::{Builder, Cursor, ReadFault, XdrFault, read_list, write_list};
use xdr_entries::{
    ClaimantFormat, MAX_CLAIMANTS, read_asset, read_claimable_balance_id, write_asset,
    write_claimable_balance_id,
};

/// Reads what makes a claimable balance.
#[tactic(auto, unfolding(crate::specs::Operations::create_claimable_balance_op))]
pub fn read_create_claimable_balance_op(
    alloc: Global,
    cursor: &mut Cursor<'_>,
) -> Result<CreateClaimableBalanceOp, ReadFault>
    ensures { Reads cause_of result cursor.old cursor.new (spec.create_claimable_balance_op.read cursor.old) }
{
    let mut ahead = cursor.fork();
    let asset = read_asset(&mut ahead)?;
    let amount = ahead.i64()?;
    let claimants = read_list::<ClaimantFormat>(alloc, MAX_CLAIMANTS, &mut ahead)?;
    *cursor = ahead;
    Ok(CreateClaimableBalanceOp {
        asset,
        amount,
        claimants,
    })
}

/// Writes what makes a claimable balance.
#[tactic(auto, unfolding(crate::specs::Operations::create_claimable_balance_op))]
pub fn write_create_claimable_balance_op(
    value: &CreateClaimableBalanceOp,
    builder: &mut Builder,
) -> Result<(), AllocError>
    requires { spec.create_claimable_balance_op.within value.now }
    ensures { OnOk result (builder.new ≡ spec.create_claimable_balance_op.onto builder.old value.now) }
{
    write_asset(&value.asset, builder)?;
    builder.i64(value.amount)?;
    write_list::<ClaimantFormat>(value.claimants.as_slice(), MAX_CLAIMANTS, builder)
}

/// Reads what claims a claimable balance.
#[tactic(auto, unfolding(crate::specs::Operations::claim_claimable_balance_op))]
pub fn read_claim_claimable_balance_op(
    cursor: &mut Cursor<'_>,
) -> Result<ClaimClaimableBalanceOp, XdrFault>
    ensures { Reads itself result cursor.old cursor.new (spec.claim_claimable_balance_op.read cursor.old) }
{
    let mut ahead = cursor.fork();
    let balance_id = read_claimable_balance_id(&mut ahead)?;
    *cursor = ahead;
    Ok(ClaimClaimableBalanceOp { balance_id })
}

/// Writes what claims a claimable balance.
#[tactic(auto, unfolding(crate::specs::Operations::claim_claimable_balance_op))]
pub fn write_claim_claimable_balance_op(
    value: &ClaimClaimableBalanceOp,
    builder: &mut Builder,
) -> Result<(), AllocError>
    ensures { OnOk result (builder.new ≡ spec.claim_claimable_balance_op.onto builder.old value.now) }
{
    write_claimable_balance_id(&value.balance_id, builder)
}

/// Reads what takes a claimable balance back.
#[tactic(auto, unfolding(crate::specs::Operations::clawback_claimable_balance_op))]
pub fn read_clawback_claimable_balance_op(
    cursor: &mut Cursor<'_>,
) -> Result<ClawbackClaimableBalanceOp, XdrFault>
    ensures { Reads itself result cursor.old cursor.new (spec.clawback_claimable_balance_op.read cursor.old) }
{
    let mut ahead = cursor.fork();
    let balance_id = read_claimable_balance_id(&mut ahead)?;
    *cursor = ahead;
    Ok(ClawbackClaimableBalanceOp { balance_id })
}

/// Writes what takes a claimable balance back.
#[tactic(auto, unfolding(crate::specs::Operations::clawback_claimable_balance_op))]
pub fn write_clawback_claimable_balance_op(
    value: &ClawbackClaimableBalanceOp,
    builder: &mut Builder,
) -> Result<(), AllocError>
    ensures { OnOk result (builder.new ≡ spec.clawback_claimable_balance_op.onto builder.old value.now) }
{
    write_claimable_balance_id(&value.balance_id, builder)
}
