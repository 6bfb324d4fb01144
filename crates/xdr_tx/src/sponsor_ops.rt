//! Sponsorship.

ghost use Rattle.std.specs.Prelude.{◌≡◌, OnOk};
ghost use Rattle.xdr_core.specs.Position.{Reads, itself};
ghost use Rattle.xdr_core.specs.ReadFault.{cause_of};
ghost use Rattle.xdr_tx.specs.Operations as spec;

use op_types::{BeginSponsoringFutureReservesOp, RevokeSponsorshipOp};
use std::alloc::{AllocError, Global};
use xdr_core::{Builder, Cursor, ReadFault, XdrFault, XdrKind};
use xdr_entries::{
    read_account_id, read_ledger_key, read_signer_key, write_account_id, write_ledger_key,
    write_signer_key,
};

/// REVOKE_SPONSORSHIP_LEDGER_ENTRY (Stellar-transaction.x).
const REVOKE_SPONSORSHIP_LEDGER_ENTRY: i32 = 0;

/// REVOKE_SPONSORSHIP_SIGNER (Stellar-transaction.x).
const REVOKE_SPONSORSHIP_SIGNER: i32 = 1;

/// Reads what begins a sponsorship.
#[tactic(auto, unfolding(crate::specs::Operations::begin_sponsoring_future_reserves_op))]
pub fn read_begin_sponsoring_future_reserves_op(
    cursor: &mut Cursor<'_>,
) -> Result<BeginSponsoringFutureReservesOp, XdrFault>
    ensures { Reads itself result cursor.old cursor.new (spec.begin_sponsoring_future_reserves_op.read cursor.old) }
{
    let mut ahead = cursor.fork();
    let sponsored_id = read_account_id(&mut ahead)?;
    *cursor = ahead;
    Ok(BeginSponsoringFutureReservesOp { sponsored_id })
}

/// Writes what begins a sponsorship.
#[tactic(auto, unfolding(crate::specs::Operations::begin_sponsoring_future_reserves_op))]
pub fn write_begin_sponsoring_future_reserves_op(
    value: &BeginSponsoringFutureReservesOp,
    builder: &mut Builder,
) -> Result<(), AllocError>
    ensures { OnOk result (builder.new ≡ spec.begin_sponsoring_future_reserves_op.onto builder.old value.now) }
{
    write_account_id(&value.sponsored_id, builder)
}

/// Reads what gives a reserve to another payer.
#[tactic(auto, unfolding(crate::specs::Operations::revoke_sponsorship_op))]
pub fn read_revoke_sponsorship_op(
    alloc: Global,
    cursor: &mut Cursor<'_>,
) -> Result<RevokeSponsorshipOp, ReadFault>
    ensures { Reads cause_of result cursor.old cursor.new (spec.revoke_sponsorship_op.read cursor.old) }
{
    let mut ahead = cursor.fork();
    let op = match ahead.i32()? {
        REVOKE_SPONSORSHIP_LEDGER_ENTRY => {
            RevokeSponsorshipOp::LedgerEntry(read_ledger_key(alloc, &mut ahead)?)
        }
        REVOKE_SPONSORSHIP_SIGNER => RevokeSponsorshipOp::Signer {
            account_id: read_account_id(&mut ahead)?,
            signer_key: read_signer_key(&mut ahead)?,
        },
        _ => return Err(ReadFault::Xdr(cursor.fault(XdrKind::BadEnum))),
    };
    *cursor = ahead;
    Ok(op)
}

/// Writes what gives a reserve to another payer.
#[tactic(auto, unfolding(crate::specs::Operations::revoke_sponsorship_op))]
pub fn write_revoke_sponsorship_op(
    value: &RevokeSponsorshipOp,
    builder: &mut Builder,
) -> Result<(), AllocError>
    requires { spec.revoke_sponsorship_op.within value.now }
    ensures { OnOk result (builder.new ≡ spec.revoke_sponsorship_op.onto builder.old value.now) }
{
    match value {
        RevokeSponsorshipOp::LedgerEntry(key) => {
            builder.i32(REVOKE_SPONSORSHIP_LEDGER_ENTRY)?;
            write_ledger_key(key, builder)
        }
        RevokeSponsorshipOp::Signer {
            account_id,
            signer_key,
        } => {
            builder.i32(REVOKE_SPONSORSHIP_SIGNER)?;
            write_account_id(account_id, builder)?;
            write_signer_key(signer_key, builder)
        }
    }
}
