//! Keys.

ghost use Rattle.std.specs.Prelude.{◌≡◌, ◌++◌, OnOk};
ghost use Rattle.xdr_core.specs.Position.{Reads, itself};
ghost use Rattle.xdr_core.specs.Combinators.{arm_at};
ghost use Rattle.xdr_core.specs.ReadFault.{cause_of};
ghost use Rattle.xdr_entries.specs.Keys as spec;

use crate::asset::{read_trust_line_asset, write_trust_line_asset};
use crate::data_entry::MAX_DATA_NAME_LEN;
use crate::entry::{ACCOUNT, CLAIMABLE_BALANCE, DATA, LIQUIDITY_POOL, OFFER, TRUSTLINE};
use crate::ids::{
    read_account_id, read_claimable_balance_id, read_hash, write_account_id,
    write_claimable_balance_id, write_hash,
};
use ledger_types::LedgerKey;
use std::alloc::{AllocError, Global};
use xdr_core::{Builder, Cursor, ReadFault, XdrFault, XdrKind, read_var};

/// Reads what names a trust line.
fn read_trust_line_key(cursor: &mut Cursor<'_>) -> Result<LedgerKey, XdrFault>
    ensures { Reads itself result cursor.old cursor.new (arm_at spec.trust_line_key cursor.old) }
{
    let mut ahead = cursor.fork();
    let account_id = read_account_id(&mut ahead)?;
    let asset = read_trust_line_asset(&mut ahead)?;
    *cursor = ahead;
    Ok(LedgerKey::TrustLine { account_id, asset })
}

/// Reads what names an offer.
fn read_offer_key(cursor: &mut Cursor<'_>) -> Result<LedgerKey, XdrFault>
    ensures { Reads itself result cursor.old cursor.new (arm_at spec.offer_key cursor.old) }
{
    let mut ahead = cursor.fork();
    let seller_id = read_account_id(&mut ahead)?;
    let offer_id = ahead.i64()?;
    *cursor = ahead;
    Ok(LedgerKey::Offer {
        seller_id,
        offer_id,
    })
}

/// Reads what names data.
fn read_data_key(alloc: Global, cursor: &mut Cursor<'_>) -> Result<LedgerKey, ReadFault>
    ensures { Reads cause_of result cursor.old cursor.new (arm_at spec.data_key cursor.old) }
{
    let mut ahead = cursor.fork();
    let account_id = read_account_id(&mut ahead)?;
    let data_name = read_var(alloc, MAX_DATA_NAME_LEN, &mut ahead)?;
    *cursor = ahead;
    Ok(LedgerKey::Data {
        account_id,
        data_name,
    })
}

/// Reads a key.
#[tactic(auto, unfolding(crate::specs::Keys::ledger_key))]
pub fn read_ledger_key(alloc: Global, cursor: &mut Cursor<'_>) -> Result<LedgerKey, ReadFault>
    ensures { Reads cause_of result cursor.old cursor.new (spec.ledger_key.read cursor.old) }
{
    let mut ahead = cursor.fork();
    let key = match ahead.i32()? {
        ACCOUNT => LedgerKey::Account {
            account_id: read_account_id(&mut ahead)?,
        },
        TRUSTLINE => read_trust_line_key(&mut ahead)?,
        OFFER => read_offer_key(&mut ahead)?,
        DATA => read_data_key(alloc, &mut ahead)?,
        CLAIMABLE_BALANCE => LedgerKey::ClaimableBalance {
            balance_id: read_claimable_balance_id(&mut ahead)?,
        },
        LIQUIDITY_POOL => LedgerKey::LiquidityPool {
            pool_id: read_hash(&mut ahead)?,
        },
        _ => return Err(ReadFault::Xdr(cursor.fault(XdrKind::BadEnum))),
    };
    *cursor = ahead;
    Ok(key)
}

/// Writes a key: its encoding is put at the end.
#[tactic(auto, using(crate::proofs::AllLaws::written_values))]
pub fn write_ledger_key(value: &LedgerKey, builder: &mut Builder) -> Result<(), AllocError>
    requires { spec.ledger_key.within value.now }
    ensures { OnOk result (builder.new ≡ builder.old ++ spec.ledger_key.encoding value.now) }
{
    write_arm(value, builder)
}

/// Writes the discriminant of a key, and what follows it.
#[tactic(auto, unfolding(crate::specs::Keys::ledger_key))]
fn write_arm(value: &LedgerKey, builder: &mut Builder) -> Result<(), AllocError>
    requires { spec.ledger_key.within value.now }
    ensures { OnOk result (builder.new ≡ spec.ledger_key.onto builder.old value.now) }
{
    match value {
        LedgerKey::Account { account_id } => {
            builder.i32(ACCOUNT)?;
            write_account_id(account_id, builder)
        }
        LedgerKey::TrustLine { account_id, asset } => {
            builder.i32(TRUSTLINE)?;
            write_account_id(account_id, builder)?;
            write_trust_line_asset(asset, builder)
        }
        LedgerKey::Offer {
            seller_id,
            offer_id,
        } => {
            builder.i32(OFFER)?;
            write_account_id(seller_id, builder)?;
            builder.i64(*offer_id)
        }
        LedgerKey::Data {
            account_id,
            data_name,
        } => {
            builder.i32(DATA)?;
            write_account_id(account_id, builder)?;
            builder.var(data_name.as_slice(), MAX_DATA_NAME_LEN)
        }
        LedgerKey::ClaimableBalance { balance_id } => {
            builder.i32(CLAIMABLE_BALANCE)?;
            write_claimable_balance_id(balance_id, builder)
        }
        LedgerKey::LiquidityPool { pool_id } => {
            builder.i32(LIQUIDITY_POOL)?;
            write_hash(pool_id, builder)
        }
    }
}
