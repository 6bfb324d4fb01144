//! What the network agrees upon, and upgrades.

ghost use Rattle.std.specs.Prelude.{◌≡◌, ◌++◌, OnOk};
ghost use Rattle.xdr_core.specs.Position.{Reads, itself};
ghost use Rattle.xdr_core.specs.ReadFault.{cause_of};
ghost use Rattle.xdr_core.specs.Leaves.{var};
ghost use Rattle.xdr_header.specs.Header as spec;

use item_list::ItemList;
use ledger_types::{LedgerCloseValueSignature, LedgerUpgrade, StellarValue};
use std::alloc::{AllocError, Global};
use xdr_core::{
    Builder, Cursor, Decode, Encode, ReadFault, XdrFault, XdrKind, read_extension, read_list,
    write_extension, write_list,
};
use xdr_entries::{read_account_id, read_hash, write_account_id, write_hash};

/// The most bytes of a signature (Signature in Stellar-types.x).
const MAX_SIGNATURE_LEN: u32 = 64;

/// The most upgrades of a value (StellarValue in Stellar-ledger.x).
const MAX_UPGRADES: u32 = 6;

/// The most bytes of an upgrade (UpgradeType in Stellar-ledger.x).
const MAX_UPGRADE_LEN: u32 = 128;

/// LEDGER_UPGRADE_VERSION (Stellar-ledger.x).
const LEDGER_UPGRADE_VERSION: i32 = 1;

/// LEDGER_UPGRADE_BASE_FEE (Stellar-ledger.x).
const LEDGER_UPGRADE_BASE_FEE: i32 = 2;

/// LEDGER_UPGRADE_MAX_TX_SET_SIZE (Stellar-ledger.x).
const LEDGER_UPGRADE_MAX_TX_SET_SIZE: i32 = 3;

/// LEDGER_UPGRADE_BASE_RESERVE (Stellar-ledger.x).
const LEDGER_UPGRADE_BASE_RESERVE: i32 = 4;

/// LEDGER_UPGRADE_FLAGS (Stellar-ledger.x).
const LEDGER_UPGRADE_FLAGS: i32 = 5;

/// Reads who put a value forward.
#[tactic(auto, unfolding(crate::specs::Header::ledger_close_value_signature))]
pub fn read_ledger_close_value_signature(
    alloc: Global,
    cursor: &mut Cursor<'_>,
) -> Result<LedgerCloseValueSignature, ReadFault>
    ensures { Reads cause_of result cursor.old cursor.new (spec.ledger_close_value_signature.read cursor.old) }
{
    let mut ahead = cursor.fork();
    let node_id = read_account_id(&mut ahead)?;
    let signature = ItemList::from_slice(alloc, ahead.var(MAX_SIGNATURE_LEN)?)?;
    *cursor = ahead;
    Ok(LedgerCloseValueSignature { node_id, signature })
}

/// Writes who put a value forward.
#[tactic(auto, unfolding(crate::specs::Header::ledger_close_value_signature))]
pub fn write_ledger_close_value_signature(
    value: &LedgerCloseValueSignature,
    builder: &mut Builder,
) -> Result<(), AllocError>
    requires { spec.ledger_close_value_signature.within value.now }
    ensures { OnOk result (builder.new ≡ spec.ledger_close_value_signature.onto builder.old value.now) }
{
    write_account_id(&value.node_id, builder)?;
    builder.var(value.signature.as_slice(), MAX_SIGNATURE_LEN)
}

/// Reads what the network agreed upon.
#[tactic(auto, unfolding(crate::specs::Header::stellar_value))]
pub fn read_stellar_value(alloc: Global, cursor: &mut Cursor<'_>) -> Result<StellarValue, ReadFault>
    ensures { Reads cause_of result cursor.old cursor.new (spec.stellar_value.read cursor.old) }
{
    let mut ahead = cursor.fork();
    let tx_set_hash = read_hash(&mut ahead)?;
    let close_time = ahead.u64()?;
    let upgrades = read_list::<UpgradeBytesFormat>(alloc, MAX_UPGRADES, &mut ahead)?;
    let ext = read_extension::<LedgerCloseValueSignatureFormat>(alloc, 1, &mut ahead)?;
    *cursor = ahead;
    Ok(StellarValue {
        tx_set_hash,
        close_time,
        upgrades,
        ext,
    })
}

/// Writes what the network agreed upon.
#[tactic(auto, using(xdr_core::proofs::FormatLaws::written, crate::proofs::HeaderLaws::stellar_value_laws))]
pub fn write_stellar_value(value: &StellarValue, builder: &mut Builder) -> Result<(), AllocError>
    requires { spec.stellar_value.within value.now }
    ensures { OnOk result (builder.new ≡ builder.old ++ spec.stellar_value.encoding value.now) }
{
    write_value_fields(value, builder)
}

/// Writes the fields of what the network agreed upon.
#[tactic(auto, unfolding(crate::specs::Header::stellar_value))]
fn write_value_fields(value: &StellarValue, builder: &mut Builder) -> Result<(), AllocError>
    requires { spec.stellar_value.within value.now }
    ensures { OnOk result (builder.new ≡ spec.stellar_value.onto builder.old value.now) }
{
    write_hash(&value.tx_set_hash, builder)?;
    builder.u64(value.close_time)?;
    write_list::<UpgradeBytesFormat>(value.upgrades.as_slice(), MAX_UPGRADES, builder)?;
    write_extension::<LedgerCloseValueSignatureFormat>(&value.ext, 1, builder)
}

/// Reads an upgrade.
#[tactic(auto, unfolding(crate::specs::Header::ledger_upgrade))]
pub fn read_ledger_upgrade(cursor: &mut Cursor<'_>) -> Result<LedgerUpgrade, XdrFault>
    ensures { Reads itself result cursor.old cursor.new (spec.ledger_upgrade.read cursor.old) }
{
    let mut ahead = cursor.fork();
    let upgrade = match ahead.i32()? {
        LEDGER_UPGRADE_VERSION => LedgerUpgrade::Version(ahead.u32()?),
        LEDGER_UPGRADE_BASE_FEE => LedgerUpgrade::BaseFee(ahead.u32()?),
        LEDGER_UPGRADE_MAX_TX_SET_SIZE => LedgerUpgrade::MaxTxSetSize(ahead.u32()?),
        LEDGER_UPGRADE_BASE_RESERVE => LedgerUpgrade::BaseReserve(ahead.u32()?),
        LEDGER_UPGRADE_FLAGS => LedgerUpgrade::Flags(ahead.u32()?),
        _ => return Err(cursor.fault(XdrKind::BadEnum)),
    };
    *cursor = ahead;
    Ok(upgrade)
}

/// Writes an upgrade.
#[tactic(auto, using(xdr_core::proofs::FormatLaws::written, crate::proofs::HeaderLaws::ledger_upgrade_laws))]
pub fn write_ledger_upgrade(value: &LedgerUpgrade, builder: &mut Builder) -> Result<(), AllocError>
    ensures { OnOk result (builder.new ≡ builder.old ++ spec.ledger_upgrade.encoding value.now) }
{
    write_upgrade_arm(value, builder)
}

/// Writes the type of an upgrade and what follows it.
#[tactic(auto, unfolding(crate::specs::Header::ledger_upgrade))]
fn write_upgrade_arm(value: &LedgerUpgrade, builder: &mut Builder) -> Result<(), AllocError>
    ensures { OnOk result (builder.new ≡ spec.ledger_upgrade.onto builder.old value.now) }
{
    match value {
        LedgerUpgrade::Version(version) => {
            builder.i32(LEDGER_UPGRADE_VERSION)?;
            builder.u32(*version)
        }
        LedgerUpgrade::BaseFee(fee) => {
            builder.i32(LEDGER_UPGRADE_BASE_FEE)?;
            builder.u32(*fee)
        }
        LedgerUpgrade::MaxTxSetSize(size) => {
            builder.i32(LEDGER_UPGRADE_MAX_TX_SET_SIZE)?;
            builder.u32(*size)
        }
        LedgerUpgrade::BaseReserve(reserve) => {
            builder.i32(LEDGER_UPGRADE_BASE_RESERVE)?;
            builder.u32(*reserve)
        }
        LedgerUpgrade::Flags(flags) => {
            builder.i32(LEDGER_UPGRADE_FLAGS)?;
            builder.u32(*flags)
        }
    }
}

/// Who put values forward, as a format.
pub enum LedgerCloseValueSignatureFormat {}

impl Decode for LedgerCloseValueSignatureFormat {
    type Value = LedgerCloseValueSignature;

    type Failure = ReadFault;

    ghost format = { spec.ledger_close_value_signature };

    fn decode(
        alloc: Global,
        cursor: &mut Cursor<'_>,
    ) -> Result<LedgerCloseValueSignature, ReadFault> {
        read_ledger_close_value_signature(alloc, cursor)
    }
}

impl Encode for LedgerCloseValueSignatureFormat {
    #[tactic(auto, using(crate::proofs::HeaderLaws::signature_written))]
    fn encode(value: &LedgerCloseValueSignature, builder: &mut Builder) -> Result<(), AllocError> {
        write_ledger_close_value_signature(value, builder)
    }
}

/// The bytes of upgrades, as a format.
pub enum UpgradeBytesFormat {}

impl Decode for UpgradeBytesFormat {
    type Value = ItemList<u8>;

    type Failure = ReadFault;

    ghost format = { var 128 };

    fn decode(alloc: Global, cursor: &mut Cursor<'_>) -> Result<ItemList<u8>, ReadFault> {
        let mut ahead = cursor.fork();
        let upgrade = ItemList::from_slice(alloc, ahead.var(MAX_UPGRADE_LEN)?)?;
        *cursor = ahead;
        Ok(upgrade)
    }
}

impl Encode for UpgradeBytesFormat {
    #[tactic(auto, using(xdr_core::proofs::FormatLaws::written, crate::proofs::HeaderLaws::upgrade_bytes_laws))]
    fn encode(value: &ItemList<u8>, builder: &mut Builder) -> Result<(), AllocError> {
        builder.var(value.as_slice(), MAX_UPGRADE_LEN)
    }
}
