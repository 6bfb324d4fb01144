//! Ledger entries.

ghost use Rattle.std.specs.Prelude.{◌≡◌, ◌++◌, OnOk};
ghost use Rattle.xdr_core.specs.Position.{Reads, itself};
ghost use Rattle.xdr_core.specs.ReadFault.{cause_of};
ghost use Rattle.xdr_entries.specs.Entries as spec;

use crate::account::{read_account_entry, write_account_entry};
use crate::claimable_balance::{read_claimable_balance_entry, write_claimable_balance_entry};
use crate::data_entry::{read_data_entry, write_data_entry};
use crate::ids::AccountIdFormat;
use crate::liquidity_pool::{read_liquidity_pool_entry, write_liquidity_pool_entry};
use crate::offer::{read_offer_entry, write_offer_entry};
use crate::trust_line::{read_trust_line_entry, write_trust_line_entry};
use ledger_types::{LedgerEntry, LedgerEntryBody, LedgerEntryExtensionV1};
use std::alloc::{AllocError, Global};
use xdr_core::{
    Builder, Cursor, Decode, Encode, ReadFault, XdrFault, XdrKind, read_extension, read_option,
    write_extension, write_option,
};

/// ACCOUNT (LedgerEntryType in Stellar-ledger-entries.x).
pub(crate) const ACCOUNT: i32 = 0;

/// TRUSTLINE (LedgerEntryType in Stellar-ledger-entries.x).
pub(crate) const TRUSTLINE: i32 = 1;

/// OFFER (LedgerEntryType in Stellar-ledger-entries.x).
pub(crate) const OFFER: i32 = 2;

/// DATA (LedgerEntryType in Stellar-ledger-entries.x).
pub(crate) const DATA: i32 = 3;

/// CLAIMABLE_BALANCE (LedgerEntryType in Stellar-ledger-entries.x).
pub(crate) const CLAIMABLE_BALANCE: i32 = 4;

/// LIQUIDITY_POOL (LedgerEntryType in Stellar-ledger-entries.x).
pub(crate) const LIQUIDITY_POOL: i32 = 5;

/// Reads what an entry is.
#[tactic(auto, unfolding(crate::specs::Entries::ledger_entry_body))]
pub fn read_ledger_entry_body(
    alloc: Global,
    cursor: &mut Cursor<'_>,
) -> Result<LedgerEntryBody, ReadFault>
    ensures { Reads cause_of result cursor.old cursor.new (spec.ledger_entry_body.read cursor.old) }
{
    let mut ahead = cursor.fork();
    let body = match ahead.i32()? {
        ACCOUNT => LedgerEntryBody::Account(read_account_entry(alloc, &mut ahead)?),
        TRUSTLINE => LedgerEntryBody::TrustLine(read_trust_line_entry(alloc, &mut ahead)?),
        OFFER => LedgerEntryBody::Offer(read_offer_entry(&mut ahead)?),
        DATA => LedgerEntryBody::Data(read_data_entry(alloc, &mut ahead)?),
        CLAIMABLE_BALANCE => {
            LedgerEntryBody::ClaimableBalance(read_claimable_balance_entry(alloc, &mut ahead)?)
        }
        LIQUIDITY_POOL => LedgerEntryBody::LiquidityPool(read_liquidity_pool_entry(&mut ahead)?),
        _ => return Err(ReadFault::Xdr(cursor.fault(XdrKind::BadEnum))),
    };
    *cursor = ahead;
    Ok(body)
}

/// Writes what an entry is.
#[tactic(auto, unfolding(crate::specs::Entries::ledger_entry_body))]
pub fn write_ledger_entry_body(
    value: &LedgerEntryBody,
    builder: &mut Builder,
) -> Result<(), AllocError>
    requires { spec.ledger_entry_body.within value.now }
    ensures { OnOk result (builder.new ≡ spec.ledger_entry_body.onto builder.old value.now) }
{
    match value {
        LedgerEntryBody::Account(entry) => {
            builder.i32(ACCOUNT)?;
            write_account_entry(entry, builder)
        }
        LedgerEntryBody::TrustLine(entry) => {
            builder.i32(TRUSTLINE)?;
            write_trust_line_entry(entry, builder)
        }
        LedgerEntryBody::Offer(entry) => {
            builder.i32(OFFER)?;
            write_offer_entry(entry, builder)
        }
        LedgerEntryBody::Data(entry) => {
            builder.i32(DATA)?;
            write_data_entry(entry, builder)
        }
        LedgerEntryBody::ClaimableBalance(entry) => {
            builder.i32(CLAIMABLE_BALANCE)?;
            write_claimable_balance_entry(entry, builder)
        }
        LedgerEntryBody::LiquidityPool(entry) => {
            builder.i32(LIQUIDITY_POOL)?;
            write_liquidity_pool_entry(entry, builder)
        }
    }
}

/// Reads what sponsorship adds to an entry.
#[tactic(auto, unfolding(crate::specs::Entries::ledger_entry_extension_v1))]
pub fn read_ledger_entry_extension_v1(
    alloc: Global,
    cursor: &mut Cursor<'_>,
) -> Result<LedgerEntryExtensionV1, XdrFault>
    ensures { Reads itself result cursor.old cursor.new (spec.ledger_entry_extension_v1.read cursor.old) }
{
    let mut ahead = cursor.fork();
    let sponsoring_id = read_option::<AccountIdFormat>(alloc, &mut ahead)?;
    ahead.tag(0)?;
    *cursor = ahead;
    Ok(LedgerEntryExtensionV1 { sponsoring_id })
}

/// Writes what sponsorship adds to an entry.
#[tactic(auto, unfolding(crate::specs::Entries::ledger_entry_extension_v1))]
pub fn write_ledger_entry_extension_v1(
    value: &LedgerEntryExtensionV1,
    builder: &mut Builder,
) -> Result<(), AllocError>
    requires { spec.ledger_entry_extension_v1.within value.now }
    ensures { OnOk result (builder.new ≡ spec.ledger_entry_extension_v1.onto builder.old value.now) }
{
    write_option::<AccountIdFormat>(&value.sponsoring_id, builder)?;
    builder.tag(0)
}

/// Reads an entry.
#[tactic(auto, unfolding(crate::specs::Entries::ledger_entry))]
pub fn read_ledger_entry(alloc: Global, cursor: &mut Cursor<'_>) -> Result<LedgerEntry, ReadFault>
    ensures { Reads cause_of result cursor.old cursor.new (spec.ledger_entry.read cursor.old) }
{
    let mut ahead = cursor.fork();
    let last_modified_ledger_seq = ahead.u32()?;
    let body = read_ledger_entry_body(alloc, &mut ahead)?;
    let ext = read_extension::<LedgerEntryExtensionV1Format>(alloc, 1, &mut ahead)?;
    *cursor = ahead;
    Ok(LedgerEntry {
        last_modified_ledger_seq,
        body,
        ext,
    })
}

/// Writes an entry: its encoding is put at the end.
#[tactic(auto, using(crate::proofs::AllLaws::written_values))]
pub fn write_ledger_entry(value: &LedgerEntry, builder: &mut Builder) -> Result<(), AllocError>
    requires { spec.ledger_entry.within value.now }
    ensures { OnOk result (builder.new ≡ builder.old ++ spec.ledger_entry.encoding value.now) }
{
    write_fields(value, builder)
}

/// Writes the fields of an entry one after another.
#[tactic(auto, unfolding(crate::specs::Entries::ledger_entry))]
fn write_fields(value: &LedgerEntry, builder: &mut Builder) -> Result<(), AllocError>
    requires { spec.ledger_entry.within value.now }
    ensures { OnOk result (builder.new ≡ spec.ledger_entry.onto builder.old value.now) }
{
    builder.u32(value.last_modified_ledger_seq)?;
    write_ledger_entry_body(&value.body, builder)?;
    write_extension::<LedgerEntryExtensionV1Format>(&value.ext, 1, builder)
}

/// What sponsorship adds to entries, as a format.
pub enum LedgerEntryExtensionV1Format {}

impl Decode for LedgerEntryExtensionV1Format {
    type Value = LedgerEntryExtensionV1;

    type Failure = XdrFault;

    ghost format = { spec.ledger_entry_extension_v1 };

    fn decode(alloc: Global, cursor: &mut Cursor<'_>) -> Result<LedgerEntryExtensionV1, XdrFault> {
        read_ledger_entry_extension_v1(alloc, cursor)
    }
}

impl Encode for LedgerEntryExtensionV1Format {
    #[tactic(auto, using(crate::proofs::AllLaws::written_values))]
    fn encode(value: &LedgerEntryExtensionV1, builder: &mut Builder) -> Result<(), AllocError> {
        write_ledger_entry_extension_v1(value, builder)
    }
}
