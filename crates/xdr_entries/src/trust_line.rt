//! Trust lines.

ghost use Rattle.std.specs.Prelude.{◌≡◌, OnOk};
ghost use Rattle.xdr_core.specs.Position.{Reads, itself};
ghost use Rattle.xdr_entries.specs.Entries as spec;

use crate::asset::{read_trust_line_asset, write_trust_line_asset};
use crate::ids::{read_account_id, write_account_id};
use crate::price::{read_liabilities, write_liabilities};
use ledger_types::{TrustLineEntry, TrustLineEntryExtensionV1, TrustLineEntryExtensionV2};
use std::alloc::{AllocError, Global};
use xdr_core::{Builder, Cursor, Decode, Encode, XdrFault, read_extension, write_extension};

/// Reads what pools add to a trust line.
#[tactic(auto, unfolding(crate::specs::Entries::trust_line_extension_v2))]
pub fn read_trust_line_extension_v2(
    cursor: &mut Cursor<'_>,
) -> Result<TrustLineEntryExtensionV2, XdrFault>
    ensures { Reads itself result cursor.old cursor.new (spec.trust_line_extension_v2.read cursor.old) }
{
    let mut ahead = cursor.fork();
    let liquidity_pool_use_count = ahead.i32()?;
    ahead.tag(0)?;
    *cursor = ahead;
    Ok(TrustLineEntryExtensionV2 {
        liquidity_pool_use_count,
    })
}

/// Writes what pools add to a trust line.
#[tactic(auto, unfolding(crate::specs::Entries::trust_line_extension_v2))]
pub fn write_trust_line_extension_v2(
    value: &TrustLineEntryExtensionV2,
    builder: &mut Builder,
) -> Result<(), AllocError>
    ensures { OnOk result (builder.new ≡ spec.trust_line_extension_v2.onto builder.old value.now) }
{
    builder.i32(value.liquidity_pool_use_count)?;
    builder.tag(0)
}

/// Reads what liabilities add to a trust line.
#[tactic(auto, unfolding(crate::specs::Entries::trust_line_extension_v1))]
pub fn read_trust_line_extension_v1(
    alloc: Global,
    cursor: &mut Cursor<'_>,
) -> Result<TrustLineEntryExtensionV1, XdrFault>
    ensures { Reads itself result cursor.old cursor.new (spec.trust_line_extension_v1.read cursor.old) }
{
    let mut ahead = cursor.fork();
    let liabilities = read_liabilities(&mut ahead)?;
    let ext = read_extension::<TrustLineExtensionV2Format>(alloc, 2, &mut ahead)?;
    *cursor = ahead;
    Ok(TrustLineEntryExtensionV1 { liabilities, ext })
}

/// Writes what liabilities add to a trust line.
#[tactic(auto, unfolding(crate::specs::Entries::trust_line_extension_v1))]
pub fn write_trust_line_extension_v1(
    value: &TrustLineEntryExtensionV1,
    builder: &mut Builder,
) -> Result<(), AllocError>
    requires { spec.trust_line_extension_v1.within value.now }
    ensures { OnOk result (builder.new ≡ spec.trust_line_extension_v1.onto builder.old value.now) }
{
    write_liabilities(&value.liabilities, builder)?;
    write_extension::<TrustLineExtensionV2Format>(&value.ext, 2, builder)
}

/// Reads a trust line.
#[tactic(auto, unfolding(crate::specs::Entries::trust_line_entry))]
pub fn read_trust_line_entry(
    alloc: Global,
    cursor: &mut Cursor<'_>,
) -> Result<TrustLineEntry, XdrFault>
    ensures { Reads itself result cursor.old cursor.new (spec.trust_line_entry.read cursor.old) }
{
    let mut ahead = cursor.fork();
    let account_id = read_account_id(&mut ahead)?;
    let asset = read_trust_line_asset(&mut ahead)?;
    let balance = ahead.i64()?;
    let limit = ahead.i64()?;
    let flags = ahead.u32()?;
    let ext = read_extension::<TrustLineExtensionV1Format>(alloc, 1, &mut ahead)?;
    *cursor = ahead;
    Ok(TrustLineEntry {
        account_id,
        asset,
        balance,
        limit,
        flags,
        ext,
    })
}

/// Writes a trust line.
#[tactic(auto, unfolding(crate::specs::Entries::trust_line_entry))]
pub fn write_trust_line_entry(
    value: &TrustLineEntry,
    builder: &mut Builder,
) -> Result<(), AllocError>
    requires { spec.trust_line_entry.within value.now }
    ensures { OnOk result (builder.new ≡ spec.trust_line_entry.onto builder.old value.now) }
{
    write_account_id(&value.account_id, builder)?;
    write_trust_line_asset(&value.asset, builder)?;
    builder.i64(value.balance)?;
    builder.i64(value.limit)?;
    builder.u32(value.flags)?;
    write_extension::<TrustLineExtensionV1Format>(&value.ext, 1, builder)
}

/// What pools add to trust lines, as a format.
pub enum TrustLineExtensionV2Format {}

impl Decode for TrustLineExtensionV2Format {
    type Value = TrustLineEntryExtensionV2;

    type Failure = XdrFault;

    ghost format = { spec.trust_line_extension_v2 };

    fn decode(
        _alloc: Global,
        cursor: &mut Cursor<'_>,
    ) -> Result<TrustLineEntryExtensionV2, XdrFault> {
        read_trust_line_extension_v2(cursor)
    }
}

impl Encode for TrustLineExtensionV2Format {
    #[tactic(auto, using(crate::proofs::AllLaws::written_values))]
    fn encode(value: &TrustLineEntryExtensionV2, builder: &mut Builder) -> Result<(), AllocError> {
        write_trust_line_extension_v2(value, builder)
    }
}

/// What liabilities add to trust lines, as a format.
pub enum TrustLineExtensionV1Format {}

impl Decode for TrustLineExtensionV1Format {
    type Value = TrustLineEntryExtensionV1;

    type Failure = XdrFault;

    ghost format = { spec.trust_line_extension_v1 };

    fn decode(
        alloc: Global,
        cursor: &mut Cursor<'_>,
    ) -> Result<TrustLineEntryExtensionV1, XdrFault> {
        read_trust_line_extension_v1(alloc, cursor)
    }
}

impl Encode for TrustLineExtensionV1Format {
    #[tactic(auto, using(crate::proofs::AllLaws::written_values))]
    fn encode(value: &TrustLineEntryExtensionV1, builder: &mut Builder) -> Result<(), AllocError> {
        write_trust_line_extension_v1(value, builder)
    }
}
