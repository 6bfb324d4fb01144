//! Ledger headers.

ghost use Rattle.std.specs.Prelude.{◌≡◌, ◌++◌, OnOk};
ghost use Rattle.xdr_core.specs.Position.{Reads, itself};
ghost use Rattle.xdr_core.specs.ReadFault.{cause_of};
ghost use Rattle.xdr_core.specs.Combinators.{times};
ghost use Rattle.xdr_entries.specs.Basic.{hash};
ghost use Rattle.xdr_header.specs.Header as spec;

use crate::value::{read_stellar_value, write_stellar_value};
use ledger_types::{Hash, LedgerHeader, LedgerHeaderExtensionV1};
use std::alloc::{AllocError, Global};
use xdr_core::{
    Builder, Cursor, Decode, Encode, ReadFault, XdrFault, read_extension, write_extension,
};
use xdr_entries::{read_hash, write_hash};

/// Reads what flags add to a header.
#[tactic(auto, unfolding(crate::specs::Header::ledger_header_extension_v1))]
pub fn read_ledger_header_extension_v1(
    cursor: &mut Cursor<'_>,
) -> Result<LedgerHeaderExtensionV1, XdrFault>
    ensures { Reads itself result cursor.old cursor.new (spec.ledger_header_extension_v1.read cursor.old) }
{
    let mut ahead = cursor.fork();
    let flags = ahead.u32()?;
    ahead.tag(0)?;
    *cursor = ahead;
    Ok(LedgerHeaderExtensionV1 { flags })
}

/// Writes what flags add to a header.
#[tactic(auto, unfolding(crate::specs::Header::ledger_header_extension_v1, xdr_core::specs::Combinators::constant))]
pub fn write_ledger_header_extension_v1(
    value: &LedgerHeaderExtensionV1,
    builder: &mut Builder,
) -> Result<(), AllocError>
    ensures { OnOk result (builder.new ≡ spec.ledger_header_extension_v1.onto builder.old value.now) }
{
    builder.u32(value.flags)?;
    builder.i32(0)
}

/// Reads the hashes of four earlier headers.
#[tactic(auto, unfolding(xdr_core::specs::Combinators::times, xdr_core::specs::Combinators::many_at))]
fn read_skip_list(cursor: &mut Cursor<'_>) -> Result<[Hash; 4], XdrFault>
    ensures { Reads itself result cursor.old cursor.new ((times 4 hash).read cursor.old) }
{
    let mut ahead = cursor.fork();
    let skip_list = [
        read_hash(&mut ahead)?,
        read_hash(&mut ahead)?,
        read_hash(&mut ahead)?,
        read_hash(&mut ahead)?,
    ];
    *cursor = ahead;
    Ok(skip_list)
}

/// Writes the hashes of four earlier headers.
#[tactic(auto, unfolding(xdr_core::specs::Combinators::times))]
fn write_skip_list(skip_list: &[Hash; 4], builder: &mut Builder) -> Result<(), AllocError>
    ensures { OnOk result (builder.new ≡ (times 4 hash).onto builder.old skip_list.now) }
{
    for earlier in skip_list {
        write_hash(earlier, builder)?;
    }
    Ok(())
}

/// What bounds the next ledgers, and what follows it in a header.
#[derive(Drop)]
struct Limits {
    base_fee: u32,
    base_reserve: u32,
    max_tx_set_size: u32,
    skip_list: [Hash; 4],
    ext: Option<LedgerHeaderExtensionV1>,
}

/// What a header counts, and what follows that.
#[derive(Drop)]
struct Counts {
    ledger_seq: u32,
    total_coins: i64,
    fee_pool: i64,
    inflation_seq: u32,
    id_pool: u64,
    limits: Limits,
}

/// Reads what bounds the next ledgers, and what follows it.
#[tactic(auto, unfolding(crate::specs::Header::limits))]
fn read_limits(alloc: Global, cursor: &mut Cursor<'_>) -> Result<Limits, ReadFault>
    ensures { Reads cause_of result cursor.old cursor.new (spec.limits.read cursor.old) }
{
    let mut ahead = cursor.fork();
    let base_fee = ahead.u32()?;
    let base_reserve = ahead.u32()?;
    let max_tx_set_size = ahead.u32()?;
    let skip_list = read_skip_list(&mut ahead)?;
    let ext = read_extension::<LedgerHeaderExtensionV1Format>(alloc, 1, &mut ahead)?;
    *cursor = ahead;
    Ok(Limits {
        base_fee,
        base_reserve,
        max_tx_set_size,
        skip_list,
        ext,
    })
}

/// Reads what a header counts, and what follows that.
#[tactic(auto, unfolding(crate::specs::Header::counts))]
fn read_counts(alloc: Global, cursor: &mut Cursor<'_>) -> Result<Counts, ReadFault>
    ensures { Reads cause_of result cursor.old cursor.new (spec.counts.read cursor.old) }
{
    let mut ahead = cursor.fork();
    let ledger_seq = ahead.u32()?;
    let total_coins = ahead.i64()?;
    let fee_pool = ahead.i64()?;
    let inflation_seq = ahead.u32()?;
    let id_pool = ahead.u64()?;
    let limits = read_limits(alloc, &mut ahead)?;
    *cursor = ahead;
    Ok(Counts {
        ledger_seq,
        total_coins,
        fee_pool,
        inflation_seq,
        id_pool,
        limits,
    })
}

/// Reads a header.
#[tactic(auto, unfolding(crate::specs::Header::ledger_header))]
pub fn read_ledger_header(alloc: Global, cursor: &mut Cursor<'_>) -> Result<LedgerHeader, ReadFault>
    ensures { Reads cause_of result cursor.old cursor.new (spec.ledger_header.read cursor.old) }
{
    let mut ahead = cursor.fork();
    let ledger_version = ahead.u32()?;
    let previous_ledger_hash = read_hash(&mut ahead)?;
    let scp_value = read_stellar_value(alloc, &mut ahead)?;
    let tx_set_result_hash = read_hash(&mut ahead)?;
    let bucket_list_hash = read_hash(&mut ahead)?;
    let counts = read_counts(alloc, &mut ahead)?;
    let skip_list = counts.limits.skip_list;
    *cursor = ahead;
    Ok(LedgerHeader {
        ledger_version,
        previous_ledger_hash,
        scp_value,
        tx_set_result_hash,
        bucket_list_hash,
        ledger_seq: counts.ledger_seq,
        total_coins: counts.total_coins,
        fee_pool: counts.fee_pool,
        inflation_seq: counts.inflation_seq,
        id_pool: counts.id_pool,
        base_fee: counts.limits.base_fee,
        base_reserve: counts.limits.base_reserve,
        max_tx_set_size: counts.limits.max_tx_set_size,
        skip_list,
        ext: counts.limits.ext,
    })
}

/// Writes a header.
#[tactic(auto, using(xdr_core::proofs::FormatLaws::written, crate::proofs::HeaderLaws::ledger_header_laws))]
pub fn write_ledger_header(value: &LedgerHeader, builder: &mut Builder) -> Result<(), AllocError>
    requires { spec.ledger_header.within value.now }
    ensures { OnOk result (builder.new ≡ builder.old ++ spec.ledger_header.encoding value.now) }
{
    write_header_fields(value, builder)
}

/// Writes the fields of a header.
#[tactic(auto, unfolding(crate::specs::Header::ledger_header))]
fn write_header_fields(value: &LedgerHeader, builder: &mut Builder) -> Result<(), AllocError>
    requires { spec.ledger_header.within value.now }
    ensures { OnOk result (builder.new ≡ spec.ledger_header.onto builder.old value.now) }
{
    builder.u32(value.ledger_version)?;
    write_hash(&value.previous_ledger_hash, builder)?;
    write_stellar_value(&value.scp_value, builder)?;
    write_hash(&value.tx_set_result_hash, builder)?;
    write_hash(&value.bucket_list_hash, builder)?;
    write_counts(value, builder)
}

/// Writes what a header counts, and what follows that.
#[tactic(auto, unfolding(crate::specs::Header::counts))]
fn write_counts(value: &LedgerHeader, builder: &mut Builder) -> Result<(), AllocError>
    requires { spec.counts.within (spec.counts_of value.now) }
    ensures { OnOk result (builder.new ≡ spec.counts.onto builder.old (spec.counts_of value.now)) }
{
    builder.u32(value.ledger_seq)?;
    builder.i64(value.total_coins)?;
    builder.i64(value.fee_pool)?;
    builder.u32(value.inflation_seq)?;
    builder.u64(value.id_pool)?;
    write_limits(value, builder)
}

/// Writes what bounds the next ledgers, and what follows it.
#[tactic(auto, unfolding(crate::specs::Header::limits))]
fn write_limits(value: &LedgerHeader, builder: &mut Builder) -> Result<(), AllocError>
    requires { spec.limits.within (spec.limits_of value.now) }
    ensures { OnOk result (builder.new ≡ spec.limits.onto builder.old (spec.limits_of value.now)) }
{
    builder.u32(value.base_fee)?;
    builder.u32(value.base_reserve)?;
    builder.u32(value.max_tx_set_size)?;
    write_skip_list(&value.skip_list, builder)?;
    write_extension::<LedgerHeaderExtensionV1Format>(&value.ext, 1, builder)
}

/// What flags add to headers, as a format.
pub enum LedgerHeaderExtensionV1Format {}

impl Decode for LedgerHeaderExtensionV1Format {
    type Value = LedgerHeaderExtensionV1;

    type Failure = ReadFault;

    ghost format = { spec.ledger_header_extension_v1 };

    fn decode(
        _alloc: Global,
        cursor: &mut Cursor<'_>,
    ) -> Result<LedgerHeaderExtensionV1, ReadFault> {
        Ok(read_ledger_header_extension_v1(cursor)?)
    }
}

impl Encode for LedgerHeaderExtensionV1Format {
    #[tactic(auto, using(crate::proofs::HeaderLaws::extension_written))]
    fn encode(value: &LedgerHeaderExtensionV1, builder: &mut Builder) -> Result<(), AllocError> {
        write_ledger_header_extension_v1(value, builder)
    }
}
