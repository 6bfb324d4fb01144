//! Records of closes.

ghost use Rattle.std.specs.Prelude.{◌≡◌, ◌++◌, IfOk, OnOk, is_some};
ghost use Rattle.xdr_core.specs.Position.{Reads, itself};
ghost use Rattle.xdr_core.specs.ReadFault.{cause_of};
ghost use Rattle.xdr_header.specs.Records as spec;

use crate::record::CloseRecord;
use crate::value::{read_stellar_value, write_stellar_value};
use crate::vouch::VouchFormat;
use item_list::ItemList;
use op_types::Vouch;
use std::alloc::{AllocError, Global};
use xdr_core::{Builder, Cursor, ReadFault, XdrFault, read_list, write_list};
use xdr_tx::{read_transaction_set, write_transaction_set};

/// The first word of a record of form 2, which no ledger's number is there.
pub const FORM_2: u32 = 2_147_483_650;

/// The most vouches of a record.
const MAX_VOUCHES: u32 = 20000;

/// Reads the number of a ledger, and whether the record is of form 2.
fn read_head(cursor: &mut Cursor<'_>) -> Result<(u32, bool), XdrFault>
    ensures { Reads itself result cursor.old cursor.new (spec.record_head.read cursor.old) }
{
    let mut ahead = cursor.fork();
    let word = ahead.u32()?;
    let is_form_2 = word == FORM_2;
    let ledger_seq = if is_form_2 { ahead.u32()? } else { word };
    *cursor = ahead;
    Ok((ledger_seq, is_form_2))
}

/// Reads the vouches of a record, which form 2 alone has.
fn read_vouches(
    alloc: Global,
    is_form_2: bool,
    cursor: &mut Cursor<'_>,
) -> Result<Option<ItemList<Vouch>>, ReadFault>
    ensures { Reads cause_of result cursor.old cursor.new ((spec.vouches_if is_form_2).read cursor.old) }
{
    if is_form_2 {
        Ok(Some(read_list::<VouchFormat>(alloc, MAX_VOUCHES, cursor)?))
    } else {
        Ok(None)
    }
}

/// Reads a record of a close, of either form.
#[tactic(auto, unfolding(crate::specs::Records::close_record))]
pub fn read_close_record(alloc: Global, cursor: &mut Cursor<'_>) -> Result<CloseRecord, ReadFault>
    ensures { Reads cause_of result cursor.old cursor.new (spec.close_record.read cursor.old) }
{
    let mut ahead = cursor.fork();
    let (ledger_seq, is_form_2) = read_head(&mut ahead)?;
    let tx_set = read_transaction_set(alloc, &mut ahead)?;
    let scp_value = read_stellar_value(alloc, &mut ahead)?;
    let vouches = read_vouches(alloc, is_form_2, &mut ahead)?;
    *cursor = ahead;
    Ok(CloseRecord {
        ledger_seq,
        tx_set,
        scp_value,
        vouches,
    })
}

/// Writes a record of a close, in its form. A record of form 1 isn't of ledger 2147483650.
#[tactic(auto, using(xdr_core::proofs::FormatLaws::written, crate::proofs::RecordLaws::close_record_laws))]
pub fn write_close_record(value: &CloseRecord, builder: &mut Builder) -> Result<(), AllocError>
    requires { spec.close_record.within value.now }
    ensures { OnOk result (builder.new ≡ builder.old ++ spec.close_record.encoding value.now) }
{
    write_record_fields(value, builder)
}

/// Writes the fields of a record.
#[tactic(auto, unfolding(crate::specs::Records::close_record))]
fn write_record_fields(value: &CloseRecord, builder: &mut Builder) -> Result<(), AllocError>
    requires { spec.close_record.within value.now }
    ensures { OnOk result (builder.new ≡ spec.close_record.onto builder.old value.now) }
{
    write_head(value.ledger_seq, value.vouches.is_some(), builder)?;
    write_transaction_set(&value.tx_set, builder)?;
    write_stellar_value(&value.scp_value, builder)?;
    write_vouches(&value.vouches, builder)
}

/// Writes the number of a ledger, in form 2 after its first word.
fn write_head(ledger_seq: u32, is_form_2: bool, builder: &mut Builder) -> Result<(), AllocError>
    requires { spec.HasForm ledger_seq is_form_2 }
    ensures { OnOk result (builder.new ≡ spec.record_head.onto builder.old (ledger_seq, is_form_2)) }
{
    if is_form_2 {
        builder.u32(FORM_2)?;
        builder.u32(ledger_seq)
    } else {
        builder.u32(ledger_seq)
    }
}

/// Writes the vouches of a record, if it has a place for them.
fn write_vouches(vouches: &Option<ItemList<Vouch>>, builder: &mut Builder) -> Result<(), AllocError>
    requires { (spec.vouches_if (is_some vouches.now)).within vouches.now }
    ensures { OnOk result (builder.new ≡ (spec.vouches_if (is_some vouches.now)).onto builder.old vouches.now) }
{
    match vouches {
        None => Ok(()),
        Some(vouches) => write_list::<VouchFormat>(vouches.as_slice(), MAX_VOUCHES, builder),
    }
}
