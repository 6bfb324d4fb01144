//! Operations on the source's own account.

ghost use Rattle.std.specs.Prelude.{◌≡◌, OnOk};
ghost use Rattle.xdr_core.specs.Position.{Reads, itself};
ghost use Rattle.xdr_core.specs.ReadFault.{cause_of};
ghost use Rattle.xdr_tx.specs.Operations as spec;

use crate::fields::{DataValueFormat, HomeDomainFormat, U32Format};
use item_list::ItemList;
use op_types::{AccountMergeOp, BumpSequenceOp, CreateAccountOp, ManageDataOp, SetOptionsOp};
use std::alloc::{AllocError, Global};
use xdr_core::{Builder, Cursor, ReadFault, XdrFault, read_option, write_option};
use xdr_entries::{
    AccountIdFormat, MAX_DATA_NAME_LEN, SignerFormat, read_account_id, read_muxed_account,
    write_account_id, write_muxed_account,
};

/// Reads what makes an account.
#[tactic(auto, unfolding(crate::specs::Operations::create_account_op))]
pub fn read_create_account_op(cursor: &mut Cursor<'_>) -> Result<CreateAccountOp, XdrFault>
    ensures { Reads itself result cursor.old cursor.new (spec.create_account_op.read cursor.old) }
{
    let mut ahead = cursor.fork();
    let destination = read_account_id(&mut ahead)?;
    let starting_balance = ahead.i64()?;
    *cursor = ahead;
    Ok(CreateAccountOp {
        destination,
        starting_balance,
    })
}

/// Writes what makes an account.
#[tactic(auto, unfolding(crate::specs::Operations::create_account_op))]
pub fn write_create_account_op(
    value: &CreateAccountOp,
    builder: &mut Builder,
) -> Result<(), AllocError>
    ensures { OnOk result (builder.new ≡ spec.create_account_op.onto builder.old value.now) }
{
    write_account_id(&value.destination, builder)?;
    builder.i64(value.starting_balance)
}

/// Reads what changes an account.
#[tactic(auto, unfolding(crate::specs::Operations::set_options_op))]
pub fn read_set_options_op(
    alloc: Global,
    cursor: &mut Cursor<'_>,
) -> Result<SetOptionsOp, ReadFault>
    ensures { Reads cause_of result cursor.old cursor.new (spec.set_options_op.read cursor.old) }
{
    let mut ahead = cursor.fork();
    let inflation_dest = read_option::<AccountIdFormat>(alloc, &mut ahead)?;
    let clear_flags = read_option::<U32Format>(alloc, &mut ahead)?;
    let set_flags = read_option::<U32Format>(alloc, &mut ahead)?;
    let master_weight = read_option::<U32Format>(alloc, &mut ahead)?;
    let low_threshold = read_option::<U32Format>(alloc, &mut ahead)?;
    let med_threshold = read_option::<U32Format>(alloc, &mut ahead)?;
    let high_threshold = read_option::<U32Format>(alloc, &mut ahead)?;
    let home_domain = read_option::<HomeDomainFormat>(alloc, &mut ahead)?;
    let signer = read_option::<SignerFormat>(alloc, &mut ahead)?;
    *cursor = ahead;
    Ok(SetOptionsOp {
        inflation_dest,
        clear_flags,
        set_flags,
        master_weight,
        low_threshold,
        med_threshold,
        high_threshold,
        home_domain,
        signer,
    })
}

/// Writes what changes an account.
#[tactic(auto, unfolding(crate::specs::Operations::set_options_op))]
pub fn write_set_options_op(value: &SetOptionsOp, builder: &mut Builder) -> Result<(), AllocError>
    requires { spec.set_options_op.within value.now }
    ensures { OnOk result (builder.new ≡ spec.set_options_op.onto builder.old value.now) }
{
    write_option::<AccountIdFormat>(&value.inflation_dest, builder)?;
    write_option::<U32Format>(&value.clear_flags, builder)?;
    write_option::<U32Format>(&value.set_flags, builder)?;
    write_option::<U32Format>(&value.master_weight, builder)?;
    write_option::<U32Format>(&value.low_threshold, builder)?;
    write_option::<U32Format>(&value.med_threshold, builder)?;
    write_option::<U32Format>(&value.high_threshold, builder)?;
    write_option::<HomeDomainFormat>(&value.home_domain, builder)?;
    write_option::<SignerFormat>(&value.signer, builder)
}

/// Reads what removes an account.
#[tactic(auto, unfolding(crate::specs::Operations::account_merge_op))]
pub fn read_account_merge_op(cursor: &mut Cursor<'_>) -> Result<AccountMergeOp, XdrFault>
    ensures { Reads itself result cursor.old cursor.new (spec.account_merge_op.read cursor.old) }
{
    let mut ahead = cursor.fork();
    let destination = read_muxed_account(&mut ahead)?;
    *cursor = ahead;
    Ok(AccountMergeOp { destination })
}

/// Writes what removes an account.
#[tactic(auto, unfolding(crate::specs::Operations::account_merge_op))]
pub fn write_account_merge_op(
    value: &AccountMergeOp,
    builder: &mut Builder,
) -> Result<(), AllocError>
    ensures { OnOk result (builder.new ≡ spec.account_merge_op.onto builder.old value.now) }
{
    write_muxed_account(&value.destination, builder)
}

/// Reads what makes, changes or removes data.
#[tactic(auto, unfolding(crate::specs::Operations::manage_data_op))]
pub fn read_manage_data_op(
    alloc: Global,
    cursor: &mut Cursor<'_>,
) -> Result<ManageDataOp, ReadFault>
    ensures { Reads cause_of result cursor.old cursor.new (spec.manage_data_op.read cursor.old) }
{
    let mut ahead = cursor.fork();
    let data_name = ItemList::from_slice(alloc, ahead.var(MAX_DATA_NAME_LEN)?)?;
    let data_value = read_option::<DataValueFormat>(alloc, &mut ahead)?;
    *cursor = ahead;
    Ok(ManageDataOp {
        data_name,
        data_value,
    })
}

/// Writes what makes, changes or removes data.
#[tactic(auto, unfolding(crate::specs::Operations::manage_data_op))]
pub fn write_manage_data_op(value: &ManageDataOp, builder: &mut Builder) -> Result<(), AllocError>
    requires { spec.manage_data_op.within value.now }
    ensures { OnOk result (builder.new ≡ spec.manage_data_op.onto builder.old value.now) }
{
    builder.var(value.data_name.as_slice(), MAX_DATA_NAME_LEN)?;
    write_option::<DataValueFormat>(&value.data_value, builder)
}

/// Reads what raises a sequence number.
#[tactic(auto, unfolding(crate::specs::Operations::bump_sequence_op))]
pub fn read_bump_sequence_op(cursor: &mut Cursor<'_>) -> Result<BumpSequenceOp, XdrFault>
    ensures { Reads itself result cursor.old cursor.new (spec.bump_sequence_op.read cursor.old) }
{
    let mut ahead = cursor.fork();
    let bump_to = ahead.i64()?;
    *cursor = ahead;
    Ok(BumpSequenceOp { bump_to })
}

/// Writes what raises a sequence number.
#[tactic(auto, unfolding(crate::specs::Operations::bump_sequence_op))]
pub fn write_bump_sequence_op(
    value: &BumpSequenceOp,
    builder: &mut Builder,
) -> Result<(), AllocError>
    ensures { OnOk result (builder.new ≡ spec.bump_sequence_op.onto builder.old value.now) }
{
    builder.i64(value.bump_to)
}
