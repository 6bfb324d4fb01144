//! Data.

ghost use Rattle.std.specs.Prelude.{◌≡◌, OnOk};
ghost use Rattle.xdr_core.specs.Position.{Reads};
ghost use Rattle.xdr_core.specs.ReadFault.{cause_of};
ghost use Rattle.xdr_entries.specs.Entries as spec;

use crate::ids::{read_account_id, write_account_id};
use ledger_types::DataEntry;
use std::alloc::{AllocError, Global};
use xdr_core::{Builder, Cursor, ReadFault, read_var};

/// The most bytes of a name (string64 in Stellar-ledger-entries.x).
pub const MAX_DATA_NAME_LEN: u32 = 64;

/// The most bytes of a value (DataValue in Stellar-ledger-entries.x).
pub const MAX_DATA_VALUE_LEN: u32 = 64;

/// Reads data.
#[tactic(auto, unfolding(crate::specs::Entries::data_entry))]
pub fn read_data_entry(alloc: Global, cursor: &mut Cursor<'_>) -> Result<DataEntry, ReadFault>
    ensures { Reads cause_of result cursor.old cursor.new (spec.data_entry.read cursor.old) }
{
    let mut ahead = cursor.fork();
    let account_id = read_account_id(&mut ahead)?;
    let data_name = read_var(alloc, MAX_DATA_NAME_LEN, &mut ahead)?;
    let data_value = read_var(alloc, MAX_DATA_VALUE_LEN, &mut ahead)?;
    ahead.tag(0)?;
    *cursor = ahead;
    Ok(DataEntry {
        account_id,
        data_name,
        data_value,
    })
}

/// Writes data.
#[tactic(auto, unfolding(crate::specs::Entries::data_entry))]
pub fn write_data_entry(value: &DataEntry, builder: &mut Builder) -> Result<(), AllocError>
    requires { spec.data_entry.within value.now }
    ensures { OnOk result (builder.new ≡ spec.data_entry.onto builder.old value.now) }
{
    write_account_id(&value.account_id, builder)?;
    builder.var(value.data_name.as_slice(), MAX_DATA_NAME_LEN)?;
    builder.var(value.data_value.as_slice(), MAX_DATA_VALUE_LEN)?;
    builder.tag(0)
}
