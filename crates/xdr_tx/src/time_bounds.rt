//! Time bounds.

ghost use Rattle.std.specs.Prelude.{◌≡◌, OnOk};
ghost use Rattle.xdr_core.specs.Position.{Reads, itself};
ghost use Rattle.xdr_tx.specs.Transactions as spec;

use op_types::TimeBounds;
use std::alloc::{AllocError, Global};
use xdr_core::{Builder, Cursor, Decode, Encode, ReadFault, XdrFault};

/// Reads time bounds.
#[tactic(auto, unfolding(crate::specs::Transactions::time_bounds))]
pub fn read_time_bounds(cursor: &mut Cursor<'_>) -> Result<TimeBounds, XdrFault>
    ensures { Reads itself result cursor.old cursor.new (spec.time_bounds.read cursor.old) }
{
    let mut ahead = cursor.fork();
    let min_time = ahead.u64()?;
    let max_time = ahead.u64()?;
    *cursor = ahead;
    Ok(TimeBounds { min_time, max_time })
}

/// Writes time bounds.
#[tactic(auto, unfolding(crate::specs::Transactions::time_bounds))]
pub fn write_time_bounds(value: &TimeBounds, builder: &mut Builder) -> Result<(), AllocError>
    ensures { OnOk result (builder.new ≡ spec.time_bounds.onto builder.old value.now) }
{
    builder.u64(value.min_time)?;
    builder.u64(value.max_time)
}

/// Time bounds, as a format.
pub enum TimeBoundsFormat {}

impl Decode for TimeBoundsFormat {
    type Value = TimeBounds;

    type Failure = ReadFault;

    ghost format = { spec.time_bounds };

    fn decode(_alloc: Global, cursor: &mut Cursor<'_>) -> Result<TimeBounds, ReadFault> {
        Ok(read_time_bounds(cursor)?)
    }
}

impl Encode for TimeBoundsFormat {
    #[tactic(auto, using(xdr_core::proofs::FormatLaws::written, crate::proofs::TransactionLaws::time_bounds_laws))]
    fn encode(value: &TimeBounds, builder: &mut Builder) -> Result<(), AllocError> {
        write_time_bounds(value, builder)
    }
}
