//! Claimable balances and their claimants.

ghost use Rattle.std.specs.Prelude.{◌≡◌, OnOk};
ghost use Rattle.xdr_core.specs.Position.{Reads, itself};
ghost use Rattle.xdr_core.specs.ReadFault.{cause_of};
ghost use Rattle.xdr_entries.specs.Entries as spec;

use crate::asset::{read_asset, write_asset};
use crate::ids::{
    read_account_id, read_claimable_balance_id, write_account_id, write_claimable_balance_id,
};
use crate::predicate::{read_claim_predicate, write_claim_predicate};
use ledger_types::{ClaimableBalanceEntry, ClaimableBalanceEntryExtensionV1, Claimant};
use std::alloc::{AllocError, Global};
use xdr_core::{
    Builder, Cursor, Decode, Encode, ReadFault, XdrFault, read_extension, read_list,
    write_extension, write_list,
};

/// CLAIMANT_TYPE_V0 (Stellar-ledger-entries.x).
const CLAIMANT_TYPE_V0: i32 = 0;

/// The most claimants of a balance (ClaimableBalanceEntry in Stellar-ledger-entries.x).
pub const MAX_CLAIMANTS: u32 = 10;

/// Reads a claimant.
#[tactic(auto, unfolding(crate::specs::Entries::claimant))]
pub fn read_claimant(alloc: Global, cursor: &mut Cursor<'_>) -> Result<Claimant, ReadFault>
    ensures { Reads cause_of result cursor.old cursor.new (spec.claimant.read cursor.old) }
{
    let mut ahead = cursor.fork();
    ahead.tag(CLAIMANT_TYPE_V0)?;
    let destination = read_account_id(&mut ahead)?;
    let predicate = read_claim_predicate(alloc, &mut ahead)?;
    *cursor = ahead;
    Ok(Claimant {
        destination,
        predicate,
    })
}

/// Writes a claimant.
#[tactic(auto, unfolding(crate::specs::Entries::claimant))]
pub fn write_claimant(value: &Claimant, builder: &mut Builder) -> Result<(), AllocError>
    requires { spec.claimant.within value.now }
    ensures { OnOk result (builder.new ≡ spec.claimant.onto builder.old value.now) }
{
    builder.tag(CLAIMANT_TYPE_V0)?;
    write_account_id(&value.destination, builder)?;
    write_claim_predicate(&value.predicate, builder)
}

/// Reads what clawback adds to a claimable balance.
#[tactic(auto, unfolding(crate::specs::Entries::claimable_balance_extension_v1))]
pub fn read_claimable_balance_extension_v1(
    cursor: &mut Cursor<'_>,
) -> Result<ClaimableBalanceEntryExtensionV1, XdrFault>
    ensures { Reads itself result cursor.old cursor.new (spec.claimable_balance_extension_v1.read cursor.old) }
{
    let mut ahead = cursor.fork();
    ahead.tag(0)?;
    let flags = ahead.u32()?;
    *cursor = ahead;
    Ok(ClaimableBalanceEntryExtensionV1 { flags })
}

/// Writes what clawback adds to a claimable balance.
#[tactic(auto, unfolding(crate::specs::Entries::claimable_balance_extension_v1))]
pub fn write_claimable_balance_extension_v1(
    value: &ClaimableBalanceEntryExtensionV1,
    builder: &mut Builder,
) -> Result<(), AllocError>
    ensures { OnOk result (builder.new ≡ spec.claimable_balance_extension_v1.onto builder.old value.now) }
{
    builder.tag(0)?;
    builder.u32(value.flags)
}

/// Reads a claimable balance.
#[tactic(auto, unfolding(crate::specs::Entries::claimable_balance_entry))]
pub fn read_claimable_balance_entry(
    alloc: Global,
    cursor: &mut Cursor<'_>,
) -> Result<ClaimableBalanceEntry, ReadFault>
    ensures { Reads cause_of result cursor.old cursor.new (spec.claimable_balance_entry.read cursor.old) }
{
    let mut ahead = cursor.fork();
    let balance_id = read_claimable_balance_id(&mut ahead)?;
    let claimants = read_list::<ClaimantFormat>(alloc, MAX_CLAIMANTS, &mut ahead)?;
    let asset = read_asset(&mut ahead)?;
    let amount = ahead.i64()?;
    let ext = read_extension::<ClaimableBalanceExtensionV1Format>(alloc, 1, &mut ahead)?;
    *cursor = ahead;
    Ok(ClaimableBalanceEntry {
        balance_id,
        claimants,
        asset,
        amount,
        ext,
    })
}

/// Writes a claimable balance.
#[tactic(auto, unfolding(crate::specs::Entries::claimable_balance_entry))]
pub fn write_claimable_balance_entry(
    value: &ClaimableBalanceEntry,
    builder: &mut Builder,
) -> Result<(), AllocError>
    requires { spec.claimable_balance_entry.within value.now }
    ensures { OnOk result (builder.new ≡ spec.claimable_balance_entry.onto builder.old value.now) }
{
    write_claimable_balance_id(&value.balance_id, builder)?;
    write_list::<ClaimantFormat>(value.claimants.as_slice(), MAX_CLAIMANTS, builder)?;
    write_asset(&value.asset, builder)?;
    builder.i64(value.amount)?;
    write_extension::<ClaimableBalanceExtensionV1Format>(&value.ext, 1, builder)
}

/// Claimants, as a format.
pub enum ClaimantFormat {}

impl Decode for ClaimantFormat {
    type Value = Claimant;

    type Failure = ReadFault;

    ghost format = { spec.claimant };

    fn decode(alloc: Global, cursor: &mut Cursor<'_>) -> Result<Claimant, ReadFault> {
        read_claimant(alloc, cursor)
    }
}

impl Encode for ClaimantFormat {
    #[tactic(auto, using(crate::proofs::AllLaws::written_values))]
    fn encode(value: &Claimant, builder: &mut Builder) -> Result<(), AllocError> {
        write_claimant(value, builder)
    }
}

/// What clawback adds to claimable balances, as a format.
pub enum ClaimableBalanceExtensionV1Format {}

impl Decode for ClaimableBalanceExtensionV1Format {
    type Value = ClaimableBalanceEntryExtensionV1;

    type Failure = XdrFault;

    ghost format = { spec.claimable_balance_extension_v1 };

    fn decode(
        _alloc: Global,
        cursor: &mut Cursor<'_>,
    ) -> Result<ClaimableBalanceEntryExtensionV1, XdrFault> {
        read_claimable_balance_extension_v1(cursor)
    }
}

impl Encode for ClaimableBalanceExtensionV1Format {
    #[tactic(auto, using(crate::proofs::AllLaws::written_values))]
    fn encode(
        value: &ClaimableBalanceEntryExtensionV1,
        builder: &mut Builder,
    ) -> Result<(), AllocError> {
        write_claimable_balance_extension_v1(value, builder)
    }
}
