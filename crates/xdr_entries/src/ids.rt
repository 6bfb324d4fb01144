//! Ids and hashes.

ghost use Rattle.std.specs.Prelude.{◌≡◌, OnOk};
ghost use Rattle.xdr_core.specs.Position.{Reads, itself};
ghost use Rattle.xdr_core.specs.Xdr.{optional};
ghost use Rattle.xdr_entries.specs.Basic as spec;

use ledger_types::{AccountId, ClaimableBalanceId, Hash, MuxedAccount};
use std::alloc::{AllocError, Global};
use xdr_core::{
    Builder, Cursor, Decode, Encode, ReadFault, XdrFault, XdrKind, read_option, write_option,
};

/// PUBLIC_KEY_TYPE_ED25519 and KEY_TYPE_ED25519 (Stellar-types.x).
const KEY_TYPE_ED25519: i32 = 0;

/// KEY_TYPE_MUXED_ED25519 (Stellar-types.x).
const KEY_TYPE_MUXED_ED25519: i32 = 256;

/// CLAIMABLE_BALANCE_ID_TYPE_V0 (Stellar-ledger-entries.x).
const CLAIMABLE_BALANCE_ID_TYPE_V0: i32 = 0;

/// Reads a hash.
#[tactic(auto, unfolding(crate::specs::Basic::hash))]
pub fn read_hash(cursor: &mut Cursor<'_>) -> Result<Hash, XdrFault>
    ensures { Reads itself result cursor.old cursor.new (spec.hash.read cursor.old) }
{
    Ok(Hash(cursor.array::<32>()?))
}

/// Writes a hash.
#[tactic(auto, unfolding(crate::specs::Basic::hash))]
pub fn write_hash(value: &Hash, builder: &mut Builder) -> Result<(), AllocError>
    ensures { OnOk result (builder.new ≡ spec.hash.onto builder.old value.now) }
{
    builder.fixed(&value.0)
}

/// Reads an account's id.
#[tactic(auto, unfolding(crate::specs::Basic::account_id))]
pub fn read_account_id(cursor: &mut Cursor<'_>) -> Result<AccountId, XdrFault>
    ensures { Reads itself result cursor.old cursor.new (spec.account_id.read cursor.old) }
{
    let mut ahead = cursor.fork();
    ahead.tag(KEY_TYPE_ED25519)?;
    let key = ahead.array::<32>()?;
    *cursor = ahead;
    Ok(AccountId(key))
}

/// Writes an account's id.
#[tactic(auto, unfolding(crate::specs::Basic::account_id))]
pub fn write_account_id(value: &AccountId, builder: &mut Builder) -> Result<(), AllocError>
    ensures { OnOk result (builder.new ≡ spec.account_id.onto builder.old value.now) }
{
    builder.tag(KEY_TYPE_ED25519)?;
    builder.fixed(&value.0)
}

/// Reads a claimable balance's id.
#[tactic(auto, unfolding(crate::specs::Basic::claimable_balance_id))]
pub fn read_claimable_balance_id(cursor: &mut Cursor<'_>) -> Result<ClaimableBalanceId, XdrFault>
    ensures { Reads itself result cursor.old cursor.new (spec.claimable_balance_id.read cursor.old) }
{
    let mut ahead = cursor.fork();
    ahead.tag(CLAIMABLE_BALANCE_ID_TYPE_V0)?;
    let hash = read_hash(&mut ahead)?;
    *cursor = ahead;
    Ok(ClaimableBalanceId(hash))
}

/// Writes a claimable balance's id.
#[tactic(auto, unfolding(crate::specs::Basic::claimable_balance_id))]
pub fn write_claimable_balance_id(
    value: &ClaimableBalanceId,
    builder: &mut Builder,
) -> Result<(), AllocError>
    ensures { OnOk result (builder.new ≡ spec.claimable_balance_id.onto builder.old value.now) }
{
    builder.tag(CLAIMABLE_BALANCE_ID_TYPE_V0)?;
    write_hash(&value.0, builder)
}

/// Reads an account, or one of the customers that share it.
#[tactic(auto, unfolding(crate::specs::Basic::muxed_account))]
pub fn read_muxed_account(cursor: &mut Cursor<'_>) -> Result<MuxedAccount, XdrFault>
    ensures { Reads itself result cursor.old cursor.new (spec.muxed_account.read cursor.old) }
{
    let mut ahead = cursor.fork();
    let account = match ahead.i32()? {
        KEY_TYPE_ED25519 => MuxedAccount::Ed25519(ahead.array::<32>()?),
        KEY_TYPE_MUXED_ED25519 => MuxedAccount::MuxedEd25519 {
            id: ahead.u64()?,
            ed25519: ahead.array::<32>()?,
        },
        _ => return Err(cursor.fault(XdrKind::BadEnum)),
    };
    *cursor = ahead;
    Ok(account)
}

/// Writes an account, or one of the customers that share it.
#[tactic(auto, unfolding(crate::specs::Basic::muxed_account))]
pub fn write_muxed_account(value: &MuxedAccount, builder: &mut Builder) -> Result<(), AllocError>
    ensures { OnOk result (builder.new ≡ spec.muxed_account.onto builder.old value.now) }
{
    match value {
        MuxedAccount::Ed25519(key) => {
            builder.i32(KEY_TYPE_ED25519)?;
            builder.fixed(key)
        }
        MuxedAccount::MuxedEd25519 { id, ed25519 } => {
            builder.i32(KEY_TYPE_MUXED_ED25519)?;
            builder.u64(*id)?;
            builder.fixed(ed25519)
        }
    }
}

/// Ids of accounts, as a format.
pub enum AccountIdFormat {}

impl Decode for AccountIdFormat {
    type Value = AccountId;

    type Failure = XdrFault;

    ghost format = { spec.account_id };

    fn decode(_alloc: Global, cursor: &mut Cursor<'_>) -> Result<AccountId, XdrFault> {
        read_account_id(cursor)
    }
}

impl Encode for AccountIdFormat {
    #[tactic(auto, using(crate::proofs::AllLaws::written_values))]
    fn encode(value: &AccountId, builder: &mut Builder) -> Result<(), AllocError> {
        write_account_id(value, builder)
    }
}

/// Ids of accounts that may be absent, as a format.
pub enum OptionalAccountIdFormat {}

impl Decode for OptionalAccountIdFormat {
    type Value = Option<AccountId>;

    type Failure = ReadFault;

    ghost format = { optional spec.account_id };

    fn decode(alloc: Global, cursor: &mut Cursor<'_>) -> Result<Option<AccountId>, ReadFault> {
        Ok(read_option::<AccountIdFormat>(alloc, cursor)?)
    }
}

impl Encode for OptionalAccountIdFormat {
    #[tactic(auto, using(crate::proofs::AllLaws::written_values))]
    fn encode(value: &Option<AccountId>, builder: &mut Builder) -> Result<(), AllocError> {
        write_option::<AccountIdFormat>(value, builder)
    }
}

/// Accounts, or customers that share one, as a format.
pub enum MuxedAccountFormat {}

impl Decode for MuxedAccountFormat {
    type Value = MuxedAccount;

    type Failure = ReadFault;

    ghost format = { spec.muxed_account };

    fn decode(_alloc: Global, cursor: &mut Cursor<'_>) -> Result<MuxedAccount, ReadFault> {
        Ok(read_muxed_account(cursor)?)
    }
}

impl Encode for MuxedAccountFormat {
    #[tactic(auto, using(crate::proofs::AllLaws::written_values))]
    fn encode(value: &MuxedAccount, builder: &mut Builder) -> Result<(), AllocError> {
        write_muxed_account(value, builder)
    }
}
