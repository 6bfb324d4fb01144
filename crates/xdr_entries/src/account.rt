//! Accounts.

ghost use Rattle.std.specs.Prelude.{◌≡◌, OnOk};
ghost use Rattle.xdr_core.specs.Position.{Reads, itself};
ghost use Rattle.xdr_core.specs.ReadFault.{cause_of};
ghost use Rattle.xdr_entries.specs.Entries as spec;

use crate::ids::{AccountIdFormat, OptionalAccountIdFormat, read_account_id, write_account_id};
use crate::price::{read_liabilities, write_liabilities};
use crate::signer::SignerFormat;
use item_list::ItemList;
use ledger_types::{
    AccountEntry, AccountEntryExtensionV1, AccountEntryExtensionV2, AccountEntryExtensionV3,
    AccountId, MAX_HOME_DOMAIN_LEN, MAX_SIGNERS, Signer,
};
use std::alloc::{AllocError, Global};
use xdr_core::{
    Builder, Cursor, Decode, Encode, ReadFault, XdrFault, read_extension, read_list, read_option,
    read_var, write_extension, write_list, write_option,
};

/// Reads when an account's sequence number was last set.
#[tactic(auto, unfolding(crate::specs::Entries::account_extension_v3))]
pub fn read_account_extension_v3(
    cursor: &mut Cursor<'_>,
) -> Result<AccountEntryExtensionV3, XdrFault>
    ensures { Reads itself result cursor.old cursor.new (spec.account_extension_v3.read cursor.old) }
{
    let mut ahead = cursor.fork();
    ahead.tag(0)?;
    let seq_ledger = ahead.u32()?;
    let seq_time = ahead.u64()?;
    *cursor = ahead;
    Ok(AccountEntryExtensionV3 {
        seq_ledger,
        seq_time,
    })
}

/// Writes when an account's sequence number was last set.
#[tactic(auto, unfolding(crate::specs::Entries::account_extension_v3))]
pub fn write_account_extension_v3(
    value: &AccountEntryExtensionV3,
    builder: &mut Builder,
) -> Result<(), AllocError>
    ensures { OnOk result (builder.new ≡ spec.account_extension_v3.onto builder.old value.now) }
{
    builder.tag(0)?;
    builder.u32(value.seq_ledger)?;
    builder.u64(value.seq_time)
}

/// Reads what sponsorship adds to an account.
#[tactic(auto, unfolding(crate::specs::Entries::account_extension_v2))]
pub fn read_account_extension_v2(
    alloc: Global,
    cursor: &mut Cursor<'_>,
) -> Result<AccountEntryExtensionV2, ReadFault>
    ensures { Reads cause_of result cursor.old cursor.new (spec.account_extension_v2.read cursor.old) }
{
    let mut ahead = cursor.fork();
    let num_sponsored = ahead.u32()?;
    let num_sponsoring = ahead.u32()?;
    let signer_sponsoring_ids = read_list::<OptionalAccountIdFormat>(
        alloc,
        MAX_SIGNERS,
        &mut ahead,
    )?;
    let ext = read_extension::<AccountExtensionV3Format>(alloc, 3, &mut ahead)?;
    *cursor = ahead;
    Ok(AccountEntryExtensionV2 {
        num_sponsored,
        num_sponsoring,
        signer_sponsoring_ids,
        ext,
    })
}

/// Writes what sponsorship adds to an account.
#[tactic(auto, unfolding(crate::specs::Entries::account_extension_v2))]
pub fn write_account_extension_v2(
    value: &AccountEntryExtensionV2,
    builder: &mut Builder,
) -> Result<(), AllocError>
    requires { spec.account_extension_v2.within value.now }
    ensures { OnOk result (builder.new ≡ spec.account_extension_v2.onto builder.old value.now) }
{
    builder.u32(value.num_sponsored)?;
    builder.u32(value.num_sponsoring)?;
    write_list::<OptionalAccountIdFormat>(
        value.signer_sponsoring_ids.as_slice(),
        MAX_SIGNERS,
        builder,
    )?;
    write_extension::<AccountExtensionV3Format>(&value.ext, 3, builder)
}

/// Reads what liabilities add to an account.
#[tactic(auto, unfolding(crate::specs::Entries::account_extension_v1))]
pub fn read_account_extension_v1(
    alloc: Global,
    cursor: &mut Cursor<'_>,
) -> Result<AccountEntryExtensionV1, ReadFault>
    ensures { Reads cause_of result cursor.old cursor.new (spec.account_extension_v1.read cursor.old) }
{
    let mut ahead = cursor.fork();
    let liabilities = read_liabilities(&mut ahead)?;
    let ext = read_extension::<AccountExtensionV2Format>(alloc, 2, &mut ahead)?;
    *cursor = ahead;
    Ok(AccountEntryExtensionV1 { liabilities, ext })
}

/// Writes what liabilities add to an account.
#[tactic(auto, unfolding(crate::specs::Entries::account_extension_v1))]
pub fn write_account_extension_v1(
    value: &AccountEntryExtensionV1,
    builder: &mut Builder,
) -> Result<(), AllocError>
    requires { spec.account_extension_v1.within value.now }
    ensures { OnOk result (builder.new ≡ spec.account_extension_v1.onto builder.old value.now) }
{
    write_liabilities(&value.liabilities, builder)?;
    write_extension::<AccountExtensionV2Format>(&value.ext, 2, builder)
}

/// The fields of an account up to its flags.
type AccountHead = (AccountId, (i64, (i64, (u32, (Option<AccountId>, u32)))));

/// Reads the fields of an account up to its flags.
#[tactic(auto, unfolding(crate::specs::Entries::account_head))]
fn read_account_head(alloc: Global, cursor: &mut Cursor<'_>) -> Result<AccountHead, XdrFault>
    ensures { Reads itself result cursor.old cursor.new (spec.account_head.read cursor.old) }
{
    let mut ahead = cursor.fork();
    let account_id = read_account_id(&mut ahead)?;
    let balance = ahead.i64()?;
    let seq_num = ahead.i64()?;
    let num_sub_entries = ahead.u32()?;
    let inflation_dest = read_option::<AccountIdFormat>(alloc, &mut ahead)?;
    let flags = ahead.u32()?;
    *cursor = ahead;
    Ok((
        account_id,
        (
            balance,
            (seq_num, (num_sub_entries, (inflation_dest, flags))),
        ),
    ))
}

/// The fields of an account from its home domain on.
type AccountTail = (
    ItemList<u8>,
    ([u8; 4], (ItemList<Signer>, Option<AccountEntryExtensionV1>)),
);

/// Reads the fields of an account from its home domain on.
#[tactic(auto, unfolding(crate::specs::Entries::account_tail))]
fn read_account_tail(alloc: Global, cursor: &mut Cursor<'_>) -> Result<AccountTail, ReadFault>
    ensures { Reads cause_of result cursor.old cursor.new (spec.account_tail.read cursor.old) }
{
    let mut ahead = cursor.fork();
    let home_domain = read_var(alloc, MAX_HOME_DOMAIN_LEN, &mut ahead)?;
    let thresholds = ahead.array::<4>()?;
    let signers = read_list::<SignerFormat>(alloc, MAX_SIGNERS, &mut ahead)?;
    let ext = read_extension::<AccountExtensionV1Format>(alloc, 1, &mut ahead)?;
    *cursor = ahead;
    Ok((home_domain, (thresholds, (signers, ext))))
}

/// Reads an account.
#[tactic(auto, unfolding(crate::specs::Entries::account_entry))]
pub fn read_account_entry(alloc: Global, cursor: &mut Cursor<'_>) -> Result<AccountEntry, ReadFault>
    ensures { Reads cause_of result cursor.old cursor.new (spec.account_entry.read cursor.old) }
{
    let mut ahead = cursor.fork();
    let (account_id, (balance, (seq_num, (num_sub_entries, (inflation_dest, flags))))) =
        read_account_head(alloc, &mut ahead)?;
    let (home_domain, (thresholds, (signers, ext))) = read_account_tail(alloc, &mut ahead)?;
    *cursor = ahead;
    Ok(AccountEntry {
        account_id,
        balance,
        seq_num,
        num_sub_entries,
        inflation_dest,
        flags,
        home_domain,
        thresholds,
        signers,
        ext,
    })
}

/// Writes the fields of an account up to its flags.
#[tactic(auto, unfolding(crate::specs::Entries::account_head))]
fn write_account_head(value: &AccountEntry, builder: &mut Builder) -> Result<(), AllocError>
    requires { spec.account_head.within (spec.account_fields.from value.now).0 }
    ensures { OnOk result (builder.new ≡ spec.account_head.onto builder.old (spec.account_fields.from value.now).0) }
{
    write_account_id(&value.account_id, builder)?;
    builder.i64(value.balance)?;
    builder.i64(value.seq_num)?;
    builder.u32(value.num_sub_entries)?;
    write_option::<AccountIdFormat>(&value.inflation_dest, builder)?;
    builder.u32(value.flags)
}

/// Writes the fields of an account from its home domain on.
#[tactic(auto, unfolding(crate::specs::Entries::account_tail))]
fn write_account_tail(value: &AccountEntry, builder: &mut Builder) -> Result<(), AllocError>
    requires { spec.account_tail.within (spec.account_fields.from value.now).1 }
    ensures { OnOk result (builder.new ≡ spec.account_tail.onto builder.old (spec.account_fields.from value.now).1) }
{
    builder.var(value.home_domain.as_slice(), MAX_HOME_DOMAIN_LEN)?;
    builder.fixed(&value.thresholds)?;
    write_list::<SignerFormat>(value.signers.as_slice(), MAX_SIGNERS, builder)?;
    write_extension::<AccountExtensionV1Format>(&value.ext, 1, builder)
}

/// Writes an account.
#[tactic(auto, unfolding(crate::specs::Entries::account_entry))]
pub fn write_account_entry(value: &AccountEntry, builder: &mut Builder) -> Result<(), AllocError>
    requires { spec.account_entry.within value.now }
    ensures { OnOk result (builder.new ≡ spec.account_entry.onto builder.old value.now) }
{
    write_account_head(value, builder)?;
    write_account_tail(value, builder)
}

/// When sequence numbers of accounts were last set, as a format.
pub enum AccountExtensionV3Format {}

impl Decode for AccountExtensionV3Format {
    type Value = AccountEntryExtensionV3;

    type Failure = ReadFault;

    ghost format = { spec.account_extension_v3 };

    fn decode(
        _alloc: Global,
        cursor: &mut Cursor<'_>,
    ) -> Result<AccountEntryExtensionV3, ReadFault> {
        Ok(read_account_extension_v3(cursor)?)
    }
}

impl Encode for AccountExtensionV3Format {
    #[tactic(auto, using(crate::proofs::AllLaws::written_values))]
    fn encode(value: &AccountEntryExtensionV3, builder: &mut Builder) -> Result<(), AllocError> {
        write_account_extension_v3(value, builder)
    }
}

/// What sponsorship adds to accounts, as a format.
pub enum AccountExtensionV2Format {}

impl Decode for AccountExtensionV2Format {
    type Value = AccountEntryExtensionV2;

    type Failure = ReadFault;

    ghost format = { spec.account_extension_v2 };

    fn decode(
        alloc: Global,
        cursor: &mut Cursor<'_>,
    ) -> Result<AccountEntryExtensionV2, ReadFault> {
        read_account_extension_v2(alloc, cursor)
    }
}

impl Encode for AccountExtensionV2Format {
    #[tactic(auto, using(crate::proofs::AllLaws::written_values))]
    fn encode(value: &AccountEntryExtensionV2, builder: &mut Builder) -> Result<(), AllocError> {
        write_account_extension_v2(value, builder)
    }
}

/// What liabilities add to accounts, as a format.
pub enum AccountExtensionV1Format {}

impl Decode for AccountExtensionV1Format {
    type Value = AccountEntryExtensionV1;

    type Failure = ReadFault;

    ghost format = { spec.account_extension_v1 };

    fn decode(
        alloc: Global,
        cursor: &mut Cursor<'_>,
    ) -> Result<AccountEntryExtensionV1, ReadFault> {
        read_account_extension_v1(alloc, cursor)
    }
}

impl Encode for AccountExtensionV1Format {
    #[tactic(auto, using(crate::proofs::AllLaws::written_values))]
    fn encode(value: &AccountEntryExtensionV1, builder: &mut Builder) -> Result<(), AllocError> {
        write_account_extension_v1(value, builder)
    }
}
