//! Fields that may be absent.

ghost use Rattle.xdr_core.specs.Leaves.{i64 as i64_format, u32 as u32_format, var};

use item_list::ItemList;
use ledger_types::MAX_HOME_DOMAIN_LEN;
use std::alloc::{AllocError, Global};
use xdr_core::{Builder, Cursor, Decode, Encode, ReadFault};
use xdr_entries::MAX_DATA_VALUE_LEN;

/// Numbers of 32 bits, as a format.
pub enum U32Format {}

impl Decode for U32Format {
    type Value = u32;

    type Failure = ReadFault;

    ghost format = { u32_format };

    fn decode(_alloc: Global, cursor: &mut Cursor<'_>) -> Result<u32, ReadFault> {
        Ok(cursor.u32()?)
    }
}

impl Encode for U32Format {
    #[tactic(auto, using(xdr_core::proofs::FormatLaws::written, xdr_core::proofs::FormatLaws::u32_laws))]
    fn encode(value: &u32, builder: &mut Builder) -> Result<(), AllocError> {
        builder.u32(*value)
    }
}

/// Signed numbers of 64 bits, as a format.
pub enum I64Format {}

impl Decode for I64Format {
    type Value = i64;

    type Failure = ReadFault;

    ghost format = { i64_format };

    fn decode(_alloc: Global, cursor: &mut Cursor<'_>) -> Result<i64, ReadFault> {
        Ok(cursor.i64()?)
    }
}

impl Encode for I64Format {
    #[tactic(auto, using(xdr_core::proofs::FormatLaws::written, xdr_core::proofs::FormatLaws::i64_laws))]
    fn encode(value: &i64, builder: &mut Builder) -> Result<(), AllocError> {
        builder.i64(*value)
    }
}

/// Home domains, as a format.
pub enum HomeDomainFormat {}

impl Decode for HomeDomainFormat {
    type Value = ItemList<u8>;

    type Failure = ReadFault;

    ghost format = { var 32 };

    fn decode(alloc: Global, cursor: &mut Cursor<'_>) -> Result<ItemList<u8>, ReadFault> {
        let mut ahead = cursor.fork();
        let domain = ItemList::from_slice(alloc, ahead.var(MAX_HOME_DOMAIN_LEN)?)?;
        *cursor = ahead;
        Ok(domain)
    }
}

impl Encode for HomeDomainFormat {
    #[tactic(auto, using(xdr_core::proofs::FormatLaws::written, crate::proofs::FieldLaws::home_domain_laws))]
    fn encode(value: &ItemList<u8>, builder: &mut Builder) -> Result<(), AllocError> {
        builder.var(value.as_slice(), MAX_HOME_DOMAIN_LEN)
    }
}

/// Values of data, as a format.
pub enum DataValueFormat {}

impl Decode for DataValueFormat {
    type Value = ItemList<u8>;

    type Failure = ReadFault;

    ghost format = { var 64 };

    fn decode(alloc: Global, cursor: &mut Cursor<'_>) -> Result<ItemList<u8>, ReadFault> {
        let mut ahead = cursor.fork();
        let value = ItemList::from_slice(alloc, ahead.var(MAX_DATA_VALUE_LEN)?)?;
        *cursor = ahead;
        Ok(value)
    }
}

impl Encode for DataValueFormat {
    #[tactic(auto, using(xdr_core::proofs::FormatLaws::written, crate::proofs::FieldLaws::data_value_laws))]
    fn encode(value: &ItemList<u8>, builder: &mut Builder) -> Result<(), AllocError> {
        builder.var(value.as_slice(), MAX_DATA_VALUE_LEN)
    }
}
