//! A key in a text.

ghost use Rattle.std.specs.Prelude.{◌≡◌};
ghost use Rattle.xdr_core.specs.Position.{ReadsBy, itself};
ghost use Rattle.xdr_entries.specs.Keys.{ledger_key};
ghost use Rattle.bucket_items.specs.KeyRef as spec;

use ledger_types::{AccountId, ClaimableBalanceId, Hash, LedgerKey, TrustLineAsset};
use xdr_core::{Cursor, XdrFault, XdrKind};
use xdr_entries::{
    MAX_DATA_NAME_LEN, read_account_id, read_claimable_balance_id, read_hash, read_trust_line_asset,
};

/// What names an entry (LedgerKey in Stellar-ledger-entries.x), with a name that stays where it is in its text. So it
/// takes no memory. It is ordered as the key is: by type and then by fields, names by their bytes.
#[derive(PartialEq, Eq, PartialOrd, Ord, Drop)]
pub enum KeyRef<'a> {
    /// ACCOUNT, 0.
    Account {
        account_id: AccountId,
    },
    /// TRUSTLINE, 1.
    TrustLine {
        account_id: AccountId,
        asset: TrustLineAsset,
    },
    /// OFFER, 2.
    Offer {
        seller_id: AccountId,
        offer_id: i64,
    },
    /// DATA, 3. A name has at most 64 bytes.
    Data {
        account_id: AccountId,
        data_name: &'a [u8],
    },
    /// CLAIMABLE_BALANCE, 4.
    ClaimableBalance {
        balance_id: ClaimableBalanceId,
    },
    /// LIQUIDITY_POOL, 5.
    LiquidityPool {
        pool_id: Hash,
    },
}

impl<'a> KeyRef<'a> {
    /// A key, with its name where it is.
    pub fn of(key: &'a LedgerKey) -> KeyRef<'a>
        ensures { spec.key_seen result ≡ key.now }
    {
        match key {
            LedgerKey::Account { account_id } => KeyRef::Account {
                account_id: *account_id,
            },
            LedgerKey::TrustLine { account_id, asset } => KeyRef::TrustLine {
                account_id: *account_id,
                asset: *asset,
            },
            LedgerKey::Offer {
                seller_id,
                offer_id,
            } => KeyRef::Offer {
                seller_id: *seller_id,
                offer_id: *offer_id,
            },
            LedgerKey::Data {
                account_id,
                data_name,
            } => KeyRef::Data {
                account_id: *account_id,
                data_name: data_name.as_slice(),
            },
            LedgerKey::ClaimableBalance { balance_id } => KeyRef::ClaimableBalance {
                balance_id: *balance_id,
            },
            LedgerKey::LiquidityPool { pool_id } => KeyRef::LiquidityPool { pool_id: *pool_id },
        }
    }
}

/// Reads a key in place.
#[tactic(auto, unfolding(xdr_entries::specs::Keys::ledger_key))]
pub fn read_key_ref<'a>(cursor: &mut Cursor<'a>) -> Result<KeyRef<'a>, XdrFault>
    ensures { ReadsBy spec.key_seen itself result cursor.old cursor.new (ledger_key.read cursor.old) }
{
    let mut ahead = cursor.fork();
    let key = match ahead.i32()? {
        0 => KeyRef::Account {
            account_id: read_account_id(&mut ahead)?,
        },
        1 => KeyRef::TrustLine {
            account_id: read_account_id(&mut ahead)?,
            asset: read_trust_line_asset(&mut ahead)?,
        },
        2 => KeyRef::Offer {
            seller_id: read_account_id(&mut ahead)?,
            offer_id: ahead.i64()?,
        },
        3 => KeyRef::Data {
            account_id: read_account_id(&mut ahead)?,
            data_name: ahead.var(MAX_DATA_NAME_LEN)?,
        },
        4 => KeyRef::ClaimableBalance {
            balance_id: read_claimable_balance_id(&mut ahead)?,
        },
        5 => KeyRef::LiquidityPool {
            pool_id: read_hash(&mut ahead)?,
        },
        _ => return Err(cursor.fault(XdrKind::BadEnum)),
    };
    *cursor = ahead;
    Ok(key)
}
