//! The accounts of a sample.

ghost use Rattle.std.specs.Prelude.{◌≡◌, ◌<◌, IfOk};
ghost use Rattle.sample_ledger.specs.Accounts as spec;
ghost use Rattle.sample_ledger.specs.Image.{account_count};

use crate::text::sample_text;
use ledger_types::{AccountId, MuxedAccount};
use sha2::{Digest, Sha256};
use std::alloc::{AllocError, Global};
use std::marker::Model;

/// How many accounts there are.
pub(crate) const ACCOUNT_COUNT: u32 = 9;

/// The ids of a sample's accounts, which its seed decides. Contracts see the seed.
#[derive(Drop)]
pub(crate) struct Accounts {
    seed: u32,
    ids: Vec<AccountId>,
}

impl Model for Accounts {
    ghost use Rattle.std.specs.Prelude.{◌≡◌, ℕ, map};
    ghost use Rattle.std.specs.List.{range_with_len};
    ghost use Rattle.std.specs.Coded.{coded_ℕ};
    ghost use Rattle.sample_ledger.specs.Accounts.{account_id};
    ghost use Rattle.sample_ledger.specs.Image.{account_count};

    ghost Value = { ℕ };

    ghost coded = { coded_ℕ };

    ghost view = { λ a. a.seed };

    ghost invariant = { λ a. a.ids.items ≡ map (account_id a.seed) (range_with_len 0 account_count) };
}

/// The id of an account.
#[tactic(auto, using(crate::proofs::Keys::last_replaced))]
fn account_id(alloc: Global, seed: u32, account: u32) -> Result<AccountId, AllocError>
    requires { account < account_count }
    ensures { IfOk result (λ id. id ≡ spec.account_id seed account) }
{
    let text = sample_text(alloc, b"account", &[seed, account])?;
    let mut key = Sha256::digest(text.as_slice());
    key[31] = account as u8;
    Ok(AccountId(key))
}

impl Accounts {
    /// The accounts of a seed.
    #[tactic(auto, using(crate::proofs::Listed::one_number_more))]
    pub(crate) fn new(alloc: Global, seed: u32) -> Result<Accounts, AllocError>
        ensures { IfOk result (λ accounts. accounts ≡ seed) }
    {
        let mut ids = Vec::new(alloc);
        for account in 0..ACCOUNT_COUNT {
            ids.push(account_id(alloc, seed, account)?)?;
        }
        Ok(Accounts { seed, ids })
    }

    /// The seed.
    pub(crate) fn seed(&self) -> u32
        ensures { result ≡ self.now }
    {
        self.seed
    }

    /// The id of an account.
    #[tactic(auto, using(crate::proofs::Listed::at_number))]
    pub(crate) fn id(&self, account: u32) -> AccountId
        requires { account < account_count }
        ensures { result ≡ spec.account_id self.now account }
    {
        self.ids[account as usize]
    }

    /// The account as one that is sent to, or that acts.
    pub(crate) fn muxed(&self, account: u32) -> MuxedAccount
        requires { account < account_count }
        ensures { result ≡ spec.muxed_account self.now account }
    {
        let AccountId(key) = self.id(account);
        MuxedAccount::Ed25519(key)
    }

    /// What signs for an account.
    pub(crate) fn secret(&self, alloc: Global, account: u32) -> Result<Vec<u8>, AllocError>
        ensures { IfOk result (λ secret. secret.items ≡ spec.secret self.now account) }
    {
        sample_text(alloc, b"secret", &[self.seed, account])
    }
}
