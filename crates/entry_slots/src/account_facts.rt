//! What of an account has a fixed width, for functions that test an account and leave it.

ghost use Rattle.std.specs.Prelude.{◌≡◌, IfOk};
ghost use Rattle.std.specs.Option.{option_copied};
ghost use Rattle.entry_slots.specs.Accounts.{account_of};
ghost use Rattle.entry_slots.specs.AccountFacts as spec;

use crate::account_extensions::{
    account_liabilities, num_sponsored, num_sponsoring, seq_ledger, seq_time,
};
use crate::accounts::account_in;
use entry_map::ledger_types::{AccountEntry, AccountId, LedgerEntry, LedgerKey, Liabilities};
use entry_map::{Base, Entries};
use std::alloc::AllocError;

/// What of an account has a fixed width, and what its extensions say.
#[derive(Clone, Copy)]
pub struct AccountFacts {
    pub balance: i64,
    pub seq_num: i64,
    pub num_sub_entries: u32,
    pub flags: u32,
    pub thresholds: [u8; 4],
    pub liabilities: Liabilities,
    pub num_sponsored: u32,
    pub num_sponsoring: u32,
    /// The ledger in which the sequence number was last set, or 0 where that isn't recorded (CAP-0021).
    pub seq_ledger: u32,
    /// The close time of that ledger.
    pub seq_time: u64,
}

/// The facts of an account.
pub fn facts_of(account: &AccountEntry) -> AccountFacts
    ensures { result ≡ spec.facts_of account.now }
{
    AccountFacts {
        balance: account.balance,
        seq_num: account.seq_num,
        num_sub_entries: account.num_sub_entries,
        flags: account.flags,
        thresholds: account.thresholds,
        liabilities: account_liabilities(account),
        num_sponsored: num_sponsored(account),
        num_sponsoring: num_sponsoring(account),
        seq_ledger: seq_ledger(account),
        seq_time: seq_time(account),
    }
}

/// The facts in an entry, if it is that of an account.
fn facts_in(entry: Option<&LedgerEntry>) -> Option<AccountFacts>
    ensures { result ≡ spec.facts_in (account_of (option_copied entry.entry)) }
{
    Some(facts_of(account_in(entry)?))
}

/// The facts of the account with this id, if it exists. An account that has changed is looked at where it is.
#[tactic(auto, unfolding(crate::specs::Accounts::account_at))]
pub fn load_facts<B: Base>(
    entries: &Entries<'_, B>,
    account_id: &AccountId,
) -> Result<Option<AccountFacts>, AllocError>
    ensures { IfOk result (λ facts. facts ≡ spec.facts_at entries.now.current account_id.now) }
{
    let key = LedgerKey::Account {
        account_id: *account_id,
    };
    match entries.changed(&key) {
        Some(entry) => Ok(facts_in(entry)),
        None => Ok(facts_in(entries.base_entry(&key)?.as_ref())),
    }
}
