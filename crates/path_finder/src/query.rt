//! What is asked, and what is answered.

ghost use Rattle.std.specs.Prelude.{◌≡◌, ◌+◌, ◌^◌, ◌<◌, length};
ghost use Rattle.path_finder.specs.Query as spec;
ghost use Rattle.path_finder.specs.declared.query.PathFault.TheVariants.{NoMemory};

use item_list::ItemList;
use ledger_types::{AccountId, Asset};
use std::alloc::AllocError;
use valid_values::is_valid_asset;

/// A payment of which a fixed amount has to arrive, and the assets by which it may go.
#[derive(Drop)]
pub struct PathQuery {
    /// Who pays, so who takes offers: its own aren't crossed. It needs no account.
    pub source: AccountId,
    /// What is sent.
    pub send: Asset,
    /// What arrives. It may be what is sent.
    pub dest: Asset,
    /// How much of `dest` has to arrive.
    pub amount: i64,
    /// By which assets the payment may go. A repeat counts once, at its first position.
    pub candidates: ItemList<Asset>,
}

/// The cheapest path.
#[derive(Drop)]
pub struct Found {
    /// The assets between `send` and `dest`, in order.
    pub path: ItemList<Asset>,
    /// How much of `send` the payment takes, at least 0.
    pub cost: i64,
}

/// Why a query isn't answered, in the order in which it is judged.
#[derive(Clone, Copy)]
pub enum PathFault {
    /// The first part that isn't valid: `send` (0), `dest` (1), an amount of at most 0 (2), or the candidate at
    /// position c of the list (3 + c).
    BadQuery { index: u32 },
    /// There are so many distinct candidates, above 12.
    TooMany { given: u32 },
    /// Memory was refused. The map may only be dropped.
    NoMemory,
}

impl From<AllocError> for PathFault {
    ghost from_gives = { λ _ fault. fault ≡ NoMemory };

    fn from(_refused: AllocError) -> PathFault {
        PathFault::NoMemory
    }
}

/// The first part of a query that isn't valid.
pub fn bad_index(query: &PathQuery) -> Option<u32>
    requires { length query.now.candidates + 3 < 2 ^ 32 }
    ensures { result ≡ spec.bad_index query.now }
{
    if !is_valid_asset(&query.send) {
        return Some(0);
    }
    if !is_valid_asset(&query.dest) {
        return Some(1);
    }
    if query.amount <= 0 {
        return Some(2);
    }
    match bad_candidate(query.candidates.as_slice()) {
        Some(position) => Some(3 + position as u32),
        None => None,
    }
}

/// The position of the first candidate that isn't valid.
fn bad_candidate(candidates: &[Asset]) -> Option<usize>
    ensures { result ≡ spec.bad_candidate candidates.now }
{
    candidates.iter().position(|asset| !is_valid_asset(asset))
}
