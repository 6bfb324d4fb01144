//! Withdrawals from a pool.

ghost use Rattle.std.specs.Prelude.{◌≡◌, ◌≤◌, pos, ◌≤ℤ◌, unsigned_abs};
ghost use Rattle.pool_math.specs.Pools as spec;
ghost use Rattle.pool_math.specs.Pools.{withdrawn};
ghost use Rattle.pool_math.specs.Laws.{IsFairWithdrawal};

/// The same in numbers without a sign.
#[tactic(auto, using(crate::proofs::WithdrawalLaws::withdrawals), unfolding(crate::specs::Pools::withdrawn))]
fn withdrawn(reserve: u64, total: u64, shares: u64) -> u64
    requires within { shares ≤ total }
    ensures value { result ≡ spec.withdrawn reserve total shares }
    ensures fair { IsFairWithdrawal reserve total shares (spec.withdrawn reserve total shares) }
{
    if shares == 0 {
        return 0;
    }
    (shares as u128 * reserve as u128 / total as u128) as u64
}

/// What `shares` of `total` give of an asset of which the pool has `reserve`, rounded down. No shares give nothing,
/// also where there are none.
pub fn withdraw(reserve: i64, total: i64, shares: i64) -> i64
    requires reserve { pos 0 ≤ℤ reserve }
    requires shares { pos 0 ≤ℤ shares }
    requires within { shares ≤ℤ total }
    ensures value { result ≡ pos (withdrawn (unsigned_abs reserve) (unsigned_abs total) (unsigned_abs shares)) }
    ensures fair { IsFairWithdrawal (unsigned_abs reserve) (unsigned_abs total) (unsigned_abs shares)
        (unsigned_abs result) }
{
    withdrawn(
        reserve.unsigned_abs(),
        total.unsigned_abs(),
        shares.unsigned_abs(),
    ) as i64
}
