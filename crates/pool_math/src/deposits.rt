//! Deposits into a pool.

ghost use Rattle.std.specs.Prelude.{◌≡◌, ◌*◌, ◌<◌, ◌≤◌, ◌^◌, pos, ◌≤ℤ◌, unsigned_abs};
ghost use Rattle.std.specs.Option.{SomeIff};
ghost use Rattle.wide_math.specs.Root.{IsRoot, square_root};
ghost use Rattle.pool_math.specs.Pools as spec;
ghost use Rattle.pool_math.specs.Pools.{AreFilledOrEmpty, greatest};
ghost use Rattle.pool_math.specs.Laws.{IsFairDeposit};
ghost use Rattle.pool_math.specs.Calls.{AnswersDeposit};
ghost use Rattle.pool_math.specs.Parts.{signed};

use wide_math::isqrt;

/// How many shares a deposit gives, and how much it asks of each asset.
#[derive(Clone, Copy, PartialEq, Eq)]
pub struct Deposited {
    pub shares: i64,
    pub a: i64,
    pub b: i64,
}

/// The shares that so much at most of an asset gives, rounded down.
fn shares_for(reserve: u64, total: u64, most: u64) -> u128
    requires { 1 ≤ reserve }
    ensures { result ≡ spec.shares_for reserve total most }
{
    total as u128 * most as u128 / reserve as u128
}

/// What so many shares ask of an asset, rounded up.
fn asked_for(reserve: u64, total: u64, shares: u64) -> u128
    requires { 1 ≤ total }
    ensures { result ≡ spec.asked_for reserve total shares }
{
    (shares as u128 * reserve as u128 + (total as u128 - 1)) / total as u128
}

/// The deposit into an empty pool: all that may be taken.
fn first_deposit(max_a: i64, max_b: i64) -> Deposited
    requires max_a { pos 1 ≤ℤ max_a }
    requires max_b { pos 1 ≤ℤ max_b }
    ensures shares { IsRoot (unsigned_abs max_a * unsigned_abs max_b) (unsigned_abs result.shares) }
    ensures function { unsigned_abs result.shares ≡ square_root (unsigned_abs max_a * unsigned_abs max_b) }
    ensures unsigned { pos 0 ≤ℤ result.shares }
    ensures a { result.a ≡ max_a }
    ensures b { result.b ≡ max_b }
{
    let product = max_a.unsigned_abs() as u128 * max_b.unsigned_abs() as u128;
    Deposited {
        shares: isqrt(product) as i64,
        a: max_a,
        b: max_b,
    }
}

/// The deposit into a pool that isn't empty, in numbers without a sign: as much as the asset allows of which there is
/// less.
#[tactic(auto, using(crate::proofs::DepositLaws::asked_within, crate::proofs::DepositLaws::later_fair))]
fn later_deposit(a: u64, b: u64, total: u64, max_a: u64, max_b: u64) -> Option<Deposited>
    requires a { 1 ≤ a }
    requires b { 1 ≤ b }
    requires total { 1 ≤ total }
    requires max_a { max_a < 2 ^ 63 }
    requires max_b { max_b < 2 ^ 63 }
    ensures value { let d =
        spec.later_deposit a b total max_a max_b in SomeIff result (d.shares ≤ greatest) (signed d) }
    ensures fair { IsFairDeposit a b total max_a max_b (spec.later_deposit a b total max_a max_b) }
{
    let least = shares_for(a, total, max_a).min(shares_for(b, total, max_b));
    if least > i64::MAX as u128 {
        return None;
    }
    let shares = least as u64;
    Some(Deposited {
        shares: shares as i64,
        a: asked_for(a, total, shares) as i64,
        b: asked_for(b, total, shares) as i64,
    })
}

/// The deposit of at most `max_a` and `max_b`, each at least 1, into a pool that has `a` and `b` of its assets and
/// `total` shares, either all above 0 or all 0. `None` comes exactly where there are shares, and what either asset
/// would give exceeds the greatest i64.
pub fn deposit(a: i64, b: i64, total: i64, max_a: i64, max_b: i64) -> Option<Deposited>
    requires a { pos 0 ≤ℤ a }
    requires b { pos 0 ≤ℤ b }
    requires total { pos 0 ≤ℤ total }
    requires max_a { pos 1 ≤ℤ max_a }
    requires max_b { pos 1 ≤ℤ max_b }
    requires filled { AreFilledOrEmpty (unsigned_abs a) (unsigned_abs b) (unsigned_abs total) }
    ensures { AnswersDeposit a b total max_a max_b result }
{
    if total == 0 {
        return Some(first_deposit(max_a, max_b));
    }
    later_deposit(
        a.unsigned_abs(),
        b.unsigned_abs(),
        total.unsigned_abs(),
        max_a.unsigned_abs(),
        max_b.unsigned_abs(),
    )
}
