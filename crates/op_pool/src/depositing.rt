//! What a deposit yields, and the tests of it that read no entries.

ghost use Rattle.std.specs.Prelude.{◌≡◌, ◌*ℤ◌, ◌≤ℤ◌, pos};
ghost use Rattle.ledger_types.specs.declared.entry.LedgerEntryBody.TheVariants.{LiquidityPool};
ghost use Rattle.trade_cross.specs.legal_rules.Bounds.{IsFilledOrEmpty};
ghost use Rattle.trade_cross.specs.legal_rules.Ranges.{IsPoolInRange};
ghost use Rattle.op_pool.specs.Calls as calls;
ghost use Rattle.op_pool.specs.Deposit as spec;

use ledger_types::{LiquidityPoolEntry, Price};
use op_types::LiquidityPoolDepositOp;
use pool_math::{Deposited, deposit};

/// A product, which fits.
fn product(a: i64, b: i64) -> i128
    ensures { result ≡ a *ℤ b }
{
    i128::from(a) * i128::from(b)
}

/// Whether a fraction is above another one. Both denominators are above 0.
fn is_above(n: i64, d: i64, other_n: i64, other_d: i64) -> bool
    ensures { result ≡ spec.is_above n d other_n other_d }
{
    product(other_n, d) < product(n, other_d)
}

/// Whether a price isn't above 0.
fn is_price_bad(price: &Price) -> bool
    ensures { result ≡ spec.is_price_bad price.now }
{
    price.n <= 0 || price.d <= 0
}

/// Whether the least price is above the greatest one.
fn are_prices_crossed(op: &LiquidityPoolDepositOp) -> bool
    ensures { result ≡
        spec.is_above op.now.min_price.n op.now.min_price.d op.now.max_price.n op.now.max_price.d }
{
    is_above(
        i64::from(op.min_price.n),
        i64::from(op.min_price.d),
        i64::from(op.max_price.n),
        i64::from(op.max_price.d),
    )
}

/// Whether what is asked for can't be.
pub fn is_malformed(op: &LiquidityPoolDepositOp) -> bool
    ensures { result ≡ calls.is_malformed op.now }
{
    op.max_amount_a <= 0
        || op.max_amount_b <= 0
        || is_price_bad(&op.min_price)
        || is_price_bad(&op.max_price)
        || are_prices_crossed(op)
}

/// What is put into a pool, and the shares for it. None exactly where by both assets so many shares pass 64 bits.
pub fn deposit_by(op: &LiquidityPoolDepositOp, pool: &LiquidityPoolEntry) -> Option<Deposited>
    requires max_a { pos 1 ≤ℤ op.now.max_amount_a }
    requires max_b { pos 1 ≤ℤ op.now.max_amount_b }
    requires range { IsPoolInRange pool.now }
    requires filled { IsFilledOrEmpty (LiquidityPool pool.now) }
    ensures { calls.IsDepositBy op.now pool.now result }
{
    deposit(
        pool.reserve_a,
        pool.reserve_b,
        pool.total_pool_shares,
        op.max_amount_a,
        op.max_amount_b,
    )
}

/// Whether the price `a / b` is below the least one.
fn is_below_least(op: &LiquidityPoolDepositOp, a: i64, b: i64) -> bool
    ensures { result ≡ spec.is_above op.now.min_price.n op.now.min_price.d a b }
{
    is_above(i64::from(op.min_price.n), i64::from(op.min_price.d), a, b)
}

/// Whether the price `a / b` is above the greatest one.
fn is_above_greatest(op: &LiquidityPoolDepositOp, a: i64, b: i64) -> bool
    ensures { result ≡ spec.is_above a b op.now.max_price.n op.now.max_price.d }
{
    is_above(a, b, i64::from(op.max_price.n), i64::from(op.max_price.d))
}

/// Whether the price `a / b` lies outside the bounds, which are allowed.
fn is_outside(op: &LiquidityPoolDepositOp, a: i64, b: i64) -> bool
    ensures { result ≡ calls.is_outside op.now a b }
{
    is_below_least(op, a, b) || is_above_greatest(op, a, b)
}

/// Whether the price of what is put in, each amount at least 0, isn't one, or lies outside the bounds.
pub fn is_price_wrong(op: &LiquidityPoolDepositOp, a: i64, b: i64) -> bool
    requires a { pos 0 ≤ℤ a }
    requires b { pos 0 ≤ℤ b }
    ensures { result ≡ calls.is_price_wrong op.now a b }
{
    a == 0 || b == 0 || is_outside(op, a, b)
}

/// Whether an amount more of what there is passes 64 bits.
fn does_pass(there: i64, more: i64) -> bool
    ensures { result ≡ calls.does_pass there more }
{
    i128::from(i64::MAX) < i128::from(there) + i128::from(more)
}

/// Whether what is put in, or the shares for it, doesn't fit the pool.
pub fn is_pool_full(pool: &LiquidityPoolEntry, d: Deposited) -> bool
    ensures { result ≡ calls.is_pool_full pool.now d.a d.b d.shares }
{
    does_pass(pool.reserve_a, d.a)
        || does_pass(pool.reserve_b, d.b)
        || does_pass(pool.total_pool_shares, d.shares)
}
