//! What liquidity pools answer.

ghost use Rattle.op_types.specs.Codes.{liquidity_pool_deposit_code, liquidity_pool_deposit_values};
ghost use Rattle.op_types.specs.Codes.{liquidity_pool_withdraw_code, liquidity_pool_withdraw_values};

use crate::coded::Coded;

/// What LIQUIDITY_POOL_DEPOSIT answers (LiquidityPoolDepositResult in Stellar-transaction.x).
#[derive(Clone, Copy)]
pub enum LiquidityPoolDepositResult {
    /// LIQUIDITY_POOL_DEPOSIT_SUCCESS, 0.
    Success,
    /// LIQUIDITY_POOL_DEPOSIT_MALFORMED, -1.
    Malformed,
    /// LIQUIDITY_POOL_DEPOSIT_NO_TRUST, -2.
    NoTrust,
    /// LIQUIDITY_POOL_DEPOSIT_NOT_AUTHORIZED, -3.
    NotAuthorized,
    /// LIQUIDITY_POOL_DEPOSIT_UNDERFUNDED, -4.
    Underfunded,
    /// LIQUIDITY_POOL_DEPOSIT_LINE_FULL, -5.
    LineFull,
    /// LIQUIDITY_POOL_DEPOSIT_BAD_PRICE, -6.
    BadPrice,
    /// LIQUIDITY_POOL_DEPOSIT_POOL_FULL, -7.
    PoolFull,
}

impl Coded for LiquidityPoolDepositResult {
    ghost values = { liquidity_pool_deposit_values };

    ghost number = { liquidity_pool_deposit_code };

    fn from_code(code: i32) -> Option<LiquidityPoolDepositResult> {
        match code {
            0 => Some(LiquidityPoolDepositResult::Success),
            -1 => Some(LiquidityPoolDepositResult::Malformed),
            -2 => Some(LiquidityPoolDepositResult::NoTrust),
            -3 => Some(LiquidityPoolDepositResult::NotAuthorized),
            -4 => Some(LiquidityPoolDepositResult::Underfunded),
            -5 => Some(LiquidityPoolDepositResult::LineFull),
            -6 => Some(LiquidityPoolDepositResult::BadPrice),
            -7 => Some(LiquidityPoolDepositResult::PoolFull),
            _ => None,
        }
    }

    fn code(&self) -> i32 {
        match self {
            LiquidityPoolDepositResult::Success => 0,
            LiquidityPoolDepositResult::Malformed => -1,
            LiquidityPoolDepositResult::NoTrust => -2,
            LiquidityPoolDepositResult::NotAuthorized => -3,
            LiquidityPoolDepositResult::Underfunded => -4,
            LiquidityPoolDepositResult::LineFull => -5,
            LiquidityPoolDepositResult::BadPrice => -6,
            LiquidityPoolDepositResult::PoolFull => -7,
        }
    }
}

/// What LIQUIDITY_POOL_WITHDRAW answers (LiquidityPoolWithdrawResult in Stellar-transaction.x).
#[derive(Clone, Copy)]
pub enum LiquidityPoolWithdrawResult {
    /// LIQUIDITY_POOL_WITHDRAW_SUCCESS, 0.
    Success,
    /// LIQUIDITY_POOL_WITHDRAW_MALFORMED, -1.
    Malformed,
    /// LIQUIDITY_POOL_WITHDRAW_NO_TRUST, -2.
    NoTrust,
    /// LIQUIDITY_POOL_WITHDRAW_UNDERFUNDED, -3.
    Underfunded,
    /// LIQUIDITY_POOL_WITHDRAW_LINE_FULL, -4.
    LineFull,
    /// LIQUIDITY_POOL_WITHDRAW_UNDER_MINIMUM, -5.
    UnderMinimum,
}

impl Coded for LiquidityPoolWithdrawResult {
    ghost values = { liquidity_pool_withdraw_values };

    ghost number = { liquidity_pool_withdraw_code };

    fn from_code(code: i32) -> Option<LiquidityPoolWithdrawResult> {
        match code {
            0 => Some(LiquidityPoolWithdrawResult::Success),
            -1 => Some(LiquidityPoolWithdrawResult::Malformed),
            -2 => Some(LiquidityPoolWithdrawResult::NoTrust),
            -3 => Some(LiquidityPoolWithdrawResult::Underfunded),
            -4 => Some(LiquidityPoolWithdrawResult::LineFull),
            -5 => Some(LiquidityPoolWithdrawResult::UnderMinimum),
            _ => None,
        }
    }

    fn code(&self) -> i32 {
        match self {
            LiquidityPoolWithdrawResult::Success => 0,
            LiquidityPoolWithdrawResult::Malformed => -1,
            LiquidityPoolWithdrawResult::NoTrust => -2,
            LiquidityPoolWithdrawResult::Underfunded => -3,
            LiquidityPoolWithdrawResult::LineFull => -4,
            LiquidityPoolWithdrawResult::UnderMinimum => -5,
        }
    }
}
