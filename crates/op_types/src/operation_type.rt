//! The types of operations (OperationType in Stellar-transaction.x of protocols 18 and 19): the discriminants of what
//! operations do and of what they answer.

/// Makes an account.
pub const CREATE_ACCOUNT: i32 = 0;

/// Sends an amount of an asset.
pub const PAYMENT: i32 = 1;

/// Sends what is needed so that a fixed amount of another asset comes.
pub const PATH_PAYMENT_STRICT_RECEIVE: i32 = 2;

/// Makes, changes or removes an offer that sells a fixed amount.
pub const MANAGE_SELL_OFFER: i32 = 3;

/// Makes an offer that takes no offer of an equal price.
pub const CREATE_PASSIVE_SELL_OFFER: i32 = 4;

/// Changes what an account is and who signs for it.
pub const SET_OPTIONS: i32 = 5;

/// Makes, changes or removes a trust line.
pub const CHANGE_TRUST: i32 = 6;

/// Says whether a trust line may be used.
pub const ALLOW_TRUST: i32 = 7;

/// Removes the source and gives its lumens away.
pub const ACCOUNT_MERGE: i32 = 8;

/// Nothing since protocol 12.
pub const INFLATION: i32 = 9;

/// Makes, changes or removes data.
pub const MANAGE_DATA: i32 = 10;

/// Raises the source's sequence number.
pub const BUMP_SEQUENCE: i32 = 11;

/// Makes, changes or removes an offer that buys a fixed amount.
pub const MANAGE_BUY_OFFER: i32 = 12;

/// Sends a fixed amount, of which comes what another asset gives.
pub const PATH_PAYMENT_STRICT_SEND: i32 = 13;

/// Makes a claimable balance (CAP-0023).
pub const CREATE_CLAIMABLE_BALANCE: i32 = 14;

/// Claims a claimable balance (CAP-0023).
pub const CLAIM_CLAIMABLE_BALANCE: i32 = 15;

/// Begins to pay the reserves of what an account adds (CAP-0033).
pub const BEGIN_SPONSORING_FUTURE_RESERVES: i32 = 16;

/// Ends that (CAP-0033).
pub const END_SPONSORING_FUTURE_RESERVES: i32 = 17;

/// Gives the reserve of an entry or of a signer to another payer (CAP-0033).
pub const REVOKE_SPONSORSHIP: i32 = 18;

/// Takes an asset back that the source issues (CAP-0035).
pub const CLAWBACK: i32 = 19;

/// Takes a claimable balance back whose asset the source issues (CAP-0035).
pub const CLAWBACK_CLAIMABLE_BALANCE: i32 = 20;

/// Changes the flags of a trust line (CAP-0035).
pub const SET_TRUST_LINE_FLAGS: i32 = 21;

/// Puts two assets into a pool (CAP-0038).
pub const LIQUIDITY_POOL_DEPOSIT: i32 = 22;

/// Takes two assets out of a pool (CAP-0038).
pub const LIQUIDITY_POOL_WITHDRAW: i32 = 23;
