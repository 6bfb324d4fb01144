//! The encodings of operations, transactions, their envelopes and sets of them, read and written (protocol 19, over RFC
//! 4506).
//!
//! A reader answers the value that a prefix of the text encodes, and the cursor is after it; else it answers the first
//! fault in reading order, and the cursor is where it was. A writer puts the encoding at the end of a text. Where a
//! value has no list or optional field its reader takes no memory, and answers no allocation failure.
#![tactic(auto)]

mod account_ops;
mod balance_ops;
mod envelope;
mod fields;
pub mod laws;
mod memo;
mod offer_ops;
mod operation;
mod payment_ops;
mod pool_ops;
mod preconditions;
mod signature;
mod sponsor_ops;
mod time_bounds;
mod transaction;
mod trust_ops;

pub use account_ops::{
    read_account_merge_op, read_bump_sequence_op, read_create_account_op, read_manage_data_op,
    read_set_options_op, write_account_merge_op, write_bump_sequence_op, write_create_account_op,
    write_manage_data_op, write_set_options_op,
};
pub use balance_ops::{
    read_claim_claimable_balance_op, read_clawback_claimable_balance_op,
    read_create_claimable_balance_op, write_claim_claimable_balance_op,
    write_clawback_claimable_balance_op, write_create_claimable_balance_op,
};
pub use envelope::{
    TransactionEnvelopeFormat, read_fee_bump_envelope, read_fee_bump_transaction,
    read_transaction_envelope, read_transaction_set, read_transaction_v0_envelope,
    read_transaction_v1_envelope, write_fee_bump_envelope, write_fee_bump_transaction,
    write_transaction_envelope, write_transaction_set, write_transaction_v0_envelope,
    write_transaction_v1_envelope,
};
pub use memo::{read_memo, write_memo};
pub use offer_ops::{
    read_create_passive_sell_offer_op, read_manage_buy_offer_op, read_manage_sell_offer_op,
    write_create_passive_sell_offer_op, write_manage_buy_offer_op, write_manage_sell_offer_op,
};
pub use operation::{
    OperationFormat, read_operation, read_operation_body, write_operation, write_operation_body,
};
pub use payment_ops::{
    read_path_payment_strict_receive_op, read_path_payment_strict_send_op, read_payment_op,
    write_path_payment_strict_receive_op, write_path_payment_strict_send_op, write_payment_op,
};
pub use pool_ops::{
    read_liquidity_pool_deposit_op, read_liquidity_pool_withdraw_op,
    write_liquidity_pool_deposit_op, write_liquidity_pool_withdraw_op,
};
pub use preconditions::{
    read_ledger_bounds, read_preconditions, read_preconditions_v2, write_ledger_bounds,
    write_preconditions, write_preconditions_v2,
};
pub use signature::{
    DecoratedSignatureFormat, read_decorated_signature, write_decorated_signature,
};
pub use sponsor_ops::{
    read_begin_sponsoring_future_reserves_op, read_revoke_sponsorship_op,
    write_begin_sponsoring_future_reserves_op, write_revoke_sponsorship_op,
};
pub use time_bounds::{TimeBoundsFormat, read_time_bounds, write_time_bounds};
pub use transaction::{
    read_transaction, read_transaction_v0, write_transaction, write_transaction_v0,
};
pub use trust_ops::{
    read_allow_trust_op, read_asset_code, read_change_trust_op, read_clawback_op,
    read_set_trust_line_flags_op, write_allow_trust_op, write_asset_code, write_change_trust_op,
    write_clawback_op, write_set_trust_line_flags_op,
};
