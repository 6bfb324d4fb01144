//! The encodings of what operations and transactions answer, read and written (protocols 18 and 19, over RFC 4506). A
//! code that the protocol doesn't list doesn't read.
//!
//! A reader answers the value that a prefix of the text encodes, and the cursor is after it; else it answers the first
//! fault in reading order, and the cursor is where it was. A writer puts the encoding at the end of a text. Where a
//! value has no list its reader takes no memory, and answers no allocation failure.
#![tactic(auto)]

mod account_results;
mod balance_results;
mod claim_atom;
mod coded;
pub mod laws;
mod offer_results;
mod operation_result;
mod payment_results;
mod pool_results;
mod sponsor_results;
mod transaction_result;
mod trust_results;

pub use account_results::{
    read_account_merge_result, read_bump_sequence_result, read_inflation_payout,
    read_inflation_result, read_manage_data_result, read_set_options_result,
    write_account_merge_result, write_bump_sequence_result, write_inflation_payout,
    write_inflation_result, write_manage_data_result, write_set_options_result,
};
pub use balance_results::{
    read_claim_claimable_balance_result, read_clawback_claimable_balance_result,
    read_create_claimable_balance_result, write_claim_claimable_balance_result,
    write_clawback_claimable_balance_result, write_create_claimable_balance_result,
};
pub use claim_atom::{ClaimAtomFormat, read_claim_atom, write_claim_atom};
pub use offer_results::{
    read_manage_offer_effect, read_manage_offer_result, read_manage_offer_success,
    write_manage_offer_effect, write_manage_offer_result, write_manage_offer_success,
};
pub use operation_result::{
    read_operation_result, read_operation_result_tr, write_operation_result,
    write_operation_result_tr,
};
pub use payment_results::{
    read_create_account_result, read_path_payment_strict_receive_result,
    read_path_payment_strict_send_result, read_path_payment_success, read_payment_result,
    read_simple_payment_result, write_create_account_result,
    write_path_payment_strict_receive_result, write_path_payment_strict_send_result,
    write_path_payment_success, write_payment_result, write_simple_payment_result,
};
pub use pool_results::{
    read_liquidity_pool_deposit_result, read_liquidity_pool_withdraw_result,
    write_liquidity_pool_deposit_result, write_liquidity_pool_withdraw_result,
};
pub use sponsor_results::{
    read_begin_sponsoring_future_reserves_result, read_end_sponsoring_future_reserves_result,
    read_revoke_sponsorship_result, write_begin_sponsoring_future_reserves_result,
    write_end_sponsoring_future_reserves_result, write_revoke_sponsorship_result,
};
pub use transaction_result::{
    read_inner_transaction_outcome, read_inner_transaction_result,
    read_inner_transaction_result_pair, read_transaction_outcome, read_transaction_result,
    read_transaction_result_pair, read_transaction_result_set, write_inner_transaction_outcome,
    write_inner_transaction_result, write_inner_transaction_result_pair, write_transaction_outcome,
    write_transaction_result, write_transaction_result_pair, write_transaction_result_set,
};
pub use trust_results::{
    read_allow_trust_result, read_change_trust_result, read_clawback_result,
    read_set_trust_line_flags_result, write_allow_trust_result, write_change_trust_result,
    write_clawback_result, write_set_trust_line_flags_result,
};
