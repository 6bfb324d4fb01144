//! The laws of the formats, as contracts.

ghost use Rattle.xdr_core.specs.Format.{Lawful, IsPrefixFree, FaultsRightly, LocatesFaults};
ghost use Rattle.xdr_results.specs.Answers as answer_formats;
ghost use Rattle.xdr_results.specs.Results as result_formats;

/// What is read is encoded so, what is encoded so is read whatever follows, and writing puts the encoding at the end.
#[tactic(auto, using(crate::proofs::AllLaws::all_laws))]
pub fn reading_and_encoding_agree()
    ensures claim_atoms { Lawful answer_formats.claim_atom }
    ensures simple_payment_results { Lawful answer_formats.simple_payment_result }
    ensures path_payment_success { Lawful answer_formats.path_payment_success }
    ensures manage_offer_effects { Lawful answer_formats.manage_offer_effect }
    ensures manage_offer_success { Lawful answer_formats.manage_offer_success }
    ensures inflation_payouts { Lawful answer_formats.inflation_payout }
    ensures create_account_results { Lawful answer_formats.create_account_result }
    ensures payment_results { Lawful answer_formats.payment_result }
    ensures path_payment_strict_receive_results { Lawful answer_formats.path_payment_strict_receive_result }
    ensures path_payment_strict_send_results { Lawful answer_formats.path_payment_strict_send_result }
    ensures manage_offer_results { Lawful answer_formats.manage_offer_result }
    ensures set_options_results { Lawful answer_formats.set_options_result }
    ensures change_trust_results { Lawful answer_formats.change_trust_result }
    ensures allow_trust_results { Lawful answer_formats.allow_trust_result }
    ensures account_merge_results { Lawful answer_formats.account_merge_result }
    ensures inflation_results { Lawful answer_formats.inflation_result }
    ensures manage_data_results { Lawful answer_formats.manage_data_result }
    ensures bump_sequence_results { Lawful answer_formats.bump_sequence_result }
    ensures create_claimable_balance_results { Lawful answer_formats.create_claimable_balance_result }
    ensures claim_claimable_balance_results { Lawful answer_formats.claim_claimable_balance_result }
    ensures begun_sponsorships { Lawful answer_formats.begin_sponsoring_future_reserves_result }
    ensures ended_sponsorships { Lawful answer_formats.end_sponsoring_future_reserves_result }
    ensures revoke_sponsorship_results { Lawful answer_formats.revoke_sponsorship_result }
    ensures clawback_results { Lawful answer_formats.clawback_result }
    ensures clawback_claimable_balance_results { Lawful answer_formats.clawback_claimable_balance_result }
    ensures set_trust_line_flags_results { Lawful answer_formats.set_trust_line_flags_result }
    ensures liquidity_pool_deposit_results { Lawful answer_formats.liquidity_pool_deposit_result }
    ensures liquidity_pool_withdraw_results { Lawful answer_formats.liquidity_pool_withdraw_result }
    ensures operation_result_trs { Lawful result_formats.operation_result_tr }
    ensures operation_results { Lawful result_formats.operation_result }
    ensures inner_transaction_outcomes { Lawful result_formats.inner_transaction_outcome }
    ensures inner_transaction_results { Lawful result_formats.inner_transaction_result }
    ensures inner_transaction_result_pairs { Lawful result_formats.inner_transaction_result_pair }
    ensures transaction_outcomes { Lawful result_formats.transaction_outcome }
    ensures transaction_results { Lawful result_formats.transaction_result }
    ensures transaction_result_pairs { Lawful result_formats.transaction_result_pair }
    ensures transaction_result_sets { Lawful result_formats.transaction_result_set }
{}

/// No encoding of a type is a prefix of another of that type.
#[tactic(auto, using(crate::proofs::AllLaws::all_laws))]
pub fn no_encoding_begins_another()
    ensures claim_atoms { IsPrefixFree answer_formats.claim_atom }
    ensures simple_payment_results { IsPrefixFree answer_formats.simple_payment_result }
    ensures path_payment_success { IsPrefixFree answer_formats.path_payment_success }
    ensures manage_offer_effects { IsPrefixFree answer_formats.manage_offer_effect }
    ensures manage_offer_success { IsPrefixFree answer_formats.manage_offer_success }
    ensures inflation_payouts { IsPrefixFree answer_formats.inflation_payout }
    ensures create_account_results { IsPrefixFree answer_formats.create_account_result }
    ensures payment_results { IsPrefixFree answer_formats.payment_result }
    ensures path_payment_strict_receive_results { IsPrefixFree answer_formats.path_payment_strict_receive_result }
    ensures path_payment_strict_send_results { IsPrefixFree answer_formats.path_payment_strict_send_result }
    ensures manage_offer_results { IsPrefixFree answer_formats.manage_offer_result }
    ensures set_options_results { IsPrefixFree answer_formats.set_options_result }
    ensures change_trust_results { IsPrefixFree answer_formats.change_trust_result }
    ensures allow_trust_results { IsPrefixFree answer_formats.allow_trust_result }
    ensures account_merge_results { IsPrefixFree answer_formats.account_merge_result }
    ensures inflation_results { IsPrefixFree answer_formats.inflation_result }
    ensures manage_data_results { IsPrefixFree answer_formats.manage_data_result }
    ensures bump_sequence_results { IsPrefixFree answer_formats.bump_sequence_result }
    ensures create_claimable_balance_results { IsPrefixFree answer_formats.create_claimable_balance_result }
    ensures claim_claimable_balance_results { IsPrefixFree answer_formats.claim_claimable_balance_result }
    ensures begun_sponsorships { IsPrefixFree answer_formats.begin_sponsoring_future_reserves_result }
    ensures ended_sponsorships { IsPrefixFree answer_formats.end_sponsoring_future_reserves_result }
    ensures revoke_sponsorship_results { IsPrefixFree answer_formats.revoke_sponsorship_result }
    ensures clawback_results { IsPrefixFree answer_formats.clawback_result }
    ensures clawback_claimable_balance_results { IsPrefixFree answer_formats.clawback_claimable_balance_result }
    ensures set_trust_line_flags_results { IsPrefixFree answer_formats.set_trust_line_flags_result }
    ensures liquidity_pool_deposit_results { IsPrefixFree answer_formats.liquidity_pool_deposit_result }
    ensures liquidity_pool_withdraw_results { IsPrefixFree answer_formats.liquidity_pool_withdraw_result }
    ensures operation_result_trs { IsPrefixFree result_formats.operation_result_tr }
    ensures operation_results { IsPrefixFree result_formats.operation_result }
    ensures inner_transaction_outcomes { IsPrefixFree result_formats.inner_transaction_outcome }
    ensures inner_transaction_results { IsPrefixFree result_formats.inner_transaction_result }
    ensures inner_transaction_result_pairs { IsPrefixFree result_formats.inner_transaction_result_pair }
    ensures transaction_outcomes { IsPrefixFree result_formats.transaction_outcome }
    ensures transaction_results { IsPrefixFree result_formats.transaction_result }
    ensures transaction_result_pairs { IsPrefixFree result_formats.transaction_result_pair }
    ensures transaction_result_sets { IsPrefixFree result_formats.transaction_result_set }
{}

/// A fault comes only where no prefix of the text is an encoding.
#[tactic(auto, using(crate::proofs::AllLaws::all_laws))]
pub fn faults_come_only_without_encoding()
    ensures claim_atoms { FaultsRightly answer_formats.claim_atom }
    ensures simple_payment_results { FaultsRightly answer_formats.simple_payment_result }
    ensures path_payment_success { FaultsRightly answer_formats.path_payment_success }
    ensures manage_offer_effects { FaultsRightly answer_formats.manage_offer_effect }
    ensures manage_offer_success { FaultsRightly answer_formats.manage_offer_success }
    ensures inflation_payouts { FaultsRightly answer_formats.inflation_payout }
    ensures create_account_results { FaultsRightly answer_formats.create_account_result }
    ensures payment_results { FaultsRightly answer_formats.payment_result }
    ensures path_payment_strict_receive_results { FaultsRightly answer_formats.path_payment_strict_receive_result }
    ensures path_payment_strict_send_results { FaultsRightly answer_formats.path_payment_strict_send_result }
    ensures manage_offer_results { FaultsRightly answer_formats.manage_offer_result }
    ensures set_options_results { FaultsRightly answer_formats.set_options_result }
    ensures change_trust_results { FaultsRightly answer_formats.change_trust_result }
    ensures allow_trust_results { FaultsRightly answer_formats.allow_trust_result }
    ensures account_merge_results { FaultsRightly answer_formats.account_merge_result }
    ensures inflation_results { FaultsRightly answer_formats.inflation_result }
    ensures manage_data_results { FaultsRightly answer_formats.manage_data_result }
    ensures bump_sequence_results { FaultsRightly answer_formats.bump_sequence_result }
    ensures create_claimable_balance_results { FaultsRightly answer_formats.create_claimable_balance_result }
    ensures claim_claimable_balance_results { FaultsRightly answer_formats.claim_claimable_balance_result }
    ensures begun_sponsorships { FaultsRightly answer_formats.begin_sponsoring_future_reserves_result }
    ensures ended_sponsorships { FaultsRightly answer_formats.end_sponsoring_future_reserves_result }
    ensures revoke_sponsorship_results { FaultsRightly answer_formats.revoke_sponsorship_result }
    ensures clawback_results { FaultsRightly answer_formats.clawback_result }
    ensures clawback_claimable_balance_results { FaultsRightly answer_formats.clawback_claimable_balance_result }
    ensures set_trust_line_flags_results { FaultsRightly answer_formats.set_trust_line_flags_result }
    ensures liquidity_pool_deposit_results { FaultsRightly answer_formats.liquidity_pool_deposit_result }
    ensures liquidity_pool_withdraw_results { FaultsRightly answer_formats.liquidity_pool_withdraw_result }
    ensures operation_result_trs { FaultsRightly result_formats.operation_result_tr }
    ensures operation_results { FaultsRightly result_formats.operation_result }
    ensures inner_transaction_outcomes { FaultsRightly result_formats.inner_transaction_outcome }
    ensures inner_transaction_results { FaultsRightly result_formats.inner_transaction_result }
    ensures inner_transaction_result_pairs { FaultsRightly result_formats.inner_transaction_result_pair }
    ensures transaction_outcomes { FaultsRightly result_formats.transaction_outcome }
    ensures transaction_results { FaultsRightly result_formats.transaction_result }
    ensures transaction_result_pairs { FaultsRightly result_formats.transaction_result_pair }
    ensures transaction_result_sets { FaultsRightly result_formats.transaction_result_set }
{}

/// Where a text ends too early the fault's offset is the text's end, and any other fault stays the same whatever bytes
/// follow.
#[tactic(auto, using(crate::proofs::AllLaws::all_laws))]
pub fn faults_are_located()
    ensures claim_atoms { LocatesFaults answer_formats.claim_atom }
    ensures simple_payment_results { LocatesFaults answer_formats.simple_payment_result }
    ensures path_payment_success { LocatesFaults answer_formats.path_payment_success }
    ensures manage_offer_effects { LocatesFaults answer_formats.manage_offer_effect }
    ensures manage_offer_success { LocatesFaults answer_formats.manage_offer_success }
    ensures inflation_payouts { LocatesFaults answer_formats.inflation_payout }
    ensures create_account_results { LocatesFaults answer_formats.create_account_result }
    ensures payment_results { LocatesFaults answer_formats.payment_result }
    ensures path_payment_strict_receive_results { LocatesFaults answer_formats.path_payment_strict_receive_result }
    ensures path_payment_strict_send_results { LocatesFaults answer_formats.path_payment_strict_send_result }
    ensures manage_offer_results { LocatesFaults answer_formats.manage_offer_result }
    ensures set_options_results { LocatesFaults answer_formats.set_options_result }
    ensures change_trust_results { LocatesFaults answer_formats.change_trust_result }
    ensures allow_trust_results { LocatesFaults answer_formats.allow_trust_result }
    ensures account_merge_results { LocatesFaults answer_formats.account_merge_result }
    ensures inflation_results { LocatesFaults answer_formats.inflation_result }
    ensures manage_data_results { LocatesFaults answer_formats.manage_data_result }
    ensures bump_sequence_results { LocatesFaults answer_formats.bump_sequence_result }
    ensures create_claimable_balance_results { LocatesFaults answer_formats.create_claimable_balance_result }
    ensures claim_claimable_balance_results { LocatesFaults answer_formats.claim_claimable_balance_result }
    ensures begun_sponsorships { LocatesFaults answer_formats.begin_sponsoring_future_reserves_result }
    ensures ended_sponsorships { LocatesFaults answer_formats.end_sponsoring_future_reserves_result }
    ensures revoke_sponsorship_results { LocatesFaults answer_formats.revoke_sponsorship_result }
    ensures clawback_results { LocatesFaults answer_formats.clawback_result }
    ensures clawback_claimable_balance_results { LocatesFaults answer_formats.clawback_claimable_balance_result }
    ensures set_trust_line_flags_results { LocatesFaults answer_formats.set_trust_line_flags_result }
    ensures liquidity_pool_deposit_results { LocatesFaults answer_formats.liquidity_pool_deposit_result }
    ensures liquidity_pool_withdraw_results { LocatesFaults answer_formats.liquidity_pool_withdraw_result }
    ensures operation_result_trs { LocatesFaults result_formats.operation_result_tr }
    ensures operation_results { LocatesFaults result_formats.operation_result }
    ensures inner_transaction_outcomes { LocatesFaults result_formats.inner_transaction_outcome }
    ensures inner_transaction_results { LocatesFaults result_formats.inner_transaction_result }
    ensures inner_transaction_result_pairs { LocatesFaults result_formats.inner_transaction_result_pair }
    ensures transaction_outcomes { LocatesFaults result_formats.transaction_outcome }
    ensures transaction_results { LocatesFaults result_formats.transaction_result }
    ensures transaction_result_pairs { LocatesFaults result_formats.transaction_result_pair }
    ensures transaction_result_sets { LocatesFaults result_formats.transaction_result_set }
{}
