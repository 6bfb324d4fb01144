//! The laws of the formats, as contracts.

ghost use Rattle.xdr_core.specs.Format.{Lawful, IsPrefixFree, FaultsRightly, LocatesFaults};
ghost use Rattle.xdr_tx.specs.Operations as operation_formats;
ghost use Rattle.xdr_tx.specs.Transactions as transaction_formats;

/// What is read is encoded so, what is encoded so is read whatever follows, and writing puts the encoding at the end.
#[tactic(auto, using(crate::proofs::AllLaws::all_laws))]
pub fn reading_and_encoding_agree()
    ensures create_account_ops { Lawful operation_formats.create_account_op }
    ensures set_options_ops { Lawful operation_formats.set_options_op }
    ensures account_merge_ops { Lawful operation_formats.account_merge_op }
    ensures manage_data_ops { Lawful operation_formats.manage_data_op }
    ensures bump_sequence_ops { Lawful operation_formats.bump_sequence_op }
    ensures payment_ops { Lawful operation_formats.payment_op }
    ensures path_payment_strict_receive_ops { Lawful operation_formats.path_payment_strict_receive_op }
    ensures path_payment_strict_send_ops { Lawful operation_formats.path_payment_strict_send_op }
    ensures manage_sell_offer_ops { Lawful operation_formats.manage_sell_offer_op }
    ensures create_passive_sell_offer_ops { Lawful operation_formats.create_passive_sell_offer_op }
    ensures manage_buy_offer_ops { Lawful operation_formats.manage_buy_offer_op }
    ensures change_trust_ops { Lawful operation_formats.change_trust_op }
    ensures asset_codes { Lawful operation_formats.asset_code }
    ensures allow_trust_ops { Lawful operation_formats.allow_trust_op }
    ensures set_trust_line_flags_ops { Lawful operation_formats.set_trust_line_flags_op }
    ensures clawback_ops { Lawful operation_formats.clawback_op }
    ensures create_claimable_balance_ops { Lawful operation_formats.create_claimable_balance_op }
    ensures claim_claimable_balance_ops { Lawful operation_formats.claim_claimable_balance_op }
    ensures clawback_claimable_balance_ops { Lawful operation_formats.clawback_claimable_balance_op }
    ensures begin_sponsoring_future_reserves_ops { Lawful operation_formats.begin_sponsoring_future_reserves_op }
    ensures revoke_sponsorship_ops { Lawful operation_formats.revoke_sponsorship_op }
    ensures liquidity_pool_deposit_ops { Lawful operation_formats.liquidity_pool_deposit_op }
    ensures liquidity_pool_withdraw_ops { Lawful operation_formats.liquidity_pool_withdraw_op }
    ensures operation_bodies { Lawful operation_formats.operation_body }
    ensures operations { Lawful operation_formats.operation }
    ensures memos { Lawful transaction_formats.memo }
    ensures time_bounds { Lawful transaction_formats.time_bounds }
    ensures ledger_bounds { Lawful transaction_formats.ledger_bounds }
    ensures preconditions_v2 { Lawful transaction_formats.preconditions_v2 }
    ensures preconditions { Lawful transaction_formats.preconditions }
    ensures decorated_signatures { Lawful transaction_formats.decorated_signature }
    ensures transactions { Lawful transaction_formats.transaction }
    ensures transaction_v0s { Lawful transaction_formats.transaction_v0 }
    ensures transaction_v1_envelopes { Lawful transaction_formats.transaction_v1_envelope }
    ensures transaction_v0_envelopes { Lawful transaction_formats.transaction_v0_envelope }
    ensures fee_bump_transactions { Lawful transaction_formats.fee_bump_transaction }
    ensures fee_bump_envelopes { Lawful transaction_formats.fee_bump_envelope }
    ensures transaction_envelopes { Lawful transaction_formats.transaction_envelope }
    ensures transaction_sets { Lawful transaction_formats.transaction_set }
{}

/// No encoding of a type is a prefix of another of that type.
#[tactic(auto, using(crate::proofs::AllLaws::all_laws))]
pub fn no_encoding_begins_another()
    ensures create_account_ops { IsPrefixFree operation_formats.create_account_op }
    ensures set_options_ops { IsPrefixFree operation_formats.set_options_op }
    ensures account_merge_ops { IsPrefixFree operation_formats.account_merge_op }
    ensures manage_data_ops { IsPrefixFree operation_formats.manage_data_op }
    ensures bump_sequence_ops { IsPrefixFree operation_formats.bump_sequence_op }
    ensures payment_ops { IsPrefixFree operation_formats.payment_op }
    ensures path_payment_strict_receive_ops { IsPrefixFree operation_formats.path_payment_strict_receive_op }
    ensures path_payment_strict_send_ops { IsPrefixFree operation_formats.path_payment_strict_send_op }
    ensures manage_sell_offer_ops { IsPrefixFree operation_formats.manage_sell_offer_op }
    ensures create_passive_sell_offer_ops { IsPrefixFree operation_formats.create_passive_sell_offer_op }
    ensures manage_buy_offer_ops { IsPrefixFree operation_formats.manage_buy_offer_op }
    ensures change_trust_ops { IsPrefixFree operation_formats.change_trust_op }
    ensures asset_codes { IsPrefixFree operation_formats.asset_code }
    ensures allow_trust_ops { IsPrefixFree operation_formats.allow_trust_op }
    ensures set_trust_line_flags_ops { IsPrefixFree operation_formats.set_trust_line_flags_op }
    ensures clawback_ops { IsPrefixFree operation_formats.clawback_op }
    ensures create_claimable_balance_ops { IsPrefixFree operation_formats.create_claimable_balance_op }
    ensures claim_claimable_balance_ops { IsPrefixFree operation_formats.claim_claimable_balance_op }
    ensures clawback_claimable_balance_ops { IsPrefixFree operation_formats.clawback_claimable_balance_op }
    ensures begin_sponsoring_future_reserves_ops { IsPrefixFree operation_formats.begin_sponsoring_future_reserves_op }
    ensures revoke_sponsorship_ops { IsPrefixFree operation_formats.revoke_sponsorship_op }
    ensures liquidity_pool_deposit_ops { IsPrefixFree operation_formats.liquidity_pool_deposit_op }
    ensures liquidity_pool_withdraw_ops { IsPrefixFree operation_formats.liquidity_pool_withdraw_op }
    ensures operation_bodies { IsPrefixFree operation_formats.operation_body }
    ensures operations { IsPrefixFree operation_formats.operation }
    ensures memos { IsPrefixFree transaction_formats.memo }
    ensures time_bounds { IsPrefixFree transaction_formats.time_bounds }
    ensures ledger_bounds { IsPrefixFree transaction_formats.ledger_bounds }
    ensures preconditions_v2 { IsPrefixFree transaction_formats.preconditions_v2 }
    ensures preconditions { IsPrefixFree transaction_formats.preconditions }
    ensures decorated_signatures { IsPrefixFree transaction_formats.decorated_signature }
    ensures transactions { IsPrefixFree transaction_formats.transaction }
    ensures transaction_v0s { IsPrefixFree transaction_formats.transaction_v0 }
    ensures transaction_v1_envelopes { IsPrefixFree transaction_formats.transaction_v1_envelope }
    ensures transaction_v0_envelopes { IsPrefixFree transaction_formats.transaction_v0_envelope }
    ensures fee_bump_transactions { IsPrefixFree transaction_formats.fee_bump_transaction }
    ensures fee_bump_envelopes { IsPrefixFree transaction_formats.fee_bump_envelope }
    ensures transaction_envelopes { IsPrefixFree transaction_formats.transaction_envelope }
    ensures transaction_sets { IsPrefixFree transaction_formats.transaction_set }
{}

/// A fault comes only where no prefix of the text is an encoding.
#[tactic(auto, using(crate::proofs::AllLaws::all_laws))]
pub fn faults_come_only_without_encoding()
    ensures create_account_ops { FaultsRightly operation_formats.create_account_op }
    ensures set_options_ops { FaultsRightly operation_formats.set_options_op }
    ensures account_merge_ops { FaultsRightly operation_formats.account_merge_op }
    ensures manage_data_ops { FaultsRightly operation_formats.manage_data_op }
    ensures bump_sequence_ops { FaultsRightly operation_formats.bump_sequence_op }
    ensures payment_ops { FaultsRightly operation_formats.payment_op }
    ensures path_payment_strict_receive_ops { FaultsRightly operation_formats.path_payment_strict_receive_op }
    ensures path_payment_strict_send_ops { FaultsRightly operation_formats.path_payment_strict_send_op }
    ensures manage_sell_offer_ops { FaultsRightly operation_formats.manage_sell_offer_op }
    ensures create_passive_sell_offer_ops { FaultsRightly operation_formats.create_passive_sell_offer_op }
    ensures manage_buy_offer_ops { FaultsRightly operation_formats.manage_buy_offer_op }
    ensures change_trust_ops { FaultsRightly operation_formats.change_trust_op }
    ensures asset_codes { FaultsRightly operation_formats.asset_code }
    ensures allow_trust_ops { FaultsRightly operation_formats.allow_trust_op }
    ensures set_trust_line_flags_ops { FaultsRightly operation_formats.set_trust_line_flags_op }
    ensures clawback_ops { FaultsRightly operation_formats.clawback_op }
    ensures create_claimable_balance_ops { FaultsRightly operation_formats.create_claimable_balance_op }
    ensures claim_claimable_balance_ops { FaultsRightly operation_formats.claim_claimable_balance_op }
    ensures clawback_claimable_balance_ops { FaultsRightly operation_formats.clawback_claimable_balance_op }
    ensures begin_sponsoring_future_reserves_ops { FaultsRightly operation_formats.begin_sponsoring_future_reserves_op }
    ensures revoke_sponsorship_ops { FaultsRightly operation_formats.revoke_sponsorship_op }
    ensures liquidity_pool_deposit_ops { FaultsRightly operation_formats.liquidity_pool_deposit_op }
    ensures liquidity_pool_withdraw_ops { FaultsRightly operation_formats.liquidity_pool_withdraw_op }
    ensures operation_bodies { FaultsRightly operation_formats.operation_body }
    ensures operations { FaultsRightly operation_formats.operation }
    ensures memos { FaultsRightly transaction_formats.memo }
    ensures time_bounds { FaultsRightly transaction_formats.time_bounds }
    ensures ledger_bounds { FaultsRightly transaction_formats.ledger_bounds }
    ensures preconditions_v2 { FaultsRightly transaction_formats.preconditions_v2 }
    ensures preconditions { FaultsRightly transaction_formats.preconditions }
    ensures decorated_signatures { FaultsRightly transaction_formats.decorated_signature }
    ensures transactions { FaultsRightly transaction_formats.transaction }
    ensures transaction_v0s { FaultsRightly transaction_formats.transaction_v0 }
    ensures transaction_v1_envelopes { FaultsRightly transaction_formats.transaction_v1_envelope }
    ensures transaction_v0_envelopes { FaultsRightly transaction_formats.transaction_v0_envelope }
    ensures fee_bump_transactions { FaultsRightly transaction_formats.fee_bump_transaction }
    ensures fee_bump_envelopes { FaultsRightly transaction_formats.fee_bump_envelope }
    ensures transaction_envelopes { FaultsRightly transaction_formats.transaction_envelope }
    ensures transaction_sets { FaultsRightly transaction_formats.transaction_set }
{}

/// Where a text ends too early the fault's offset is the text's end, and any other fault stays the same whatever bytes
/// follow.
#[tactic(auto, using(crate::proofs::AllLaws::all_laws))]
pub fn faults_are_located()
    ensures create_account_ops { LocatesFaults operation_formats.create_account_op }
    ensures set_options_ops { LocatesFaults operation_formats.set_options_op }
    ensures account_merge_ops { LocatesFaults operation_formats.account_merge_op }
    ensures manage_data_ops { LocatesFaults operation_formats.manage_data_op }
    ensures bump_sequence_ops { LocatesFaults operation_formats.bump_sequence_op }
    ensures payment_ops { LocatesFaults operation_formats.payment_op }
    ensures path_payment_strict_receive_ops { LocatesFaults operation_formats.path_payment_strict_receive_op }
    ensures path_payment_strict_send_ops { LocatesFaults operation_formats.path_payment_strict_send_op }
    ensures manage_sell_offer_ops { LocatesFaults operation_formats.manage_sell_offer_op }
    ensures create_passive_sell_offer_ops { LocatesFaults operation_formats.create_passive_sell_offer_op }
    ensures manage_buy_offer_ops { LocatesFaults operation_formats.manage_buy_offer_op }
    ensures change_trust_ops { LocatesFaults operation_formats.change_trust_op }
    ensures asset_codes { LocatesFaults operation_formats.asset_code }
    ensures allow_trust_ops { LocatesFaults operation_formats.allow_trust_op }
    ensures set_trust_line_flags_ops { LocatesFaults operation_formats.set_trust_line_flags_op }
    ensures clawback_ops { LocatesFaults operation_formats.clawback_op }
    ensures create_claimable_balance_ops { LocatesFaults operation_formats.create_claimable_balance_op }
    ensures claim_claimable_balance_ops { LocatesFaults operation_formats.claim_claimable_balance_op }
    ensures clawback_claimable_balance_ops { LocatesFaults operation_formats.clawback_claimable_balance_op }
    ensures begin_sponsoring_future_reserves_ops { LocatesFaults operation_formats.begin_sponsoring_future_reserves_op }
    ensures revoke_sponsorship_ops { LocatesFaults operation_formats.revoke_sponsorship_op }
    ensures liquidity_pool_deposit_ops { LocatesFaults operation_formats.liquidity_pool_deposit_op }
    ensures liquidity_pool_withdraw_ops { LocatesFaults operation_formats.liquidity_pool_withdraw_op }
    ensures operation_bodies { LocatesFaults operation_formats.operation_body }
    ensures operations { LocatesFaults operation_formats.operation }
    ensures memos { LocatesFaults transaction_formats.memo }
    ensures time_bounds { LocatesFaults transaction_formats.time_bounds }
    ensures ledger_bounds { LocatesFaults transaction_formats.ledger_bounds }
    ensures preconditions_v2 { LocatesFaults transaction_formats.preconditions_v2 }
    ensures preconditions { LocatesFaults transaction_formats.preconditions }
    ensures decorated_signatures { LocatesFaults transaction_formats.decorated_signature }
    ensures transactions { LocatesFaults transaction_formats.transaction }
    ensures transaction_v0s { LocatesFaults transaction_formats.transaction_v0 }
    ensures transaction_v1_envelopes { LocatesFaults transaction_formats.transaction_v1_envelope }
    ensures transaction_v0_envelopes { LocatesFaults transaction_formats.transaction_v0_envelope }
    ensures fee_bump_transactions { LocatesFaults transaction_formats.fee_bump_transaction }
    ensures fee_bump_envelopes { LocatesFaults transaction_formats.fee_bump_envelope }
    ensures transaction_envelopes { LocatesFaults transaction_formats.transaction_envelope }
    ensures transaction_sets { LocatesFaults transaction_formats.transaction_set }
{}
