//! The laws of the formats, as contracts.

ghost use Rattle.xdr_core.specs.Format.{Lawful, IsPrefixFree, FaultsRightly, LocatesFaults};
ghost use Rattle.xdr_entries.specs.Basic as basic;
ghost use Rattle.xdr_entries.specs.Predicates as predicates;
ghost use Rattle.xdr_entries.specs.Entries as entries;
ghost use Rattle.xdr_entries.specs.Keys as keys;

/// What is read is encoded so, what is encoded so is read whatever follows, and writing puts the encoding at the end.
#[tactic(auto, using(crate::proofs::AllLaws::all_laws))]
pub fn reading_and_encoding_agree()
    ensures hashes { Lawful basic.hash }
    ensures account_ids { Lawful basic.account_id }
    ensures claimable_balance_ids { Lawful basic.claimable_balance_id }
    ensures muxed_accounts { Lawful basic.muxed_account }
    ensures texts_of_64_bytes { Lawful basic.bytes64 }
    ensures signer_keys { Lawful basic.signer_key }
    ensures signers { Lawful basic.signer }
    ensures assets { Lawful basic.asset }
    ensures trust_line_assets { Lawful basic.trust_line_asset }
    ensures pool_params { Lawful basic.pool_params }
    ensures change_trust_assets { Lawful basic.change_trust_asset }
    ensures prices { Lawful basic.price }
    ensures liabilities { Lawful basic.liabilities }
    ensures claim_predicates { Lawful predicates.claim_predicate }
    ensures account_extensions_v3 { Lawful entries.account_extension_v3 }
    ensures account_extensions_v2 { Lawful entries.account_extension_v2 }
    ensures account_extensions_v1 { Lawful entries.account_extension_v1 }
    ensures account_entries { Lawful entries.account_entry }
    ensures trust_line_extensions_v2 { Lawful entries.trust_line_extension_v2 }
    ensures trust_line_extensions_v1 { Lawful entries.trust_line_extension_v1 }
    ensures trust_line_entries { Lawful entries.trust_line_entry }
    ensures offer_entries { Lawful entries.offer_entry }
    ensures data_entries { Lawful entries.data_entry }
    ensures claimants { Lawful entries.claimant }
    ensures claimable_balance_extensions_v1 { Lawful entries.claimable_balance_extension_v1 }
    ensures claimable_balance_entries { Lawful entries.claimable_balance_entry }
    ensures liquidity_pool_entries { Lawful entries.liquidity_pool_entry }
    ensures ledger_entry_bodies { Lawful entries.ledger_entry_body }
    ensures ledger_entry_extensions_v1 { Lawful entries.ledger_entry_extension_v1 }
    ensures ledger_entries { Lawful entries.ledger_entry }
    ensures ledger_keys { Lawful keys.ledger_key }
    ensures bucket_entries { Lawful keys.bucket_entry }
{}

/// No encoding of a type is a prefix of another of that type.
#[tactic(auto, using(crate::proofs::AllLaws::all_laws))]
pub fn no_encoding_begins_another()
    ensures hashes { IsPrefixFree basic.hash }
    ensures account_ids { IsPrefixFree basic.account_id }
    ensures claimable_balance_ids { IsPrefixFree basic.claimable_balance_id }
    ensures muxed_accounts { IsPrefixFree basic.muxed_account }
    ensures texts_of_64_bytes { IsPrefixFree basic.bytes64 }
    ensures signer_keys { IsPrefixFree basic.signer_key }
    ensures signers { IsPrefixFree basic.signer }
    ensures assets { IsPrefixFree basic.asset }
    ensures trust_line_assets { IsPrefixFree basic.trust_line_asset }
    ensures pool_params { IsPrefixFree basic.pool_params }
    ensures change_trust_assets { IsPrefixFree basic.change_trust_asset }
    ensures prices { IsPrefixFree basic.price }
    ensures liabilities { IsPrefixFree basic.liabilities }
    ensures claim_predicates { IsPrefixFree predicates.claim_predicate }
    ensures account_extensions_v3 { IsPrefixFree entries.account_extension_v3 }
    ensures account_extensions_v2 { IsPrefixFree entries.account_extension_v2 }
    ensures account_extensions_v1 { IsPrefixFree entries.account_extension_v1 }
    ensures account_entries { IsPrefixFree entries.account_entry }
    ensures trust_line_extensions_v2 { IsPrefixFree entries.trust_line_extension_v2 }
    ensures trust_line_extensions_v1 { IsPrefixFree entries.trust_line_extension_v1 }
    ensures trust_line_entries { IsPrefixFree entries.trust_line_entry }
    ensures offer_entries { IsPrefixFree entries.offer_entry }
    ensures data_entries { IsPrefixFree entries.data_entry }
    ensures claimants { IsPrefixFree entries.claimant }
    ensures claimable_balance_extensions_v1 { IsPrefixFree entries.claimable_balance_extension_v1 }
    ensures claimable_balance_entries { IsPrefixFree entries.claimable_balance_entry }
    ensures liquidity_pool_entries { IsPrefixFree entries.liquidity_pool_entry }
    ensures ledger_entry_bodies { IsPrefixFree entries.ledger_entry_body }
    ensures ledger_entry_extensions_v1 { IsPrefixFree entries.ledger_entry_extension_v1 }
    ensures ledger_entries { IsPrefixFree entries.ledger_entry }
    ensures ledger_keys { IsPrefixFree keys.ledger_key }
    ensures bucket_entries { IsPrefixFree keys.bucket_entry }
{}

/// A fault comes only where no prefix of the text is an encoding.
#[tactic(auto, using(crate::proofs::AllLaws::all_laws))]
pub fn faults_come_only_without_encoding()
    ensures hashes { FaultsRightly basic.hash }
    ensures account_ids { FaultsRightly basic.account_id }
    ensures claimable_balance_ids { FaultsRightly basic.claimable_balance_id }
    ensures muxed_accounts { FaultsRightly basic.muxed_account }
    ensures texts_of_64_bytes { FaultsRightly basic.bytes64 }
    ensures signer_keys { FaultsRightly basic.signer_key }
    ensures signers { FaultsRightly basic.signer }
    ensures assets { FaultsRightly basic.asset }
    ensures trust_line_assets { FaultsRightly basic.trust_line_asset }
    ensures pool_params { FaultsRightly basic.pool_params }
    ensures change_trust_assets { FaultsRightly basic.change_trust_asset }
    ensures prices { FaultsRightly basic.price }
    ensures liabilities { FaultsRightly basic.liabilities }
    ensures claim_predicates { FaultsRightly predicates.claim_predicate }
    ensures account_extensions_v3 { FaultsRightly entries.account_extension_v3 }
    ensures account_extensions_v2 { FaultsRightly entries.account_extension_v2 }
    ensures account_extensions_v1 { FaultsRightly entries.account_extension_v1 }
    ensures account_entries { FaultsRightly entries.account_entry }
    ensures trust_line_extensions_v2 { FaultsRightly entries.trust_line_extension_v2 }
    ensures trust_line_extensions_v1 { FaultsRightly entries.trust_line_extension_v1 }
    ensures trust_line_entries { FaultsRightly entries.trust_line_entry }
    ensures offer_entries { FaultsRightly entries.offer_entry }
    ensures data_entries { FaultsRightly entries.data_entry }
    ensures claimants { FaultsRightly entries.claimant }
    ensures claimable_balance_extensions_v1 { FaultsRightly entries.claimable_balance_extension_v1 }
    ensures claimable_balance_entries { FaultsRightly entries.claimable_balance_entry }
    ensures liquidity_pool_entries { FaultsRightly entries.liquidity_pool_entry }
    ensures ledger_entry_bodies { FaultsRightly entries.ledger_entry_body }
    ensures ledger_entry_extensions_v1 { FaultsRightly entries.ledger_entry_extension_v1 }
    ensures ledger_entries { FaultsRightly entries.ledger_entry }
    ensures ledger_keys { FaultsRightly keys.ledger_key }
    ensures bucket_entries { FaultsRightly keys.bucket_entry }
{}

/// Where a text ends too early the fault's offset is the text's end, and any other fault stays the same whatever bytes
/// follow.
#[tactic(auto, using(crate::proofs::AllLaws::all_laws))]
pub fn faults_are_located()
    ensures hashes { LocatesFaults basic.hash }
    ensures account_ids { LocatesFaults basic.account_id }
    ensures claimable_balance_ids { LocatesFaults basic.claimable_balance_id }
    ensures muxed_accounts { LocatesFaults basic.muxed_account }
    ensures texts_of_64_bytes { LocatesFaults basic.bytes64 }
    ensures signer_keys { LocatesFaults basic.signer_key }
    ensures signers { LocatesFaults basic.signer }
    ensures assets { LocatesFaults basic.asset }
    ensures trust_line_assets { LocatesFaults basic.trust_line_asset }
    ensures pool_params { LocatesFaults basic.pool_params }
    ensures change_trust_assets { LocatesFaults basic.change_trust_asset }
    ensures prices { LocatesFaults basic.price }
    ensures liabilities { LocatesFaults basic.liabilities }
    ensures claim_predicates { LocatesFaults predicates.claim_predicate }
    ensures account_extensions_v3 { LocatesFaults entries.account_extension_v3 }
    ensures account_extensions_v2 { LocatesFaults entries.account_extension_v2 }
    ensures account_extensions_v1 { LocatesFaults entries.account_extension_v1 }
    ensures account_entries { LocatesFaults entries.account_entry }
    ensures trust_line_extensions_v2 { LocatesFaults entries.trust_line_extension_v2 }
    ensures trust_line_extensions_v1 { LocatesFaults entries.trust_line_extension_v1 }
    ensures trust_line_entries { LocatesFaults entries.trust_line_entry }
    ensures offer_entries { LocatesFaults entries.offer_entry }
    ensures data_entries { LocatesFaults entries.data_entry }
    ensures claimants { LocatesFaults entries.claimant }
    ensures claimable_balance_extensions_v1 { LocatesFaults entries.claimable_balance_extension_v1 }
    ensures claimable_balance_entries { LocatesFaults entries.claimable_balance_entry }
    ensures liquidity_pool_entries { LocatesFaults entries.liquidity_pool_entry }
    ensures ledger_entry_bodies { LocatesFaults entries.ledger_entry_body }
    ensures ledger_entry_extensions_v1 { LocatesFaults entries.ledger_entry_extension_v1 }
    ensures ledger_entries { LocatesFaults entries.ledger_entry }
    ensures ledger_keys { LocatesFaults keys.ledger_key }
    ensures bucket_entries { LocatesFaults keys.bucket_entry }
{}
