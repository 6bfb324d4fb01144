//! The laws of the formats, as contracts.

ghost use Rattle.xdr_core.specs.Format.{Lawful, IsPrefixFree, FaultsRightly, LocatesFaults};
ghost use Rattle.xdr_header.specs.Header as header_formats;
ghost use Rattle.xdr_header.specs.Records as record_formats;
ghost use Rattle.xdr_header.specs.Vouches as vouch_formats;
ghost use Rattle.xdr_header.specs.Image as image_formats;

/// What is read is encoded so, what is encoded so is read whatever follows, and writing puts the encoding at the end.
#[tactic(auto, using(crate::proofs::AllLaws::all_laws))]
pub fn reading_and_encoding_agree()
    ensures value_signatures { Lawful header_formats.ledger_close_value_signature }
    ensures stellar_values { Lawful header_formats.stellar_value }
    ensures ledger_upgrades { Lawful header_formats.ledger_upgrade }
    ensures header_extensions_v1 { Lawful header_formats.ledger_header_extension_v1 }
    ensures ledger_headers { Lawful header_formats.ledger_header }
    ensures vouches { Lawful vouch_formats.vouch }
    ensures close_records { Lawful record_formats.close_record }
    ensures start_images { Lawful image_formats.start_image }
{}

/// No encoding of a type is a prefix of another of that type.
#[tactic(auto, using(crate::proofs::AllLaws::all_laws))]
pub fn no_encoding_begins_another()
    ensures value_signatures { IsPrefixFree header_formats.ledger_close_value_signature }
    ensures stellar_values { IsPrefixFree header_formats.stellar_value }
    ensures ledger_upgrades { IsPrefixFree header_formats.ledger_upgrade }
    ensures header_extensions_v1 { IsPrefixFree header_formats.ledger_header_extension_v1 }
    ensures ledger_headers { IsPrefixFree header_formats.ledger_header }
    ensures vouches { IsPrefixFree vouch_formats.vouch }
    ensures close_records { IsPrefixFree record_formats.close_record }
    ensures start_images { IsPrefixFree image_formats.start_image }
{}

/// A fault comes only where no prefix of the text is an encoding.
#[tactic(auto, using(crate::proofs::AllLaws::all_laws))]
pub fn faults_come_only_without_encoding()
    ensures value_signatures { FaultsRightly header_formats.ledger_close_value_signature }
    ensures stellar_values { FaultsRightly header_formats.stellar_value }
    ensures ledger_upgrades { FaultsRightly header_formats.ledger_upgrade }
    ensures header_extensions_v1 { FaultsRightly header_formats.ledger_header_extension_v1 }
    ensures ledger_headers { FaultsRightly header_formats.ledger_header }
    ensures vouches { FaultsRightly vouch_formats.vouch }
    ensures close_records { FaultsRightly record_formats.close_record }
    ensures start_images { FaultsRightly image_formats.start_image }
{}

/// Where a text ends too early the fault's offset is the text's end, and any other fault stays the same whatever bytes
/// follow.
#[tactic(auto, using(crate::proofs::AllLaws::all_laws))]
pub fn faults_are_located()
    ensures value_signatures { LocatesFaults header_formats.ledger_close_value_signature }
    ensures stellar_values { LocatesFaults header_formats.stellar_value }
    ensures ledger_upgrades { LocatesFaults header_formats.ledger_upgrade }
    ensures header_extensions_v1 { LocatesFaults header_formats.ledger_header_extension_v1 }
    ensures ledger_headers { LocatesFaults header_formats.ledger_header }
    ensures vouches { LocatesFaults vouch_formats.vouch }
    ensures close_records { LocatesFaults record_formats.close_record }
    ensures start_images { LocatesFaults image_formats.start_image }
{}
