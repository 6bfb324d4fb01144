//! Sponsorship.

use ledger_types::{AccountId, LedgerKey, SignerKey};

/// Begins to pay the reserves of what an account adds (BeginSponsoringFutureReservesOp in Stellar-transaction.x;
/// CAP-0033).
#[derive(Clone, Copy)]
pub struct BeginSponsoringFutureReservesOp {
    pub sponsored_id: AccountId,
}

/// Gives the reserve of an entry or of a signer to another payer (RevokeSponsorshipOp in Stellar-transaction.x;
/// CAP-0033).
#[derive(Drop)]
pub enum RevokeSponsorshipOp {
    /// REVOKE_SPONSORSHIP_LEDGER_ENTRY, 0.
    LedgerEntry(LedgerKey),
    /// REVOKE_SPONSORSHIP_SIGNER, 1.
    Signer {
        account_id: AccountId,
        signer_key: SignerKey,
    },
}
