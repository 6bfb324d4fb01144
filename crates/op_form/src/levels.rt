//! Which of a source's thresholds an operation's signatures have to reach.

ghost use Rattle.std.specs.Prelude.{◌≡◌};
ghost use Rattle.op_form.specs.Levels as spec;

use ledger_types::AccountEntry;
use op_types::{OperationBody, SetOptionsOp};

/// A threshold of an account (ThresholdLevel in stellar-core).
#[derive(Clone, Copy)]
pub enum ThresholdLevel {
    Low,
    Medium,
    High,
}

/// Whether an operation gives the weight of the account's own key, a threshold or a signer.
fn changes_signing(op: &SetOptionsOp) -> bool
    ensures { result ≡ spec.changes_signing op.now }
{
    op.master_weight.is_some()
        || op.low_threshold.is_some()
        || op.med_threshold.is_some()
        || op.high_threshold.is_some()
        || op.signer.is_some()
}

/// Which threshold of its source an operation's signatures have to reach.
pub fn level_of(body: &OperationBody) -> ThresholdLevel
    ensures { result ≡ spec.level_of body.now }
{
    match body {
        OperationBody::AllowTrust(_)
        | OperationBody::SetTrustLineFlags(_)
        | OperationBody::BumpSequence(_)
        | OperationBody::Inflation
        | OperationBody::ClaimClaimableBalance(_) => ThresholdLevel::Low,
        OperationBody::AccountMerge(_) => ThresholdLevel::High,
        OperationBody::SetOptions(op) if changes_signing(op) => ThresholdLevel::High,
        _ => ThresholdLevel::Medium,
    }
}

/// The weight that signatures have to reach for an account, 0 to 255.
pub fn threshold_at(level: ThresholdLevel, account: &AccountEntry) -> u8
    ensures { result ≡ spec.threshold_at level account.now }
{
    match level {
        ThresholdLevel::Low => account.thresholds[1],
        ThresholdLevel::Medium => account.thresholds[2],
        ThresholdLevel::High => account.thresholds[3],
    }
}
