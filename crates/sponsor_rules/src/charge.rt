//! How many reserves a thing charges, and whom.

ghost use Rattle.std.specs.Prelude.{◌≡◌};
ghost use Rattle.sponsor_rules.specs.Charge as spec;

use ledger_types::{AccountId, LedgerEntryBody, TrustLineAsset};

/// What a thing charges (CAP-0033, CAP-0023, CAP-0038).
#[derive(Clone, Copy)]
pub enum Charge {
    /// An account charges itself two reserves.
    Itself { owner: AccountId },
    /// A line, an offer or data counts `multiplicity` times for its owner.
    Subentry { owner: AccountId, multiplicity: u64 },
    /// A claimable balance charges its payer one reserve a claimant.
    Payer { multiplicity: u64 },
    /// A pool charges nobody.
    Nobody,
}

/// What a thing charges, by its kind.
pub fn charge_of(body: &LedgerEntryBody) -> Charge
    ensures { result ≡ spec.charge_of body.now }
{
    match body {
        LedgerEntryBody::Account(account) => Charge::Itself {
            owner: account.account_id,
        },
        LedgerEntryBody::TrustLine(line) => Charge::Subentry {
            owner: line.account_id,
            multiplicity: line_multiplicity(&line.asset),
        },
        LedgerEntryBody::Offer(offer) => Charge::Subentry {
            owner: offer.seller_id,
            multiplicity: 1,
        },
        LedgerEntryBody::Data(data_entry) => Charge::Subentry {
            owner: data_entry.account_id,
            multiplicity: 1,
        },
        LedgerEntryBody::ClaimableBalance(balance) => Charge::Payer {
            multiplicity: balance.claimants.len() as u64,
        },
        LedgerEntryBody::LiquidityPool(_) => Charge::Nobody,
    }
}

/// How often a trust line counts.
fn line_multiplicity(asset: &TrustLineAsset) -> u64
    ensures { result ≡ spec.line_multiplicity asset.now }
{
    match asset {
        TrustLineAsset::PoolShare(_) => 2,
        _ => 1,
    }
}
