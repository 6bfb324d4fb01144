//! What a legal state gives of its accounts.

ghost use Rattle.legal_rules.specs.Consequences.{AccountsInRange, AccountsReady, MinBalancesLow, SignersFew};
ghost use Rattle.legal_rules.specs.Consequences.{IdleSponsorsNothing, SponsorsReady, LegalOwesNothing};
ghost use Rattle.legal_rules.specs.Consequences.{LegalIsOwingNothing};

/// Balance and liabilities of an account are in their ranges.
pub fn accounts_in_range()
    ensures { AccountsInRange }
{}

/// Two reserves more of an account can be paid by others.
pub fn accounts_ready()
    ensures { AccountsReady }
{}

/// The minimum balance of an account is at least 0.
pub fn min_balances_low()
    ensures { MinBalancesLow }
{}

/// An account has at most 20 signers, at most as many as subentries, and at most 1000 of these.
pub fn signers_few()
    ensures { SignersFew }
{}

/// An account that pays no reserve as a sponsor is the sponsor of no entry and of no signer.
pub fn idle_sponsors_nothing()
    ensures { IdleSponsorsNothing }
{}

/// Where open sponsorships are sound, the open sponsor of an account exists and is another one.
pub fn sponsors_ready()
    ensures { SponsorsReady }
{}

/// In a legal state no aggregate owes anything, so that a change that leaves something open leaves no legal state.
pub fn legal_owes_nothing()
    ensures { LegalOwesNothing }
{}

/// A state is legal exactly where its header is in its ranges and its aggregates owe nothing.
pub fn legal_is_owing_nothing()
    ensures { LegalIsOwingNothing }
{}
