//! Laws of first states.

ghost use Rattle.legal_rules.specs.FirstStates.{PlainStatesAreLegal, GenesisIsLegal, LoneEntries, LoneAccounts};

/// Accounts without extensions, whose subentries are their signers, are legal with the header that they need.
pub fn plain_states_are_legal()
    ensures { PlainStatesAreLegal }
{}

/// The first state of a ledger, of one account with all lumens, is legal.
pub fn genesis_is_legal()
    ensures { GenesisIsLegal }
{}

/// A state of one entry is legal only where it is its own owner and nobody pays for it: no line, offer, data or
/// claimable balance is legal alone.
pub fn lone_entries()
    ensures { LoneEntries }
{}

/// A state of one account is legal only with as many subentries as signers, no liabilities, and all lumens in that
/// account and the fee pool.
pub fn lone_accounts()
    ensures { LoneAccounts }
{}
