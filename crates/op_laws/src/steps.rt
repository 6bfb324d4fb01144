//! Laws of settled entries: what leaves them settled, and what they are known to be.

ghost use Rattle.op_laws.specs.Steps as spec;

/// A legal state is settled.
pub fn legal_settles()
    ensures { spec.LegalSettles }
{}

/// Settled entries are a legal state under a header that fits them.
pub fn settled_legal()
    ensures { spec.SettledLegal }
{}

/// A fee that is charged leaves settled entries.
pub fn fees_settle()
    ensures { spec.FeesSettle }
{}

/// A sequence number that is used up leaves settled entries.
pub fn seq_nums_settle()
    ensures { spec.SeqNumsSettle }
{}

/// A pre-authorised signer that is used up leaves settled entries.
pub fn preauths_settle()
    ensures { spec.PreauthsSettle }
{}

/// Each account of settled entries is in its ranges.
pub fn settled_accounts()
    ensures { spec.SettledAccounts }
{}

/// Two reserves more of each account of settled entries can be paid by others.
pub fn settled_ready()
    ensures { spec.SettledReady }
{}

/// Balances and liabilities of the accounts and lines of settled entries are in their ranges.
pub fn settled_in_range()
    ensures { spec.SettledInRange }
{}

/// Pools of settled entries, and lines of their shares, are in order.
pub fn settled_sound()
    ensures { spec.SettledSound }
{}

/// Each account of settled entries has at most 20 signers.
pub fn settled_few()
    ensures { spec.SettledFew }
{}

/// No claimable balance of settled entries has less than nothing.
pub fn settled_amounts()
    ensures { spec.SettledAmounts }
{}

/// Settled entries hold no less than nothing in lumens.
pub fn settled_held()
    ensures { spec.SettledHeld }
{}

/// What holds before an operation is what those on offers ask for, where one more id can be drawn.
pub fn underway_manageable()
    ensures { spec.UnderwayManageable }
{}

/// All laws that the transactions of a set rely on.
pub fn transaction_laws()
    ensures { spec.TransactionLaws }
{
    crate::operations::all_are_lawful();
    fees_settle();
    seq_nums_settle();
    preauths_settle();
    settled_accounts();
    settled_few();
    settled_ready();
    settled_in_range();
    settled_sound();
    settled_amounts();
    settled_held();
    underway_manageable();
}
