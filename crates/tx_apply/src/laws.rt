//! What holds of complete sets, over their definition.

ghost use Rattle.tx_apply.specs.Laws as spec;
ghost use Rattle.tx_apply.specs.EachTransaction.{EachConserves};
ghost use Rattle.tx_apply.specs.KeptReserves.{OperationsKeepReserves};

use op_laws::steps::{legal_settles, transaction_laws};

/// A transaction's fee goes to the fee pool.
pub fn fees_conserve()
    ensures { spec.FeesConserve }
{
    transaction_laws();
}

/// After its fee a transaction makes and loses no lumens, the supply of each asset changes by what is issued and
/// redeemed, and each holder has what it had and what the moves give it.
pub fn transactions_conserve()
    ensures { spec.TransactionsConserve }
{
    transaction_laws();
}

/// Each transaction of a set that closes over a legal state conserves lumens after its fee, and moves what its moves
/// say.
pub fn turns_conserve()
    ensures { spec.TurnsConserve }
{
    legal_settles();
    transaction_laws();
}

/// A set that closes over a legal state makes and loses no lumens, the supply of each other asset changes by what is
/// issued and redeemed, each holder has what it had and what the moves give it, and what it leaves is settled.
pub fn sets_conserve()
    ensures { spec.SetsConserve }
{
    legal_settles();
    transaction_laws();
}

/// Each operation of a set leaves each account an available balance of at least 0, or of what it had.
pub fn operations_are_lawful()
    ensures { spec.OperationsAreLawful }
{
    legal_settles();
    transaction_laws();
}

/// The fee of each transaction of a set that closes over a legal state goes to the fee pool, and its operations move
/// what their moves say, so that neither makes or loses lumens.
pub fn each_conserves()
    ensures { EachConserves }
{
    legal_settles();
    transaction_laws();
}

/// Each operation of a set leaves each account an available balance of at least 0, or of what it had, by the base
/// reserve of the ledger before.
pub fn operations_keep_reserves()
    ensures { OperationsKeepReserves }
{
    legal_settles();
    transaction_laws();
}
