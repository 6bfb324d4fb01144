//! A command, with the values of its options.

/// What the words of the command line ask for.
#[derive(Clone, Copy)]
pub enum Command<'a> {
    /// To make a store of a start image.
    Init { passphrase: &'a str },
    /// To close the records of the input over a store, with 0 to 8 workers.
    Run { workers: u32 },
    /// To close the records after a start image, in memory alone.
    CatchUp { passphrase: &'a str },
    /// To show the ledger in a store.
    Show,
    /// To close 1 to 20000 ledgers that are made from a seed.
    Sample { seed: u32, ledgers: u32 },
    /// To write the three files of an archive for the records after a start image.
    History { passphrase: &'a str },
    /// To write each change of the entries that the records after a start image make.
    Changes { passphrase: &'a str },
    /// To say whether the files that `history` wrote form a chain.
    Verify,
    /// To answer which path costs the least in the ledger in a store.
    Path,
}
