//! Laws of operations, over their definitions: each leaves a legal state, moves what its moves say and nothing else,
//! changes the supply of an asset where its issuer gives or takes it alone, and leaves each account at least 0
//! available, or what it had.
#![tactic(auto)]

pub mod crossed_books;
pub mod operations;
pub mod premises;
pub mod steps;

pub use op_flags;
pub use op_offers;
pub use op_payment;
pub use op_pool;
pub use op_trust;
