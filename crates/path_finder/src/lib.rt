//! Which path of assets a payment takes at the least cost, where a fixed amount has to arrive.
#![tactic(auto)]

mod candidates;
mod cost;
mod encoding;
mod laws;
mod paths;
mod query;
mod search;

pub use encoding::{queries_are_encoded_lawfully, read_path_query};
pub use laws::{cheapest_paths_are_one, legal_states_are_crossable};
pub use paths::{cheapest, path_cost};
pub use query::{Found, PathFault, PathQuery};
