//! Laws of cheapest paths, as contracts.

ghost use Rattle.path_finder.specs.Cheapest.{CheapestPathsAreOne};
ghost use Rattle.path_finder.specs.Legal.{LegalStatesAreCrossable};

/// At most one path is the cheapest of those by some candidates.
#[tactic(auto, using(crate::proofs::OneCheapest::cheapest_paths_are_one))]
pub fn cheapest_paths_are_one()
    ensures { CheapestPathsAreOne }
{}

/// Paths can be tried on the entries of a legal state.
#[tactic(auto, using(crate::proofs::LegalStates::legal_states_are_crossable))]
pub fn legal_states_are_crossable()
    ensures { LegalStatesAreCrossable }
{}
