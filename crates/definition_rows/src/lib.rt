//! Definitions evaluated on rows whose answers come from outside: public vectors, other programs, tables worked out by
//! hand. Each row is a lemma in proofs/ that the checker computes; contracts say that the code is the definition.
#![tactic(auto)]
