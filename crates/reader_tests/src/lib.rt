//! Tests of readers beside a publisher, and beside a run of `watch`.
#![tactic(auto)]

#[cfg(test)]
mod held;
#[cfg(test)]
mod tests;
