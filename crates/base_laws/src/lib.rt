//! Lemmas on truth values, lists and their members that several crates need and std doesn't have. They stand in proofs/, by
//! subject.
#![tactic(auto)]
