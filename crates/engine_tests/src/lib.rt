//! Tests of evaluator and engine over plans of queries: tables of rows, and turns of the two actors.
#![tactic(auto)]

#[cfg(test)]
mod engines;
#[cfg(test)]
mod large;
#[cfg(test)]
mod variables;
