//! Tests of the crates at the bottom: names and sets of roles, objects of the outside, and stores of nodes.
#![tactic(auto)]

#[cfg(test)]
mod base;
#[cfg(test)]
mod openings;
#[cfg(test)]
mod outside;
#[cfg(test)]
mod role_sets;
#[cfg(test)]
mod stores;
