//! Tests of cores, and of runs of the top call over objects in memory.
#![tactic(auto)]

#[cfg(test)]
mod cores;
#[cfg(test)]
mod large;
#[cfg(test)]
mod runs;
