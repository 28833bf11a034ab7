//! Tests of what reads and writes documents: characters, whole and cut documents, values, pairs of values, tags, outputs
//! that are written while they grow, and lines of a trace.
#![tactic(auto)]

#[cfg(test)]
mod characters;
#[cfg(test)]
mod documents;
#[cfg(test)]
mod outputs;
#[cfg(test)]
mod pairs;
#[cfg(test)]
mod tags;
#[cfg(test)]
mod trace_lines;
#[cfg(test)]
mod traced_outputs;
#[cfg(test)]
mod values;
