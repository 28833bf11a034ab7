//! Tests of matcher, buffer and projector, each by itself and together: tables of queries, documents and scripts.
#![tactic(auto)]

#[cfg(test)]
mod buffers;
#[cfg(test)]
mod document_node;
#[cfg(test)]
mod large;
#[cfg(test)]
mod matchers;
#[cfg(test)]
mod states;
