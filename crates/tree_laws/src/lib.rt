//! Laws on open trees: how they grow, what paths hit, signed and departed nodes, and the texts of lines. Each is
//! the contract of a function that does nothing: who calls it knows the law.
#![tactic(auto)]

mod departing;
mod document_trees;
mod growth;
mod line_texts;
mod paths;
mod signing;

pub use departing::departed_are_gone;
pub use document_trees::documents_grow;
pub use growth::{grow_is_feeding, leads_is_feeding, nodes_are_numbered, tokens_are_found};
pub use line_texts::{line_by_text, lines_by_text};
pub use paths::{
    first_is_least, gives_by_kind, hits_by_steps, loops_bind_hits, loops_in_order,
    matches_are_hits, one_chain,
};
pub use signing::signed_is_off;
