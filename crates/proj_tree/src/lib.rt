//! The roles of a core, and the projection tree of their paths.
#![tactic(auto)]

mod depth;
mod nodes;
mod rows;

pub use nodes::{ProjNode, ProjNodes, ProjTree, own_roles, projection};
pub use rows::roles;
