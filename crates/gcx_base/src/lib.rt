//! What every crate of `gcx` speaks of: names, texts, steps, kinds of nodes, numbers of roles and variables, limits.
#![tactic(auto)]

mod bytes;
mod chars;
mod ids;
mod kind;
mod limits;
mod memory;
mod name;
mod rel;
mod steps;
mod text;

pub use bytes::same_bytes;
pub use chars::{is_name_char, is_name_start, is_space, is_xml_char};
pub use ids::{Role, Serial, VarId};
pub use kind::Kind;
pub use limits::Limits;
pub use memory::Memory;
pub use name::Name;
pub use rel::Rel;
pub use steps::{Axis, Step, Steps, Test};
pub use text::Text;
