//! Where a document comes from and where outputs go, and what takes the tokens of a document and has outputs written there
//! as they grow.
#![tactic(auto)]

mod dropped;
mod laws;
mod nowhere;
mod outlet;
mod outside;
mod ports;
mod takes;
mod traced_ports;

pub use dropped::DroppedBytes;
pub use laws::{faults_only_rise, next_write_owed, only_more_taken, writes_follow};
pub use nowhere::Nowhere;
pub use outlet::{Outlet, write_some};
pub use outside::Outside;
pub use ports::Ports;
pub use takes::TakesTokens;
pub use traced_ports::TracedPorts;
