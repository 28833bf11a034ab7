//! Words for what a run reads and writes, and how it ends.
#![tactic(auto)]
