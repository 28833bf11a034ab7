//! The outside of `gcx`: where bytes come from and go to.
#![tactic(auto)]

mod calls;
mod fault;
mod file_handle;
mod file_shelf;
mod files;
mod mem_shelf;
mod mem_sink;
mod mem_source;
mod moving;
mod noting;
mod null_sink;
mod opened;
mod opening;
mod shelf;
mod sink;
mod source;
mod std_err;
mod std_out;
mod std_sink;
mod stream;
mod sure_shelf;
mod sure_sink;
mod sure_source;
mod system;
mod taken;

pub use fault::{AttachFault, Failed};
pub use file_shelf::FileShelf;
pub use mem_shelf::MemShelf;
pub use mem_sink::MemSink;
pub use mem_source::MemSource;
pub use null_sink::NullSink;
pub use opened::Opened;
pub use shelf::{Handle, Shelf, write_file};
pub use sink::{Sink, write_all};
pub use source::Source;
pub use std_err::StdErr;
pub use std_out::StdOut;
pub use sure_shelf::SureShelf;
pub use sure_sink::SureSink;
pub use sure_source::SureSource;
pub use system::System;
