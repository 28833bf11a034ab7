/// What a trace is.
#[derive(Clone, Copy, Debug, PartialEq, Eq)]
pub enum Checked {
    /// The text of the run, which has so many lines.
    Yes(u64),
    /// Another text, and this is the first line that differs.
    No(u64),
    /// A read failed.
    ReadFault,
    /// Want of memory.
    Memory,
}
