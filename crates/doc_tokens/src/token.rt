use gcx_base::{Name, Text};

/// A part of a document, in document order.
#[derive(Drop, Debug)]
pub enum Token {
    /// An element begins.
    Start(Name),
    /// The innermost element that is open ends.
    End,
    /// All text between two tags, where it isn't only white space.
    Text(Text),
    /// The document ends.
    EndOfDocument,
}
