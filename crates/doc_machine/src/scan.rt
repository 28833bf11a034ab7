use crate::mode::Mode;
use doc_tokens::{AttrNames, OpenNames, Tokens};

/// What was read.
#[derive(Drop)]
pub struct Scan {
    /// Where in the grammar it stands.
    pub mode: Mode,
    /// The names of the open elements.
    pub names: OpenNames,
    /// Whether there was a root element.
    pub rooted: bool,
    /// Whether there was a root element or a document type declaration.
    pub typed: bool,
    /// The name of the tag that is being read.
    pub name: Vec<u8>,
    /// The names of its attributes.
    pub attrs: AttrNames,
    /// The name of the attribute that is being read.
    pub attr: Vec<u8>,
    /// The tokens that wait, and those of the tag that is being read.
    pub tokens: Tokens,
}
