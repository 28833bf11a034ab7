use gcx_base::{Name, Role, Serial};
use gcx_model::Given;

/// What a line tells of a node's kind: of a text no more than that it is one.
#[derive(Drop, Debug)]
pub enum LineKind {
    Document,
    Element(Name),
    Text,
}

/// A line of a trace.
#[derive(Drop, Debug)]
pub enum Line {
    /// A node was opened, with the roles given to it.
    Opened {
        serial: Serial,
        kind: LineKind,
        given: Given,
    },
    /// A node was closed.
    Closed(Serial),
    /// So many bytes were written.
    Wrote(u64),
    /// A statement of this role was carried out, its base bound to this node.
    SignedOff {
        serial: Serial,
        role: Role,
    },
    /// A node left the buffer.
    Gone(Serial),
}
