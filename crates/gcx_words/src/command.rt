use crate::pairs::Pairs;
use gcx_base::Text;

/// The commands by their names.
#[derive(Clone, Copy, Debug, PartialEq, Eq)]
pub enum CommandName {
    Run,
    Whole,
    Explain,
    Peak,
    Gen,
    Selfrun,
    Many,
    Check,
}

/// A command, with its arguments.
#[derive(Drop, Debug)]
pub enum Command {
    /// The answer of QUERY over DOC, written while DOC is read: with a trace, or in groups of at most `ahead` tokens.
    Run {
        trace: bool,
        ahead: u32,
        query: Text,
        document: Text,
    },
    /// The same answer from the whole tree of DOC.
    Whole {
        query: Text,
        document: Text,
    },
    /// The plan of QUERY.
    Explain {
        query: Text,
    },
    /// The numbers of a run.
    Peak {
        query: Text,
        document: Text,
    },
    /// A document made from a number.
    Gen {
        seed: u32,
        count: u32,
    },
    /// The numbers of a run over such a document.
    Selfrun {
        seed: u32,
        count: u32,
    },
    /// The answers of several queries over one reading of DOC, each in a file of its own.
    Many {
        document: Text,
        pairs: Pairs,
    },
    /// Whether TRACE is the trace of QUERY over DOC.
    Check {
        query: Text,
        document: Text,
        trace: Text,
    },
}
