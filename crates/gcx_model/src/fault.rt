ghost use Rattle.std.specs.Prelude.{◌≡◌};
ghost use Rattle.gcx_model.specs.declared.fault.DocFault.TheVariants as doc_faults;
ghost use Rattle.gcx_model.specs.declared.fault.QueryFault.TheVariants.{Memory as query_memory};

use gcx_base::Memory;
use thiserror::Error;

/// Which limit of a query was passed.
#[derive(Clone, Copy, Debug, PartialEq, Eq)]
pub enum What {
    /// Bytes of the query.
    Text,
    /// Constructs open at a token.
    Nesting,
    /// Loops of the core.
    Loops,
    /// Steps of all paths in conditions of the core.
    Steps,
    /// Bytes of all conditions of the core, printed.
    Conditions,
    /// Role rows of the plan.
    Roles,
    /// Descendant steps on the path of one role.
    Descendants,
}

/// Why a query is refused. The numbers are offsets in bytes, but for `TooLarge`, which has the limit.
#[derive(Clone, Copy, Debug, PartialEq, Eq, Error)]
pub enum QueryFault {
    /// A sequence of bytes isn't UTF-8.
    #[error("not UTF-8 at byte {0}")]
    Utf8(u64),
    /// No token begins here.
    #[error("no token at byte {0}")]
    Lex(u64),
    /// With this token the text is no front of a query.
    #[error("not a query at byte {0}")]
    Syntax(u64),
    /// No loop around binds this variable.
    #[error("unknown variable at byte {0}")]
    UnknownVar(u64),
    /// An end tag's name isn't that of its start tag.
    #[error("another end tag is wanted at byte {0}")]
    TagMismatch(u64),
    /// A descendant step is followed by another step.
    #[error("a descendant step that isn't the last at byte {0}")]
    DescendantNotLast(u64),
    /// A number that isn't within the range of literals.
    #[error("a number out of range at byte {0}")]
    IntegerWide(u64),
    /// A limit was passed.
    #[error("the query passes the limit of {1}")]
    TooLarge(What, u64),
    /// Want of memory.
    #[error("out of memory")]
    Memory,
}

impl From<Memory> for QueryFault {
    ghost from_gives = { λ _ e. e ≡ query_memory };

    fn from(_: Memory) -> QueryFault {
        QueryFault::Memory
    }
}

/// Why a document is refused. The number is an offset in bytes.
#[derive(Clone, Copy, Debug, PartialEq, Eq, Error)]
pub enum DocFault {
    /// A sequence of bytes isn't UTF-8.
    #[error("not UTF-8 at byte {0}")]
    Utf8(u64),
    /// With this character the text is no front of a document.
    #[error("not a document at byte {0}")]
    Syntax(u64),
    /// The input ended before the document.
    #[error("the document ends too soon at byte {0}")]
    Truncated(u64),
    /// Too many elements are open at once.
    #[error("too deep at byte {0}")]
    Depth(u64),
    /// A name in a start tag is too long.
    #[error("a name too long at byte {0}")]
    NameLong(u64),
    /// A run of text is too long.
    #[error("a text too long at byte {0}")]
    TextLong(u64),
    /// The input is too long.
    #[error("the document is longer than {0} bytes")]
    TooLong(u64),
    /// Want of memory.
    #[error("out of memory")]
    Memory,
}

impl From<Memory> for DocFault {
    ghost from_gives = { λ _ e. e ≡ doc_faults.Memory };

    fn from(_: Memory) -> DocFault {
        DocFault::Memory
    }
}
