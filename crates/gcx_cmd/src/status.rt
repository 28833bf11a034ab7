use gcx_io::AttachFault;
use gcx_model::{DocFault, QueryFault};

/// How a call of the program ends.
#[derive(Clone, Copy, Debug, PartialEq, Eq)]
pub enum Status {
    Ok,
    /// The words are no command line.
    Usage,
    /// The query isn't accepted.
    QueryRefused(QueryFault),
    /// The document isn't accepted.
    DocumentRefused(DocFault),
    /// A file can't be attached or read.
    ReadFault,
    /// A write failed.
    WriteFault,
    /// Want of memory.
    Memory,
    /// TRACE isn't the trace, and this is its first line that differs.
    TraceRefused(u64),
}

impl Status {
    ghost use Rattle.std.specs.Prelude.{◌≡◌};
    ghost use Rattle.gcx_cmd.specs.Status.{code_of};

    /// The program's exit status. 1 isn't used.
    pub fn code(&self) -> u8
        ensures { result ≡ code_of self.now }
    {
        match self {
            Status::Ok => 0,
            Status::Usage => 2,
            Status::QueryRefused(_) => 3,
            Status::DocumentRefused(_) => 4,
            Status::ReadFault => 5,
            Status::WriteFault => 6,
            Status::Memory => 7,
            Status::TraceRefused(_) => 8,
        }
    }
}

/// A file that was to be read can't be attached.
impl From<AttachFault> for Status {
    ghost use Rattle.std.specs.Prelude.{◌≡◌};
    ghost use Rattle.gcx_cmd.specs.ReadEnd.{attach_status};

    ghost from_gives = { λ fault e. e ≡ attach_status fault };

    fn from(fault: AttachFault) -> Status {
        match fault {
            AttachFault::Failed => Status::ReadFault,
            AttachFault::Memory => Status::Memory,
        }
    }
}
