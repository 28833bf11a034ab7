//! Why reading stops.
ghost use Rattle.std.specs.Prelude.{◌≡◌};
ghost use Rattle.doc_machine.specs.declared.stop.Stop.TheVariants.{Memory as stop_memory};
ghost use Rattle.doc_machine.specs.Refusals.{stop_fault};

use gcx_base::Memory;
use gcx_model::DocFault;
use thiserror::Error;

/// A fault that a character makes, and its place in bytes.
#[derive(Clone, Copy, Debug, Error)]
pub enum Refusal {
    #[error("not a document at byte {0}")]
    Syntax(u64),
    #[error("too deep at byte {0}")]
    Depth(u64),
    #[error("a name too long at byte {0}")]
    NameLong(u64),
    #[error("a text too long at byte {0}")]
    TextLong(u64),
}

/// Why reading stopped.
#[derive(Clone, Copy, Debug, Error)]
pub enum Stop {
    #[error("{0}")]
    Refused(Refusal),
    #[error("out of memory")]
    Memory,
}

impl From<Memory> for Stop {
    ghost from_gives = { λ _ e. e ≡ stop_memory };

    fn from(_: Memory) -> Stop {
        Stop::Memory
    }
}

impl From<Stop> for DocFault {
    ghost from_gives = { λ s e. e ≡ stop_fault s };

    fn from(stop: Stop) -> DocFault {
        match stop {
            Stop::Refused(Refusal::Syntax(place)) => DocFault::Syntax(place),
            Stop::Refused(Refusal::Depth(place)) => DocFault::Depth(place),
            Stop::Refused(Refusal::NameLong(place)) => DocFault::NameLong(place),
            Stop::Refused(Refusal::TextLong(place)) => DocFault::TextLong(place),
            Stop::Memory => DocFault::Memory,
        }
    }
}
