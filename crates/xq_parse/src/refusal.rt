//! Why tokens are no query.
use gcx_base::Memory;
use std::alloc::{AllocError, AllocFailed};

/// Why a token can't stand where it does.
#[derive(Clone, Copy, Drop)]
pub(crate) enum Why {
    Syntax,
    TagMismatch,
    Nesting,
}

/// Memory ran out; or the tokens are no query, with why and how many of them were left.
#[derive(Drop)]
pub(crate) enum Refusal {
    Memory,
    At(Why, usize),
}

impl From<Memory> for Refusal {
    ghost use Rattle.std.specs.Prelude.{◌≡◌};
    ghost use Rattle.xq_parse.specs.declared.refusal.Refusal.TheVariants.{Memory};

    ghost from_gives = { λ _ e. e ≡ Memory };

    fn from(_: Memory) -> Refusal {
        Refusal::Memory
    }
}

impl From<AllocError> for Refusal {
    ghost use Rattle.std.specs.Prelude.{◌≡◌};
    ghost use Rattle.xq_parse.specs.declared.refusal.Refusal.TheVariants.{Memory};

    ghost from_gives = { λ _ e. e ≡ Memory };

    fn from(_: AllocError) -> Refusal {
        Refusal::Memory
    }
}

impl<T: Drop> From<AllocFailed<T>> for Refusal {
    ghost use Rattle.std.specs.Prelude.{◌≡◌};
    ghost use Rattle.xq_parse.specs.declared.refusal.Refusal.TheVariants.{Memory};

    ghost from_gives = { λ _ e. e ≡ Memory };

    fn from(_: AllocFailed<T>) -> Refusal {
        Refusal::Memory
    }
}
