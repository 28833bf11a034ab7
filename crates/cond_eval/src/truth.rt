//! What is known of a condition.
ghost use Rattle.std.specs.Prelude.{◌≡◌};
ghost use Rattle.gcx_model.specs.Truth.{negate, settle};

use gcx_model::Truth;

/// True once a match does, false once none does and no more come.
pub fn settle(found: bool, over: bool) -> Truth
    ensures { result ≡ settle found over }
{
    if found {
        Truth::True
    } else if over {
        Truth::False
    } else {
        Truth::Unknown
    }
}

/// `not`: unknown stays unknown.
pub fn negate(truth: Truth) -> Truth
    ensures { result ≡ negate truth }
{
    match truth {
        Truth::True => Truth::False,
        Truth::False => Truth::True,
        Truth::Unknown => Truth::Unknown,
    }
}
