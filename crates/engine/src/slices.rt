//! A piece of a document in slices, and what is refused of one.
ghost use Rattle.std.specs.Prelude.{◌≡◌, ◌<◌, ◌++◌, true, false, [], length, None};
ghost use Rattle.engine.specs.Going.{lacking, refusal_of};

use gcx_base::Memory;
use gcx_model::DocFault;

/// The most bytes of which the tokens wait at once.
const SLICE: usize = 4_096;

/// Whether bytes are left, and none was refused.
pub fn is_left(refused: Option<DocFault>, rest: &[u8]) -> bool
    ensures left { result ≡ true → (refused ≡ None) × (0 < length rest.now) }
    ensures over { result ≡ false → refused ≡ None → rest.now ≡ [] }
{
    refused.is_none() && !rest.is_empty()
}

/// The first bytes, as many as a slice has, and those behind them.
pub fn cut(bytes: &[u8]) -> (&[u8], &[u8])
    ensures parts { result.0.now ++ result.1.now ≡ bytes.now }
    ensures fewer { 0 < length bytes.now → length result.1.now < length bytes.now }
{
    bytes.split_at(bytes.len().min(SLICE))
}

/// What an answer of the reader refuses.
pub fn refusal(answer: Result<(), DocFault>) -> Option<DocFault>
    ensures { result ≡ refusal_of answer }
{
    match answer {
        Ok(()) => None,
        Err(fault) => Some(fault),
    }
}

/// The refusal that is kept: want of memory, or else this one.
pub fn lacking(refused: Option<DocFault>, fed: Result<(), Memory>) -> Option<DocFault>
    ensures { result ≡ lacking refused fed }
{
    match fed {
        Ok(()) => refused,
        Err(Memory) => Some(DocFault::Memory),
    }
}
