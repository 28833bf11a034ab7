//! What tokens did, in numbers.
ghost use Rattle.std.specs.Prelude.{◌≡◌, max};
ghost use Rattle.run_part.specs.Actors.{counted, is_quiet};

use crate::actors::Tallied;
use buf_tree::{Buffer, Row};
use node_store::NodeStore;
use projector::Tally;

/// The counts with what a token did, behind which so many rows are held.
#[inline(always)]
pub(crate) fn count(counts: Tallied, tally: Tally, held: u64) -> Tallied
    ensures { result ≡ counted counts tally held }
{
    let peak = counts.peak.max(held);
    match tally {
        Tally::Opened(count) => Tallied {
            peak,
            given: counts.given.saturating_add(count as u128),
        },
        Tally::Closed => Tallied {
            peak,
            given: counts.given,
        },
    }
}

/// The counts behind a token that was passed, with which so many nodes have rows or will have them.
#[inline(always)]
pub(crate) fn count_held(counts: Tallied, held: u64) -> Tallied
    ensures { result ≡ record counts { peak = max counts.peak held } }
{
    Tallied {
        peak: counts.peak.max(held),
        given: counts.given,
    }
}

/// Whether no action is possible behind the token that wasn't before it: the token gave no role, or closed a node that
/// left at once, so that no role was live there.
#[inline(always)]
pub(crate) fn is_quiet<N: NodeStore<Row>>(tally: Tally, buffer: &Buffer<N>) -> bool
    ensures { result ≡ is_quiet tally buffer.now }
{
    match tally {
        Tally::Opened(count) => count == 0,
        Tally::Closed => !buffer.gone().is_empty(),
    }
}
