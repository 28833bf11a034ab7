//! Matches that were open when they were looked at: whether the innermost is closed by now, and which is the next one above.
ghost use Rattle.std.specs.Prelude.{◌≡◌, ◌<◌, Some, IfOk, MatchOption};
ghost use Rattle.buf_tree.specs.View.{InUse, serial_at};
ghost use Rattle.cond_memo.specs.Marks.{IsShut, StillOpen, HasNoParent, IsParentAt, AreApart};
ghost use Rattle.cond_memo.specs.Calls.{FindsUpwards};

use crate::reaching::row_below;
use buf_tree::{Buffer, Row};
use gcx_base::{Memory, Serial, Step};
use node_store::{NodeStore, Place};

/// The place of the innermost match that was open, where it is closed by now.
#[inline(always)]
pub(crate) fn shut_by_now<N: NodeStore<Row>>(
    buffer: &Buffer<N>,
    node: Place,
    waiting: Option<Serial>,
) -> Option<Place>
    requires { InUse buffer.now.rows node.0 }
    ensures { MatchOption result (StillOpen buffer.now.rows node.0 waiting)
        (λ p. IsShut buffer.now.rows waiting p.0) }
{
    let serial = waiting?;
    let row = row_below(buffer.at(node), serial)?;
    if !buffer.is_closed(row.place) {
        return None;
    }
    Some(row.place)
}

/// The nearest match above a match.
pub(crate) fn match_above<N: NodeStore<Row>>(
    buffer: &Buffer<N>,
    node: Place,
    steps: &[Step],
    place: Place,
    flags: &mut Vec<bool>,
) -> Result<Option<Serial>, Memory>
    requires { InUse buffer.now.rows place.0 }
    ensures above { IfOk result (λ r. FindsUpwards buffer.now.rows steps.now node.0 place.0 r) }
    ensures lower { IfOk result (λ r. (s : Serial) → r ≡ Some s → s.0 < serial_at place.0 buffer.now.rows) }
{
    let mut at = parent_at(buffer, place);
    'up: while let Some(here) = at {
        if here.0 == node.0 {
            return Ok(None);
        }
        if buffer.leads(node, steps, here, flags)? {
            return Ok(Some(buffer.serial(here)));
        }
        at = parent_at(buffer, here);
    }
    Ok(None)
}

/// The place of the parent's row.
fn parent_at<N: NodeStore<Row>>(buffer: &Buffer<N>, place: Place) -> Option<Place>
    requires { InUse buffer.now.rows place.0 }
    ensures parent { MatchOption result (HasNoParent buffer.now.rows place.0)
        (λ p. IsParentAt buffer.now.rows place.0 p.0) }
    ensures apart { AreApart buffer.now.rows }
{
    match buffer.at(place).parent() {
        Some(row) => Some(row.place),
        None => None,
    }
}
