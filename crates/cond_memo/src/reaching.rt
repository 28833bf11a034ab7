//! The row of a serial, below a row.
ghost use Rattle.std.specs.Prelude.{◌≡◌, MatchOption};
ghost use Rattle.buf_tree.specs.Shape.{cells, Shaped};
ghost use Rattle.cond_memo.specs.Reaching.{FindsChildUpTo, NotBelow, HasSerial};

use buf_tree::Row;
use gcx_base::Serial;
use node_store::{At, NodeStore};

/// The last child with a serial up to this one.
fn last_up_to<'a, N: NodeStore<Row>>(row: At<'a, N, Row>, serial: Serial) -> Option<At<'a, N, Row>>
    requires shape { Shaped (N.rows row.store.now) }
    ensures { FindsChildUpTo (cells (N.rows row.entry.store.now)) row.entry.place.0 serial.0 result
        (λ a. a.store.now ≡ row.entry.store.now) (λ a. a.place.0) }
{
    let mut at = row.last();
    'back: while let Some(here) = at {
        if here.payload().serial().0 <= serial.0 {
            return Some(here);
        }
        at = here.prev();
    }
    None
}

/// The row of this serial, which is this one or lies below it, where it is there.
pub(crate) fn row_below<'a, N: NodeStore<Row>>(
    row: At<'a, N, Row>,
    serial: Serial,
) -> Option<At<'a, N, Row>>
    requires shape { Shaped (N.rows row.store.now) }
    ensures { let xs = cells (N.rows row.entry.store.now) in MatchOption result (NotBelow xs row.entry.place.0 serial.0)
        (λ a. (a.store.now ≡ row.entry.store.now) × HasSerial xs serial.0 a.place.0) }
{
    let mut at = Some(row);
    'down: while let Some(here) = at {
        if here.payload().serial().0 == serial.0 {
            return Some(here);
        }
        at = last_up_to(here, serial);
    }
    None
}
