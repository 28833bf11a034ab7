//! The searches for the matches of a step among the rows of a buffer, and whether steps lead from one row to another.
ghost use Rattle.std.specs.Prelude.{IfOk};
ghost use Rattle.buf_tree.specs.View.{InUse};
ghost use Rattle.buf_tree.specs.Match.{FindsAbove, FindsBehind, SerialFound, GoesFrom};
ghost use Rattle.buf_tree.specs.Ways.{LeadsBy};

use crate::buffer::Buffer;
use crate::row::Row;
use crate::search::{first_below, first_child, next_below, next_child};
use crate::trail::make_room;
use crate::upward::leads;
use gcx_base::{Axis, Memory, Serial, Step};
use node_store::{NodeStore, Place};

impl<N: NodeStore<Row>> Buffer<N> {
    /// The first row that the step reaches from the row at the place, of those with a serial above `after`. Looks at
    /// rows above `after` alone, from the last one back. Takes no memory.
    #[inline(always)]
    pub fn next_match(&self, place: Place, step: &Step, after: Serial) -> Option<Place>
        requires { InUse self.now.rows place.0 }
        ensures found { FindsAbove self.now.rows place.0 step.now after.0 result }
        ensures serial { SerialFound self.now.rows result }
    {
        match step.axis {
            Axis::Child => first_child(&self.nodes, place, step, after.0),
            Axis::Descendant => first_below(&self.nodes, place, step, after.0),
        }
    }

    /// The first row that the step reaches from the row at the place, of those behind the row at `from`, which is that
    /// row, a child of it, or for a descendant step any row below it. Looks at the rows from there on up to the answer
    /// alone, for a child step at children. Takes no memory.
    #[inline(always)]
    pub fn match_behind(&self, place: Place, step: &Step, from: Place) -> Option<Place>
        requires { GoesFrom self.now.rows place.0 step.now.axis from.0 }
        ensures found { FindsBehind self.now.rows place.0 from.0 step.now result }
        ensures serial { SerialFound self.now.rows result }
    {
        match step.axis {
            Axis::Child => next_child(&self.nodes, place, step, from),
            Axis::Descendant => next_below(&self.nodes, place, step, from),
        }
    }

    /// Whether the steps lead from the node of the row at `from` to that of the row at `place`. Looks at the rows from
    /// `place` upwards alone, as far as `from`.
    ///
    /// `flags` is room for the walk, and what it holds doesn't count. Calls with the same one take memory only where there
    /// are more steps than in each call before. `Memory` says that there was none for that.
    pub fn leads(
        &self,
        from: Place,
        steps: &[Step],
        place: Place,
        flags: &mut Vec<bool>,
    ) -> Result<bool, Memory>
        requires { InUse self.now.rows place.0 }
        ensures { IfOk result (λ b. LeadsBy self.now.rows from.0 steps.now place.0 b) }
    {
        make_room(flags, steps)?;
        Ok(leads(&self.nodes, from, steps, place, flags))
    }
}
