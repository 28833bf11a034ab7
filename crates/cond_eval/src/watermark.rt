//! How far the nodes were looked at.
ghost use Rattle.std.specs.Prelude.{◌≡◌, ◌<◌, suc};
ghost use Rattle.gcx_model.specs.Members.{In};
ghost use Rattle.buf_tree.specs.Shape.{Cell, num};
ghost use Rattle.buf_tree.specs.View.{InUse};
ghost use Rattle.cond_eval.specs.Searches.{Finds};

use buf_tree::{Buffer, Row};
use gcx_base::{Serial, Step};
use node_store::{NodeStore, Place};

/// Up to this serial the nodes were looked at.
#[derive(Clone, Copy, Debug, PartialEq, Eq)]
pub struct Watermark(pub u64);

impl Watermark {
    /// All nodes that there are.
    #[inline(always)]
    pub fn newest<N: NodeStore<Row>>(buffer: &Buffer<N>) -> Watermark
        requires { 0 < buffer.now.nodes }
        ensures { suc result.0 ≡ buffer.now.nodes }
    {
        Watermark(buffer.nodes() - 1)
    }

    /// The first match of the step, from the row at the place, among the nodes behind it.
    #[inline(always)]
    pub fn new_match<N: NodeStore<Row>>(
        self,
        buffer: &Buffer<N>,
        place: Place,
        step: &Step,
    ) -> Option<Place>
        requires used { InUse buffer.now.rows place.0 }
        requires below { (c : Cell) → In c buffer.now.rows → num c < buffer.now.nodes }
        ensures { (c : Cell) → In c buffer.now.rows → c.place ≡ place.0 → Finds buffer.now.rows c step.now self.0 result }
    {
        if self.0 < Watermark::newest(buffer).0 {
            buffer.next_match(place, step, Serial(self.0))
        } else {
            None
        }
    }
}
