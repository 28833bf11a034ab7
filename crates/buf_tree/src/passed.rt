//! Nodes that are passed, and rows that are made late.
ghost use Rattle.std.specs.Prelude.{◌≡◌, ◌+◌, ◌≤◌, ◌<◌, ◌^◌, IfOk, OnOk, OnErr};
ghost use Rattle.gcx_model.specs.Members.{In};
ghost use Rattle.buf_tree.specs.Loose.{one_passed, ElementPassed, TextPassed};
ghost use Rattle.buf_tree.specs.PassedCalls.{OpenedPassed, RestsLoosely, MayRest};
ghost use Rattle.buf_tree.specs.Shape.{Cell, num, at_place};
ghost use Rattle.buf_tree.specs.View.{Innermost, level_in};

use crate::buffer::Buffer;
use crate::edits::add_row;
use crate::row::Row;
use crate::spread::covers;
use gcx_base::{Kind, Memory, Name, Serial};
use node_store::{NodeStore, Place};
use role_set::NodeRoles;
use std::alloc::Global;

impl<N: NodeStore<Row>> Buffer<N> {
    /// A new element or text that is given no role is passed: it is counted and gets no row. A text is gone so; an
    /// element gets its row once one is needed, by `open_passed`, or none where it is closed before. Takes no memory.
    #[inline(always)]
    pub fn pass(&mut self)
        requires nodes { self.old.nodes ≤ 2 ^ 40 + 1 }
        ensures more { self.new ≡ one_passed self.old }
        ensures element { ElementPassed self.old self.new }
        ensures text { TextPassed self.old self.new }
    {
        self.count += 1;
    }

    /// The row of a passed element that is still open, with the name and the serial that it has, below the innermost open
    /// row. Of several the outermost comes first, so that each stands below the one before it.
    ///
    /// There is room for one more departure afterwards. After `Memory` the buffer is unchanged.
    pub fn open_passed(
        &mut self,
        alloc: Global,
        parent: Place,
        name: Name,
        serial: Serial,
    ) -> Result<Place, Memory>
        requires parent { Innermost self.old.rows parent.0 }
        requires behind { (c : Cell) → In c self.old.rows → num c < serial.0 }
        requires passed { serial.0 < self.old.nodes }
        requires depth { level_in (at_place parent.0 self.old.rows) ≤ 1000 }
        requires spread { MayRest self.old (record { name = name; serial = serial.0 }) }
        ensures opened { IfOk result (λ p. OpenedPassed self.old self.new p.0 (record { name = name; serial = serial.0 })) }
        ensures stands { OnOk result (RestsLoosely self.old self.new (record { name = name; serial = serial.0 })) }
        ensures err { OnErr result (self.new ≡ self.old) }
        ensures loans { self.new.loans ≡ self.old.loans }
    {
        self.gone.reserve(self.held + 1)?;
        let above = self.nodes.payload(parent);
        let kind = Kind::Element(name);
        let covered = covers(&self.spread, above);
        let row = above.new_child(serial.0, kind, NodeRoles::new(alloc), covered);
        let place = add_row(&mut self.nodes, parent, row)?;
        self.held += 1;
        Ok(place)
    }

    /// The greatest number of rows so far. Takes no memory.
    #[inline(always)]
    pub fn most(&self) -> u64
        ensures { result ≡ self.now.most }
    {
        self.nodes.most() as u64
    }
}
