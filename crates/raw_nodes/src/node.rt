//! What a cell holds.
ghost use Rattle.std.specs.Prelude.{◌≡◌, Some, None, IsSome};
ghost use Rattle.std.specs.Borrow.{sem};
ghost use Rattle.raw_nodes.specs.Nodes.{dead_node, paid_node, is_row, IsToldByLinks};
ghost use Rattle.raw_nodes.specs.NodeLends.{lends_payload};

use crate::maybe_link::MaybeLink;
use crate::slot::Slot;

/// A row, or a dead cell, which holds no payload. The links lead to the row's parent, its first and last child and both
/// siblings. A dead cell has no first child and is its own last one, and its `next` leads to the dead cell that is used
/// after it.
pub struct Node<T> {
    pub(crate) number: usize,
    pub(crate) parent: MaybeLink,
    pub(crate) first: MaybeLink,
    pub(crate) last: MaybeLink,
    pub(crate) prev: MaybeLink,
    pub(crate) next: MaybeLink,
    pub(crate) payload: Slot<T>,
}

impl<T> Node<T> {
    /// The dead cell that `own` leads to, with the bytes of this slot in its payload's room.
    pub(crate) fn dead(
        number: usize,
        own: MaybeLink,
        next: MaybeLink,
        blank: &mut Slot<T>,
    ) -> Node<T>
        requires { blank.old ≡ None }
        ensures node { result ≡ dead_node number own next }
        ensures blank { blank.new ≡ None }
    {
        let nothing = MaybeLink::none();
        Node {
            number,
            parent: nothing,
            first: nothing,
            last: own,
            prev: nothing,
            next,
            payload: blank.again(),
        }
    }

    #[inline(always)]
    pub(crate) fn payload(&self) -> &T
        requires { IsSome self.now.payload }
        ensures { self.now.payload ≡ Some result.now }
    {
        self.payload.get()
    }

    #[inline(always)]
    pub(crate) fn payload_mut(&mut self) -> &mut T
        requires { IsSome self.old.payload }
        ensures* writes_back { sem 𝓛 (lends_payload T.row self.entry result) }
        ensures value { self.old.payload ≡ Some result.now }
    {
        self.payload.get_mut()
    }

    // Whether the links are those of a row.
    fn has_row(&self) -> bool
        ensures { result ≡ is_row self.now }
    {
        match (self.first.get(), self.last.get()) {
            (Some(_), _) => true,
            (None, Some(_)) => false,
            (None, None) => true,
        }
    }

    /// Drops the payload, where there is one.
    #[tactic(auto, using(crate::proofs::Told::some_told, crate::proofs::Told::none_told))]
    pub(crate) fn destroy(self)
    where
        T: Drop,
        requires { IsToldByLinks self }
    {
        let has_row = self.has_row();
        let Node {
            number: _,
            parent: _,
            first: _,
            last: _,
            prev: _,
            next: _,
            mut payload,
        } = self;
        if has_row {
            drop(payload.take());
            payload.destroy_empty();
        } else {
            payload.destroy_empty();
        }
    }
}
