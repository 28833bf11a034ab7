//! How many rows are made of elements without a role.
use super::{plainly, plan_of, run_over};
use crate::large::{Part, spelled};
use cond_eval::Plain;
use engine::Ended;
use node_store::{NodeStore, Place, Refused, SlabNodes};
use std::alloc::Global;
use std::test::Fail;

/// A store that counts the rows that are made.
#[derive(Drop)]
struct Counted<N> {
    nodes: N,
    made: u64,
}

impl<T, N: NodeStore<T>> NodeStore<T> for Counted<N> {
    ghost rows = { λ s. N.rows s.nodes };

    ghost most_held = { λ s. N.most_held s.nodes };

    ghost root_of = { λ s. N.root_of s.nodes };

    ghost loans = { λ s. N.loans s.nodes };

    ghost with_paid = { λ s p x. record s { nodes = N.with_paid s.nodes p x } };

    ghost written = { λ s p x used. N.written s.nodes p x used };

    ghost written_most = { λ s p x used. N.written_most s.nodes p x used };

    ghost written_root = { λ s p x used. N.written_root s.nodes p x used };

    ghost written_loans = { λ s p x used. N.written_loans s.nodes p x used };

    fn plant(&mut self, payload: T) -> Result<Place, Refused<T>> {
        self.made = self.made.saturating_add(1);
        self.nodes.plant(payload)
    }

    fn append(&mut self, parent: Place, payload: T) -> Result<Place, Refused<T>> {
        self.made = self.made.saturating_add(1);
        self.nodes.append(parent, payload)
    }

    fn unlink_leaf(&mut self, place: Place) -> T {
        self.nodes.unlink_leaf(place)
    }

    fn drop_leaf(&mut self, place: Place)
    where
        T: Drop,
    {
        self.nodes.drop_leaf(place);
    }

    fn parent(&self, place: Place) -> Option<Place> {
        self.nodes.parent(place)
    }

    fn first(&self, place: Place) -> Option<Place> {
        self.nodes.first(place)
    }

    fn last(&self, place: Place) -> Option<Place> {
        self.nodes.last(place)
    }

    fn next(&self, place: Place) -> Option<Place> {
        self.nodes.next(place)
    }

    fn prev(&self, place: Place) -> Option<Place> {
        self.nodes.prev(place)
    }

    fn payload(&self, place: Place) -> &T {
        self.nodes.payload(place)
    }

    fn payload_mut(&mut self, place: Place) -> &mut T {
        self.nodes.payload_mut(place)
    }

    fn root(&self) -> Option<Place> {
        self.nodes.root()
    }

    fn most(&self) -> usize {
        self.nodes.most()
    }
}

/// Fifty thousand elements with an element in each.
const MANY_ELEMENTS: &[Part] = &[("<r>", 0, 1), ("<a><b/></a>", 0, 50_000), ("</r>", 0, 1)];

// A row is made of an open element alone, where the bytes of a slice end: 4,096 of them.
#[test]
fn a_row_is_made_for_the_peak_or_at_the_end_of_a_slice(rt: HostRuntime) -> Result<(), Fail> {
    let alloc = rt.alloc();
    let plan = plan_of(alloc, b"<o>{/x/y}</o>")?;
    let document = spelled(alloc, MANY_ELEMENTS)?;
    let nodes = Counted {
        nodes: SlabNodes::new(alloc),
        made: 0,
    };
    let how = plainly(65_536);
    let (ran, nodes) = run_over(&rt, alloc, &plan, nodes, Plain, &document, how)?;
    assert_eq!(rt; ran.report.ended, Ended::Ok);
    let slices = document.len() as u64 / 4_096 + 1;
    assert!(rt;
        nodes.made <= ran.report.peak.saturating_add(slices),
        "{}",
        nodes.made
    );
    Ok(())
}
