//! The nodes that a path reaches, as a set: each once, in document order.
ghost use Rattle.std.specs.Prelude.{◌≡◌, IfOk, OnOk};
ghost use Rattle.gcx_base.specs.declared.steps.Axis.TheVariants.{Child, Descendant};
ghost use Rattle.buf_tree.specs.View.{InUse};
ghost use Rattle.cond_eval.specs.Reads.{IsMember, AreMembers, Puts, AreNext, TellsInside, AreReached};

use buf_tree::{Buffer, Row};
use gcx_base::{Axis, Memory, Step};
use node_store::{NodeStore, Place};
use std::alloc::Global;

/// A row of a set: its node's serial, and its place. The order is that of the serials.
#[derive(Clone, Copy, Debug, PartialEq, Eq, PartialOrd, Ord)]
pub struct Member {
    pub serial: u64,
    pub place: usize,
}

impl Member {
    /// The row at the place.
    pub fn new<N: NodeStore<Row>>(buffer: &Buffer<N>, place: Place) -> Member
        requires { InUse buffer.now.rows place.0 }
        ensures member { IsMember buffer.now.rows result }
        ensures place { result.place ≡ place.0 }
    {
        Member {
            serial: buffer.serial(place).0,
            place: place.0,
        }
    }
}

/// Appends what the step reaches from the node.
fn put_reached<N: NodeStore<Row>>(
    found: &mut Vec<Member>,
    buffer: &Buffer<N>,
    place: Place,
    step: &Step,
) -> Result<(), Memory>
    requires { InUse buffer.now.rows place.0 }
    ensures { OnOk result (Puts buffer.now.rows place.0 step.now found.old.items found.new.items) }
{
    let mut at = buffer.match_behind(place, step, place);
    'matches: while let Some(here) = at {
        found.push(Member::new(buffer, here))?;
        at = buffer.match_behind(place, step, here);
    }
    Ok(())
}

/// What a child step reaches from the set.
fn children<N: NodeStore<Row>>(
    alloc: Global,
    buffer: &Buffer<N>,
    step: &Step,
    set: &[Member],
) -> Result<Vec<Member>, Memory>
    requires axis { step.now.axis ≡ Child }
    requires set { AreMembers buffer.now.rows set.now }
    ensures { IfOk result (λ found. AreNext buffer.now.rows set.now step.now found.items) }
{
    let mut found = Vec::new(alloc);
    for member in set {
        put_reached(&mut found, buffer, Place(member.place), step)?;
    }
    // The children of a node and of one below it interleave.
    if !found.is_sorted() {
        found.sort()?;
    }
    Ok(found)
}

/// Whether the member lies below `top`, where `last` is `top` or lies below it, and no member of the set stands between.
fn is_inside<N: NodeStore<Row>>(
    buffer: &Buffer<N>,
    member: Member,
    last: Member,
    top: Member,
) -> bool
    requires { InUse buffer.now.rows member.place }
    ensures { TellsInside buffer.now.rows member last top result }
{
    let mut at = buffer.at(Place(member.place));
    'up: while at.payload().serial().0 > last.serial {
        match at.parent() {
            Some(above) => at = above,
            None => return false,
        }
    }
    at.payload().serial().0 >= top.serial
}

/// What a descendant step reaches from the set.
fn descendants<N: NodeStore<Row>>(
    alloc: Global,
    buffer: &Buffer<N>,
    step: &Step,
    set: &[Member],
) -> Result<Vec<Member>, Memory>
    requires axis { step.now.axis ≡ Descendant }
    requires set { AreMembers buffer.now.rows set.now }
    ensures { IfOk result (λ found. AreNext buffer.now.rows set.now step.now found.items) }
{
    let mut found = Vec::new(alloc);
    let mut done: Option<(Member, Member)> = None;
    for member in set {
        // What is below a member inside the last one stands there already.
        let top = match done {
            Some((top, last)) if is_inside(buffer, *member, last, top) => top,
            _ => {
                put_reached(&mut found, buffer, Place(member.place), step)?;
                *member
            }
        };
        done = Some((top, *member));
    }
    Ok(found)
}

/// What the steps reach from the node.
pub(crate) fn reached<N: NodeStore<Row>>(
    alloc: Global,
    buffer: &Buffer<N>,
    place: Place,
    steps: &[Step],
) -> Result<Vec<Member>, Memory>
    requires { InUse buffer.now.rows place.0 }
    ensures { IfOk result (λ set. AreReached buffer.now.rows place.0 steps.now set.items) }
{
    let mut set = Vec::new(alloc);
    set.push(Member::new(buffer, place))?;
    for step in steps {
        set = match step.axis {
            Axis::Child => children(alloc, buffer, step, &set)?,
            Axis::Descendant => descendants(alloc, buffer, step, &set)?,
        };
    }
    Ok(set)
}
