//! Sets of nodes, as their numbers in document order.
ghost use Rattle.std.specs.Prelude.{◌≡◌, ◌≤◌, ◌++◌, ◌∷◌, Bool, [], IfOk, OnOk, length};
ghost use Rattle.gcx_model.specs.Tree.{Node, serial_of};
ghost use Rattle.gcx_base.specs.Tests.{passes};
ghost use Rattle.gcx_model.specs.Paths.{reach, hits};
ghost use Rattle.doc_tree.specs.Rows.{kind_in, node_at, nodes_of, IsNested};
ghost use Rattle.doc_tree.specs.Sets.{members, passing, to_children, to_descendants, stepped};

use crate::row::{Content, Row, end_of};
use gcx_base::{Axis, Memory, Step, Test};
use std::alloc::Global;

/// Whether a node passes a test.
fn content_passes(test: &Test, content: &Content) -> bool
    ensures { result ≡ passes test.now (kind_in content.now) }
{
    match (test, content) {
        (Test::Named(asked), Content::Element(name)) => asked.as_bytes() == name.as_bytes(),
        (Test::AnyElement, Content::Element(_)) => true,
        (Test::AnyText, Content::Text(_)) => true,
        (Test::AnyNode, _) => true,
        _ => false,
    }
}

/// Appends the children of the node that pass the test.
fn put_children(
    found: &mut Vec<usize>,
    rows: &[Row],
    test: &Test,
    node: usize,
) -> Result<(), Memory>
    requires nested { IsNested rows.now }
    ensures { OnOk result (found.new.items ≡ found.old.items ++ members (reach node (to_children test.now)) rows.now) }
{
    let end = end_of(rows, node);
    let mut next = node;
    while next < end {
        if content_passes(test, &rows[next].content) {
            found.push(next + 1)?;
        }
        next = end_of(rows, next + 1);
    }
    Ok(())
}

/// The children of the set's nodes that pass the test.
fn children(alloc: Global, rows: &[Row], test: &Test, set: &[usize]) -> Result<Vec<usize>, Memory>
    requires nested { IsNested rows.now }
    ensures { IfOk result (λ found. (f : Node → Bool) → set.now ≡ members f rows.now
        → found.items ≡ members (stepped (to_children test.now) f) rows.now) }
{
    let mut found = Vec::new(alloc);
    for node in set {
        put_children(&mut found, rows, test, *node)?;
    }
    // The children of a node and of one below it interleave.
    if !found.is_sorted() {
        found.sort()?;
    }
    Ok(found)
}

/// Appends the nodes of the rows in the range that pass the test.
fn put_passing(
    found: &mut Vec<usize>,
    rows: &[Row],
    test: &Test,
    from: usize,
    end: usize,
) -> Result<(), Memory>
    requires nested { IsNested rows.now }
    requires within { end ≤ length rows.now }
    ensures { OnOk result (found.new.items ≡ found.old.items ++ passing test.now rows.now from end) }
{
    for index in from..end {
        if content_passes(test, &rows[index].content) {
            found.push(index + 1)?;
        }
    }
    Ok(())
}

/// The nodes below the set's nodes that pass the test.
fn descendants(
    alloc: Global,
    rows: &[Row],
    test: &Test,
    set: &[usize],
) -> Result<Vec<usize>, Memory>
    requires nested { IsNested rows.now }
    ensures { IfOk result (λ found. (f : Node → Bool) → set.now ≡ members f rows.now
        → found.items ≡ members (stepped (to_descendants test.now) f) rows.now) }
{
    let mut found = Vec::new(alloc);
    let mut done: usize = 0;
    for node in set {
        // What is below a node inside the rows that are done stands there already.
        let end = end_of(rows, *node);
        put_passing(&mut found, rows, test, done.max(*node), end)?;
        done = done.max(end);
    }
    Ok(found)
}

/// What a step reaches from the set.
pub(crate) fn step_from(
    alloc: Global,
    rows: &[Row],
    step: &Step,
    set: &[usize],
) -> Result<Vec<usize>, Memory>
    requires nested { IsNested rows.now }
    ensures { IfOk result (λ reached. (f : Node → Bool) → set.now ≡ members f rows.now
        → reached.items ≡ members (stepped step.now f) rows.now) }
{
    match step.axis {
        Axis::Child => children(alloc, rows, &step.test, set),
        Axis::Descendant => descendants(alloc, rows, &step.test, set),
    }
}

/// The set of the node alone, of the document node where there is no such node.
fn single(alloc: Global, rows: &[Row], node: usize) -> Result<Vec<usize>, Memory>
    requires { IsNested rows.now }
    ensures { IfOk result (λ set. set.items ≡ members (hits (serial_of (node_at (nodes_of rows.now) node)) []) rows.now) }
{
    let node = if node <= rows.len() { node } else { 0 };
    let mut set = Vec::new(alloc);
    set.push(node)?;
    Ok(set)
}

/// What a path of these steps hits from the node.
pub(crate) fn hit(
    alloc: Global,
    rows: &[Row],
    node: usize,
    steps: &[Step],
) -> Result<Vec<usize>, Memory>
    requires nested { IsNested rows.now }
    ensures { IfOk result (λ set.
        set.items ≡ members (hits (serial_of (node_at (nodes_of rows.now) node)) steps.now) rows.now) }
{
    let mut set = single(alloc, rows, node)?;
    for step in steps {
        set = step_from(alloc, rows, step, &set)?;
    }
    Ok(set)
}

/// What a step reaches from the node.
pub(crate) fn step_to(
    alloc: Global,
    rows: &[Row],
    node: usize,
    step: &Step,
) -> Result<Vec<usize>, Memory>
    requires nested { IsNested rows.now }
    ensures { IfOk result (λ set.
        set.items ≡ members (hits (serial_of (node_at (nodes_of rows.now) node)) (step.now ∷ [])) rows.now) }
{
    let set = single(alloc, rows, node)?;
    let found = step_from(alloc, rows, step, &set)?;
    Ok(found)
}
