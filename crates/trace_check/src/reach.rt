//! What a role reaches, as ranges of nodes' numbers.
ghost use Rattle.std.specs.Prelude.{◌≡◌, ◌==◌, ℕ, Bool, IfOk};
ghost use Rattle.gcx_model.specs.ItemView.{role_kind};
ghost use Rattle.gcx_model.specs.Nodes.{Grown};
ghost use Rattle.gcx_model.specs.Tree.{Node};
ghost use Rattle.trace_check.specs.Reaching.{in_range, covers, Covers, numbers_of, is_among, is_first_of, is_within_some, stepped_on, role_reaches};

use doc_tree::Tree;
use gcx_base::{Memory, Step};
use gcx_model::RoleKind;
use std::alloc::Global;

/// The nodes from a number on, up to another one and with it.
#[derive(Clone, Copy, Debug, PartialEq, Eq)]
pub(crate) struct Range {
    pub first: usize,
    pub last: usize,
}

impl Range {
    /// This node alone.
    fn one(node: usize) -> Range
        ensures { (k : ℕ) → in_range k result ≡ (node == k) }
    {
        Range {
            first: node,
            last: node,
        }
    }
}

/// Each of these nodes alone.
fn each(alloc: Global, nodes: &[usize]) -> Result<Vec<Range>, Memory>
    ensures { IfOk result (λ ranges. (k : ℕ) → covers ranges.items k ≡ is_among nodes.now k) }
{
    let mut ranges = Vec::new(alloc);
    for node in nodes {
        ranges.push(Range::one(*node))?;
    }
    Ok(ranges)
}

/// The first match of the tail at each of these nodes.
fn firsts(alloc: Global, tree: &Tree, nodes: &[usize], tail: &[Step]) -> Result<Vec<Range>, Memory>
    requires { Grown tree.now }
    ensures { IfOk result (λ ranges. Covers tree.now ranges.items (is_first_of tree.now nodes.now tail.now)) }
{
    let mut ranges = Vec::new(alloc);
    for node in nodes {
        let found = tree.matches(alloc, *node, tail)?;
        if let Some(first) = found.first() {
            ranges.push(Range::one(*first))?;
        }
    }
    Ok(ranges)
}

/// The subtrees of the set's nodes. What is below a node of a subtree before it stands in that one.
fn subtrees(alloc: Global, tree: &Tree, nodes: &[usize]) -> Result<Vec<Range>, Memory>
    requires { Grown tree.now }
    ensures { IfOk result (λ ranges. (f : Node → Bool) → nodes.now ≡ numbers_of tree.now f
        → Covers tree.now ranges.items (is_within_some nodes.now)) }
{
    let mut ranges = Vec::new(alloc);
    let mut done = 0;
    for node in nodes {
        if done <= *node {
            done = tree.end(*node);
            ranges.push(Range {
                first: *node,
                last: done.saturating_sub(1),
            })?;
        }
    }
    Ok(ranges)
}

/// What the steps reach from the set's nodes.
fn go_on(
    alloc: Global,
    tree: &Tree,
    nodes: Vec<usize>,
    steps: &[Step],
) -> Result<Vec<usize>, Memory>
    ensures { IfOk result (λ found. (f : Node → Bool) → nodes.items ≡ numbers_of tree.now f
        → found.items ≡ numbers_of tree.now (stepped_on steps.now f)) }
{
    let mut nodes = nodes;
    for step in steps {
        nodes = tree.reached_from(alloc, step, &nodes)?;
    }
    Ok(nodes)
}

/// What a role of this tail and this kind reaches from the set's nodes.
pub(crate) fn reach(
    alloc: Global,
    tree: &Tree,
    nodes: Vec<usize>,
    tail: &[Step],
    kind: RoleKind,
) -> Result<Vec<Range>, Memory>
    requires { Grown tree.now }
    ensures { IfOk result (λ ranges. (f : Node → Bool) → nodes.items ≡ numbers_of tree.now f
        → Covers tree.now ranges.items (role_reaches tree.now f tail.now (role_kind kind))) }
{
    match kind {
        RoleKind::Own => each(alloc, &nodes),
        RoleKind::First => firsts(alloc, tree, &nodes, tail),
        RoleKind::Whole => {
            let tops = go_on(alloc, tree, nodes, tail)?;
            subtrees(alloc, tree, &tops)
        }
    }
}
