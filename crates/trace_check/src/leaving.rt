//! When nodes leave: until which statement each is wanted. Statements carried out are counted from 1.
ghost use Rattle.std.specs.Prelude.{◌≡◌, ◌<◌, [], ℕ, List, suc, map, length, replicate, IfOk};
ghost use Rattle.gcx_model.specs.Held.{gives};
ghost use Rattle.gcx_model.specs.ItemView.{role_kind};
ghost use Rattle.gcx_model.specs.Members.{count as numbers};
ghost use Rattle.gcx_model.specs.Nodes.{Grown};
ghost use Rattle.gcx_model.specs.Run.{Action};
ghost use Rattle.gcx_model.specs.Tree.{Node};
ghost use Rattle.time_laws.specs.Leaving.{count_offs, last_of};
ghost use Rattle.trace_check.specs.Acting.{action_shown, what_shown};
ghost use Rattle.trace_check.specs.Reaching.{in_range, covers, Covers};
ghost use Rattle.trace_check.specs.Wanting.{IsWanted, OffsAreThere, by_node, greatest_in, lists_in, set_where, with_entry};

use crate::acts::{Act, TimedAct};
use crate::reach::{Range, reach};
use doc_tree::Tree;
use gcx_base::Memory;
use gcx_model::Off;
use std::alloc::Global;

/// Until when nodes are wanted.
#[derive(Drop)]
pub(crate) struct Leaving {
    /// For each node the number of the statement that takes back the last role in its subtree, 0 where none is given there.
    pub until: Vec<usize>,
    /// For each such number the nodes that have it, by falling number.
    pub freed: Vec<Vec<usize>>,
}

/// What a statement reaches from the node.
fn reached(alloc: Global, tree: &Tree, node: usize, off: &Off) -> Result<Vec<Range>, Memory>
    requires grown { Grown tree.now }
    requires there { node < length tree.now.nodes }
    ensures { IfOk result (λ ranges. Covers tree.now ranges.items
        (gives tree.now node off.now.rel off.now.tail (role_kind off.now.kind))) }
{
    let nodes = tree.matches(alloc, node, off.rel.items())?;
    reach(alloc, tree, nodes, off.tail.items(), off.kind)
}

/// Sets the entries of the range.
fn set_range(last: &mut [usize], range: Range, number: usize)
    ensures { last.new ≡ set_where (λ k. in_range k range) number last.old }
{
    let mut node = range.first;
    while node <= range.last && node < last.len() {
        last[node] = number;
        node += 1;
    }
}

/// Sets the entries of the ranges.
fn set_all(last: &mut [usize], ranges: &[Range], number: usize)
    ensures { last.new ≡ set_where (covers ranges.now) number last.old }
{
    for range in ranges {
        set_range(last, *range, number);
    }
}

/// An entry of 0 for each of so many nodes.
fn none_yet(alloc: Global, count: usize) -> Result<Vec<usize>, Memory>
    ensures { IfOk result (λ last. last.items ≡ replicate count 0) }
{
    let mut last = Vec::new(alloc);
    last.resize(count, 0)?;
    Ok(last)
}

/// How many statements are carried out, and for each node the number of the last one that reaches it.
fn last_of(alloc: Global, tree: &Tree, acts: &[TimedAct<'_>]) -> Result<(usize, Vec<usize>), Memory>
    requires grown { Grown tree.now }
    requires there { OffsAreThere tree.now acts.now }
    ensures count { IfOk result (λ r. (all : List Action) → map what_shown acts.now ≡ map action_shown all
        → r.0 ≡ count_offs all) }
    ensures last { IfOk result (λ r. (all : List Action) → map what_shown acts.now ≡ map action_shown all
        → r.1.items ≡ by_node tree.now (last_of tree.now all)) }
{
    let mut last = none_yet(alloc, tree.count())?;
    let mut number: usize = 0;
    for act in acts {
        if let Act::SignedOff(node, off) = act.act {
            number += 1;
            let ranges = reached(alloc, tree, node, off)?;
            set_all(&mut last, &ranges, number);
        }
    }
    Ok((number, last))
}

/// Raises the entry of each node to the greatest one in its subtree.
fn raise(tree: &Tree, last: &mut [usize])
    requires grown { Grown tree.now }
    ensures { (f : Node → ℕ) → last.old ≡ by_node tree.now f → last.new ≡ by_node tree.now (greatest_in tree.now f) }
{
    let mut node = last.len();
    while node > 1 {
        node -= 1;
        let entry = last[node];
        let parent = tree.parent(node);
        if parent < node {
            last[parent] = last[parent].max(entry);
        }
    }
}

/// No node for each of so many numbers and 0.
fn none_freed(alloc: Global, count: usize) -> Result<Vec<Vec<usize>>, Memory>
    ensures { IfOk result (λ freed. lists_in freed.items ≡ replicate (suc count) []) }
{
    let mut freed = Vec::new(alloc);
    freed.push(Vec::new(alloc))?;
    for _ in 0..count {
        freed.push(Vec::new(alloc))?;
    }
    Ok(freed)
}

/// The nodes by their entries, those of each entry by falling number.
fn freed_of(alloc: Global, until: &[usize], count: usize) -> Result<Vec<Vec<usize>>, Memory>
    ensures { IfOk result (λ freed. lists_in freed.items ≡ map (with_entry until.now) (numbers 0 (suc count))) }
{
    let mut freed = none_freed(alloc, count)?;
    let mut node = until.len();
    while node > 0 {
        node -= 1;
        if let Some(nodes) = freed.get_mut(until[node]) {
            nodes.push(node)?;
        }
    }
    Ok(freed)
}

impl Leaving {
    /// Until when the nodes are wanted where these actions are taken.
    pub fn of(alloc: Global, tree: &Tree, acts: &[TimedAct<'_>]) -> Result<Leaving, Memory>
        requires grown { Grown tree.now }
        requires there { OffsAreThere tree.now acts.now }
        ensures { IfOk result (λ l. (all : List Action) → map what_shown acts.now ≡ map action_shown all
            → IsWanted tree.now all l.until.items (lists_in l.freed.items)) }
    {
        let (count, mut until) = last_of(alloc, tree, acts)?;
        raise(tree, &mut until);
        let freed = freed_of(alloc, &until, count)?;
        Ok(Leaving { until, freed })
    }
}
