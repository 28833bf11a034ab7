//! The variable tree of a core: which variables are straight, and where the statements of each stand.
#![tactic(auto)]

ghost use Rattle.std.specs.Prelude.{◌≡◌, ◌++◌, ◌∷◌, [], map, IfOk, OnOk};
ghost use Rattle.gcx_model.specs.Cores.{Good};
ghost use Rattle.gcx_model.specs.ItemView.{body_tree, item_tree};
ghost use Rattle.gcx_model.specs.Variables.{fsa_list, straight_list};
ghost use Rattle.var_tree.specs.Facts.{facts_at, facts_of, next_facts, root_facts, with_loops};
ghost use Rattle.var_tree.specs.Loops.{item_loops, loops};

use gcx_base::{Axis, Memory, Step, VarId};
use gcx_model::{Body, Core, Flags, Item, VarIds};
use std::alloc::Global;

/// For each variable from 1 whether it is straight, and the first straight one at it or above it.
#[derive(Drop, Debug)]
pub struct VarTree {
    pub straight: Flags,
    pub fsa: VarIds,
}

/// What is kept of a variable while the core is read.
#[derive(Clone, Copy, Debug)]
struct VarFacts {
    straight: bool,
    fsa: VarId,
    /// Whether its path has child steps alone.
    only_child: bool,
}

/// Of variable 0.
fn root_facts() -> VarFacts
    ensures { facts_of result ≡ root_facts }
{
    VarFacts {
        straight: true,
        fsa: VarId(0),
        only_child: true,
    }
}

/// Of a variable, where those of the variables from 1 are known.
fn facts_at(known: &[VarFacts], var: VarId) -> VarFacts
    ensures { facts_of result ≡ facts_at (map facts_of known.now) var.0 }
{
    if var.0 == 0 {
        return root_facts();
    }
    match known.get(var.0 as usize - 1) {
        Some(facts) => *facts,
        None => root_facts(),
    }
}

/// Of the variable of a loop.
fn next_facts(outer: VarId, var: VarId, from: VarId, step: &Step, parent: VarFacts) -> VarFacts
    ensures { facts_of result
        ≡ next_facts (record { outer = outer.0; var = var.0; parent = from.0; step = step.now }) (facts_of parent) }
{
    let child = matches!(step.axis, Axis::Child);
    let straight = parent.straight && from.0 == outer.0 && (child || parent.only_child);
    VarFacts {
        straight,
        fsa: if straight { var } else { parent.fsa },
        only_child: child && parent.only_child,
    }
}

/// Adds what is kept of the variables of the item's loops.
#[cycle(read_loops)]
fn read_item(known: &mut Vec<VarFacts>, outer: VarId, item: &Item) -> Result<(), Memory>
    ensures { OnOk result (map facts_of known.new.items
        ≡ with_loops (map facts_of known.old.items) (item_loops (item_tree item.now) outer.0)) }
{
    match item {
        Item::For {
            var,
            from,
            step,
            body,
        } => {
            let parent = facts_at(known, *from);
            known.push(next_facts(outer, *var, *from, step, parent))?;
            read_body(known, *var, body)
        }
        Item::If { then, other, .. } => {
            read_body(known, outer, then)?;
            read_body(known, outer, other)
        }
        Item::Write(_) | Item::Copy(_) | Item::Off(_) => Ok(()),
    }
}

/// Adds what is kept of the variables of the body's loops. The nearest loop round them is that of `outer`.
#[cycle(read_loops)]
fn read_body(known: &mut Vec<VarFacts>, outer: VarId, body: &Body) -> Result<(), Memory>
    ensures { OnOk result (map facts_of known.new.items
        ≡ with_loops (map facts_of known.old.items) (loops (body_tree body.now) outer.0)) }
{
    for item in body.items() {
        read_item(known, outer, item)?;
    }
    Ok(())
}

fn tree_of(alloc: Global, known: &[VarFacts]) -> Result<VarTree, Memory>
    ensures straight { IfOk result (λ tree. tree.straight ≡ map (λ f. f.straight) known.now) }
    ensures fsa { IfOk result (λ tree. map (λ x. x.0) tree.fsa ≡ map (λ f. f.fsa.0) known.now) }
{
    let mut tree = VarTree {
        straight: Flags::new(alloc),
        fsa: VarIds::new(alloc),
    };
    for facts in known {
        tree.straight.push(facts.straight)?;
        tree.fsa.push(facts.fsa)?;
    }
    Ok(tree)
}

/// The variable tree of a core.
pub fn var_tree(alloc: Global, core: &Core) -> Result<VarTree, Memory>
    requires { Good (body_tree core.now.body) }
    ensures straight { IfOk result (λ tree. tree.straight ≡ straight_list (body_tree core.now.body)) }
    ensures fsa { IfOk result (λ tree. map (λ x. x.0) tree.fsa ≡ fsa_list (body_tree core.now.body)) }
{
    let mut known = Vec::new(alloc);
    read_body(&mut known, VarId(0), &core.body)?;
    tree_of(alloc, &known)
}
