//! The sums that the limits of a core are for, counted before any condition is copied.
ghost use Rattle.std.specs.Prelude.{◌≡◌, ℕ, ◌+◌, ◌*◌, IfOk, OnOk};
ghost use Rattle.gcx_model.specs.CondView.{core_cond_tree, core_cond_trees, core_conds_of, operand_tree};
ghost use Rattle.gcx_model.specs.ItemView.{body_tree, item_tree};
ghost use Rattle.xq_normal.specs.Raw.{moved, moved_item};
ghost use Rattle.xq_normal.specs.Shapes.{branch_copies, branch_shape, capped, code_shape, shape_of};
ghost use Rattle.xq_normal.specs.Sums.{cond_bytes, cond_steps, condition_bytes, condition_steps, conds_steps, operand_steps};
ghost use Rattle.xq_normal.specs.Calls.{CountsOn};

use crate::shape::Shape;
use crate::text::put_cond;
use gcx_base::Memory;
use gcx_model::{Body, Cond, CondList, Item, Operand};
use std::alloc::Global;

/// What the conditions of a core come to. The counts stand still at their type's end.
#[derive(Clone, Copy, Debug)]
pub(crate) struct Tally {
    /// Steps of all paths.
    pub steps: u64,
    /// Bytes of all conditions.
    pub bytes: u64,
}

fn operand_steps(operand: &Operand) -> u64
    ensures { result ≡ capped (operand_steps (operand_tree operand.now)) }
{
    match operand {
        Operand::Path { steps, .. } => steps.items().len() as u64,
        Operand::Str(_) | Operand::Num(_) => 0,
    }
}

#[cycle(steps)]
fn cond_steps(cond: &Cond) -> u64
    ensures { result ≡ capped (cond_steps (core_cond_tree cond.now)) }
{
    match cond {
        Cond::True => 0,
        Cond::Exists { steps, .. } => steps.items().len() as u64,
        Cond::Compare { left, right, .. } => {
            let left = operand_steps(left);
            left.saturating_add(operand_steps(right))
        }
        Cond::Not(inner) => cond_steps(inner),
        Cond::All(members) => member_steps(members),
        Cond::Any(members) => member_steps(members),
    }
}

#[cycle(steps)]
fn member_steps(conds: &CondList) -> u64
    ensures { result ≡ capped (conds_steps (core_conds_of (core_cond_trees conds.now))) }
{
    let mut count: u64 = 0;
    for cond in conds.items() {
        count = count.saturating_add(cond_steps(cond));
    }
    count
}

/// The length of a condition's text.
fn cond_bytes(alloc: Global, cond: &Cond) -> Result<u64, Memory>
    ensures { IfOk result (λ bytes. bytes ≡ capped (cond_bytes (core_cond_tree cond.now))) }
{
    let mut text = String::new(alloc);
    put_cond(&mut text, cond)?;
    Ok(text.len() as u64)
}

impl Tally {
    /// Adds so many copies of a condition.
    fn add(&mut self, alloc: Global, cond: &Cond, copies: u64) -> Result<(), Memory>
        ensures steps { OnOk result ((m n : ℕ) → self.old.steps ≡ capped m → copies ≡ capped n
            → self.new.steps ≡ capped (m + n * cond_steps (core_cond_tree cond.now))) }
        ensures bytes { OnOk result ((m n : ℕ) → self.old.bytes ≡ capped m → copies ≡ capped n
            → self.new.bytes ≡ capped (m + n * cond_bytes (core_cond_tree cond.now))) }
    {
        let steps = cond_steps(cond);
        let bytes = cond_bytes(alloc, cond)?;
        self.steps = self.steps.saturating_add(copies.saturating_mul(steps));
        self.bytes = self.bytes.saturating_add(copies.saturating_mul(bytes));
        Ok(())
    }
}

/// Adds the conditions of what the item becomes, and answers its shape.
#[cycle(measures)]
fn measure_item(alloc: Global, tally: &mut Tally, item: &Item) -> Result<Shape, Memory>
    ensures steps { OnOk result (CountsOn tally.old.steps tally.new.steps
        (condition_steps (moved_item (item_tree item.now)))) }
    ensures bytes { OnOk result (CountsOn tally.old.bytes tally.new.bytes
        (condition_bytes (moved_item (item_tree item.now)))) }
    ensures shape { IfOk result (λ shape. shape ≡ code_shape (shape_of (moved_item (item_tree item.now)))) }
{
    match item {
        Item::For { body, .. } => {
            let shape = measure(alloc, tally, body)?;
            Ok(shape.inside_loop())
        }
        Item::If { cond, then, other } => {
            let first = measure(alloc, tally, then)?;
            let second = measure(alloc, tally, other)?;
            tally.add(alloc, cond, first.branch_copies(second))?;
            Ok(first.branched(second))
        }
        Item::Write(_) | Item::Copy(_) | Item::Off(_) => Ok(Shape::Run),
    }
}

/// Adds the conditions of what the body becomes once each `If` is moved, and answers its shape.
#[cycle(measures)]
pub(crate) fn measure(alloc: Global, tally: &mut Tally, body: &Body) -> Result<Shape, Memory>
    ensures steps { OnOk result (CountsOn tally.old.steps tally.new.steps
        (condition_steps (moved (body_tree body.now)))) }
    ensures bytes { OnOk result (CountsOn tally.old.bytes tally.new.bytes
        (condition_bytes (moved (body_tree body.now)))) }
    ensures shape { IfOk result (λ shape. shape ≡ code_shape (shape_of (moved (body_tree body.now)))) }
{
    let mut shape = Shape::Empty;
    for item in body.items() {
        let next = measure_item(alloc, tally, item)?;
        shape = shape.beside(next);
    }
    Ok(shape)
}
