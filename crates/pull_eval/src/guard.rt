//! Loops whose body does nothing where an equality is false.
ghost use Rattle.std.specs.Prelude.{◌≡◌, true, false, IfSome};
ghost use Rattle.gcx_model.specs.CondView.{core_cond_tree, operand_tree};
ghost use Rattle.gcx_model.specs.Core.{Path};
ghost use Rattle.gcx_model.specs.ItemView.{item_tree};
ghost use Rattle.gcx_model.specs.Roles.{cond_rows, operand_rows};
ghost use Rattle.pass_laws.specs.Idle.{AsksEqual, IsGuarded, IsGuardedItem, IsNotFrom};
ghost use Rattle.pull_eval.specs.Position.{items};
ghost use Rattle.pull_eval.specs.Guards.{AreBoundBelow, AreClosedBelow, AsksRows, AsksRowsIn, EachAsked, EachUsedInItem, IsBoundBelow, IsClosedBelow, IsGuardOf, IsJoin, left_path, right_path};

use buf_tree::{Buffer, Row};
use cond_eval::Env;
use gcx_base::{Rel, Step, VarId};
use gcx_model::{Cond, Item, Operand};
use node_store::NodeStore;

/// An equality of a path from a loop's variable and one from a variable outside the loop.
#[derive(Clone, Copy, Debug)]
pub(crate) struct Guard<'p> {
    /// Whether the path from the loop's variable is the left one.
    pub is_left: bool,
    pub own_var: VarId,
    pub own: &'p [Step],
    pub other_var: VarId,
    pub other: &'p [Step],
}

/// The equality without which no item of the body does anything, once all nodes are closed that it asks about.
pub(crate) fn guard_of<'p>(body: &'p [Item], var: VarId) -> Option<Guard<'p>>
    ensures { IfSome result (λ g. IsGuardOf g var.0 (items body.now)) }
{
    match first_guard(body, var) {
        Some(guard) => {
            if is_guarded(body, &guard) {
                Some(guard)
            } else {
                None
            }
        }
        None => None,
    }
}

/// Such an equality in the first condition of the body.
fn first_guard<'p>(body: &'p [Item], var: VarId) -> Option<Guard<'p>>
    ensures asks { IfSome result (λ g. AsksRowsIn (left_path g) (right_path g) (items body.now)) }
    ensures join { IfSome result (λ g. IsJoin g var.0) }
{
    match body.first() {
        Some(item) => match item {
            Item::If { cond, .. } => guard_in(cond, var),
            Item::For { body, .. } => first_guard(body.items(), var),
            Item::Write(_) | Item::Copy(_) | Item::Off(_) => None,
        },
        None => None,
    }
}

/// Such an equality without which the condition isn't true.
fn guard_in<'p>(cond: &'p Cond, var: VarId) -> Option<Guard<'p>>
    ensures asks { IfSome result (λ g. AsksRows (left_path g) (right_path g) (core_cond_tree cond.now)) }
    ensures join { IfSome result (λ g. IsJoin g var.0) }
{
    match cond {
        Cond::Compare { left, rel, right } => guard_between(left, *rel, right, var),
        Cond::All(conds) => {
            for inner in conds.items() {
                let found = guard_in(inner, var);
                if found.is_some() {
                    return found;
                }
            }
            None
        }
        Cond::True | Cond::Exists { .. } | Cond::Not(_) | Cond::Any(_) => None,
    }
}

/// The comparison, where it is such an equality.
fn guard_between<'p>(
    left: &'p Operand,
    rel: Rel,
    right: &'p Operand,
    var: VarId,
) -> Option<Guard<'p>>
    ensures left { IfSome result (λ g. left_path g ≡ operand_tree left.now) }
    ensures right { IfSome result (λ g. right_path g ≡ operand_tree right.now) }
    ensures join { IfSome result (λ g. IsJoin g var.0) }
{
    let (
        Operand::Path { var: one, steps },
        Operand::Path {
            var: two,
            steps: others,
        },
    ) = (left, right)
    else {
        return None;
    };
    if rel != Rel::Eq {
        None
    } else if *one == var && two.0 < var.0 {
        Some(Guard {
            is_left: true,
            own_var: var,
            own: steps.items(),
            other_var: *two,
            other: others.items(),
        })
    } else if *two == var && one.0 < var.0 {
        Some(Guard {
            is_left: false,
            own_var: var,
            own: others.items(),
            other_var: *one,
            other: steps.items(),
        })
    } else {
        None
    }
}

/// Whether no item of the body does anything where the equality is false.
#[cycle(guarded)]
fn is_guarded(body: &[Item], guard: &Guard<'_>) -> bool
    ensures { result ≡ true → IsGuarded (left_path guard.now) (right_path guard.now) (items body.now) }
{
    for item in body {
        if !is_item_guarded(item, guard) {
            return false;
        }
    }
    true
}

/// Whether the item doesn't do anything then.
#[cycle(guarded)]
fn is_item_guarded(item: &Item, guard: &Guard<'_>) -> bool
    ensures { result ≡ true → IsGuardedItem (left_path guard.now) (right_path guard.now) (item_tree item.now) }
{
    match item {
        Item::If { cond, other, .. } => other.items().is_empty() && needs(cond, guard),
        Item::For { var, body, .. } => {
            !has_path_from(guard, *var) && is_guarded(body.items(), guard)
        }
        Item::Write(_) | Item::Copy(_) | Item::Off(_) => false,
    }
}

/// Whether one of its two paths is from the variable.
fn has_path_from(guard: &Guard<'_>, var: VarId) -> bool
    ensures { result ≡ false → IsNotFrom var.0 (left_path guard.now) × IsNotFrom var.0 (right_path guard.now) }
{
    guard.own_var == var || guard.other_var == var
}

/// Whether the condition is false where the equality is, once all is closed that it asks about.
fn needs(cond: &Cond, guard: &Guard<'_>) -> bool
    ensures { result ≡ true → AsksEqual (left_path guard.now) (right_path guard.now) (core_cond_tree cond.now) }
{
    match cond {
        Cond::Compare { left, rel, right } => *rel == Rel::Eq && is_guard(left, right, guard),
        Cond::All(conds) => {
            for inner in conds.items() {
                if needs(inner, guard) {
                    return true;
                }
            }
            false
        }
        Cond::True | Cond::Exists { .. } | Cond::Not(_) | Cond::Any(_) => false,
    }
}

/// Whether these are its two paths, in the same order.
fn is_guard(left: &Operand, right: &Operand, guard: &Guard<'_>) -> bool
    ensures { result ≡ true
        → (operand_tree left.now ≡ left_path guard.now) × (operand_tree right.now ≡ right_path guard.now) }
{
    if guard.is_left {
        is_path(left, guard.own_var, guard.own) && is_path(right, guard.other_var, guard.other)
    } else {
        is_path(left, guard.other_var, guard.other) && is_path(right, guard.own_var, guard.own)
    }
}

/// Whether the operand is this path.
fn is_path(operand: &Operand, var: VarId, steps: &[Step]) -> bool
    ensures { result ≡ true → operand_tree operand.now ≡ Path var.0 steps.now }
{
    match operand {
        Operand::Path {
            var: from,
            steps: others,
        } => *from == var && others.items() == steps,
        Operand::Str(_) | Operand::Num(_) => false,
    }
}

/// Whether the nodes of all variables with smaller numbers that loops and conditions of the body use are closed.
#[cycle(settled)]
pub(crate) fn is_settled<N: NodeStore<Row>>(
    body: &[Item],
    var: VarId,
    env: &Env,
    buffer: &Buffer<N>,
) -> bool
    requires { AreBoundBelow buffer.now.rows env.now var.0 (items body.now) }
    ensures { result ≡ true → AreClosedBelow buffer.now.rows env.now var.0 (items body.now) }
{
    for item in body {
        if !is_item_settled(item, var, env, buffer) {
            return false;
        }
    }
    true
}

/// Whether it is so for the item.
#[cycle(settled)]
fn is_item_settled<N: NodeStore<Row>>(
    item: &Item,
    var: VarId,
    env: &Env,
    buffer: &Buffer<N>,
) -> bool
    requires { EachUsedInItem (IsBoundBelow buffer.now.rows env.now var.0) (item_tree item.now) }
    ensures { result ≡ true → EachUsedInItem (IsClosedBelow buffer.now.rows env.now var.0) (item_tree item.now) }
{
    match item {
        Item::If { cond, .. } => is_cond_settled(cond, var, env, buffer),
        Item::For { from, body, .. } => {
            is_closed(*from, var, env, buffer) && is_settled(body.items(), var, env, buffer)
        }
        Item::Write(_) | Item::Copy(_) | Item::Off(_) => true,
    }
}

/// Whether it is so for the condition.
fn is_cond_settled<N: NodeStore<Row>>(
    cond: &Cond,
    var: VarId,
    env: &Env,
    buffer: &Buffer<N>,
) -> bool
    requires { EachAsked (IsBoundBelow buffer.now.rows env.now var.0) (cond_rows (core_cond_tree cond.now)) }
    ensures { result ≡ true
        → EachAsked (IsClosedBelow buffer.now.rows env.now var.0) (cond_rows (core_cond_tree cond.now)) }
{
    match cond {
        Cond::True => true,
        Cond::Exists { var: from, .. } => is_closed(*from, var, env, buffer),
        Cond::Compare { left, right, .. } => {
            is_operand_settled(left, var, env, buffer)
                && is_operand_settled(right, var, env, buffer)
        }
        Cond::Not(inner) => is_cond_settled(inner, var, env, buffer),
        Cond::All(conds) | Cond::Any(conds) => {
            for inner in conds.items() {
                if !is_cond_settled(inner, var, env, buffer) {
                    return false;
                }
            }
            true
        }
    }
}

/// Whether it is so for the operand.
fn is_operand_settled<N: NodeStore<Row>>(
    operand: &Operand,
    var: VarId,
    env: &Env,
    buffer: &Buffer<N>,
) -> bool
    requires { EachAsked (IsBoundBelow buffer.now.rows env.now var.0) (operand_rows (operand_tree operand.now)) }
    ensures { result ≡ true
        → EachAsked (IsClosedBelow buffer.now.rows env.now var.0) (operand_rows (operand_tree operand.now)) }
{
    match operand {
        Operand::Path { var: from, .. } => is_closed(*from, var, env, buffer),
        Operand::Str(_) | Operand::Num(_) => true,
    }
}

/// Whether the variable's number isn't smaller, or else its node is closed.
fn is_closed<N: NodeStore<Row>>(from: VarId, var: VarId, env: &Env, buffer: &Buffer<N>) -> bool
    requires { IsBoundBelow buffer.now.rows env.now var.0 from.0 }
    ensures { result ≡ true → IsClosedBelow buffer.now.rows env.now var.0 from.0 }
{
    if from.0 >= var.0 {
        return true;
    }
    match env.get(from) {
        Some((place, _)) => buffer.is_closed(place),
        None => false,
    }
}
