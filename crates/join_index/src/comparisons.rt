//! The equalities of a plan.
ghost use Rattle.std.specs.Prelude.{◌≡◌, true, map, OnOk};
ghost use Rattle.gcx_base.specs.declared.rel.Rel.TheVariants.{Eq};
ghost use Rattle.gcx_model.specs.CondView.{core_cond_tree, operand_tree};
ghost use Rattle.gcx_model.specs.ItemView.{body_tree, item_tree};
ghost use Rattle.cond_eval.specs.Literals.{IsLiteral};
ghost use Rattle.join_index.specs.Equalities.{BodyHas, CondHas, GathersAll, ItemHas, NoneKept};
ghost use Rattle.join_index.specs.Lookups.{GetsNoList, IsNoneOfPaths};

use crate::equality::{Equality, find};
use gcx_base::{Memory, Rel};
use gcx_model::{Body, Cond, Item, Operand};
use std::alloc::Global;

/// Adds the equalities of the body that aren't there yet.
#[cycle(find_equalities)]
pub(crate) fn put_body(alloc: Global, found: &mut Vec<Equality>, body: &Body) -> Result<(), Memory>
    ensures all { OnOk result (GathersAll found.old.items found.new.items (λ l r. BodyHas l r (body_tree body.now))) }
    ensures none { OnOk result (NoneKept found.old.items → NoneKept found.new.items) }
{
    for item in body.items() {
        put_item(alloc, found, item)?;
    }
    Ok(())
}

/// Adds those of the item.
#[cycle(find_equalities)]
fn put_item(alloc: Global, found: &mut Vec<Equality>, item: &Item) -> Result<(), Memory>
    ensures all { OnOk result (GathersAll found.old.items found.new.items (λ l r. ItemHas l r (item_tree item.now))) }
    ensures none { OnOk result (NoneKept found.old.items → NoneKept found.new.items) }
{
    match item {
        Item::For { body, .. } => put_body(alloc, found, body),
        Item::If { cond, then, other } => {
            put_cond(alloc, found, cond)?;
            put_body(alloc, found, then)?;
            put_body(alloc, found, other)
        }
        Item::Write(_) | Item::Copy(_) | Item::Off(_) => Ok(()),
    }
}

/// Adds those of the condition.
fn put_cond(alloc: Global, found: &mut Vec<Equality>, cond: &Cond) -> Result<(), Memory>
    ensures all { OnOk result (GathersAll found.old.items found.new.items (λ l r. CondHas l r (core_cond_tree cond.now))) }
    ensures none { OnOk result (NoneKept found.old.items → NoneKept found.new.items) }
{
    match cond {
        Cond::True | Cond::Exists { .. } => Ok(()),
        Cond::Compare { left, rel, right } => put_comparison(alloc, found, left, *rel, right),
        Cond::Not(inner) => put_cond(alloc, found, inner),
        Cond::All(conds) | Cond::Any(conds) => {
            for inner in conds.items() {
                put_cond(alloc, found, inner)?;
            }
            Ok(())
        }
    }
}

/// Adds the comparison, where it is an equality of two paths with different variables and isn't there yet.
fn put_comparison(
    alloc: Global,
    found: &mut Vec<Equality>,
    left: &Operand,
    rel: Rel,
    right: &Operand,
) -> Result<(), Memory>
    ensures all { OnOk result (GathersAll found.old.items found.new.items
        (λ l r. (operand_tree left.now ≡ l) × (rel ≡ Eq) × (operand_tree right.now ≡ r))) }
    ensures none { OnOk result (NoneKept found.old.items → NoneKept found.new.items) }
{
    if rel != Rel::Eq {
        return Ok(());
    }
    if find(found, left, right).is_some() {
        return Ok(());
    }
    match Equality::of(alloc, left, right)? {
        Some(equality) => Ok(found.push(equality)?),
        None => Ok(()),
    }
}

/// Whether the condition is an `exists`, or a comparison but no equality of two paths. It gets no list.
pub(crate) fn gets_no_list(cond: &Cond) -> bool
    ensures { result ≡ true → GetsNoList (core_cond_tree cond.now) }
{
    match cond {
        Cond::Exists { .. } => true,
        Cond::Compare { left, rel, right } => is_other(left, *rel, right),
        _ => false,
    }
}

/// Whether the comparison is no equality of two paths.
fn is_other(left: &Operand, rel: Rel, right: &Operand) -> bool
    ensures { result ≡ true → IsNoneOfPaths left.now rel right.now }
{
    if is_literal(left) {
        return true;
    }
    if is_literal(right) {
        return true;
    }
    rel != Rel::Eq
}

fn is_literal(operand: &Operand) -> bool
    ensures { result ≡ true → IsLiteral operand.now }
{
    match operand {
        Operand::Path { .. } => false,
        Operand::Str(_) | Operand::Num(_) => true,
    }
}
