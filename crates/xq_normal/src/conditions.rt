//! Conditions of the query as conditions of the core.
ghost use Rattle.std.specs.Prelude.{◌≡◌, IfOk};
ghost use Rattle.gcx_model.specs.Query.{cond_tree, cond_trees, conds_of};
ghost use Rattle.gcx_model.specs.CondView.{core_cond_tree, core_cond_trees, core_conds_of, operand_tree};
ghost use Rattle.gcx_model.specs.Normal.{normal_cond, normal_conds, normal_exists, normal_operand, start_var};
ghost use Rattle.xq_normal.specs.Scopes.{names_of};

use crate::scope::{Binding, start_of};
use gcx_base::Memory;
use gcx_model::{Cond, CondList, Operand, PathExpr, QCond, QConds, QOperand};
use std::alloc::Global;

fn core_operand(alloc: Global, scope: &[Binding<'_>], operand: &QOperand) -> Result<Operand, Memory>
    ensures { IfOk result (λ o. operand_tree o ≡ normal_operand operand.now (names_of scope.now)) }
{
    match operand {
        QOperand::Path(path) => Ok(Operand::Path {
            var: start_of(scope, &path.start),
            steps: path.steps.copy(alloc)?,
        }),
        QOperand::Str(text) => Ok(Operand::Str(text.copy(alloc)?)),
        QOperand::Num(units) => Ok(Operand::Num(*units)),
    }
}

/// A variable alone has a match always.
fn core_exists(alloc: Global, scope: &[Binding<'_>], path: &PathExpr) -> Result<Cond, Memory>
    ensures { IfOk result (λ c. core_cond_tree c
        ≡ normal_exists (start_var (names_of scope.now) path.now.start) path.now.steps) }
{
    if path.steps.items().is_empty() {
        return Ok(Cond::True);
    }
    Ok(Cond::Exists {
        var: start_of(scope, &path.start),
        steps: path.steps.copy(alloc)?,
    })
}

#[cycle(core_conditions)]
pub(crate) fn core_cond(alloc: Global, scope: &[Binding<'_>], cond: &QCond) -> Result<Cond, Memory>
    ensures { IfOk result (λ c. core_cond_tree c ≡ normal_cond (cond_tree cond.now) (names_of scope.now)) }
{
    match cond {
        QCond::True => Ok(Cond::True),
        QCond::Exists(path) => core_exists(alloc, scope, path),
        QCond::Compare { left, rel, right } => {
            let left = core_operand(alloc, scope, left)?;
            let right = core_operand(alloc, scope, right)?;
            Ok(Cond::Compare {
                left,
                rel: *rel,
                right,
            })
        }
        QCond::Not(inner) => {
            let inner = core_cond(alloc, scope, inner)?;
            Ok(Cond::Not(Box::new(alloc, inner)?))
        }
        QCond::All(members) => Ok(Cond::All(core_conds(alloc, scope, members)?)),
        QCond::Any(members) => Ok(Cond::Any(core_conds(alloc, scope, members)?)),
    }
}

#[cycle(core_conditions)]
fn core_conds(alloc: Global, scope: &[Binding<'_>], conds: &QConds) -> Result<CondList, Memory>
    ensures { IfOk result (λ cs. core_conds_of (core_cond_trees cs)
        ≡ normal_conds (conds_of (cond_trees conds.now)) (names_of scope.now)) }
{
    let mut members = CondList::new(alloc);
    for cond in conds.items() {
        let member = core_cond(alloc, scope, cond)?;
        members.push(member)?;
    }
    Ok(members)
}
