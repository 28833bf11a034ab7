//! From when on a condition is settled, and as what.
ghost use Rattle.std.specs.Prelude.{◌≡◌, ◌<◌, length, OnOk, IfOk};
ghost use Rattle.gcx_model.specs.CondView.{operand_tree, core_cond_tree};
ghost use Rattle.gcx_model.specs.Core.{Compare};
ghost use Rattle.gcx_model.specs.Nodes.{Grown};
ghost use Rattle.time_laws.specs.Times as times;
ghost use Rattle.trace_check.specs.Memoing.{IsAtom, IsMemo, left_in, right_in, side_in};
ghost use Rattle.trace_check.specs.Scopes.{env_of, IsBound};
ghost use Rattle.trace_check.specs.Settling.{settled_in, exists_at};
ghost use Rattle.trace_check.specs.Timing.{clock_in};

use crate::memo::Memo;
use crate::scope::{Binding, node_of};
use crate::timed::Timed;
use crate::values::{earliest, over, values};
use gcx_base::{Memory, Rel, Step, VarId};
use gcx_model::{Cond, Operand};
use std::alloc::Global;

/// A truth, and the time from which on it is known.
#[derive(Clone, Copy, Debug)]
pub(crate) struct Settled {
    pub at: usize,
    pub truth: bool,
}

/// Whether the steps have a match from the node.
fn exists(alloc: Global, timed: &Timed, node: usize, steps: &[Step]) -> Result<Settled, Memory>
    requires grown { Grown timed.now.tree }
    requires there { node < length timed.now.tree.nodes }
    ensures { IfOk result (λ s. settled_in s ≡ exists_at (clock_in timed.now) timed.now.tree node steps.now) }
{
    let found = timed.tree.matches(alloc, node, steps)?;
    match found.first() {
        Some(first) => Ok(Settled {
            at: timed.opened_at(*first),
            truth: true,
        }),
        None => Ok(Settled {
            at: timed.closed_at(node),
            truth: false,
        }),
    }
}

/// Whether some pair of the two sides' values satisfies the relation.
fn compared(
    alloc: Global,
    timed: &Timed,
    scope: &[Binding],
    left: &Operand,
    rel: Rel,
    right: &Operand,
) -> Result<Settled, Memory>
    requires { IsBound timed.now.tree scope.now }
    ensures { IfOk result (λ s. settled_in s
        ≡ times.settled (clock_in timed.now) timed.now.tree (Compare (operand_tree left.now) rel (operand_tree right.now))
        (env_of timed.now.tree scope.now)) }
{
    let lefts = values(alloc, timed, scope, left)?;
    let rights = values(alloc, timed, scope, right)?;
    match earliest(rel, &lefts, &rights) {
        Some(at) => Ok(Settled { at, truth: true }),
        None => Ok(Settled {
            at: over(timed, scope, left).max(over(timed, scope, right)),
            truth: false,
        }),
    }
}

/// An `exists` or a comparison, found anew.
fn atom(alloc: Global, timed: &Timed, scope: &[Binding], cond: &Cond) -> Result<Settled, Memory>
    requires bound { IsBound timed.now.tree scope.now }
    requires atom { IsAtom (core_cond_tree cond.now) }
    ensures { IfOk result (λ s. settled_in s
        ≡ times.settled (clock_in timed.now) timed.now.tree (core_cond_tree cond.now) (env_of timed.now.tree scope.now)) }
{
    match cond {
        Cond::Exists { var, steps } => {
            let node = node_of(scope, *var);
            exists(alloc, timed, node, steps.items())
        }
        Cond::Compare { left, rel, right } => compared(alloc, timed, scope, left, *rel, right),
        _ => Ok(Settled { at: 0, truth: true }),
    }
}

/// The node of the variable of one side, 0 of a literal.
fn side_of(scope: &[Binding], operand: &Operand) -> usize
    ensures { result ≡ side_in scope.now (operand_tree operand.now) }
{
    match operand {
        Operand::Path { var, .. } => node_of(scope, *var),
        Operand::Str(_) | Operand::Num(_) => 0,
    }
}

/// The nodes of the variables of an `exists` or a comparison.
fn sides_of(scope: &[Binding], cond: &Cond) -> (usize, usize)
    ensures left { result.0 ≡ left_in scope.now (core_cond_tree cond.now) }
    ensures right { result.1 ≡ right_in scope.now (core_cond_tree cond.now) }
{
    match cond {
        Cond::Exists { var, .. } => (node_of(scope, *var), 0),
        Cond::Compare { left, right, .. } => (side_of(scope, left), side_of(scope, right)),
        _ => (0, 0),
    }
}

/// The variable of one side, the root of a literal.
fn var_of(operand: &Operand) -> VarId {
    match operand {
        Operand::Path { var, .. } => *var,
        Operand::Str(_) | Operand::Num(_) => VarId(0),
    }
}

/// The variables of an `exists` or a comparison, the root where there is no second one.
fn vars_of(cond: &Cond) -> (VarId, VarId) {
    match cond {
        Cond::Exists { var, .. } => (*var, VarId(0)),
        Cond::Compare { left, right, .. } => (var_of(left), var_of(right)),
        _ => (VarId(0), VarId(0)),
    }
}

/// An `exists` or a comparison, by what is known or anew.
fn asked<'p>(
    alloc: Global,
    timed: &Timed,
    scope: &[Binding],
    memo: &mut Memo<'p>,
    cond: &'p Cond,
) -> Result<Settled, Memory>
    requires bound { IsBound timed.now.tree scope.now }
    requires atom { IsAtom (core_cond_tree cond.now) }
    requires memo { IsMemo timed.now memo.old }
    ensures settled { IfOk result (λ s. settled_in s
        ≡ times.settled (clock_in timed.now) timed.now.tree (core_cond_tree cond.now) (env_of timed.now.tree scope.now)) }
    ensures memo { OnOk result (IsMemo timed.now memo.new) }
{
    let (first, second) = vars_of(cond);
    if memo.is_met_once(scope, first, second) {
        return atom(alloc, timed, scope, cond);
    }
    let (left, right) = sides_of(scope, cond);
    if let Some(known) = memo.known(cond, left, right) {
        return Ok(known);
    }
    let known = atom(alloc, timed, scope, cond)?;
    memo.keep(alloc, cond, left, right, known)?;
    Ok(known)
}

/// The condition's truth, and the time from which on it is known.
pub(crate) fn settle<'p>(
    alloc: Global,
    timed: &Timed,
    scope: &[Binding],
    memo: &mut Memo<'p>,
    cond: &'p Cond,
) -> Result<Settled, Memory>
    requires bound { IsBound timed.now.tree scope.now }
    requires memo { IsMemo timed.now memo.old }
    ensures memo { OnOk result (IsMemo timed.now memo.new) }
    ensures settled { IfOk result (λ s. settled_in s
        ≡ times.settled (clock_in timed.now) timed.now.tree (core_cond_tree cond.now) (env_of timed.now.tree scope.now)) }
{
    match cond {
        Cond::True => Ok(Settled { at: 0, truth: true }),
        Cond::Exists { .. } | Cond::Compare { .. } => asked(alloc, timed, scope, memo, cond),
        Cond::Not(inner) => {
            let known = settle(alloc, timed, scope, memo, inner)?;
            Ok(Settled {
                at: known.at,
                truth: !known.truth,
            })
        }
        Cond::All(conds) => {
            let mut at = 0;
            for inner in &conds.members {
                let known = settle(alloc, timed, scope, memo, inner)?;
                at = at.max(known.at);
                if !known.truth {
                    return Ok(Settled { at, truth: false });
                }
            }
            Ok(Settled { at, truth: true })
        }
        Cond::Any(conds) => {
            let mut since = 0;
            for inner in &conds.members {
                let known = settle(alloc, timed, scope, memo, inner)?;
                since = since.max(known.at);
                if known.truth {
                    return Ok(Settled {
                        at: since,
                        truth: true,
                    });
                }
            }
            Ok(Settled {
                at: since,
                truth: false,
            })
        }
    }
}
