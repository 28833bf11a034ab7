//! The plan of a query.
ghost use Rattle.std.specs.Prelude.{◌≡◌, true, IfOk, IfErr, None, Some};
ghost use Rattle.gcx_model.specs.Normal.{normal};
ghost use Rattle.gcx_model.specs.Placed.{Placed, plan_of};
ghost use Rattle.gcx_model.specs.PlanView.{plan_tree};
ghost use Rattle.gcx_model.specs.Query.{query_trees};
ghost use Rattle.gcx_model.specs.Sound.{is_sound};
ghost use Rattle.signoff_place.specs.Refused.{refusal_of};
ghost use Rattle.signoff_place.specs.Sized.{IsSized};
ghost use Rattle.gcx_model.specs.Refusals.{UnlessMemory};

use crate::place::place;
use gcx_model::{Plan, Query, QueryFault};
use placed_laws::{normal_is_good, placed_once};
use proj_tree::roles;
use std::alloc::Global;
use var_tree::var_tree;
use xq_normal::normalise;

/// The plan of a sound query: that of its core. It is refused exactly where the core passes a limit, by the first that it
/// passes: those of the normal form come before those of the roles.
pub fn compile(alloc: Global, query: &Query) -> Result<Plan, QueryFault>
    requires sound { is_sound (query_trees query.now) ≡ true }
    ensures plan { IfOk result (λ plan. plan_tree plan ≡ plan_of (normal (query_trees query.now))) }
    ensures placed { IfOk result (λ plan. Placed (normal (query_trees query.now)) (plan_tree plan)) }
    ensures sized { IfOk result (λ plan. IsSized plan) }
    ensures accepted { IfOk result (λ plan. refusal_of (normal (query_trees query.now)) ≡ None) }
    ensures refused { IfErr result (UnlessMemory (λ fault.
        refusal_of (normal (query_trees query.now)) ≡ Some fault)) }
{
    normal_is_good();
    placed_once();
    let core = normalise(alloc, query)?;
    let tree = var_tree(alloc, &core)?;
    let rows = roles(alloc, &core)?;
    let plan = place(alloc, core, tree, rows)?;
    Ok(plan)
}
