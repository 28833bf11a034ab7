//! Counts of descendant steps. A count stands still at its type's end.
ghost use Rattle.std.specs.Prelude.{◌≡◌, ◌+◌, ◌<◌, ◌∷◌, [], false, map, IfOk, nat_lt, slice_index_or};
ghost use Rattle.gcx_model.specs.PlanView.{var_row_tree};
ghost use Rattle.proj_tree.specs.Depths.{capped, descendants, fall, with_rows};

use gcx_base::{Axis, Memory, Step, VarId};
use gcx_model::VarRow;
use std::alloc::Global;

fn fall(step: &Step) -> u32
    ensures { result ≡ fall step.now }
{
    match step.axis {
        Axis::Child => 0,
        Axis::Descendant => 1,
    }
}

/// Of a variable, where the counts of the variables from 0 are known.
fn depth_at(depths: &[u32], var: VarId) -> u32
    ensures { result ≡ slice_index_or depths.now var.0 0 }
{
    depths.get(var.0 as usize).copied().unwrap_or(0)
}

/// Counts the descendant steps on the path of each variable from 0.
pub(crate) fn depths(alloc: Global, vars: &[VarRow]) -> Result<Vec<u32>, Memory>
    ensures { IfOk result (λ depths. depths.items ≡ with_rows (0 ∷ []) (map var_row_tree vars.now)) }
{
    let mut depths = Vec::new(alloc);
    depths.push(0)?;
    for row in vars {
        let depth = depth_at(&depths, row.parent).saturating_add(fall(&row.step));
        depths.push(depth)?;
    }
    Ok(depths)
}

/// The descendant steps behind the first `depth` of them.
fn depth_behind(depth: u32, steps: &[Step]) -> u32
    ensures { result ≡ capped (depth + descendants steps.now) }
{
    let mut reached = depth;
    for step in steps {
        reached = reached.saturating_add(fall(step));
    }
    reached
}

/// Whether there are more than `most` on the path of the variable and the tail.
pub(crate) fn is_deeper(depths: &[u32], var: VarId, tail: &[Step], most: u32) -> bool
    requires { most < 4294967295 }
    ensures { result ≡ nat_lt most (slice_index_or depths.now var.0 0 + descendants tail.now) }
{
    depth_behind(depth_at(depths, var), tail) > most
}
