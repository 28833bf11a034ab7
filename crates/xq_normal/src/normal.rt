//! From a query to its core.
ghost use Rattle.std.specs.Prelude.{◌≡◌, ◌+◌, ◌<◌, ◌^◌, ◌≤◌, true, IfErr, IfOk, None, Some};
ghost use Rattle.gcx_model.specs.Answer.{answer};
ghost use Rattle.gcx_model.specs.Document.{Nodes, tree_of};
ghost use Rattle.gcx_model.specs.ItemView.{body_tree};
ghost use Rattle.gcx_model.specs.Normal.{all_loops, no_names, normal};
ghost use Rattle.gcx_model.specs.PlanView.{core_tree};
ghost use Rattle.gcx_model.specs.Query.{exprs_of, query_trees};
ghost use Rattle.gcx_model.specs.Run.{bytes_written};
ghost use Rattle.gcx_model.specs.Sound.{is_sound};
ghost use Rattle.gcx_model.specs.Refusals.{UnlessMemory};
ghost use Rattle.xq_normal.specs.Raw.{moved, raw_exprs};
ghost use Rattle.xq_normal.specs.Sums.{conditions_refusal, core_of, refusal, with_rows};

use crate::bodies::put_exprs;
use crate::loops::all_loops;
use crate::measure::{Tally, measure};
use crate::moves::moved;
use crate::rows::put_rows;
use gcx_base::Memory;
use gcx_model::{Body, Core, Query, QueryFault, VarRows, What};
use placed_laws::normal_law;
use std::alloc::Global;

/// The most loops of a core.
const LOOPS: u64 = 500;

/// The most steps of all paths in conditions of a core.
const STEPS: u64 = 8_000;

/// The most bytes of all conditions of a core, printed.
const CONDITIONS: u64 = 8_388_608;

/// The query as a body, with each `If` where the query has it.
fn raw_body(alloc: Global, query: &Query) -> Result<Body, Memory>
    requires { 1 + all_loops (exprs_of (query_trees query.now)) < 2 ^ 32 }
    ensures { IfOk result (λ body. body_tree body ≡ raw_exprs (exprs_of (query_trees query.now)) no_names 1) }
{
    let mut scope = Vec::new(alloc);
    let mut next = 1;
    let mut body = Body::new(alloc);
    put_exprs(alloc, &mut scope, &mut next, &mut body, &query.parts)?;
    Ok(body)
}

/// Refuses a body whose conditions come to too much once each `If` is moved.
fn check_conditions(alloc: Global, body: &Body) -> Result<(), QueryFault>
    ensures ok { IfOk result (λ _. conditions_refusal (moved (body_tree body.now)) ≡ None) }
    ensures err { IfErr result (UnlessMemory (λ fault.
        conditions_refusal (moved (body_tree body.now)) ≡ Some fault)) }
{
    let mut tally = Tally { steps: 0, bytes: 0 };
    measure(alloc, &mut tally, body)?;
    if tally.steps > STEPS {
        return Err(QueryFault::TooLarge(What::Steps, STEPS));
    }
    if tally.bytes > CONDITIONS {
        return Err(QueryFault::TooLarge(What::Conditions, CONDITIONS));
    }
    Ok(())
}

/// The core whose body comes from this one by moving each `If`.
fn moved_core(alloc: Global, body: Body) -> Result<Core, Memory>
    ensures { IfOk result (λ core. core_tree core ≡ with_rows (moved (body_tree body))) }
{
    let body = moved(alloc, body)?;
    let mut vars = VarRows::new(alloc);
    put_rows(alloc, &mut vars, &body)?;
    Ok(Core { body, vars })
}

/// The core of a query. The limits are checked in order, before any condition is copied.
pub(crate) fn core_within(alloc: Global, query: &Query) -> Result<Core, QueryFault>
    ensures core { IfOk result (λ core. core_tree core ≡ core_of (query_trees query.now)) }
    ensures within { IfOk result (λ core. refusal (normal (query_trees query.now)) ≡ None) }
    ensures refused { IfErr result (UnlessMemory (λ fault. refusal (normal (query_trees query.now)) ≡ Some fault)) }
{
    if all_loops(&query.parts) > LOOPS {
        return Err(QueryFault::TooLarge(What::Loops, LOOPS));
    }
    let body = raw_body(alloc, query)?;
    check_conditions(alloc, &body)?;
    let core = moved_core(alloc, body)?;
    Ok(core)
}

/// The core of a sound query. Its writes over each document are what the query means. It is refused
/// exactly where it passes a limit, by the first that it passes.
pub fn normalise(alloc: Global, query: &Query) -> Result<Core, QueryFault>
    requires sound { is_sound (query_trees query.now) ≡ true }
    ensures core { IfOk result (λ core. core_tree core ≡ core_of (query_trees query.now)) }
    ensures meaning { IfOk result (λ core. (d : Nodes) → bytes_written (core_tree core).body (tree_of d)
        ≡ answer (query_trees query.now) d) }
    ensures within { IfOk result (λ core. refusal (normal (query_trees query.now)) ≡ None) }
    ensures refused { IfErr result (UnlessMemory (λ fault. refusal (normal (query_trees query.now)) ≡ Some fault)) }
{
    normal_law();
    core_within(alloc, query)
}
