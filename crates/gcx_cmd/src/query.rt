//! QUERY, read, judged and compiled.
ghost use Rattle.std.specs.Prelude.{◌≡◌, true, None, Some, IfErr, IfOk, IsErrOf, MatchResult};
ghost use Rattle.gcx_model.specs.Normal.{normal};
ghost use Rattle.gcx_model.specs.PlanView.{plan_tree};
ghost use Rattle.gcx_model.specs.Query.{query_trees};
ghost use Rattle.gcx_model.specs.Refusals.{UnlessMemory};
ghost use Rattle.gcx_model.specs.Sound.{is_sound};
ghost use Rattle.signoff_place.specs.Refused.{refusal_of};
ghost use Rattle.signoff_place.specs.Sized.{IsSized};
ghost use Rattle.gcx_cmd.specs.Accepted.{IsAcceptedOf, EndsQuery};
ghost use Rattle.gcx_cmd.specs.Main.{HasNoMemory, SaysOfQuery};
ghost use Rattle.gcx_cmd.specs.QueryDoes.{AcceptsQuery, StopsInQuery};
ghost use Rattle.gcx_cmd.specs.Reads.{CausesFault, KeepsShelf, Opens};
ghost use Rattle.gcx_cmd.specs.Running.{IsPlaced, IsPlanOf};

use crate::Status;
use crate::text::read_text;
use gcx_base::Text;
use gcx_io::Shelf;
use gcx_model::{Plan, Query, QueryFault};
use signoff_place::compile;
use std::alloc::Global;
use xq_parse::parse;

impl From<QueryFault> for Status {
    ghost use Rattle.std.specs.Prelude.{◌≡◌};
    ghost use Rattle.gcx_cmd.specs.ReadEnd.{query_status};

    ghost from_gives = { λ fault e. e ≡ query_status fault };

    fn from(fault: QueryFault) -> Status {
        match fault {
            QueryFault::Memory => Status::Memory,
            fault => Status::QueryRefused(fault),
        }
    }
}

/// Compiles the query.
fn plan_of(alloc: Global, query: &Query) -> Result<Plan, QueryFault>
    requires sound { is_sound (query_trees query.now) ≡ true }
    ensures plan { IfOk result (λ plan. IsPlanOf (query_trees query.now) (plan_tree plan)) }
    ensures within { IfOk result (λ plan. refusal_of (normal (query_trees query.now)) ≡ None) }
    ensures sized { IfOk result (λ plan. IsSized plan) }
    ensures refused { IfErr result (UnlessMemory (λ fault. refusal_of (normal (query_trees query.now)) ≡ Some fault)) }
{
    compile(alloc, query)
}

/// A query that is accepted, and its plan.
#[derive(Drop)]
pub(crate) struct Accepted {
    pub query: Query,
    pub plan: Plan,
}

/// Compiles the text of a query, or the status to end with.
pub(crate) fn compiled(alloc: Global, bytes: &[u8]) -> Result<Accepted, Status>
    ensures told { MatchResult result (IsAcceptedOf bytes.now) (λ status. SaysOfQuery status bytes.now) }
    ensures sized { IfOk result (λ accepted. IsSized accepted.plan) }
    ensures which { IfErr result EndsQuery }
{
    let query = parse(alloc, bytes)?;
    let plan = plan_of(alloc, &query)?;
    Ok(Accepted { query, plan })
}

/// Reads a query and compiles it, or the status to end with.
pub(crate) fn read_query<F: Shelf>(
    alloc: Global,
    files: &mut F,
    name: &Text,
) -> Result<Accepted, Status>
    ensures accepted { IfOk result (λ accepted. Opens 1 (F.seen files.old) (F.seen files.new)
        × AcceptsQuery name.now (F.seen files.old) (F.seen files.new) (query_trees accepted.query)) }
    ensures plan { IfOk result (λ accepted. IsPlanOf (query_trees accepted.query) (plan_tree accepted.plan)) }
    ensures placed { IfOk result (λ accepted. IsPlaced (plan_tree accepted.plan)) }
    ensures sized { IfOk result (λ accepted. IsSized accepted.plan) }
    ensures stops { IfErr result (λ status. StopsInQuery name.now status (F.seen files.old) (F.seen files.new)) }
    ensures keeps { KeepsShelf (F.seen files.old) (F.seen files.new) }
    ensures cause { IsErrOf result Status.ReadFault → CausesFault name.now (F.seen files.old) (F.seen files.new) }
    ensures memory { IfErr result HasNoMemory }
{
    let bytes = read_text(alloc, files, name)?;
    compiled(alloc, &bytes)
}
