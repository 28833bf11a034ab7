//! Queries, compiled and explained, or refused.
mod branches;
mod conditions;
mod loops;
mod vectors;

ghost use Rattle.std.specs.Prelude.{IfOk};
ghost use Rattle.signoff_place.specs.Sized.{IsSized};

use gcx_model::{Plan, QueryFault};
use signoff_place::{compile, explain};
use std::alloc::Global;
use std::process::Abort;
use std::test::Fail;
use xq_parse::parse;

/// A query, and the text of its plan.
type Row = (&'static str, &'static str);

fn plan(alloc: Global, query: &[u8]) -> Result<Plan, QueryFault>
    ensures { IfOk result (λ plan. IsSized plan) }
{
    compile(alloc, &parse(alloc, query)?)
}

fn plan_text(alloc: Global, plan: &Plan) -> Result<String, Fail>
    requires { IsSized plan.now }
{
    let text = explain(alloc, plan)?;
    Ok(format!(in alloc; "{}", text.as_str())?)
}

/// The text of the query's plan.
fn explained(alloc: Global, query: &[u8]) -> Result<String, Fail> {
    let plan = plan(alloc, query)?;
    plan_text(alloc, &plan)
}

/// The query has this plan.
fn is_explained(rt: &impl Abort, alloc: Global, query: &str, plan: &str) -> Result<(), Fail> {
    let found = explained(alloc, query.as_bytes())?;
    assert_eq!(rt; found.as_str(), plan, "{query}");
    Ok(())
}

/// These queries have these plans.
fn are_explained(rt: &impl Abort, alloc: Global, rows: &[Row]) -> Result<(), Fail> {
    for &(query, plan) in rows {
        is_explained(rt, alloc, query, plan)?;
    }
    Ok(())
}
