//! Copies of a query, its core and its plan, which have parts of every kind.
use crate::cores::core;
use gcx_model::{Core, Plan, Query, QueryFault};
use signoff_place::compile;
use std::alloc::Global;
use std::fmt::Debug;
use std::process::Abort;
use std::test::Fail;
use xq_parse::parse;

const QUERY: &[u8] =
    b"<n>{for $x in /a where exists($x/b) and not(true()) and (\"v\" = $x/c or $x/d = 3) \
    return $x}</n>, (if (/d//text() >= 4) then () else /e)";

fn has_words(rt: &impl Abort, text: &str, words: &[&str]) {
    for word in words {
        assert!(rt; text.contains(*word), "{word}");
    }
}

/// The copy is printed as what it is a copy of, with all these words.
fn is_copied<T: Debug>(
    rt: &impl Abort,
    alloc: Global,
    original: &T,
    copy: &T,
    words: &[&str],
) -> Result<(), Fail> {
    let printed = format!(in alloc; "{original:?}")?;
    let again = format!(in alloc; "{copy:?}")?;
    assert_eq!(rt; again.as_str(), printed.as_str());
    has_words(rt, printed.as_str(), words);
    Ok(())
}

fn query_is_copied(rt: &impl Abort, alloc: Global, query: &Query) -> Result<(), Fail> {
    let copy = query.copy(alloc)?;
    let words = &[
        "Elem", "For", "All", "Any", "Not", "True", "Exists", "Compare", "Str", "Num", "If",
        "Empty", "Path",
    ];
    is_copied(rt, alloc, query, &copy, words)
}

#[test]
fn queries_are_copied(rt: HostRuntime) -> Result<(), Fail> {
    let query = parse(rt.alloc(), QUERY)?;
    query_is_copied(&rt, rt.alloc(), &query)
}

fn core_is_copied(rt: &impl Abort, alloc: Global, core: &Core) -> Result<(), Fail> {
    let copy = core.copy(alloc)?;
    let words = &["Write", "Copy", "For", "If", "Exists", "Compare"];
    is_copied(rt, alloc, core, &copy, words)
}

#[test]
fn cores_are_copied(rt: HostRuntime) -> Result<(), Fail> {
    let core = core(rt.alloc(), QUERY)?;
    core_is_copied(&rt, rt.alloc(), &core)
}

fn plan(alloc: Global) -> Result<Plan, QueryFault> {
    compile(alloc, &parse(alloc, QUERY)?)
}

fn plan_is_copied(rt: &impl Abort, alloc: Global, plan: &Plan) -> Result<(), Fail> {
    let copy = plan.copy(alloc)?;
    is_copied(rt, alloc, plan, &copy, &["Off", "Own", "First", "Whole"])
}

#[test]
fn plans_are_copied(rt: HostRuntime) -> Result<(), Fail> {
    let plan = plan(rt.alloc())?;
    plan_is_copied(&rt, rt.alloc(), &plan)
}
