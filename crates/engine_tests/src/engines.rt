//! Runs of the engine over objects in memory: the worked rows, in pieces of any size, over both stores and each way to
//! find the truth of conditions.
mod checks;
mod counted;
mod demand;
mod joins;
mod lean;
mod manies;
mod passing;
mod relations;
mod rows;
mod sides;
mod takes;
mod turns;

ghost use Rattle.std.specs.Prelude.{◌≡◌, ◌≤◌, ◌<◌, IfOk};
ghost use Rattle.std.specs.FinMap as map;
ghost use Rattle.gcx_model.specs.Core.{BodyTree};
ghost use Rattle.gcx_model.specs.Cores.{Good};
ghost use Rattle.gcx_model.specs.Placed.{Placed};
ghost use Rattle.gcx_model.specs.PlanView.{plan_tree};
ghost use Rattle.gcx_model.specs.Tree.{opening};
ghost use Rattle.join_index.specs.Index.{IsIndex};

use buf_tree::Row;
use cond_eval::{Conds, Plain};
use engine::{Ended, Engine, Report, run_query};
use gcx_base::Limits;
use gcx_io::{MemSink, MemSource};
use gcx_model::Plan;
use join_index::Indexed;
use node_store::{NodeStore, SlabNodes};
use placed_laws::normal_is_good;
use raw_nodes::RawNodes;
use signoff_place::compile;
use std::alloc::Global;
use std::process::Abort;
use std::test::Fail;
use xq_parse::parse;

/// What a run left behind.
#[derive(Drop, Debug, PartialEq, Eq)]
pub(crate) struct Ran {
    report: Report,
    out: Vec<u8>,
    trace: Vec<u8>,
}

/// How a run is made: the most bytes of a read and of a write, the numbers of the calls of source and sink that fail, and
/// how far the projector may go ahead, at most 1,000. 0 traces.
#[derive(Clone, Copy)]
pub(crate) struct How<'a> {
    most: usize,
    reads: &'a [u64],
    writes: &'a [u64],
    ahead: u32,
}

/// The most bytes of a read.
pub(crate) const PIECES: [usize; 3] = [1, 7, 65_536];

/// In reads of this many bytes, of which none fails.
pub(crate) fn plainly(most: usize) -> How<'static> {
    How {
        most,
        reads: &[],
        writes: &[],
        ahead: 1,
    }
}

/// The same far ahead.
pub(crate) fn far(most: usize) -> How<'static> {
    How {
        ahead: 1_000,
        ..plainly(most)
    }
}

/// A query, a document and the answer.
pub(crate) struct Answered(&'static [u8], &'static [u8], &'static [u8]);

/// The same with the number of lists that are made, where conditions have an index.
#[derive(Clone, Copy)]
pub(crate) struct Built<'a>(&'a [u8], &'a [u8], &'a [u8], u64);

/// The document, and what takes output and trace.
#[derive(Drop)]
struct Streams {
    source: MemSource,
    out: MemSink,
    err: MemSink,
}

/// The plan of the query.
pub(crate) fn plan_of(alloc: Global, query: &[u8]) -> Result<Plan, Fail>
    ensures { IfOk result (λ plan. (core : BodyTree) × Good core × Placed core (plan_tree plan)) }
{
    normal_is_good();
    let query = parse(alloc, query)?;
    Ok(compile(alloc, &query)?)
}

/// Conditions with an index, of which no list was made.
pub(crate) fn indexed(alloc: Global, plan: &Plan) -> Result<Indexed, Fail>
    ensures { IfOk result (λ k. IsIndex k opening) }
{
    let conds = Indexed::new(alloc, plan)?;
    Ok(conds)
}

fn source_of(alloc: Global, document: &[u8], how: How<'_>) -> Result<MemSource, Fail>
    requires { 0 < how.most }
{
    let bytes = document.to_vec(alloc)?;
    let fails = how.reads.to_vec(alloc)?;
    Ok(MemSource::new(bytes, how.most, fails))
}

fn sink_of(alloc: Global, room: usize, most: usize, fails: &[u64]) -> Result<MemSink, Fail>
    requires { 0 < most }
{
    let fails = fails.to_vec(alloc)?;
    Ok(MemSink::new(alloc, room, most, fails)?)
}

fn streams_of(
    rt: &impl Abort,
    alloc: Global,
    document: &[u8],
    how: How<'_>,
) -> Result<Streams, Fail> {
    assert!(rt; how.most > 0);
    let source = source_of(alloc, document, how)?;
    let out = sink_of(alloc, 20_000, how.most, how.writes)?;
    let err = sink_of(alloc, 2_000, how.most, &[])?;
    Ok(Streams { source, out, err })
}

/// Whether it is traced, and how far the projector may go ahead, for that of `How`.
fn ahead_of(ahead: u32) -> (bool, u32)
    ensures { (1 ≤ result.1) × (result.1 ≤ 1000) }
{
    (ahead == 0, ahead.max(1).min(1_000))
}

/// Runs the plan, and answers the report and the store behind the run. `ahead` is that of `How`.
fn run_through<N: NodeStore<Row> + Drop, C: Conds + Drop>(
    alloc: Global,
    plan: &Plan,
    nodes: N,
    conds: C,
    ahead: u32,
    streams: &mut Streams,
) -> Result<(Report, N), Fail>
    requires placed { (core : BodyTree) × Good core × Placed core (plan_tree plan.now) }
    requires empty { N.rows nodes ≡ map.empty }
    requires conds { C.stands conds opening }
{
    let Streams { source, out, err } = streams;
    let (tracing, ahead) = ahead_of(ahead);
    let mut engine = Engine::new(alloc, plan, nodes, conds, Limits::full(), ahead, tracing)?;
    let report = run_query(&mut engine, alloc, source, out, err);
    Ok((report, engine.finish_nodes()))
}

/// The same with an index, over nodes in a slab. It answers how many lists were made.
fn run_index(
    alloc: Global,
    plan: &Plan,
    ahead: u32,
    streams: &mut Streams,
) -> Result<(Report, u64), Fail>
    requires placed { (core : BodyTree) × Good core × Placed core (plan_tree plan.now) }
{
    let Streams { source, out, err } = streams;
    let conds = indexed(alloc, plan)?;
    let nodes = SlabNodes::new(alloc);
    let (tracing, ahead) = ahead_of(ahead);
    let mut engine = Engine::new(alloc, plan, nodes, conds, Limits::full(), ahead, tracing)?;
    let report = run_query(&mut engine, alloc, source, out, err);
    let built = engine.conds().built();
    Ok((report, built))
}

/// What the sink took, all of which it kept.
fn taken(rt: &impl Abort, alloc: Global, sink: &MemSink) -> Result<Vec<u8>, Fail> {
    assert!(rt; sink.is_whole());
    Ok(sink.bytes().to_vec(alloc)?)
}

fn left_by(rt: &impl Abort, alloc: Global, report: Report, streams: &Streams) -> Result<Ran, Fail> {
    let out = taken(rt, alloc, &streams.out)?;
    let trace = taken(rt, alloc, &streams.err)?;
    Ok(Ran { report, out, trace })
}

/// A run with these streams, and the store behind it.
fn run_with<N: NodeStore<Row> + Drop, C: Conds + Drop>(
    rt: &impl Abort,
    alloc: Global,
    plan: &Plan,
    nodes: N,
    conds: C,
    ahead: u32,
    streams: &mut Streams,
) -> Result<(Ran, N), Fail>
    requires placed { (core : BodyTree) × Good core × Placed core (plan_tree plan.now) }
    requires empty { N.rows nodes ≡ map.empty }
    requires conds { C.stands conds opening }
{
    let (report, nodes) = run_through(alloc, plan, nodes, conds, ahead, streams)?;
    let ran = left_by(rt, alloc, report, streams)?;
    Ok((ran, nodes))
}

/// A run of the plan over the document, and the store behind it.
fn run_over<N: NodeStore<Row> + Drop, C: Conds + Drop>(
    rt: &impl Abort,
    alloc: Global,
    plan: &Plan,
    nodes: N,
    conds: C,
    document: &[u8],
    how: How<'_>,
) -> Result<(Ran, N), Fail>
    requires placed { (core : BodyTree) × Good core × Placed core (plan_tree plan.now) }
    requires empty { N.rows nodes ≡ map.empty }
    requires conds { C.stands conds opening }
{
    let mut streams = streams_of(rt, alloc, document, how)?;
    run_with(rt, alloc, plan, nodes, conds, how.ahead, &mut streams)
}

/// A run over nodes by raw pointers, with an index, and the store behind it.
fn run_raw_by(
    rt: &impl Abort,
    alloc: Global,
    plan: &Plan,
    document: &[u8],
    how: How<'_>,
) -> Result<(Ran, RawNodes<Row>), Fail>
    requires placed { (core : BodyTree) × Good core × Placed core (plan_tree plan.now) }
{
    let (nodes, conds) = (RawNodes::new(alloc), indexed(alloc, plan)?);
    run_over(rt, alloc, plan, nodes, conds, document, how)
}

/// A run over nodes in a slab, whose conditions are walked anew.
fn run_plain_by(
    rt: &impl Abort,
    alloc: Global,
    plan: &Plan,
    document: &[u8],
    how: How<'_>,
) -> Result<Ran, Fail>
    requires placed { (core : BodyTree) × Good core × Placed core (plan_tree plan.now) }
{
    let nodes = SlabNodes::new(alloc);
    let (ran, _) = run_over(rt, alloc, plan, nodes, Plain, document, how)?;
    Ok(ran)
}

/// A run over nodes in a slab, with an index, and how many lists it made.
pub(crate) fn run_indexed(
    rt: &impl Abort,
    alloc: Global,
    plan: &Plan,
    document: &[u8],
    how: How<'_>,
) -> Result<(Ran, u64), Fail>
    requires placed { (core : BodyTree) × Good core × Placed core (plan_tree plan.now) }
{
    let mut streams = streams_of(rt, alloc, document, how)?;
    let (report, built) = run_index(alloc, plan, how.ahead, &mut streams)?;
    let ran = left_by(rt, alloc, report, &streams)?;
    Ok((ran, built))
}

/// The same run over both stores and each kind of conditions, which are one.
fn run_by(
    rt: &impl Abort,
    alloc: Global,
    query: &[u8],
    plan: &Plan,
    document: &[u8],
    how: How<'_>,
) -> Result<Ran, Fail>
    requires placed { (core : BodyTree) × Good core × Placed core (plan_tree plan.now) }
{
    let (ran, _) = run_raw_by(rt, alloc, plan, document, how)?;
    let other = run_plain_by(rt, alloc, plan, document, how)?;
    assert_eq!(rt; ran, other, "{query:?}");
    let (third, _) = run_indexed(rt, alloc, plan, document, how)?;
    assert_eq!(rt; ran, third, "{query:?}");
    Ok(ran)
}

/// The same for the query.
pub(crate) fn run(
    rt: &impl Abort,
    alloc: Global,
    query: &[u8],
    document: &[u8],
    how: How<'_>,
) -> Result<Ran, Fail> {
    let plan = plan_of(alloc, query)?;
    run_by(rt, alloc, query, &plan, document, how)
}

/// The run of the query over nodes by raw pointers, with an index, and the store behind it.
pub(crate) fn run_raw(
    rt: &impl Abort,
    alloc: Global,
    query: &[u8],
    document: &[u8],
    how: How<'_>,
) -> Result<(Ran, RawNodes<Row>), Fail> {
    let plan = plan_of(alloc, query)?;
    run_raw_by(rt, alloc, &plan, document, how)
}

/// So it ended, and that it wrote.
pub(crate) fn is_left(rt: &impl Abort, ran: &Ran, query: &[u8], ended: Ended, out: &[u8]) {
    assert_eq!(rt; ran.report.ended, ended, "{query:?}");
    assert_eq!(rt; ran.out.as_slice(), out, "{query:?}");
}

/// The run ends so, and writes that.
pub(crate) fn ends(
    rt: &impl Abort,
    alloc: Global,
    query: &[u8],
    document: &[u8],
    how: How<'_>,
    ended: Ended,
    out: &[u8],
) -> Result<Report, Fail> {
    let ran = run(rt, alloc, query, document, how)?;
    is_left(rt, &ran, query, ended, out);
    Ok(ran.report)
}

/// The whole document was read, and all was let go.
fn is_through(rt: &impl Abort, report: Report, document: &[u8], query: &[u8]) {
    let want = (document.len() as u64, 0);
    assert_eq!(rt; (report.taken_bytes, report.held), want, "{query:?}");
    assert_eq!(rt; report.given, report.taken, "{query:?}");
}

/// The run of the row's query ends with its answer.
fn is_answered(rt: &impl Abort, alloc: Global, row: &Answered, how: How<'_>) -> Result<(), Fail> {
    let Answered(query, document, answer) = row;
    let report = ends(rt, alloc, query, document, how, Ended::Ok, answer)?;
    is_through(rt, report, document, query);
    Ok(())
}

/// In pieces of each size, one token after the other and far ahead.
pub(crate) fn is_answered_in_pieces(
    rt: &impl Abort,
    alloc: Global,
    row: &Answered,
) -> Result<(), Fail> {
    for most in PIECES {
        is_answered(rt, alloc, row, plainly(most))?;
        is_answered(rt, alloc, row, far(most))?;
    }
    Ok(())
}
