//! `run`: the answer of QUERY over DOC, written while DOC is read.
ghost use Rattle.std.specs.Prelude.{◌≡◌, ◌≤◌, true};
ghost use Rattle.std.specs.FinMap as map;
ghost use Rattle.gcx_io.specs.Causes.{Rose};
ghost use Rattle.gcx_model.specs.PlanView.{plan_tree};
ghost use Rattle.gcx_words.specs.declared.command.Command.TheVariants.{Run};
ghost use Rattle.gcx_cmd.specs.Does.{DoesCommand};
ghost use Rattle.gcx_cmd.specs.Main.{HasNoMemory};
ghost use Rattle.gcx_cmd.specs.World.{IsSeen};
ghost use Rattle.gcx_cmd.specs.Reads.{CausesFault, KeepsShelf};
ghost use Rattle.gcx_cmd.specs.Running.{IsPlaced};
ghost use Rattle.gcx_cmd.specs.Runs.{PlanRuns, PlanRunsOver};
ghost use Rattle.gcx_cmd.specs.Status.{ended_status};

use crate::Status;
use crate::query::read_query;
use buf_tree::Row;
use engine::{Ended, Engine, Report, run_query};
use gcx_base::{Limits, Text};
use gcx_io::{Opened, Shelf, Sink, Source};
use gcx_model::Plan;
use join_index::Indexed;
use node_store::NodeStore;
use std::alloc::Global;

/// The status of a run's end.
pub(crate) fn status_of(ended: Ended) -> Status
    ensures { result ≡ ended_status ended }
{
    match ended {
        Ended::Ok => Status::Ok,
        Ended::Refused(fault) => Status::DocumentRefused(fault),
        Ended::ReadFault => Status::ReadFault,
        Ended::WriteFault => Status::WriteFault,
        Ended::Memory => Status::Memory,
    }
}

/// The report of a run that found no memory to begin.
fn nothing_run() -> Report
    ensures { result.ended ≡ Ended.Memory }
{
    Report {
        ended: Ended::Memory,
        taken_bytes: 0,
        nodes: 0,
        peak: 0,
        given: 0,
        taken: 0,
        held: 0,
    }
}

/// Runs the plan over the document that the source gives: before each read all settled output is written, and with
/// `tracing` the trace behind it. The rows stand in the lent store. At most `ahead` tokens are fed at once.
pub(crate) fn run_plan<S: Source, O: Sink, E: Sink, N: NodeStore<Row> + Drop>(
    alloc: Global,
    plan: &Plan,
    tracing: bool,
    ahead: u32,
    source: &mut S,
    out: &mut O,
    err: &mut E,
    nodes: &mut N,
) -> Report
    requires placed { IsPlaced (plan_tree plan.now) }
    requires ahead { (1 ≤ ahead) × (ahead ≤ 1000) × (tracing ≡ true → ahead ≡ 1) }
    requires new { (N.rows nodes.old ≡ map.empty) × (N.most_held nodes.old ≡ 0) }
    ensures runs { PlanRunsOver tracing ahead plan.now result S.seen O.seen E.seen
        source.old source.new out.old out.new err.old err.new (N.rows nodes.new) (N.most_held nodes.new) }
    ensures emptied { result.ended ≡ Ended.Ok → N.rows nodes.new ≡ map.empty }
    ensures memory { HasNoMemory (ended_status result.ended) }
    ensures cause { result.ended ≡ Ended.ReadFault → Rose (S.faults source.old) (S.faults source.new) }
    ensures kept { S.keeps source.old source.new }
    ensures counts { (S.faults source.old ≤ S.faults source.new)
        × ((O.seen out.old).faults ≤ (O.seen out.new).faults) × ((E.seen err.old).faults ≤ (E.seen err.new).faults) }
{
    let Ok(conds) = Indexed::new(alloc, plan) else {
        return nothing_run();
    };
    let limits = Limits::full();
    let Ok(mut engine) = Engine::new(alloc, plan, nodes, conds, limits, ahead, tracing) else {
        return nothing_run();
    };
    let report = run_query(&mut engine, alloc, source, out, err);
    let _ = engine.finish_nodes();
    report
}

/// Attaches DOC and runs the plan over it.
fn run_document<F: Shelf, O: Sink, E: Sink, N: NodeStore<Row> + Drop>(
    alloc: Global,
    plan: &Plan,
    tracing: bool,
    ahead: u32,
    files: &mut F,
    name: &Text,
    out: &mut O,
    err: &mut E,
    nodes: &mut N,
) -> Status
    requires placed { IsPlaced (plan_tree plan.now) }
    requires ahead { (1 ≤ ahead) × (ahead ≤ 1000) × (tracing ≡ true → ahead ≡ 1) }
    requires new { (N.rows nodes.old ≡ map.empty) × (N.most_held nodes.old ≡ 0) }
    ensures runs { IsSeen (PlanRuns tracing ahead plan.now name.now result) F.seen O.seen E.seen N.rows N.most_held
        files.old out.old err.old nodes.old files.new out.new err.new nodes.new }
    ensures emptied { result ≡ Status.Ok → N.rows nodes.new ≡ map.empty }
    ensures keeps { KeepsShelf (F.seen files.old) (F.seen files.new) }
    ensures cause { result ≡ Status.ReadFault → CausesFault name.now (F.seen files.old) (F.seen files.new) }
    ensures memory { HasNoMemory result }
    ensures counts { ((O.seen out.old).faults ≤ (O.seen out.new).faults)
        × ((E.seen err.old).faults ≤ (E.seen err.new).faults) }
{
    let handle = match files.attach(name) {
        Ok(handle) => handle,
        Err(fault) => return Status::from(fault),
    };
    let mut source = Opened::new(files, handle);
    let report = run_plan(alloc, plan, tracing, ahead, &mut source, out, err, nodes);
    status_of(report.ended)
}

/// Runs `run [--trace] [--ahead K] QUERY DOC`.
pub(crate) fn write_run<F: Shelf, O: Sink, E: Sink, N: NodeStore<Row> + Drop>(
    alloc: Global,
    tracing: bool,
    ahead: u32,
    query: &Text,
    document: &Text,
    files: &mut F,
    out: &mut O,
    err: &mut E,
    nodes: &mut N,
) -> Status
    requires ahead { (1 ≤ ahead) × (ahead ≤ 1000) × (tracing ≡ true → ahead ≡ 1) }
    requires new { (N.rows nodes.old ≡ map.empty) × (N.most_held nodes.old ≡ 0) }
    ensures does { IsSeen (DoesCommand (Run tracing ahead query.now document.now) result) F.seen O.seen E.seen
        N.rows N.most_held files.old out.old err.old nodes.old files.new out.new err.new nodes.new }
{
    let accepted = match read_query(alloc, files, query) {
        Ok(accepted) => accepted,
        Err(refused) => return refused,
    };
    let plan = &accepted.plan;
    run_document(
        alloc, plan, tracing, ahead, files, document, out, err, nodes,
    )
}
