//! `peak`: the numbers of a run of QUERY over DOC.
ghost use Rattle.std.specs.Prelude.{◌≡◌, ◌≤◌, IfErr, IfOk, IsErrOf};
ghost use Rattle.std.specs.FinMap as map;
ghost use Rattle.gcx_model.specs.PlanView.{plan_tree};
ghost use Rattle.gcx_words.specs.declared.command.Command.TheVariants.{Peak};
ghost use Rattle.gcx_cmd.specs.Does.{DoesCommand};
ghost use Rattle.gcx_cmd.specs.Main.{HasNoMemory};
ghost use Rattle.gcx_cmd.specs.World.{IsSeenBeside};
ghost use Rattle.gcx_cmd.specs.Reads.{CausesFault, KeepsShelf};
ghost use Rattle.gcx_cmd.specs.Running.{IsPlaced};
ghost use Rattle.gcx_cmd.specs.Runs.{PlanMeasures, status_in};
ghost use Rattle.gcx_cmd.specs.Texts.{peak_line};
ghost use Rattle.gcx_cmd.specs.Writes.{PrintsText};

use crate::Status;
use crate::lines::put_peak_line;
use crate::query::read_query;
use crate::running::{run_plan, status_of};
use crate::writing::write_text;
use buf_tree::Row;
use engine::{Ended, Report};
use gcx_base::{Memory, Text};
use gcx_io::{NullSink, Opened, Shelf, Sink};
use gcx_model::Plan;
use node_store::NodeStore;
use std::alloc::Global;

/// Runs the plan over DOC, and writes no answer. The report comes where the whole document was read.
fn measure_document<F: Shelf, N: NodeStore<Row> + Drop>(
    alloc: Global,
    plan: &Plan,
    files: &mut F,
    name: &Text,
    nodes: &mut N,
) -> Result<Report, Status>
    requires placed { IsPlaced (plan_tree plan.now) }
    requires new { (N.rows nodes.old ≡ map.empty) × (N.most_held nodes.old ≡ 0) }
    ensures measures { PlanMeasures plan.now name.now result (F.seen files.old) (F.seen files.new)
        (N.rows nodes.old) (N.most_held nodes.old) (N.rows nodes.new) (N.most_held nodes.new) }
    ensures emptied { status_in result ≡ Status.Ok → N.rows nodes.new ≡ map.empty }
    ensures keeps { KeepsShelf (F.seen files.old) (F.seen files.new) }
    ensures cause { IsErrOf result Status.ReadFault → CausesFault name.now (F.seen files.old) (F.seen files.new) }
    ensures memory { IfErr result HasNoMemory }
{
    let handle = files.attach(name)?;
    let mut source = Opened::new(files, handle);
    let mut out = NullSink::new();
    let mut err = NullSink::new();
    let report = run_plan(
        alloc,
        plan,
        false,
        1,
        &mut source,
        &mut out,
        &mut err,
        nodes,
    );
    match report.ended {
        Ended::Ok => Ok(report),
        ended => Err(status_of(ended)),
    }
}

/// Writes the line of the numbers.
fn print_report<O: Sink>(alloc: Global, out: &mut O, report: &Report) -> Status
    ensures prints { PrintsText result (O.seen out.old) (O.seen out.new)
        (peak_line report.now.peak report.now.nodes report.now.given report.now.taken) }
    ensures later { (O.seen out.old).faults ≤ (O.seen out.new).faults }
{
    let mut line = Vec::new(alloc);
    match put_peak_line(&mut line, report) {
        Ok(()) => write_text(out, &line),
        Err(Memory) => Status::Memory,
    }
}

/// Runs `peak QUERY DOC`: a run whose answer isn't kept, and a line of its numbers.
pub(crate) fn write_peak<F: Shelf, O: Sink, N: NodeStore<Row> + Drop>(
    alloc: Global,
    query: &Text,
    document: &Text,
    files: &mut F,
    out: &mut O,
    nodes: &mut N,
) -> Status
    requires new { (N.rows nodes.old ≡ map.empty) × (N.most_held nodes.old ≡ 0) }
    ensures does { IsSeenBeside (DoesCommand (Peak query.now document.now) result) F.seen O.seen N.rows N.most_held
        files.old out.old nodes.old files.new out.new nodes.new }
{
    let accepted = match read_query(alloc, files, query) {
        Ok(accepted) => accepted,
        Err(refused) => return refused,
    };
    match measure_document(alloc, &accepted.plan, files, document, nodes) {
        Ok(report) => print_report(alloc, out, &report),
        Err(stopped) => stopped,
    }
}
