//! `selfrun`: the numbers of a run over a document that is made from two numbers.
ghost use Rattle.std.specs.Prelude.{IfOk};
ghost use Rattle.gcx_words.specs.declared.command.Command.TheVariants.{Selfrun};
ghost use Rattle.gcx_cmd.specs.Does.{DoesOutput};
ghost use Rattle.gcx_cmd.specs.Runs.{SelfRuns};

use crate::Status;
use crate::lines::put_answer_line;
use crate::query::compiled;
use crate::running::run_plan;
use crate::writing::write_text;
use buf_tree::Row;
use engine::{Ended, Report};
use gcx_base::Memory;
use gcx_gen::document_bytes;
use gcx_io::{NullSink, Sink, SureSink, SureSource};
use raw_nodes::RawNodes;
use std::alloc::Global;

/// The query of `selfrun`.
const SELF_QUERY: &[u8] =
    b"<r>{for $i in /items/item return if ($i/price >= 50) then $i/note else ()}</r>";

/// What a run over a document in memory found: the number of the answer's bytes, and the report.
#[derive(Clone, Copy)]
struct SelfRun {
    answer: u64,
    report: Report,
}

/// Runs the query of `selfrun` over the document that is made from the numbers. The query is accepted and the document
/// has no fault: were it otherwise, the answer would be want of memory.
fn run_self(alloc: Global, seed: u32, count: u32) -> Result<SelfRun, Memory>
    ensures { IfOk result (λ run. SelfRuns seed count run.answer run.report) }
{
    let Ok(accepted) = compiled(alloc, SELF_QUERY) else {
        return Err(Memory);
    };
    let bytes = document_bytes(alloc, seed, count)?;
    let mut source = SureSource::new(bytes);
    let mut answer = SureSink::new(alloc, 0)?;
    let mut err = NullSink::new();
    let mut nodes: RawNodes<Row> = RawNodes::new(alloc);
    let report = run_plan(
        alloc,
        &accepted.plan,
        false,
        1,
        &mut source,
        &mut answer,
        &mut err,
        &mut nodes,
    );
    if !answer.is_whole() || !matches!(report.ended, Ended::Ok) {
        return Err(Memory);
    }
    Ok(SelfRun {
        answer: answer.bytes().len() as u64,
        report,
    })
}

/// Runs `selfrun SEED N`: makes a document, runs a query over it and writes a line of the run's numbers.
pub(crate) fn write_selfrun<O: Sink>(alloc: Global, seed: u32, count: u32, out: &mut O) -> Status
    ensures does { DoesOutput (Selfrun seed count) result (O.seen out.old) (O.seen out.new) }
{
    let Ok(run) = run_self(alloc, seed, count) else {
        return Status::Memory;
    };
    let mut line = Vec::new(alloc);
    match put_answer_line(&mut line, run.answer, &run.report) {
        Ok(()) => write_text(out, &line),
        Err(Memory) => Status::Memory,
    }
}
