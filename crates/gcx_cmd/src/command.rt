//! The commands.
ghost use Rattle.std.specs.Prelude.{◌≡◌, None};
ghost use Rattle.std.specs.FinMap as map;
ghost use Rattle.gcx_words.specs.Within.{IsWithin};
ghost use Rattle.gcx_words.specs.Words.{command_of, named};
ghost use Rattle.gcx_cmd.specs.Completes.{Completes};
ghost use Rattle.gcx_cmd.specs.Does.{Does, DoesCommand, DoesIf};
ghost use Rattle.gcx_cmd.specs.ManyAnswers.{AnswersMany, AnswersRun};
ghost use Rattle.gcx_cmd.specs.World.{IsSeen};

use crate::Status;
use crate::checking::write_check;
use crate::diagnosis::diagnose;
use crate::explain::write_plan;
use crate::made::write_made;
use crate::many::write_many;
use crate::peak::write_peak;
use crate::running::write_run;
use crate::selfrun::write_selfrun;
use crate::whole::write_whole;
use buf_tree::Row;
use gcx_base::{Memory, Text};
use gcx_io::{Shelf, Sink};
use gcx_words::{Command, command_of};
use node_store::NodeStore;
use std::alloc::Global;

/// Runs a command.
fn obey<F: Shelf, O: Sink, E: Sink, N: NodeStore<Row> + Drop>(
    alloc: Global,
    command: &Command,
    files: &mut F,
    out: &mut O,
    err: &mut E,
    nodes: &mut N,
) -> Status
    requires within { IsWithin command.now }
    requires new { (N.rows nodes.old ≡ map.empty) × (N.most_held nodes.old ≡ 0) }
    ensures does { IsSeen (DoesCommand command.now result) F.seen O.seen E.seen N.rows N.most_held
        files.old out.old err.old nodes.old files.new out.new err.new nodes.new }
{
    match command {
        Command::Run {
            trace,
            ahead,
            query,
            document,
        } => write_run(
            alloc, *trace, *ahead, query, document, files, out, err, nodes,
        ),
        Command::Whole { query, document } => write_whole(alloc, query, document, files, out),
        Command::Explain { query } => write_plan(alloc, query, files, out),
        Command::Peak { query, document } => {
            write_peak(alloc, query, document, files, out, nodes)
        }
        Command::Gen { seed, count } => write_made(alloc, *seed, *count, out),
        Command::Selfrun { seed, count } => write_selfrun(alloc, *seed, *count, out),
        Command::Many { document, pairs } => write_many(alloc, document, pairs.items(), files),
        Command::Check {
            query,
            document,
            trace,
        } => write_check(alloc, query, document, trace, files, out),
    }
}

/// Runs the command that the words are, and writes no line.
fn perform<F: Shelf, O: Sink, E: Sink, N: NodeStore<Row> + Drop>(
    alloc: Global,
    words: &[Text],
    files: &mut F,
    out: &mut O,
    err: &mut E,
    nodes: &mut N,
) -> Status
    requires new { (N.rows nodes.old ≡ map.empty) × (N.most_held nodes.old ≡ 0) }
    ensures does { IsSeen (DoesIf (command_of words.now) result) F.seen O.seen E.seen N.rows N.most_held
        files.old out.old err.old nodes.old files.new out.new err.new nodes.new }
    ensures unnamed { named words.now ≡ None → result ≡ Status.Usage }
{
    match command_of(alloc, words) {
        Ok(Some(command)) => obey(alloc, &command, files, out, err, nodes),
        Ok(None) => Status::Usage,
        Err(Memory) => Status::Memory,
    }
}

/// Runs one command line. `run` writes on `out` the answer of the query in the file QUERY over the document in the file
/// DOC while it reads: before each read all that is settled; with `--trace` the trace goes to `err`. `many` writes so the
/// answers of several queries into files of their own. The other commands write their text. The rows of nodes of `run`
/// and `peak` stand in the lent store, which is empty before and at Ok. Where the status isn't Ok, `err` takes a line
/// that says why.
pub fn gcx_main<F: Shelf, O: Sink, E: Sink, N: NodeStore<Row> + Drop>(
    alloc: Global,
    words: &[Text],
    files: &mut F,
    out: &mut O,
    err: &mut E,
    nodes: &mut N,
) -> Status
    requires new { (N.rows nodes.old ≡ map.empty) × (N.most_held nodes.old ≡ 0) }
    ensures does { IsSeen (Does words.now result) F.seen O.seen E.seen N.rows N.most_held
        files.old out.old err.old nodes.old files.new out.new err.new nodes.new }
    ensures unnamed { named words.now ≡ None → result ≡ Status.Usage }
    ensures complete { IsSeen (Completes words.now result) F.seen O.seen E.seen N.rows N.most_held
        files.old out.old err.old nodes.old files.new out.new err.new nodes.new }
    ensures answers { IsSeen (AnswersMany words.now result) F.seen O.seen E.seen N.rows N.most_held
        files.old out.old err.old nodes.old files.new out.new err.new nodes.new }
    ensures written { AnswersRun words.now result (F.names files.old) (O.seen out.old) (O.seen out.new) }
{
    let status = perform(alloc, words, files, out, err, nodes);
    diagnose(err, status);
    status
}
