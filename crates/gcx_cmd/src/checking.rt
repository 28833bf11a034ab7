//! `check`: whether TRACE is the trace of QUERY over DOC.
ghost use Rattle.std.specs.Prelude.{◌≡◌, ◌≤◌, true, map, IfErr, IsErrOf};
ghost use Rattle.gcx_model.specs.Growth.{may_all};
ghost use Rattle.gcx_model.specs.PlanView.{plan_tree};
ghost use Rattle.gcx_model.specs.Tree.{opening};
ghost use Rattle.gcx_words.specs.declared.command.Command.TheVariants.{Check};
ghost use Rattle.doc_reader.specs.Standing.{said_of};
ghost use Rattle.trace_check.specs.Judging.{trace_of};
ghost use Rattle.gcx_cmd.specs.CheckDoes.{TraceDoes};
ghost use Rattle.gcx_cmd.specs.Does.{DoesBeside};
ghost use Rattle.gcx_cmd.specs.Main.{HasNoMemory};
ghost use Rattle.gcx_cmd.specs.ReadEnd.{verdict};
ghost use Rattle.gcx_cmd.specs.Reads.{CausesFault, KeepsShelf};
ghost use Rattle.gcx_cmd.specs.Running.{IsPlaced};
ghost use Rattle.gcx_cmd.specs.Texts.{lines_line};
ghost use Rattle.gcx_cmd.specs.Writes.{PrintsText};

use crate::Status;
use crate::document::read_document_tokens;
use crate::lines::put_lines_line;
use crate::query::read_query;
use crate::writing::write_text;
use doc_reader::Token;
use gcx_base::{Memory, Text};
use gcx_io::{Opened, Shelf, Sink};
use gcx_model::Plan;
use std::alloc::Global;
use std::collections::VecDeque;
use trace_check::{Checked, check_run};

/// What the answer of a judge makes of the command: the number of lines, or the status to end with.
fn judged(checked: Checked) -> Result<u64, Status>
    ensures { result ≡ verdict checked }
{
    match checked {
        Checked::Yes(lines) => Ok(lines),
        Checked::No(line) => Err(Status::TraceRefused(line)),
        Checked::ReadFault => Err(Status::ReadFault),
        Checked::Memory => Err(Status::Memory),
    }
}

/// Attaches TRACE and judges it against the trace of the plan's run over the tokens: its number of lines, or the status
/// to end with.
fn judge<F: Shelf>(
    alloc: Global,
    plan: &Plan,
    tokens: VecDeque<Token>,
    files: &mut F,
    name: &Text,
) -> Result<u64, Status>
    requires placed { IsPlaced (plan_tree plan.now) }
    requires tokens { may_all (map said_of tokens.items) opening ≡ true }
    ensures judges { TraceDoes name.now (trace_of (plan_tree plan.now) (map said_of tokens.items)) result
        (F.seen files.old) (F.seen files.new) }
    ensures keeps { KeepsShelf (F.seen files.old) (F.seen files.new) }
    ensures cause { IsErrOf result Status.ReadFault → CausesFault name.now (F.seen files.old) (F.seen files.new) }
    ensures memory { IfErr result HasNoMemory }
{
    let handle = files.attach(name)?;
    let mut source = Opened::new(files, handle);
    judged(check_run(alloc, plan, tokens, &mut source))
}

/// Writes the line of the number of lines.
fn print_lines<O: Sink>(alloc: Global, out: &mut O, lines: u64) -> Status
    ensures prints { PrintsText result (O.seen out.old) (O.seen out.new) (lines_line lines) }
    ensures later { (O.seen out.old).faults ≤ (O.seen out.new).faults }
{
    let mut line = Vec::new(alloc);
    match put_lines_line(&mut line, lines) {
        Ok(()) => write_text(out, &line),
        Err(Memory) => Status::Memory,
    }
}

/// Runs `check QUERY DOC TRACE`: reads DOC to its end, and then TRACE. The whole document is kept.
pub(crate) fn write_check<F: Shelf, O: Sink>(
    alloc: Global,
    query: &Text,
    document: &Text,
    trace: &Text,
    files: &mut F,
    out: &mut O,
) -> Status
    ensures does { DoesBeside (Check query.now document.now trace.now) result
        (F.seen files.old) (F.seen files.new) (O.seen out.old) (O.seen out.new) }
{
    let accepted = match read_query(alloc, files, query) {
        Ok(accepted) => accepted,
        Err(refused) => return refused,
    };
    let tokens = match read_document_tokens(alloc, files, document) {
        Ok(tokens) => tokens,
        Err(stopped) => return stopped,
    };
    match judge(alloc, &accepted.plan, tokens, files, trace) {
        Ok(lines) => print_lines(alloc, out, lines),
        Err(stopped) => stopped,
    }
}
