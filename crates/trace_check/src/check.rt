//! The comparison of a trace that a source gives with that of a run.
ghost use Rattle.std.specs.Prelude.{◌≡◌, ◌≤◌, [], ℕ, suc, true, length, map, take, IfOk};
ghost use Rattle.gcx_model.specs.Core.{BodyTree};
ghost use Rattle.gcx_model.specs.Cores.{Good};
ghost use Rattle.gcx_model.specs.Demand.{trace_lines};
ghost use Rattle.gcx_model.specs.Growth.{may_all};
ghost use Rattle.gcx_model.specs.Placed.{Placed};
ghost use Rattle.gcx_model.specs.PlanView.{plan_tree};
ghost use Rattle.gcx_model.specs.Tree.{opening};
ghost use Rattle.doc_reader.specs.Standing.{said_of};
ghost use Rattle.run_words.specs.Stops.{EndAnswered};
ghost use Rattle.time_laws.specs.Checking.{fitted, line_ends, Judges};
ghost use Rattle.trace_check.specs.Judging.{IsInCommon, JudgesSource, StopsBy, answer_in, trace_of};
ghost use Rattle.trace_check.specs.Telling.{Puts};

use crate::checked::Checked;
use crate::course::Course;
use crate::telling::text_of;
use doc_reader::Token;
use gcx_base::Memory;
use gcx_io::Source;
use gcx_model::Plan;
use std::alloc::Global;
use std::collections::VecDeque;
use time_laws::line_ends_law;

/// The most bytes of one read.
const PIECE: usize = 65_536;

/// The text of the trace of the plan's run over the tokens.
fn trace_of(alloc: Global, plan: &Plan, tokens: VecDeque<Token>) -> Result<Vec<u8>, Memory>
    requires placed { (core : BodyTree) × Good core × Placed core (plan_tree plan.now) }
    requires tokens { may_all (map said_of tokens.items) opening ≡ true }
    ensures { IfOk result (λ text. Puts [] text.items (trace_lines (plan_tree plan.now) (map said_of tokens.items))) }
{
    let course = Course::of(alloc, plan, tokens)?;
    let text = text_of(alloc, &course)?;
    Ok(text)
}

/// How many bytes the two begin with in common.
fn common(left: &[u8], right: &[u8]) -> usize
    ensures { IsInCommon left.now right.now result }
{
    let mut count = 0;
    while count < left.len() && count < right.len() && left[count] == right[count] {
        count += 1;
    }
    count
}

/// How many line ends there are.
fn line_ends(text: &[u8]) -> u64
    ensures { result ≡ fitted (line_ends text.now) }
{
    let mut count: u64 = 0;
    for byte in text {
        if *byte == b'\n' {
            count = count.saturating_add(1);
        }
    }
    count
}

/// The number of the line behind so much of a text.
fn next_line(text: &[u8]) -> u64
    ensures { result ≡ fitted (suc (line_ends text.now)) }
{
    line_ends(text).saturating_add(1)
}

/// What a trace is that ended behind so much of the text.
fn ended(text: &[u8], at: usize) -> Checked
    requires { at ≤ length text.now }
    ensures judged { Judges text.now (answer_in result) (take at text.now) true }
    ensures stops { StopsBy result [] EndAnswered }
{
    if at == text.len() {
        Checked::Yes(line_ends(text))
    } else {
        Checked::No(next_line(&text[..at]))
    }
}

/// Reads the trace and compares it with the text. No read comes behind the end, behind one that failed or behind a byte that differs.
fn compare<D: Source>(text: &[u8], trace: &mut D) -> Checked
    ensures judged { JudgesSource text.now result (D.seen trace.old) (D.seen trace.new) }
    ensures kept { D.keeps trace.old trace.new }
    ensures later { D.faults trace.old ≤ D.faults trace.new }
{
    let mut buf = [0u8; PIECE];
    let mut at = 0;
    'reading: while at <= text.len() {
        let Ok(count) = trace.read(&mut buf) else {
            return Checked::ReadFault;
        };
        if count == 0 {
            return ended(text, at);
        }
        let same = common(&text[at..], &buf[..count]);
        at += same;
        if same < count {
            return Checked::No(next_line(&text[..at]));
        }
    }
    Checked::Memory
}

/// Whether the trace that the source gives is that of the plan's run over the tokens.
pub fn check_run<D: Source>(
    alloc: Global,
    plan: &Plan,
    tokens: VecDeque<Token>,
    trace: &mut D,
) -> Checked
    requires placed { (core : BodyTree) × Good core × Placed core (plan_tree plan.now) }
    requires tokens { may_all (map said_of tokens.items) opening ≡ true }
    ensures judged { JudgesSource (trace_of (plan_tree plan.now) (map said_of tokens.items)) result
        (D.seen trace.old) (D.seen trace.new) }
    ensures lines { (l : ℕ) → result ≡ Checked.Yes l
        → l ≡ fitted (length (trace_lines (plan_tree plan.now) (map said_of tokens.items))) }
    ensures kept { D.keeps trace.old trace.new }
    ensures later { D.faults trace.old ≤ D.faults trace.new }
{
    line_ends_law();
    match trace_of(alloc, plan, tokens) {
        Ok(text) => compare(&text, trace),
        Err(_) => Checked::Memory,
    }
}
