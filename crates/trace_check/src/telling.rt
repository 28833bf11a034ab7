//! The text of a run's trace, told by times.
ghost use Rattle.std.specs.Prelude.{◌≡◌, ◌≤◌, ◌<◌, ◌+◌, ◌^◌, ◌∷◌, [], List, suc, get_or, IfOk, OnOk};
ghost use Rattle.gcx_model.specs.Core.{PlanTree};
ghost use Rattle.gcx_model.specs.Demand.{Left, line_kind};
ghost use Rattle.gcx_model.specs.Tree.{TreeToken as Said, kind_of};
ghost use Rattle.buf_trace.specs.Lines.{kind_tree};
ghost use Rattle.doc_tree.specs.Rows.{node_at};
ghost use Rattle.trace_check.specs.Acting.{act_shown};
ghost use Rattle.trace_check.specs.Telling.{IsCounted, IsCourse, IsTelling, IsToldTo, Puts, PutsAct, PutsActs, PutsFreed, PutsRun, PutsTokens, fed_counted, fed_node, fed_told, line_in, over_line};
ghost use Rattle.trace_check.specs.Timing.{clock_in};

use crate::acts::Act;
use crate::course::Course;
use crate::timed::Fed;
use buf_trace::{Line, LineKind, put_line};
use doc_tree::Content;
use gcx_base::{Memory, Serial};
use gcx_model::Given;
use std::alloc::Global;
use time_laws::times_rise;

/// How far a run is told.
#[derive(Clone, Copy, Debug)]
pub(crate) struct Told {
    /// How many actions are told,
    pub acts: usize,
    /// how many of them carry out a statement,
    pub signed: usize,
    /// and the node that was opened last.
    pub opened: usize,
}

/// What is told of a node's kind.
fn kind_of(alloc: Global, course: &Course<'_>, node: usize) -> Result<LineKind, Memory>
    ensures { IfOk result (λ kind. kind_tree kind ≡ line_kind (kind_of (node_at course.now.timed.tree.nodes node))) }
{
    match course.timed.tree.content(node) {
        None => Ok(LineKind::Document),
        Some(Content::Element(name)) => Ok(LineKind::Element(name.copy(alloc)?)),
        Some(Content::Text(_)) => Ok(LineKind::Text),
    }
}

/// The roles given to a node.
fn roles_of(alloc: Global, course: &Course<'_>, node: usize) -> Result<Given, Memory>
    ensures { IfOk result (λ given. given ≡ get_or course.now.given.items node []) }
{
    match course.given.get(node) {
        Some(given) => given.copy(alloc),
        None => Ok(Given::new(alloc)),
    }
}

/// Appends the line of a node that is opened.
fn put_opened(
    text: &mut Vec<u8>,
    alloc: Global,
    course: &Course<'_>,
    node: usize,
) -> Result<(), Memory>
    ensures { OnOk result ((plan : PlanTree) (ts : List Said) → IsCourse plan ts course.now
        → Puts text.old.items text.new.items (line_in plan course.now node ∷ [])) }
{
    let line = Line::Opened {
        serial: Serial(node as u64),
        kind: kind_of(alloc, course, node)?,
        given: roles_of(alloc, course, node)?,
    };
    put_line(text, &line)
}

/// Appends the line of a node that leaves.
fn put_gone(text: &mut Vec<u8>, node: usize) -> Result<(), Memory>
    ensures { OnOk result (Puts text.old.items text.new.items (Left node ∷ [])) }
{
    put_line(text, &Line::Gone(Serial(node as u64)))
}

/// Appends the lines of the nodes that the statement of this number frees, of those that are closed by the time.
fn put_freed(
    text: &mut Vec<u8>,
    course: &Course<'_>,
    now: usize,
    number: usize,
) -> Result<(), Memory>
    ensures { OnOk result (PutsFreed course.now now number text.old.items text.new.items) }
{
    if let Some(nodes) = course.leaving.freed.get(number) {
        for node in nodes {
            if course.timed.closed_at(*node) <= now {
                put_gone(text, *node)?;
            }
        }
    }
    Ok(())
}

/// Appends the lines of an action, and counts it.
fn put_act(
    text: &mut Vec<u8>,
    course: &Course<'_>,
    told: &mut Told,
    now: usize,
    act: Act<'_>,
) -> Result<(), Memory>
    requires few { told.old.signed ≤ told.old.acts }
    requires room { told.old.acts + 1 < 2 ^ 64 }
    ensures puts { OnOk result (PutsAct course.now now told.old told.new (act_shown act.entry)
        text.old.items text.new.items) }
    ensures counted { OnOk result (IsCounted told.old told.new (act_shown act.entry)) }
{
    told.acts += 1;
    match act {
        Act::Wrote(bytes) => put_line(text, &Line::Wrote(bytes as u64)),
        Act::SignedOff(node, off) => {
            let line = Line::SignedOff {
                serial: Serial(node as u64),
                role: off.role,
            };
            put_line(text, &line)?;
            told.signed += 1;
            put_freed(text, course, now, told.signed)
        }
    }
}

/// Appends the lines of the actions that are possible at the time and aren't told.
fn put_acts(
    text: &mut Vec<u8>,
    course: &Course<'_>,
    told: &mut Told,
    now: usize,
) -> Result<(), Memory>
    requires few { told.old.signed ≤ told.old.acts }
    ensures puts { OnOk result (PutsActs course.now now told.old text.old.items text.new.items) }
    ensures told { OnOk result ((plan : PlanTree) (ts : List Said) → IsCourse plan ts course.now
        → IsTelling plan course.now now told.old → IsToldTo plan course.now now told.new) }
    ensures few { OnOk result (told.new.signed ≤ told.new.acts) }
    ensures opened { OnOk result (told.new.opened ≡ told.old.opened) }
{
    times_rise();
    'acts: while told.acts < course.acts.len() && course.acts[told.acts].at <= now {
        let act = course.acts[told.acts].act;
        put_act(text, course, told, now, act)?;
    }
    Ok(())
}

/// Appends the line of a token. Answers the node that it opened or closed.
fn put_fed(
    text: &mut Vec<u8>,
    alloc: Global,
    course: &Course<'_>,
    told: &mut Told,
    fed: Fed,
) -> Result<usize, Memory>
    requires { told.old.opened + 1 < 2 ^ 64 }
    ensures puts { OnOk result ((plan : PlanTree) (ts : List Said) → IsCourse plan ts course.now
        → Puts text.old.items text.new.items (fed_told plan course.now (suc told.old.opened) fed)) }
    ensures node { IfOk result (λ node. node ≡ fed_node (suc told.old.opened) fed) }
    ensures told { OnOk result (told.new ≡ fed_counted told.old fed) }
{
    match fed {
        Fed::Opened => {
            told.opened += 1;
            put_opened(text, alloc, course, told.opened)?;
            Ok(told.opened)
        }
        Fed::Closed(node) => {
            put_line(text, &Line::Closed(Serial(node as u64)))?;
            Ok(node)
        }
    }
}

/// Appends the line of the node, where it is closed at the time and no further statement is wanted for it.
fn put_over(
    text: &mut Vec<u8>,
    course: &Course<'_>,
    told: Told,
    now: usize,
    node: usize,
) -> Result<(), Memory>
    ensures { OnOk result (Puts text.old.items text.new.items
        (over_line (clock_in course.now.timed) course.now.leaving.until.items now told.signed node)) }
{
    let until = course.leaving.until.get(node).copied().unwrap_or(0);
    if course.timed.closed_at(node) == now && until <= told.signed {
        put_gone(text, node)?;
    }
    Ok(())
}

/// Appends the lines of the tokens that are told, each with the actions behind it.
fn put_tokens(
    text: &mut Vec<u8>,
    alloc: Global,
    course: &Course<'_>,
    told: &mut Told,
) -> Result<(), Memory>
    requires first { told.old.opened ≡ 0 }
    requires few { told.old.signed ≤ told.old.acts }
    ensures { OnOk result (PutsTokens course.now told.old text.old.items text.new.items) }
{
    times_rise();
    for index in 0..course.timed.told.min(course.timed.fed.len()) {
        let now = index + 1;
        let fed = course.timed.fed[index];
        let node = put_fed(text, alloc, course, told, fed)?;
        put_over(text, course, *told, now, node)?;
        put_acts(text, course, told, now)?;
    }
    Ok(())
}

/// The text of the run's trace.
pub(crate) fn text_of(alloc: Global, course: &Course<'_>) -> Result<Vec<u8>, Memory>
    ensures { IfOk result (λ text. PutsRun course.now [] text.items) }
{
    let mut text = Vec::new(alloc);
    let mut told = Told {
        acts: 0,
        signed: 0,
        opened: 0,
    };
    put_opened(&mut text, alloc, course, 0)?;
    put_acts(&mut text, course, &mut told, 0)?;
    put_tokens(&mut text, alloc, course, &mut told)?;
    Ok(text)
}
