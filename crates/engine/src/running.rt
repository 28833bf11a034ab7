//! A whole run, from a source to a sink.
ghost use Rattle.std.specs.Prelude.{◌≡◌, ◌≤◌, ◌<◌, ℕ, List, Option, [], Bool, None, Some, Ok, Err, length, OnOk, OnErr};
ghost use Rattle.gcx_base.specs.declared.limits.Limits.{Limits};
ghost use Rattle.gcx_model.specs.PlanView.{plan_tree};
ghost use Rattle.engine.specs.Engine.{Balanced, IsSilent, MostIs, Starts, StandsOf};
ghost use Rattle.engine.specs.Runs.{EndsWaiting, GoesOnFrom, KeepsPorts, Numbers, RanFrom, Reports, SamePlan, StopsInWaiting, TurnsFrom, UnlessLost, UnlessMemory, WroteWaiting, ended_by, sinks};

use crate::engine::Engine;
use crate::report::{Ended, Report, few_roles};
use buf_tree::Row;
use cond_eval::Conds;
use gcx_io::{Failed, Sink, Source, write_all};
use gcx_model::DocFault;
use node_store::NodeStore;
use std::alloc::Global;

/// The most bytes of one read.
pub const PIECE: usize = 65_536;

/// Writes what waits: the output, and then the trace.
fn write_waiting<N: NodeStore<Row>, C: Conds, O: Sink, E: Sink>(
    engine: &mut Engine<'_, N, C>,
    out: &mut O,
    err: &mut E,
) -> Result<(), Failed>
    ensures wrote { OnOk result (WroteWaiting engine.old.out engine.old.trace
        (sinks (O.seen out.old) (E.seen err.old)) (sinks (O.seen out.new) (E.seen err.new))) }
    ensures stops { OnErr result (StopsInWaiting engine.old.out engine.old.trace
        (sinks (O.seen out.old) (E.seen err.old)) (sinks (O.seen out.new) (E.seen err.new))) }
    ensures empty { OnOk result ((engine.new.out ≡ []) × (engine.new.trace ≡ [])) }
    ensures rest { engine.new ≡ record engine.old { out = engine.new.out; trace = engine.new.trace } }
    ensures write_count { O.faults out.old ≤ O.faults out.new }
    ensures trace_count { E.faults err.old ≤ E.faults err.new }
    ensures silent { IsSilent engine.old → IsSilent engine.new × (err.new ≡ err.old) }
{
    write_all(out, engine.output())?;
    engine.clear_output();
    if !engine.trace().is_empty() {
        write_all(err, engine.trace())?;
        engine.clear_trace();
    }
    Ok(())
}

/// Ends so, unless memory ran out, once what waits is written; or with a write fault.
fn end_with<N: NodeStore<Row>, C: Conds, O: Sink, E: Sink>(
    engine: &mut Engine<'_, N, C>,
    out: &mut O,
    err: &mut E,
    answer: Result<(), DocFault>,
) -> Ended
    ensures ends { EndsWaiting answer result engine.old.out engine.old.trace
        (sinks (O.seen out.old) (E.seen err.old)) (sinks (O.seen out.new) (E.seen err.new)) }
    ensures rest { engine.new ≡ record engine.old { out = engine.new.out; trace = engine.new.trace } }
    ensures write_count { O.faults out.old ≤ O.faults out.new }
    ensures trace_count { E.faults err.old ≤ E.faults err.new }
    ensures silent { IsSilent engine.old → IsSilent engine.new × (err.new ≡ err.old) }
{
    let ended = ended_by(answer);
    if matches!(ended, Ended::Memory) {
        return ended;
    }
    match write_waiting(engine, out, err) {
        Ok(()) => ended,
        Err(Failed) => Ended::WriteFault,
    }
}

/// How an answer of the engine ends a run.
pub fn ended_by(answer: Result<(), DocFault>) -> Ended
    ensures { result ≡ ended_by answer }
{
    match answer {
        Ok(()) => Ended::Ok,
        Err(DocFault::Memory) => Ended::Memory,
        Err(fault) => Ended::Refused(fault),
    }
}

/// Writes what waits, reads once and feeds what was read. Answers how the run ends, if it does.
fn turn<N: NodeStore<Row>, C: Conds, D: Source, O: Sink, E: Sink>(
    engine: &mut Engine<'_, N, C>,
    alloc: Global,
    doc: &mut D,
    out: &mut O,
    err: &mut E,
    buf: &mut [u8],
) -> Option<Ended>
    requires stands { (lim : Limits) × GoesOnFrom C.stands lim engine.old }
    requires size { length buf.old ≡ 65536 }
    ensures size { length buf.new ≡ 65536 }
    ensures goes { TurnsFrom C.stands engine.old engine.new result (D.seen doc.old) (D.seen doc.new)
        (sinks (O.seen out.old) (E.seen err.old)) (sinks (O.seen out.new) (E.seen err.new)) }
    ensures stands { result ≡ None → (lim : Limits) → GoesOnFrom C.stands lim engine.old →
        GoesOnFrom C.stands lim engine.new }
    ensures balanced { result ≡ Some Ended.Ok → engine.new.actors.counts.given ≡ engine.new.actors.buffer.taken }
    ensures most { (lent : ℕ) → MostIs lent engine.old → UnlessLost result (MostIs lent engine.new) }
    ensures fewer { result ≡ None → engine.old.bytes < engine.new.bytes }
    ensures same { SamePlan engine.old engine.new }
    ensures balance { Balanced engine.new }
    ensures ports { KeepsPorts (D.keeps doc.old doc.new) (D.faults doc.old) (D.faults doc.new)
        (O.faults out.old) (O.faults out.new) (E.faults err.old) (E.faults err.new) }
{
    if write_waiting(engine, out, err).is_err() {
        return Some(Ended::WriteFault);
    }
    let Ok(n) = doc.read(buf) else {
        return Some(Ended::ReadFault);
    };
    if n == 0 {
        let answer = engine.finish(alloc);
        return Some(end_with(engine, out, err, answer));
    }
    match engine.feed(alloc, &buf[..n]) {
        Ok(()) => None,
        Err(fault) => Some(end_with(engine, out, err, Err(fault))),
    }
}

/// Reads and runs to the end.
fn run<N: NodeStore<Row>, C: Conds, D: Source, O: Sink, E: Sink>(
    engine: &mut Engine<'_, N, C>,
    alloc: Global,
    doc: &mut D,
    out: &mut O,
    err: &mut E,
) -> Ended
    requires starts { (lim : Limits) × Starts C.stands lim engine.old }
    ensures ran { RanFrom C.stands engine.old engine.new result (D.seen doc.old) (D.seen doc.new)
        (sinks (O.seen out.old) (E.seen err.old)) (sinks (O.seen out.new) (E.seen err.new)) }
    ensures balanced { result ≡ Ended.Ok → engine.new.actors.counts.given ≡ engine.new.actors.buffer.taken }
    ensures most { (lent : ℕ) → MostIs lent engine.old → UnlessMemory result (MostIs lent engine.new) }
    ensures same { SamePlan engine.old engine.new }
    ensures balance { Balanced engine.new }
    ensures ports { KeepsPorts (D.keeps doc.old doc.new) (D.faults doc.old) (D.faults doc.new)
        (O.faults out.old) (O.faults out.new) (E.faults err.old) (E.faults err.new) }
{
    let mut buf = [0u8; PIECE];
    'reading: loop {
        if let Some(ended) = turn(engine, alloc, doc, out, err, &mut buf) {
            return ended;
        }
    }
}

/// Runs an engine, as `new` made it, over all that the source gives, in reads of 65,536 bytes. Before each read all
/// output that waits is written to `out`, and then the trace to `err`. No call comes behind one that failed, and no read
/// behind the end or a fault of the bytes.
pub fn run_query<N: NodeStore<Row>, C: Conds, D: Source, O: Sink, E: Sink>(
    engine: &mut Engine<'_, N, C>,
    alloc: Global,
    doc: &mut D,
    out: &mut O,
    err: &mut E,
) -> Report
    requires starts { (lim : Limits) × Starts C.stands lim engine.old }
    ensures ran { RanFrom C.stands engine.old engine.new result.ended (D.seen doc.old) (D.seen doc.new)
        (sinks (O.seen out.old) (E.seen err.old)) (sinks (O.seen out.new) (E.seen err.new)) }
    ensures balanced { result.ended ≡ Ended.Ok → result.given ≡ result.taken }
    ensures most { (lent : ℕ) → MostIs lent engine.old → UnlessMemory result.ended (MostIs lent engine.new) }
    ensures report { Reports result engine.new }
    ensures numbers { (lim : Limits) (b : List ℕ) (ended : Bool) → StandsOf C.stands lim engine.new b ended →
        Numbers (plan_tree engine.new.plan) lim b ended engine.new.ahead result }
    ensures same { SamePlan engine.old engine.new }
    ensures balance { result.taken ≤ result.given }
    ensures ports { KeepsPorts (D.keeps doc.old doc.new) (D.faults doc.old) (D.faults doc.new)
        (O.faults out.old) (O.faults out.new) (E.faults err.old) (E.faults err.new) }
{
    let ended = run(engine, alloc, doc, out, err);
    few_roles(engine.plan());
    let counts = engine.counts();
    Report {
        ended,
        taken_bytes: counts.bytes,
        nodes: engine.nodes(),
        peak: counts.tallied.peak,
        given: counts.tallied.given,
        taken: counts.taken,
        held: engine.held(),
    }
}
