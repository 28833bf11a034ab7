//! A whole run of several plans, from one file of a shelf into others.
ghost use Rattle.std.specs.Prelude.{◌≡◌, ◌<◌, ◌≤◌, [], length, None, Some, OnOk, OnErr};
ghost use Rattle.std.specs.FinMap as map_of;
ghost use Rattle.gcx_base.specs.declared.limits.Limits.{Limits};
ghost use Rattle.gcx_io.specs.Causes.{Rose};
ghost use Rattle.gcx_io.specs.Writing.{Owes, Takes};
ghost use Rattle.gcx_model.specs.Tree.{opening};
ghost use Rattle.gcx_model.specs.declared.fault.DocFault.{DocFault};
ghost use Rattle.gcx_model.specs.declared.fault.DocFault.TheVariants.{Memory as no_memory};
ghost use Rattle.many_run.specs.Each.{OfEach};
ghost use Rattle.many_run.specs.Files.{HandlesApart, LeavesTheRest, sink_at};
ghost use Rattle.run_part.specs.Part.{IsOfCore};
ghost use Rattle.many_run.specs.Many.{ManyStart, plans_of};
ghost use Rattle.many_run.specs.Runs.{EndsEach, ManyGoOnFrom, ManyTurnsFrom, MayWrite, OnlyWritten, RanMany, StopsInEach, WritesOnly, WroteEach};

use crate::many::Many;
use buf_tree::Row;
use cond_eval::Conds;
use engine::{Ended, PIECE, ended_by};
use gcx_base::Limits;
use gcx_io::{Failed, Handle, Shelf};
use gcx_model::{DocFault, Plan};
use node_store::NodeStore;
use std::alloc::Global;

/// How a run of several plans ended, and how many bytes the document gave.
#[derive(Clone, Copy, Debug, PartialEq, Eq)]
pub struct ManyReport {
    pub ended: Ended,
    pub taken_bytes: u64,
}

/// Writes all the bytes behind what the handle's name holds. No call comes behind one that failed.
fn write_out<F: Shelf>(files: &mut F, handle: Handle, bytes: &[u8]) -> Result<(), Failed>
    requires { handle.0 < length (F.seen files.old).given }
    ensures took { OnOk result
        (Takes (sink_at handle.0 (F.seen files.old)) (sink_at handle.0 (F.seen files.new)) bytes.now) }
    ensures owes { OnErr result
        (Owes (sink_at handle.0 (F.seen files.old)) (sink_at handle.0 (F.seen files.new)) [] bytes.now) }
    ensures only { WritesOnly handle.0 (F.seen files.old) (F.seen files.new) }
    ensures calm { OnOk result ((F.seen files.new).write_faults ≡ (F.seen files.old).write_faults) }
    ensures cause { OnErr result (Rose (F.seen files.old).write_faults (F.seen files.new).write_faults) }
{
    let mut at = 0;
    'pieces: while at < bytes.len() {
        at += files.write(handle, &bytes[at..])?;
    }
    Ok(())
}

/// Writes what waits, each output to its file, in order.
fn write_waiting<N: NodeStore<Row>, C: Conds, F: Shelf>(
    many: &mut Many<'_, N, C>,
    files: &mut F,
    outs: &[Handle],
) -> Result<(), Failed>
    requires { (doc : Handle) × MayWrite many.old (F.seen files.old) doc outs.now }
    ensures wrote { OnOk result (WroteEach many.old outs.now (F.seen files.old) (F.seen files.new)) }
    ensures stops { OnErr result (StopsInEach many.old outs.now (F.seen files.old) (F.seen files.new)) }
    ensures empty { OnOk result (OfEach (λ p. p.out ≡ []) many.new.parts) }
    ensures only { OnlyWritten many.old many.new }
    ensures others { LeavesTheRest (λ k. ⊥) outs.now (F.seen files.old) (F.seen files.new) }
    ensures reads { (F.seen files.new).faults ≡ (F.seen files.old).faults }
{
    let mut query = 0;
    'outputs: while query < outs.len() {
        write_out(files, outs[query], many.output(query))?;
        many.clear_output(query);
        query += 1;
    }
    Ok(())
}

/// Ends so, unless memory ran out, once what waits is written; or with a write fault.
fn end_with<N: NodeStore<Row>, C: Conds, F: Shelf>(
    many: &mut Many<'_, N, C>,
    files: &mut F,
    outs: &[Handle],
    answer: Result<(), DocFault>,
) -> Ended
    requires { (doc : Handle) × MayWrite many.old (F.seen files.old) doc outs.now }
    ensures ends { EndsEach answer result many.old outs.now (F.seen files.old) (F.seen files.new) }
    ensures only { OnlyWritten many.old many.new }
    ensures others { LeavesTheRest (λ k. ⊥) outs.now (F.seen files.old) (F.seen files.new) }
    ensures reads { (F.seen files.new).faults ≡ (F.seen files.old).faults }
{
    let ended = ended_by(answer);
    if matches!(ended, Ended::Memory) {
        return ended;
    }
    match write_waiting(many, files, outs) {
        Ok(()) => ended,
        Err(Failed) => Ended::WriteFault,
    }
}

/// Writes what waits, reads once and feeds what was read. Answers how the run ends, if it does.
fn turn<N: NodeStore<Row>, C: Conds, F: Shelf>(
    many: &mut Many<'_, N, C>,
    alloc: Global,
    files: &mut F,
    doc: Handle,
    outs: &[Handle],
    buf: &mut [u8],
) -> Option<Ended>
    requires may { MayWrite many.old (F.seen files.old) doc outs.now }
    requires stands { (lim : Limits) × ManyGoOnFrom C.stands lim many.old }
    requires size { length buf.old ≡ 65536 }
    ensures size { length buf.new ≡ 65536 }
    ensures goes { ManyTurnsFrom C.stands many.old many.new result doc outs.now (F.seen files.old) (F.seen files.new) }
    ensures may { MayWrite many.new (F.seen files.new) doc outs.now }
    ensures stands { result ≡ None → (lim : Limits) →
        ManyGoOnFrom C.stands lim many.old → ManyGoOnFrom C.stands lim many.new }
    ensures plans { plans_of many.new ≡ plans_of many.old }
    ensures fewer { result ≡ None → many.old.bytes < many.new.bytes }
    ensures memory { (f : DocFault) → result ≡ Some (Ended.Refused f) → f ≡ no_memory → ⊥ }
{
    if write_waiting(many, files, outs).is_err() {
        return Some(Ended::WriteFault);
    }
    let Ok(n) = files.read(doc, buf) else {
        return Some(Ended::ReadFault);
    };
    if n == 0 {
        let answer = many.finish(alloc);
        return Some(end_with(many, files, outs, answer));
    }
    match many.feed(alloc, &buf[..n]) {
        Ok(()) => None,
        Err(fault) => Some(end_with(many, files, outs, Err(fault))),
    }
}

/// Reads and runs to the end.
fn run<N: NodeStore<Row>, C: Conds, F: Shelf>(
    many: &mut Many<'_, N, C>,
    alloc: Global,
    files: &mut F,
    doc: Handle,
    outs: &[Handle],
) -> Ended
    requires may { MayWrite many.old (F.seen files.old) doc outs.now }
    requires starts { (lim : Limits) × ManyStart C.stands (plans_of many.old) lim many.old }
    ensures ran { (lim : Limits) → ManyStart C.stands (plans_of many.old) lim many.old →
        RanMany (plans_of many.old) lim result many.new.bytes doc outs.now (F.seen files.old) (F.seen files.new) }
    ensures memory { (f : DocFault) → result ≡ Ended.Refused f → f ≡ no_memory → ⊥ }
{
    let mut buf = [0u8; PIECE];
    'reading: loop {
        if let Some(ended) = turn(many, alloc, files, doc, outs, &mut buf) {
            return ended;
        }
    }
}

/// Runs the plans over all that the file of `doc` gives, in reads of 65,536 bytes. There are as many stores, which are
/// empty, conditions and files as plans. Before each read all output that waits is written, that of each plan into its
/// file, in order. No call comes behind one that failed, and no read behind the end or a fault of the bytes.
pub fn run_many<N: NodeStore<Row> + Drop, C: Conds + Drop, F: Shelf>(
    alloc: Global,
    plans: &[Plan],
    nodes: Vec<N>,
    conds: Vec<C>,
    files: &mut F,
    doc: Handle,
    outs: &[Handle],
    limits: Limits,
) -> ManyReport
    requires placed { OfEach IsOfCore plans.now }
    requires counts { (length nodes.items ≡ length plans.now) × (length conds.items ≡ length plans.now)
        × (length outs.now ≡ length plans.now) }
    requires empty { OfEach (λ n. N.rows n ≡ map_of.empty) nodes.items }
    requires conds { OfEach (λ c. C.stands c opening) conds.items }
    requires apart { HandlesApart (F.seen files.old) doc outs.now }
    requires depth { limits.depth ≤ 1000 }
    requires bytes { limits.bytes ≤ 1099511627776 }
    ensures ran { RanMany plans.now limits result.ended result.taken_bytes doc outs.now
        (F.seen files.old) (F.seen files.new) }
    ensures memory { (f : DocFault) → result.ended ≡ Ended.Refused f → f ≡ no_memory → ⊥ }
{
    let Ok(mut many) = Many::new(alloc, plans, nodes, conds, limits) else {
        return ManyReport {
            ended: Ended::Memory,
            taken_bytes: 0,
        };
    };
    let ended = run(&mut many, alloc, files, doc, outs);
    ManyReport {
        ended,
        taken_bytes: many.bytes(),
    }
}
