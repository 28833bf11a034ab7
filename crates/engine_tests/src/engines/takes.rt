//! Outputs that are written while a part takes tokens, to sinks whose calls fail.
ghost use Rattle.std.specs.Prelude.{◌≤◌, Bool, false, [], OnOk, IfOk};
ghost use Rattle.outside.specs.Places.{MayWriteTo};
ghost use Rattle.run_part.specs.Part.{IsOfCore};
ghost use Rattle.run_part.specs.Taker.{part_places, part_stands};
ghost use Rattle.engine_tests.specs.Taking.{TookGiven};

use super::checks::TOLD;
use super::turns::{COPIES, TWO};
use super::{PIECES, plan_of};
use buf_tree::Row;
use cond_eval::Plain;
use doc_reader::LentReader;
use gcx_base::Limits;
use gcx_io::{Failed, MemSink, Sink, SureSource};
use gcx_model::Plan;
use node_store::SlabNodes;
use outside::{Outside, Ports, TakesTokens, TracedPorts};
use run_part::{Lines, NoLines, Pace, Part, TraceLines};
use std::alloc::Global;
use std::process::Abort;
use std::test::Fail;

/// So many bytes may wait.
const MOST: usize = 8;

/// No more than may wait do so.
fn few_wait<L: Lines>(rt: &impl Abort, part: &Part<'_, SlabNodes<Row>, Plain, L>) {
    assert!(rt; part.output().len() <= MOST);
    assert!(rt; part.trace().len() <= MOST);
}

/// Takes the tokens that are lent.
fn take_next<L: Pace, O: Outside>(
    rt: &impl Abort,
    alloc: Global,
    reader: &mut LentReader,
    part: &mut Part<'_, SlabNodes<Row>, Plain, L>,
    to: &mut O,
) -> Result<(), Fail>
    requires { (ended : Bool) × TookGiven O.may O.most ended reader.old part.old to.old }
    ensures { OnOk result ((ended : Bool) → TookGiven O.may O.most ended reader.old part.old to.old
        → TookGiven O.may O.most ended reader.new part.new to.new) }
{
    let (tokens, bytes) = reader.lent();
    let count = tokens.len();
    part.take(alloc, tokens, bytes, to)?;
    reader.take_lent(count);
    few_wait(rt, part);
    Ok(())
}

/// What waits is written out, and then the document is taken in pieces of so many bytes. Answers its reader.
fn take_pieces<L: Pace, O: Outside>(
    rt: &impl Abort,
    alloc: Global,
    part: &mut Part<'_, SlabNodes<Row>, Plain, L>,
    document: &[u8],
    size: usize,
    to: &mut O,
) -> Result<LentReader, Fail>
    requires size { 1 ≤ size }
    requires stands { part_stands (λ c P. Unit {0}) part.old [] }
    requires places { MayWriteTo part_places O.may part.old to.old }
    ensures { IfOk result (λ reader. TookGiven O.may O.most false reader part.new to.new) }
{
    part.write_out(to);
    let mut reader = LentReader::new(alloc, Limits::full());
    for piece in document.chunks(size) {
        reader.feed(piece)?;
        take_next(rt, alloc, &mut reader, part, to)?;
    }
    Ok(reader)
}

/// The document is taken to its end, and all is written out then.
fn take_document<L: Pace, O: Outside>(
    rt: &impl Abort,
    alloc: Global,
    part: &mut Part<'_, SlabNodes<Row>, Plain, L>,
    document: &[u8],
    size: usize,
    to: &mut O,
) -> Result<(), Fail>
    requires size { 1 ≤ size }
    requires stands { part_stands (λ c P. Unit {0}) part.old [] }
    requires places { MayWriteTo part_places O.may part.old to.old }
{
    let mut reader = take_pieces(rt, alloc, part, document, size, to)?;
    reader.finish()?;
    take_next(rt, alloc, &mut reader, part, to)?;
    part.write_out(to);
    Ok(())
}

/// The part took so many nodes, and let all go.
fn took_all<L: Lines>(rt: &impl Abort, part: &Part<'_, SlabNodes<Row>, Plain, L>, nodes: u64) {
    assert_eq!(rt; (part.nodes(), part.held()), (nodes, 0));
    assert_eq!(rt; part.taken(), part.counts().given);
    assert!(rt; part.output().is_empty() && part.trace().is_empty());
}

/// A sink that counts its calls.
#[derive(Drop)]
struct CountedSink<O> {
    sink: O,
    made: u64,
}

impl<O: Sink> Sink for CountedSink<O> {
    ghost taken = { λ s. O.taken s.sink };

    ghost faults = { λ s. O.faults s.sink };

    ghost calls = { λ s. O.calls s.sink };

    ghost seen = { λ s. O.seen s.sink };

    ghost sees = { λ s. O.sees s.sink };

    fn write(&mut self, piece: &[u8]) -> Result<usize, Failed> {
        self.made = self.made.saturating_add(1);
        self.sink.write(piece)
    }
}

/// A sink that takes so many bytes in a call and fails in the call of this number. The first is 1.
fn sink_of(alloc: Global, most: usize, failing: u64) -> Result<CountedSink<MemSink>, Fail>
    requires { 1 ≤ most }
{
    let fails = vec![in alloc; failing]?;
    let sink = MemSink::new(alloc, 256, most, fails)?;
    Ok(CountedSink { sink, made: 0 })
}

/// A source, and such a sink.
fn ports_of(
    alloc: Global,
    most: usize,
    failing: u64,
) -> Result<Ports<SureSource, CountedSink<MemSink>>, Fail>
    requires { 1 ≤ most }
{
    let sink = sink_of(alloc, most, failing)?;
    let source = SureSource::new(Vec::new(alloc));
    Ok(Ports::new(source, sink, MOST))
}

/// The copies of `TWO`.
const COPIED: &[u8] = b"<r><b>1</b><b>2</b></r>";

/// A query, a document, what is written, and how many nodes there are.
struct Written(&'static [u8], &'static [u8], &'static [u8], u64);

// Of the pairs the last two are written at one end tag, of the copies of the last row all.
const ROWS: [Written; 3] = [
    Written(
        b"for $x in /r/p return for $y in /r/q return <h>{$x/k, $y/k}</h>",
        b"<r><p><k>1</k></p><q><k>3</k></q><p><k>2</k></p><q><k>4</k></q></r>",
        b"<h><k>1</k><k>3</k></h><h><k>1</k><k>4</k></h><h><k>2</k><k>3</k></h><h><k>2</k><k>4</k></h>",
        14,
    ),
    Written(COPIES, TWO, COPIED, 7),
    Written(
        b"<o>{if (exists(/r/z)) then () else /r/p}</o>",
        b"<r><p><k>1</k><k>2</k></p><p/></r>",
        b"<o><p><k>1</k><k>2</k></p><p></p></o>",
        8,
    ),
];

/// How many bytes a piece of the document has, and how many a sink takes in a call.
#[derive(Clone, Copy)]
struct Sizes {
    piece: usize,
    call: usize,
}

/// The row's document is taken without lines.
fn take_silently(
    rt: &impl Abort,
    alloc: Global,
    plan: &Plan,
    row: &Written,
    size: usize,
    ports: &mut Ports<SureSource, CountedSink<MemSink>>,
) -> Result<(), Fail>
    requires placed { IsOfCore plan.now }
    requires size { 1 ≤ size }
{
    let nodes = SlabNodes::new(alloc);
    let lines = NoLines { place: 0 };
    let mut part = Part::new(alloc, plan, nodes, Plain, 1, lines)?;
    take_document(rt, alloc, &mut part, row.1, size, ports)?;
    took_all(rt, &part, row.3);
    Ok(())
}

/// The sink took the first bytes of the answer, all where the call of this number doesn't come, and no call behind that one.
/// Answers how many.
fn is_written(
    rt: &impl Abort,
    alloc: Global,
    plan: &Plan,
    row: &Written,
    sizes: Sizes,
    failing: u64,
) -> Result<usize, Fail>
    requires placed { IsOfCore plan.now }
{
    assert!(rt; sizes.piece > 0);
    assert!(rt; sizes.call > 0);
    let mut ports = ports_of(alloc, sizes.call, failing)?;
    take_silently(rt, alloc, plan, row, sizes.piece, &mut ports)?;
    let counted = &ports.out.sink;
    assert!(rt; counted.sink.is_whole());
    let bytes = counted.sink.bytes();
    assert!(rt; row.2.starts_with(bytes), "{failing}");
    let broken = ports.is_broken();
    assert_eq!(rt; broken, bytes.len() < row.2.len(), "{failing}");
    assert_eq!(rt; broken, counted.made == failing, "{failing}");
    Ok(bytes.len())
}

/// Whichever call fails, and where none does.
fn is_written_so_far(
    rt: &impl Abort,
    alloc: Global,
    row: &Written,
    sizes: Sizes,
) -> Result<(), Fail> {
    let plan = plan_of(alloc, row.0)?;
    for failing in 1..row.2.len() as u64 + 2 {
        is_written(rt, alloc, &plan, row, sizes, failing)?;
    }
    Ok(())
}

fn is_written_in_pieces(
    rt: &impl Abort,
    alloc: Global,
    row: &Written,
    call: usize,
) -> Result<(), Fail> {
    for piece in PIECES {
        is_written_so_far(rt, alloc, row, Sizes { piece, call })?;
    }
    Ok(())
}

#[test]
fn behind_a_failed_call_the_part_goes_on_and_writes_nothing(rt: HostRuntime) -> Result<(), Fail> {
    for row in &ROWS {
        is_written_in_pieces(&rt, rt.alloc(), row, 3)?;
        is_written_in_pieces(&rt, rt.alloc(), row, 65_536)?;
    }
    Ok(())
}

/// A sink that takes a byte in a call took one in each before the one that failed.
fn each_byte_is_written(rt: &impl Abort, alloc: Global, row: &Written) -> Result<(), Fail> {
    let plan = plan_of(alloc, row.0)?;
    let sizes = Sizes { piece: 7, call: 1 };
    for failing in 1..row.2.len() as u64 + 2 {
        let count = is_written(rt, alloc, &plan, row, sizes, failing)?;
        assert_eq!(rt; count as u64, failing - 1);
    }
    Ok(())
}

#[test]
fn a_sink_may_take_a_byte_in_a_call(rt: HostRuntime) -> Result<(), Fail> {
    for row in &ROWS {
        each_byte_is_written(&rt, rt.alloc(), row)?;
    }
    Ok(())
}

/// A source, and sinks for an output and its trace.
type CountedPorts = TracedPorts<SureSource, CountedSink<MemSink>, CountedSink<MemSink>>;

/// The numbers of the calls that fail, of the output's sink and of the trace's. Where it is 0 none does.
#[derive(Clone, Copy)]
struct Failing {
    out: u64,
    err: u64,
}

/// Sinks that take so many bytes in a call and fail in these calls.
fn traced_ports_of(alloc: Global, most: usize, failing: Failing) -> Result<CountedPorts, Fail>
    requires { 1 ≤ most }
{
    let out = sink_of(alloc, most, failing.out)?;
    let err = sink_of(alloc, most, failing.err)?;
    let source = SureSource::new(Vec::new(alloc));
    Ok(TracedPorts::new(source, out, err, MOST))
}

/// The lines of these copies.
fn lines_of_copies(alloc: Global) -> Result<Vec<u8>, Fail> {
    let mut lines = b"+ 0 / 0\nw 3\n".to_vec(alloc)?;
    for row in &TOLD {
        lines.extend_from_slice(row.0)?;
    }
    Ok(lines)
}

/// How many bytes a line tells as written, of those that are.
fn told_by(line: &[u8]) -> u64 {
    if line == b"w 1\n".as_slice() {
        1
    } else if line == b"w 3\n".as_slice() {
        3
    } else if line == b"w 4\n".as_slice() {
        4
    } else {
        0
    }
}

/// How many the whole lines of a trace tell.
fn told_by_all(trace: &[u8]) -> u64 {
    let mut told = 0u64;
    for line in trace.windows(4) {
        told = told.saturating_add(told_by(line));
    }
    told
}

/// The copies are taken with their lines.
fn take_told(
    rt: &impl Abort,
    alloc: Global,
    plan: &Plan,
    size: usize,
    ports: &mut CountedPorts,
) -> Result<(), Fail>
    requires placed { IsOfCore plan.now }
    requires size { 1 ≤ size }
{
    let nodes = SlabNodes::new(alloc);
    let lines = TraceLines::new(alloc);
    let mut part = Part::new(alloc, plan, nodes, Plain, 1, lines)?;
    take_document(rt, alloc, &mut part, TWO, size, ports)?;
    took_all(rt, &part, 7);
    Ok(())
}

/// What a sink took: the first bytes of this text.
fn first_bytes<'a>(rt: &impl Abort, sink: &'a MemSink, text: &[u8]) -> &'a [u8] {
    assert!(rt; sink.is_whole());
    let bytes = sink.bytes();
    assert!(rt; text.starts_with(bytes));
    bytes
}

/// The sinks took the first bytes of both, and all where no write failed. The whole lines tell no more than
/// was taken of the output.
fn are_taken(rt: &impl Abort, ports: &CountedPorts, lines: &[u8]) {
    let out = first_bytes(rt, &ports.out.sink.sink, COPIED);
    let trace = first_bytes(rt, &ports.err.sink.sink, lines);
    let all = out.len() == COPIED.len() && trace.len() == lines.len();
    assert_eq!(rt; ports.broken.is_none(), all);
    assert!(rt; told_by_all(trace) <= out.len() as u64);
}

/// The last call of a sink is the one that was to fail.
fn has_failed(counted: &CountedSink<MemSink>, failing: u64) -> bool {
    failing > 0 && counted.made == failing
}

/// A write failed at the sink whose last call was to fail, or at none. So no call came behind it there, nor at the
/// other sink the one that was to fail.
fn has_failed_once(rt: &impl Abort, ports: &CountedPorts, failing: Failing) {
    let of_output = has_failed(&ports.out.sink, failing.out);
    let of_trace = has_failed(&ports.err.sink, failing.err);
    assert!(rt; !(of_output && of_trace));
    assert_eq!(rt; ports.broken == Some(0), of_output);
    assert_eq!(rt; ports.broken == Some(1), of_trace);
    assert_eq!(rt; ports.is_broken(), of_output || of_trace);
}

/// So it is where these calls fail. Answers how many calls there were of each sink.
fn is_in_order(
    rt: &impl Abort,
    alloc: Global,
    plan: &Plan,
    sizes: Sizes,
    failing: Failing,
) -> Result<(u64, u64), Fail>
    requires placed { IsOfCore plan.now }
{
    assert!(rt; sizes.piece > 0);
    assert!(rt; sizes.call > 0);
    let lines = lines_of_copies(alloc)?;
    let mut ports = traced_ports_of(alloc, sizes.call, failing)?;
    take_told(rt, alloc, plan, sizes.piece, &mut ports)?;
    are_taken(rt, &ports, &lines);
    has_failed_once(rt, &ports, failing);
    Ok((ports.out.sink.made, ports.err.sink.made))
}

/// So it is where this call of the output's sink fails, and none or any of so many of the trace's.
fn is_in_order_beside(
    rt: &impl Abort,
    alloc: Global,
    plan: &Plan,
    sizes: Sizes,
    out: u64,
    count: u64,
) -> Result<(), Fail>
    requires placed { IsOfCore plan.now }
{
    for err in 0..=count {
        is_in_order(rt, alloc, plan, sizes, Failing { out, err })?;
    }
    Ok(())
}

/// So it is where no call fails, where any of either sink does, and where one of each is to: then the second doesn't
/// come, whichever it is, so none does.
fn is_in_order_at_each_call(rt: &impl Abort, alloc: Global, sizes: Sizes) -> Result<(), Fail> {
    let plan = plan_of(alloc, COPIES)?;
    let (outs, errs) = is_in_order(rt, alloc, &plan, sizes, Failing { out: 0, err: 0 })?;
    for out in 0..=outs {
        is_in_order_beside(rt, alloc, &plan, sizes, out, errs)?;
    }
    Ok(())
}

fn is_in_order_in_pieces(rt: &impl Abort, alloc: Global, call: usize) -> Result<(), Fail> {
    for piece in PIECES {
        is_in_order_at_each_call(rt, alloc, Sizes { piece, call })?;
    }
    Ok(())
}

#[test]
fn a_trace_is_never_ahead_of_its_output(rt: HostRuntime) -> Result<(), Fail> {
    is_in_order_in_pieces(&rt, rt.alloc(), 1)?;
    is_in_order_in_pieces(&rt, rt.alloc(), 3)?;
    is_in_order_in_pieces(&rt, rt.alloc(), 65_536)
}
