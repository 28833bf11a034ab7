//! An output and its trace, which are written while they grow, to two sinks of which one fails.
use gcx_io::{MemSink, SureSource};
use outside::{Outside, TracedPorts};
use std::process::Abort;
use std::test::Fail;

const OUTPUT: &[u8] = b"abcdefghijklmnopqrst";

const TRACE: &[u8] = b"ABCDEFGHIJKLMNOPQRST";

/// A sink that takes three bytes in a call and fails in the call of this number.
fn sink(rt: &impl AllocGlobal, failing: u64) -> Result<MemSink, Fail> {
    let fails = vec![in rt.alloc(); failing]?;
    Ok(MemSink::new(rt.alloc(), 64, 3, fails)?)
}

/// A source of one byte, and two such sinks. Eight bytes may wait for each.
fn ports(
    rt: &impl AllocGlobal,
    output_fails: u64,
    trace_fails: u64,
) -> Result<TracedPorts<SureSource, MemSink, MemSink>, Fail> {
    let source = SureSource::new(vec![in rt.alloc(); 7u8]?);
    Ok(TracedPorts::new(source, sink(rt, output_fails)?, sink(rt, trace_fails)?, 8))
}

/// Has the bytes written as they come, one by one, and behind each one its capital letter as the trace.
fn spill_each(
    ports: &mut TracedPorts<SureSource, MemSink, MemSink>,
    output: &mut Vec<u8>,
    trace: &mut Vec<u8>,
    bytes: &[u8],
) -> Result<(), Fail> {
    for byte in bytes {
        output.push(*byte)?;
        ports.spill(0, output, false);
        trace.push(byte.to_ascii_uppercase())?;
        ports.spill(1, trace, false);
    }
    Ok(())
}

/// Compares what the sink took.
fn assert_bytes(rt: &impl Abort, sink: &MemSink, bytes: &[u8]) {
    assert!(rt; sink.is_whole());
    assert_eq!(rt; sink.bytes(), bytes);
}

/// Writes output and trace, and compares what the sinks took of them, and the place at which a write failed. Nothing
/// waits at the end, whether it was written or dropped.
fn assert_taken(
    rt: &(impl Abort + AllocGlobal),
    output_fails: u64,
    trace_fails: u64,
    broken: Option<usize>,
    output_taken: &[u8],
    trace_taken: &[u8],
) -> Result<(), Fail> {
    let mut ports = ports(rt, output_fails, trace_fails)?;
    let mut output = Vec::new(rt.alloc());
    let mut trace = Vec::new(rt.alloc());
    spill_each(&mut ports, &mut output, &mut trace, OUTPUT)?;
    ports.spill(0, &mut output, true);
    ports.spill(1, &mut trace, true);
    assert!(rt; output.is_empty());
    assert!(rt; trace.is_empty());
    assert_eq!(rt; ports.broken, broken);
    assert_eq!(rt; ports.is_broken(), broken.is_some());
    assert_bytes(rt, &ports.out.sink, output_taken);
    assert_bytes(rt, &ports.err.sink, trace_taken);
    Ok(())
}

#[test]
fn behind_a_failed_write_nothing_is_written_at_either_place(rt: HostRuntime) -> Result<(), Fail> {
    assert_taken(&rt, 0, 0, None, OUTPUT, TRACE)?;
    assert_taken(&rt, 1, 0, Some(0), b"", b"")?;
    assert_taken(&rt, 5, 0, Some(0), b"abcdefghijkl", b"ABCDEFGHI")?;
    assert_taken(
        &rt,
        7,
        0,
        Some(0),
        b"abcdefghijklmnopqr",
        b"ABCDEFGHIJKLMNOPQR",
    )?;
    assert_taken(&rt, 0, 1, Some(1), b"abcdefghi", b"")?;
    assert_taken(&rt, 0, 5, Some(1), b"abcdefghijklmnopqr", b"ABCDEFGHIJKL")?;
    assert_taken(&rt, 0, 7, Some(1), OUTPUT, b"ABCDEFGHIJKLMNOPQR")
}

#[test]
fn eight_bytes_may_wait_for_each_place(rt: HostRuntime) -> Result<(), Fail> {
    let mut ports = ports(&rt, 0, 0)?;
    let mut output = Vec::new(rt.alloc());
    let mut trace = Vec::new(rt.alloc());
    spill_each(&mut ports, &mut output, &mut trace, b"abcdefgh")?;
    assert_eq!(rt; output.as_slice(), b"abcdefgh".as_slice());
    assert_eq!(rt; trace.as_slice(), b"ABCDEFGH".as_slice());
    spill_each(&mut ports, &mut output, &mut trace, b"ijklmnopqrst")?;
    assert_eq!(rt; output.as_slice(), b"st".as_slice());
    assert_eq!(rt; trace.as_slice(), b"ST".as_slice());
    assert!(rt; ports.may_wait(8));
    assert!(rt; !ports.may_wait(9));
    Ok(())
}

#[test]
fn what_is_dropped_is_not_written_later(rt: HostRuntime) -> Result<(), Fail> {
    let mut ports = ports(&rt, 2, 0)?;
    let mut output = Vec::new(rt.alloc());
    let mut trace = Vec::new(rt.alloc());
    output.extend_from_slice(b"abcdef")?;
    ports.spill(0, &mut output, true);
    assert!(rt; output.is_empty());
    trace.extend_from_slice(b"ABC")?;
    ports.spill(1, &mut trace, true);
    assert!(rt; trace.is_empty());
    output.extend_from_slice(b"ghi")?;
    ports.spill(0, &mut output, true);
    assert!(rt; output.is_empty());
    assert_bytes(&rt, &ports.out.sink, b"abc");
    assert_bytes(&rt, &ports.err.sink, b"");
    Ok(())
}

#[test]
fn the_source_is_read_beside_two_sinks(rt: HostRuntime) -> Result<(), Fail> {
    let mut ports = ports(&rt, 0, 0)?;
    let mut buf = [0; 4];
    assert_eq!(rt; ports.read(&mut buf).ok(), Some(1));
    assert_eq!(rt; buf[0], 7);
    Ok(())
}
