//! Outputs that are written while they grow, to a sink whose calls fail.
use gcx_io::{MemSink, SureSource};
use outside::{Nowhere, Outside, Ports, write_some};
use std::process::Abort;
use std::test::Fail;

const ANSWER: &[u8] = b"abcdefghijklmnopqrst";

/// Has the bytes written as they come, one by one.
fn spill_each(
    ports: &mut Ports<SureSource, MemSink>,
    waiting: &mut Vec<u8>,
    bytes: &[u8],
) -> Result<(), Fail> {
    for byte in bytes {
        waiting.push(*byte)?;
        ports.spill(0, waiting, false);
    }
    Ok(())
}

/// A source of one byte, and a sink that takes three bytes in a call and fails in the call of this number. Eight bytes
/// may wait.
fn ports(rt: &impl AllocGlobal, failing: u64) -> Result<Ports<SureSource, MemSink>, Fail> {
    let source = SureSource::new(vec![in rt.alloc(); 7u8]?);
    let fails = vec![in rt.alloc(); failing]?;
    Ok(Ports::new(source, MemSink::new(rt.alloc(), 64, 3, fails)?, 8))
}

/// Writes the answer, and compares what the sink took of it. Nothing waits at the end, whether it was written or dropped.
fn assert_taken(rt: &(impl Abort + AllocGlobal), failing: u64, taken: &[u8]) -> Result<(), Fail> {
    let mut ports = ports(rt, failing)?;
    let mut waiting = Vec::new(rt.alloc());
    spill_each(&mut ports, &mut waiting, ANSWER)?;
    ports.spill(0, &mut waiting, true);
    assert!(rt; waiting.is_empty());
    assert_eq!(rt; ports.is_broken(), taken.len() < ANSWER.len());
    assert!(rt; ports.out.sink.is_whole());
    assert_eq!(rt; ports.out.sink.bytes(), taken);
    Ok(())
}

#[test]
fn behind_a_failed_write_nothing_is_written(rt: HostRuntime) -> Result<(), Fail> {
    assert_taken(&rt, 0, ANSWER)?;
    assert_taken(&rt, 1, b"")?;
    assert_taken(&rt, 2, b"abc")?;
    assert_taken(&rt, 5, b"abcdefghijkl")?;
    assert_taken(&rt, 7, b"abcdefghijklmnopqr")
}

#[test]
fn eight_bytes_may_wait(rt: HostRuntime) -> Result<(), Fail> {
    let mut ports = ports(&rt, 0)?;
    let mut waiting = Vec::new(rt.alloc());
    spill_each(&mut ports, &mut waiting, b"abcdefgh")?;
    assert_eq!(rt; waiting.as_slice(), b"abcdefgh".as_slice());
    spill_each(&mut ports, &mut waiting, b"ijklmnopqrst")?;
    assert_eq!(rt; waiting.as_slice(), b"st".as_slice());
    assert!(rt; ports.may_wait(8));
    assert!(rt; !ports.may_wait(9));
    Ok(())
}

#[test]
fn the_source_is_read(rt: HostRuntime) -> Result<(), Fail> {
    let mut ports = ports(&rt, 0)?;
    let mut buf = [0; 4];
    assert_eq!(rt; ports.read(&mut buf).ok(), Some(1));
    assert_eq!(rt; buf[0], 7);
    Ok(())
}

#[test]
fn a_failed_write_tells_what_was_taken(rt: HostRuntime) -> Result<(), Fail> {
    let fails = vec![in rt.alloc(); 2u64]?;
    let mut sink = MemSink::new(rt.alloc(), 8, 3, fails)?;
    assert_eq!(rt; write_some(&mut sink, b"abcd"), 3);
    assert_eq!(rt; write_some(&mut sink, b"efgh"), 4);
    Ok(())
}

#[test]
fn nowhere_all_waits(rt: HostRuntime) -> Result<(), Fail> {
    let mut nowhere = Nowhere::new(rt.alloc());
    let mut waiting = Vec::new(rt.alloc());
    for byte in ANSWER {
        waiting.push(*byte)?;
        nowhere.spill(0, &mut waiting, true);
    }
    assert_eq!(rt; waiting.as_slice(), ANSWER);
    assert!(rt; nowhere.may_wait(20));
    assert!(rt; !nowhere.is_broken());
    let mut buf = [0; 4];
    assert_eq!(rt; nowhere.read(&mut buf).ok(), Some(0));
    Ok(())
}
