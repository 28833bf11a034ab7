//! Sources, sinks and shelves, in memory and real.
ghost use Rattle.std.specs.Prelude.{◌≡◌, IfOk, IsTrue, OnOk, []};

use gcx_base::Text;
use gcx_io::{
    AttachFault, Failed, FileShelf, MemShelf, MemSink, MemSource, NullSink, Opened, Shelf, Sink,
    Source, StdErr, StdOut, SureShelf, SureSink, SureSource, write_all, write_file,
};
use std::process::Abort;
use std::test::Fail;
use std::{env, fs};

pub(super) fn text(rt: &impl AllocGlobal, bytes: &[u8]) -> Result<Text, Fail> {
    match Text::from_bytes(rt.alloc(), bytes)? {
        Some(text) => Ok(text),
        None => Err(Fail::new("not UTF-8")),
    }
}

/// Reads four bytes at a time, and compares each answer with a row: how many bytes came, None for a fault, and which.
fn assert_reads<S: Source>(rt: &impl Abort, source: &mut S, rows: &[(Option<usize>, &[u8])]) {
    for (count, bytes) in rows {
        let mut buf = [0; 4];
        let moved = source.read(&mut buf).ok();
        assert_eq!(rt; moved, *count);
        if let Some(count) = moved {
            assert!(rt; count <= 4);
            assert_eq!(rt; &buf[..count], *bytes);
        }
    }
}

fn source_with_failing_calls(rt: &(impl Abort + AllocGlobal)) -> Result<(), Fail> {
    let fails = vec![in rt.alloc(); 2u64]?;
    let bytes = vec![in rt.alloc(); 7u8, 8]?;
    let mut source = MemSource::new(bytes, 1, fails);
    assert_reads(
        rt,
        &mut source,
        &[
            (Some(1), &[7]),
            (None, &[]),
            (Some(1), &[8]),
            (Some(0), &[]),
        ],
    );
    Ok(())
}

fn source_without_failing_calls(rt: &(impl Abort + AllocGlobal)) -> Result<(), Fail> {
    let bytes = vec![in rt.alloc(); 1u8, 2, 3, 4, 5]?;
    let mut source = SureSource::new(bytes);
    assert_reads(
        rt,
        &mut source,
        &[(Some(4), &[1, 2, 3, 4]), (Some(1), &[5]), (Some(0), &[])],
    );
    Ok(())
}

/// Writes each piece whole, and compares the answers.
fn assert_writes<S: Sink>(rt: &impl Abort, sink: &mut S, rows: &[(&[u8], Result<(), Failed>)]) {
    for (piece, answer) in rows {
        assert_eq!(rt; write_all(sink, piece), *answer);
    }
}

fn sink_with_failing_calls(rt: &(impl Abort + AllocGlobal)) -> Result<(), Fail> {
    let fails = vec![in rt.alloc(); 4u64]?;
    let mut sink = MemSink::new(rt.alloc(), 2, 1, fails)?;
    assert_writes(
        rt,
        &mut sink,
        &[(b"ab", Ok(())), (b"cd", Err(Failed)), (b"ef", Ok(()))],
    );
    assert!(rt; sink.is_whole());
    assert_eq!(rt; sink.bytes(), b"abcef".as_slice());
    Ok(())
}

fn sinks_without_failing_calls(rt: &(impl Abort + AllocGlobal)) -> Result<(), Fail> {
    let mut sink = SureSink::new(rt.alloc(), 0)?;
    let rows: [(&[u8], Result<(), Failed>); 1] = [(b"abc", Ok(()))];
    assert_writes(rt, &mut sink, &rows);
    assert!(rt; sink.is_whole());
    assert_eq!(rt; sink.bytes(), b"abc".as_slice());
    assert_writes(rt, &mut NullSink::new(), &rows);
    Ok(())
}

/// Attaches the file, and compares what is read of it.
fn assert_file<F: Shelf>(
    rt: &(impl Abort + AllocGlobal),
    files: &mut F,
    name: &[u8],
    rows: &[(Option<usize>, &[u8])],
) -> Result<(), Fail> {
    let name = text(rt, name)?;
    let handle = files.attach(&name)?;
    assert_reads(rt, &mut Opened::new(files, handle), rows);
    Ok(())
}

fn assert_refused<F: Shelf>(
    rt: &(impl Abort + AllocGlobal),
    files: &mut F,
    name: &[u8],
) -> Result<(), Fail> {
    let name = text(rt, name)?;
    let refusal = files.attach(&name).err();
    assert_eq!(rt; refusal, Some(AttachFault::Failed));
    Ok(())
}

fn assert_same(rt: &impl Abort, held: Option<&[u8]>, want: Option<&[u8]>) {
    assert_eq!(rt; held, want);
}

fn put(rt: &impl AllocGlobal, shelf: &mut MemShelf, name: &[u8], bytes: &[u8]) -> Result<(), Fail>
    requires { shelf.old.kept.openings ≡ [] }
    ensures openings { OnOk result (shelf.new.kept.openings ≡ []) }
    ensures whole { OnOk result (shelf.new.kept.whole ≡ shelf.old.kept.whole) }
{
    let bytes = bytes.to_vec(rt.alloc())?;
    let name = text(rt, name)?;
    shelf.put(name, bytes)?;
    Ok(())
}

/// A shelf on which a name was put twice, and whose calls 2 and 5 fail.
fn failing_shelf(rt: &impl AllocGlobal) -> Result<MemShelf, Fail>
    ensures { IfOk result (λ shelf. IsTrue shelf.kept.whole) }
{
    let fails = vec![in rt.alloc(); 2u64, 5]?;
    let mut shelf = MemShelf::new(rt.alloc(), 0, 1, fails);
    put(rt, &mut shelf, b"a", &[1])?;
    put(rt, &mut shelf, b"b", &[9])?;
    put(rt, &mut shelf, b"a", &[7, 8])?;
    Ok(shelf)
}

fn sure_shelf(rt: &impl AllocGlobal) -> Result<SureShelf, Fail>
    ensures { IfOk result (λ shelf. IsTrue shelf.kept.whole) }
{
    let bytes = vec![in rt.alloc(); 7u8, 8]?;
    let name = text(rt, b"a")?;
    let mut shelf = SureShelf::new(rt.alloc(), 0);
    shelf.put(name, bytes)?;
    Ok(shelf)
}

/// Compares what each name holds with a row: None where it isn't mapped. All the bytes that were taken must be kept.
fn assert_held(
    rt: &(impl Abort + AllocGlobal),
    shelf: &MemShelf,
    rows: &[(&[u8], Option<&[u8]>)],
) -> Result<(), Fail> {
    assert!(rt; shelf.is_whole());
    for (name, want) in rows {
        let name = text(rt, name)?;
        assert_same(rt, shelf.bytes(&name), *want);
    }
    Ok(())
}

/// The same of a shelf that never fails.
fn assert_surely_held(
    rt: &(impl Abort + AllocGlobal),
    shelf: &SureShelf,
    rows: &[(&[u8], Option<&[u8]>)],
) -> Result<(), Fail> {
    assert!(rt; shelf.is_whole());
    for (name, want) in rows {
        let name = text(rt, name)?;
        assert_same(rt, shelf.bytes(&name), *want);
    }
    Ok(())
}

fn held_by_name(rt: &(impl Abort + AllocGlobal)) -> Result<(), Fail> {
    let shelf = failing_shelf(rt)?;
    assert_held(
        rt,
        &shelf,
        &[(b"a", Some(&[7, 8])), (b"b", Some(&[9])), (b"c", None)],
    )
}

fn with_failing_calls(rt: &(impl Abort + AllocGlobal)) -> Result<(), Fail> {
    let mut shelf = failing_shelf(rt)?;
    assert_refused(rt, &mut shelf, b"c")?;
    assert_refused(rt, &mut shelf, b"a")?;
    assert_file(
        rt,
        &mut shelf,
        b"a",
        &[
            (Some(1), &[7]),
            (None, &[]),
            (Some(1), &[8]),
            (Some(0), &[]),
        ],
    )?;
    assert_file(rt, &mut shelf, b"b", &[(Some(1), &[9])])
}

fn without_failing_calls(rt: &(impl Abort + AllocGlobal)) -> Result<(), Fail> {
    let mut shelf = sure_shelf(rt)?;
    assert_surely_held(rt, &shelf, &[(b"a", Some(&[7, 8])), (b"c", None)])?;
    assert_file(rt, &mut shelf, b"c", &[(Some(0), &[])])?;
    assert_file(rt, &mut shelf, b"a", &[(Some(2), &[7, 8]), (Some(0), &[])])
}

/// Makes the file, or makes it anew, and writes three bytes.
fn make<F: Shelf>(rt: &(impl Abort + AllocGlobal), files: &mut F, name: &[u8]) -> Result<(), Fail> {
    let name = text(rt, name)?;
    let handle = files.create(&name)?;
    assert_eq!(rt; files.write(handle, b"abc"), Ok(3));
    Ok(())
}

/// Makes the file, and writes three bytes twice: the first write fails, and the second takes one byte.
fn make_failing<F: Shelf>(
    rt: &(impl Abort + AllocGlobal),
    files: &mut F,
    name: &[u8],
) -> Result<(), Fail> {
    let name = text(rt, name)?;
    let handle = files.create(&name)?;
    assert_eq!(rt; files.write(handle, b"abc"), Err(Failed));
    assert_eq!(rt; files.write(handle, b"abc"), Ok(1));
    Ok(())
}

fn made_with_failing_calls(rt: &(impl Abort + AllocGlobal)) -> Result<(), Fail> {
    let mut shelf = failing_shelf(rt)?;
    make_failing(rt, &mut shelf, b"o")?;
    assert_held(rt, &shelf, &[(b"o", Some(b"a")), (b"b", Some(&[9]))])
}

fn made_anew(rt: &(impl Abort + AllocGlobal)) -> Result<(), Fail> {
    let mut shelf = sure_shelf(rt)?;
    make(rt, &mut shelf, b"a")?;
    make(rt, &mut shelf, b"a")?;
    assert_surely_held(rt, &shelf, &[(b"a", Some(b"abc"))])
}

fn made_without_failing_calls(rt: &(impl Abort + AllocGlobal)) -> Result<(), Fail> {
    let mut shelf = MemShelf::new(rt.alloc(), 3, 3, Vec::new(rt.alloc()));
    make(rt, &mut shelf, b"o")?;
    assert_held(rt, &shelf, &[(b"o", Some(b"abc"))])
}

#[test]
fn files_made_in_memory_hold_what_is_written(rt: HostRuntime) -> Result<(), Fail> {
    made_with_failing_calls(&rt)?;
    made_anew(&rt)?;
    made_without_failing_calls(&rt)
}

/// Removes the file, and answers what it held.
fn take_away(rt: &HostRuntime, path: &str) -> Result<Vec<u8>, Fail> {
    let bytes = fs::read(rt, path)?;
    fs::remove_file(rt, path)?;
    Ok(bytes)
}

fn assert_not_made<F: Shelf>(
    rt: &(impl Abort + AllocGlobal),
    files: &mut F,
    name: &[u8],
) -> Result<(), Fail> {
    let name = text(rt, name)?;
    assert_eq!(rt; files.create(&name).err(), Some(AttachFault::Failed));
    Ok(())
}

#[test]
fn files_that_are_made_hold_what_is_written(rt: HostRuntime) -> Result<(), Fail> {
    let path = "gcx_io_made";
    let mut shelf = FileShelf::new(rt, rt);
    make(&rt, &mut shelf, path.as_bytes())?;
    assert_eq!(rt; take_away(&rt, path)?.as_slice(), b"abc".as_slice());
    assert_not_made(&rt, &mut shelf, b"-")
}

/// Makes the file and writes a text into it. Its handle can't be read.
fn fill(
    rt: &(impl Abort + AllocGlobal),
    shelf: &mut FileShelf<HostRuntime>,
    name: &[u8],
    bytes: &[u8],
) -> Result<(), Fail> {
    let name = text(rt, name)?;
    let handle = shelf.create(&name)?;
    assert_eq!(rt; write_file(shelf, handle, bytes), Ok(()));
    let mut buf = [0; 4];
    assert_eq!(rt; shelf.read(handle, &mut buf), Err(Failed));
    Ok(())
}

#[test]
fn a_text_is_written_into_a_file(rt: HostRuntime) -> Result<(), Fail> {
    let path = "gcx_io_filled";
    let mut shelf = FileShelf::new(rt, rt);
    fill(&rt, &mut shelf, path.as_bytes(), b"abcde")?;
    assert_eq!(rt; take_away(&rt, path)?.as_slice(), b"abcde".as_slice());
    Ok(())
}

/// Makes the file and writes three bytes, one with each call, and compares the answer and what the file holds.
fn assert_fills(
    rt: &(impl Abort + AllocGlobal),
    fails: Vec<u64>,
    answer: Result<(), Failed>,
    held: &[u8],
) -> Result<(), Fail> {
    let mut shelf = MemShelf::new(rt.alloc(), 3, 1, fails);
    let name = text(rt, b"o")?;
    let handle = shelf.create(&name)?;
    assert_eq!(rt; write_file(&mut shelf, handle, b"abc"), answer);
    assert_held(rt, &shelf, &[(b"o", Some(held))])
}

#[test]
fn a_text_is_written_into_memory(rt: HostRuntime) -> Result<(), Fail> {
    assert_fills(&rt, Vec::new(rt.alloc()), Ok(()), b"abc")?;
    assert_fills(&rt, vec![in rt.alloc(); 3u64]?, Err(Failed), b"a")
}

#[test]
fn objects_in_memory_move_their_bytes(rt: HostRuntime) -> Result<(), Fail> {
    source_with_failing_calls(&rt)?;
    source_without_failing_calls(&rt)?;
    sink_with_failing_calls(&rt)?;
    sinks_without_failing_calls(&rt)?;
    held_by_name(&rt)?;
    with_failing_calls(&rt)?;
    without_failing_calls(&rt)
}

fn read_by_name(
    rt: &(impl Abort + AllocGlobal),
    shelf: &mut FileShelf<HostRuntime>,
    folder: &str,
    path: &str,
) -> Result<(), Fail> {
    assert_file(
        rt,
        shelf,
        path.as_bytes(),
        &[(Some(4), b"abcd"), (Some(1), b"e"), (Some(0), b"")],
    )?;
    assert_file(rt, shelf, folder.as_bytes(), &[(None, b"")])
}

#[test]
fn files_are_read_by_their_names(rt: HostRuntime) -> Result<(), Fail> {
    let path = "gcx_io_read_by_name";
    fs::write(&rt, path, b"abcde".as_slice())?;
    let mut shelf = FileShelf::new(rt, rt);
    read_by_name(&rt, &mut shelf, ".", path)?;
    fs::remove_file(&rt, path)?;
    assert_refused(&rt, &mut shelf, path.as_bytes())
}

#[test]
fn standard_streams_take_what_is_written(rt: HostRuntime) {
    assert_eq!(rt;
        write_all(&mut StdOut::new(rt), b"to standard output\n"),
        Ok(())
    );
    assert_eq!(rt;
        write_all(&mut StdErr::new(rt), b"to standard error\n"),
        Ok(())
    );
}
