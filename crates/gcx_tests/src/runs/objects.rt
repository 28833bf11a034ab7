//! The objects of a run, in memory, and what it leaves in them.
ghost use Rattle.std.specs.Prelude.{◌≡◌, ◌<◌, IfOk, OnOk, []};

use buf_tree::Row;
use gcx_base::{Memory, Text};
use gcx_cmd::{Status, gcx_main};
use gcx_io::{MemShelf, MemSink, SureShelf, SureSink};
use node_store::SlabNodes;
use raw_nodes::RawNodes;
use std::alloc::Global;
use std::process::Abort;
use std::test::Fail;

/// The number of the call of each object that is to fail.
#[derive(Clone, Copy)]
pub(super) struct FailingCalls {
    pub files: Option<u64>,
    pub out: Option<u64>,
    pub err: Option<u64>,
}

/// No call is to fail.
pub(super) const NOTHING: FailingCalls = FailingCalls {
    files: None,
    out: None,
    err: None,
};

/// How a run ends: its status, and what `out` and `err` took.
#[derive(Clone, Copy, Debug, PartialEq)]
pub(super) struct End<'a> {
    pub status: Status,
    pub out: &'a [u8],
    pub err: &'a [u8],
}

/// What a run left behind.
#[derive(Drop)]
pub(super) struct Ran {
    pub status: Status,
    pub out: Vec<u8>,
    pub err: Vec<u8>,
}

impl Ran {
    pub fn end(&self) -> End<'_> {
        End {
            status: self.status,
            out: self.out.as_slice(),
            err: self.err.as_slice(),
        }
    }
}

pub(super) fn text(alloc: Global, word: &[u8]) -> Result<Text, Fail> {
    match Text::from_bytes(alloc, word)? {
        Some(text) => Ok(text),
        None => Err(Fail::new("not a text")),
    }
}

pub(super) fn texts(alloc: Global, words: &[&[u8]]) -> Result<Vec<Text>, Fail> {
    let mut texts = Vec::new(alloc);
    for word in words {
        texts.push(text(alloc, word)?)?;
    }
    Ok(texts)
}

/// The list of the one call that is to fail.
pub(super) fn fails(alloc: Global, call: Option<u64>) -> Result<Vec<u64>, Memory> {
    let mut fails = Vec::new(alloc);
    if let Some(number) = call {
        fails.push(number)?;
    }
    Ok(fails)
}

pub(super) fn put_file(
    alloc: Global,
    files: &mut MemShelf,
    name: &[u8],
    bytes: &[u8],
) -> Result<(), Fail>
    requires { files.old.kept.openings ≡ [] }
    ensures { OnOk result (files.new.kept.openings ≡ []) }
{
    let name = text(alloc, name)?;
    let bytes = bytes.to_vec(alloc)?;
    Ok(files.put(name, bytes)?)
}

/// The files `q` and `d`, each call of which moves at most `most` bytes.
pub(super) fn mem_files(
    alloc: Global,
    files: (&[u8], &[u8]),
    most: usize,
    call: Option<u64>,
) -> Result<MemShelf, Fail>
    requires { 0 < most }
    ensures { IfOk result (λ files. files.kept.openings ≡ []) }
{
    let (query, document) = files;
    let mut files = MemShelf::new(alloc, 0, most, fails(alloc, call)?);
    put_file(alloc, &mut files, b"q", query)?;
    put_file(alloc, &mut files, b"d", document)?;
    Ok(files)
}

pub(super) fn mem_sink(
    alloc: Global,
    room: usize,
    most: usize,
    call: Option<u64>,
) -> Result<MemSink, Memory>
    requires { 0 < most }
{
    MemSink::new(alloc, room, most, fails(alloc, call)?)
}

fn mem_bytes(rt: &impl Abort, alloc: Global, sink: &MemSink) -> Result<Vec<u8>, Memory> {
    assert!(rt; sink.is_whole());
    Ok(sink.bytes().to_vec(alloc)?)
}

fn mem_ran(
    rt: &impl Abort,
    alloc: Global,
    status: Status,
    out: &MemSink,
    err: &MemSink,
) -> Result<Ran, Memory> {
    let out = mem_bytes(rt, alloc, out)?;
    let err = mem_bytes(rt, alloc, err)?;
    Ok(Ran { status, out, err })
}

/// The call of the program in a store of its own.
pub(super) fn mem_status(
    alloc: Global,
    words: &[Text],
    files: &mut MemShelf,
    out: &mut MemSink,
    err: &mut MemSink,
) -> Status {
    let mut nodes: RawNodes<Row> = RawNodes::new(alloc);
    gcx_main(alloc, words, files, out, err, &mut nodes)
}

fn run_over(
    rt: &impl Abort,
    alloc: Global,
    words: &[Text],
    files: &mut MemShelf,
    most: usize,
    failing: FailingCalls,
) -> Result<Ran, Memory>
    requires { 0 < most }
{
    let mut out = mem_sink(alloc, 10_000, most, failing.out)?;
    let mut err = mem_sink(alloc, 100, most, failing.err)?;
    let status = mem_status(alloc, words, files, &mut out, &mut err);
    mem_ran(rt, alloc, status, &out, &err)
}

/// A run of these words over the files `q` and `d`, where each call of an object moves at most `most` bytes.
pub(super) fn run(
    rt: &impl Abort,
    alloc: Global,
    words: &[&[u8]],
    files: (&[u8], &[u8]),
    most: usize,
    failing: FailingCalls,
) -> Result<Ran, Fail> {
    assert!(rt; most > 0);
    let words = texts(alloc, words)?;
    let mut files = mem_files(alloc, files, most, failing.files)?;
    Ok(run_over(rt, alloc, &words, &mut files, most, failing)?)
}

/// A run of `check q d t` over these files and this trace.
pub(super) fn run_check(
    rt: &impl Abort,
    alloc: Global,
    files: (&[u8], &[u8]),
    trace: &[u8],
    most: usize,
    failing: FailingCalls,
) -> Result<Ran, Fail> {
    assert!(rt; most > 0);
    let words = texts(alloc, &[b"check", b"q", b"d", b"t"])?;
    let mut files = mem_files(alloc, files, most, failing.files)?;
    put_file(alloc, &mut files, b"t", trace)?;
    Ok(run_over(rt, alloc, &words, &mut files, most, failing)?)
}

fn put_sure_file(
    alloc: Global,
    files: &mut SureShelf,
    name: &[u8],
    bytes: &[u8],
) -> Result<(), Fail>
    requires { files.old.kept.openings ≡ [] }
    ensures { OnOk result (files.new.kept.openings ≡ []) }
{
    let name = text(alloc, name)?;
    let bytes = bytes.to_vec(alloc)?;
    Ok(files.put(name, bytes)?)
}

fn sure_files(alloc: Global, files: (&[u8], &[u8])) -> Result<SureShelf, Fail> {
    let (query, document) = files;
    let mut files = SureShelf::new(alloc, 0);
    put_sure_file(alloc, &mut files, b"q", query)?;
    put_sure_file(alloc, &mut files, b"d", document)?;
    Ok(files)
}

fn sure_bytes(rt: &impl Abort, alloc: Global, sink: &SureSink) -> Result<Vec<u8>, Memory> {
    assert!(rt; sink.is_whole());
    Ok(sink.bytes().to_vec(alloc)?)
}

fn sure_ran(
    rt: &impl Abort,
    alloc: Global,
    status: Status,
    out: &SureSink,
    err: &SureSink,
) -> Result<Ran, Memory> {
    let out = sure_bytes(rt, alloc, out)?;
    let err = sure_bytes(rt, alloc, err)?;
    Ok(Ran { status, out, err })
}

/// The call of the program in a store of slots.
fn sure_status(
    alloc: Global,
    words: &[Text],
    files: &mut SureShelf,
    out: &mut SureSink,
    err: &mut SureSink,
) -> Status {
    let mut nodes: SlabNodes<Row> = SlabNodes::new(alloc);
    gcx_main(alloc, words, files, out, err, &mut nodes)
}

fn run_surely_over(
    rt: &impl Abort,
    alloc: Global,
    words: &[Text],
    files: &mut SureShelf,
) -> Result<Ran, Memory> {
    let mut out = SureSink::new(alloc, 10_000)?;
    let mut err = SureSink::new(alloc, 100)?;
    let status = sure_status(alloc, words, files, &mut out, &mut err);
    sure_ran(rt, alloc, status, &out, &err)
}

/// A run of `run q d` over objects that never fail.
pub(super) fn run_surely(
    rt: &impl Abort,
    alloc: Global,
    files: (&[u8], &[u8]),
) -> Result<Ran, Fail> {
    let words = texts(alloc, &[b"run", b"q", b"d"])?;
    let mut files = sure_files(alloc, files)?;
    Ok(run_surely_over(rt, alloc, &words, &mut files)?)
}
