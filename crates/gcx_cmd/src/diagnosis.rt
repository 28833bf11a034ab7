//! The line that says why a run didn't end well.
ghost use Rattle.std.specs.Prelude.{◌≡◌, ◌≤◌, ◌++◌, ◌+◌, Some, None, length, IfSome};
ghost use Rattle.arrayvec.specs.ArrayVec.{array_vec_len};
ghost use Rattle.gcx_cmd.specs.declared.status.Status.TheVariants as statuses;
ghost use Rattle.gcx_cmd.specs.Diagnosis.{limit_words, query_line, document_line, line_of};
ghost use Rattle.gcx_cmd.specs.Does.{Tells};
ghost use Rattle.gcx_cmd.specs.Lines.{HasShortWords, bytes_of, line_bytes};

use crate::Status;
use arrayvec::ArrayVec;
use gcx_io::{Sink, write_all};
use gcx_model::{DocFault, QueryFault, What};
use itoa::Buffer;

/// Room for a line: words of at most 38 bytes, a number and the end. Its longest has 53 bytes.
const ROOM: usize = 80;

/// What a line says, without its end: words, and perhaps a number behind them.
#[derive(Clone, Copy)]
struct Line {
    words: &'static [u8],
    number: Option<u64>,
}

/// The words before the limit that a query passes.
fn limit_words(what: What) -> &'static [u8]
    ensures words { result.now ≡ limit_words what }
    ensures short { length result.now ≤ 38 }
{
    match what {
        What::Text => b"gcx: query TooLarge Text ",
        What::Nesting => b"gcx: query TooLarge Nesting ",
        What::Loops => b"gcx: query TooLarge Loops ",
        What::Steps => b"gcx: query TooLarge Steps ",
        What::Conditions => b"gcx: query TooLarge Conditions ",
        What::Roles => b"gcx: query TooLarge Roles ",
        What::Descendants => b"gcx: query TooLarge Descendants ",
    }
}

impl Line {
    /// Words alone.
    fn words(words: &'static [u8]) -> Line
        ensures words { result.words.now ≡ words.now }
        ensures number { result.number ≡ None }
    {
        Line {
            words,
            number: None,
        }
    }

    /// Words, and a number behind them.
    fn numbered(words: &'static [u8], number: u64) -> Line
        ensures words { result.words.now ≡ words.now }
        ensures number { result.number ≡ Some number }
    {
        Line {
            words,
            number: Some(number),
        }
    }

    fn of_query(fault: QueryFault) -> Line
        ensures line { bytes_of result ≡ query_line fault }
        ensures short { HasShortWords result }
    {
        match fault {
            QueryFault::Utf8(at) => Line::numbered(b"gcx: query Utf8 ", at),
            QueryFault::Lex(at) => Line::numbered(b"gcx: query Lex ", at),
            QueryFault::Syntax(at) => Line::numbered(b"gcx: query Syntax ", at),
            QueryFault::UnknownVar(at) => Line::numbered(b"gcx: query UnknownVar ", at),
            QueryFault::TagMismatch(at) => Line::numbered(b"gcx: query TagMismatch ", at),
            QueryFault::DescendantNotLast(at) => Line::numbered(
                b"gcx: query DescendantNotLast ",
                at,
            ),
            QueryFault::IntegerWide(at) => Line::numbered(b"gcx: query IntegerWide ", at),
            QueryFault::TooLarge(what, limit) => Line::numbered(limit_words(what), limit),
            QueryFault::Memory => Line::words(b"gcx: out of memory"),
        }
    }

    fn of_document(fault: DocFault) -> Line
        ensures line { bytes_of result ≡ document_line fault }
        ensures short { HasShortWords result }
    {
        match fault {
            DocFault::Utf8(at) => Line::numbered(b"gcx: document Utf8 ", at),
            DocFault::Syntax(at) => Line::numbered(b"gcx: document Syntax ", at),
            DocFault::Truncated(at) => Line::numbered(b"gcx: document Truncated ", at),
            DocFault::Depth(at) => Line::numbered(b"gcx: document Depth ", at),
            DocFault::NameLong(at) => Line::numbered(b"gcx: document NameLong ", at),
            DocFault::TextLong(at) => Line::numbered(b"gcx: document TextLong ", at),
            DocFault::TooLong(at) => Line::numbered(b"gcx: document TooLong ", at),
            DocFault::Memory => Line::words(b"gcx: out of memory"),
        }
    }

    /// The line of a status. None at Ok.
    fn of(status: Status) -> Option<Line>
        ensures line { line_bytes result ≡ line_of status }
        ensures short { IfSome result HasShortWords }
        ensures silent { status ≡ statuses.Ok → result ≡ None }
    {
        match status {
            Status::Ok => None,
            Status::Usage => Some(Line::words(b"gcx: the words are not a command line")),
            Status::QueryRefused(fault) => Some(Line::of_query(fault)),
            Status::DocumentRefused(fault) => Some(Line::of_document(fault)),
            Status::ReadFault => Some(Line::words(b"gcx: read fault")),
            Status::WriteFault => Some(Line::words(b"gcx: write fault")),
            Status::Memory => Some(Line::words(b"gcx: out of memory")),
            Status::TraceRefused(line) => Some(Line::numbered(b"gcx: trace ", line)),
        }
    }
}

/// Appends what there is room for.
fn put(line: &mut ArrayVec<u8, ROOM>, bytes: &[u8])
    requires { array_vec_len line.old + length bytes.now ≤ 80 }
    ensures { line.new.items ≡ line.old.items ++ bytes.now }
{
    let _ = line.try_extend_from_slice(bytes);
}

/// A line with its end.
fn text_of(line: Line) -> ArrayVec<u8, ROOM>
    requires { HasShortWords line }
    ensures { result.items ≡ bytes_of line }
{
    let mut text = ArrayVec::new();
    put(&mut text, line.words);
    if let Some(number) = line.number {
        let mut buffer = Buffer::new();
        put(&mut text, buffer.format(number).as_bytes());
    }
    put(&mut text, b"\n");
    text
}

/// Writes the line of the status in one piece: nothing at Ok. It takes no memory, and a fault of `err` changes nothing
/// else.
pub fn diagnose<E: Sink>(err: &mut E, status: Status)
    ensures tells { Tells status (E.seen err.old) (E.seen err.new) }
    ensures later { (E.seen err.old).faults ≤ (E.seen err.new).faults }
    ensures silent { status ≡ statuses.Ok → err.new ≡ err.old }
{
    if let Some(line) = Line::of(status) {
        let _ = write_all(err, text_of(line).as_slice());
    }
}
