//! Runs in which one call of an object fails.
use super::objects::{End, FailingCalls, NOTHING, Ran, run};
use gcx_cmd::Status;
use gcx_model::DocFault;
use std::alloc::Global;
use std::process::Abort;
use std::test::Fail;

/// A query over a document, and how much of its answer is settled before the tags of so many bytes of the document are
/// read: up to each of these counts so many. Behind the last one and before the end the answer lacks its last bytes.
#[derive(Clone, Copy)]
struct Case<'a> {
    query: &'a [u8],
    document: &'a [u8],
    settled: &'a [(usize, usize)],
    answer: &'a [u8],
}

/// The loop over `b`.
const LOOP: Case<'static> = Case {
    query: b"<r>{for $x in /a/b return $x}</r>",
    document: b"<a><b>1</b><c/><b>2</b></a>",
    settled: &[(5, 3), (10, 6), (17, 11), (22, 14), (27, 19)],
    answer: b"<r><b>1</b><b>2</b></r>",
};

/// The join: the two keys are equal once the second one is closed.
const JOIN: Case<'static> = Case {
    query: b"for $a in /r/x return for $b in /r/y return if ($a/k = $b/k) then <m/> else ()",
    document: b"<r><x><k>1</k></x><y><k>1</k></y><y><k>2</k></y></r>",
    settled: &[(28, 0), (52, 7)],
    answer: b"<m></m>",
};

/// The bibliography: whether a book has an editor is known at its end.
const BOOKS: Case<'static> = Case {
    query: b"<out>{\n  for $b in /bib/book\n  where $b/price < 50 and not(exists($b/editor))\n  return <cheap>{$b/title}</cheap>\n}</out>\n",
    document: b"<?xml version=\"1.0\" encoding=\"UTF-8\"?>\n<!DOCTYPE bib SYSTEM \"bib.dtd\">\n<!-- two books -->\n<bib>\n  <book>\n    <title>Data on the Web</title>\n    <price>39</price>\n  </book>\n  <book>\n    <title>TCP/IP &amp; more</title>\n    <price>65</price>\n  </book>\n</bib>\n",
    settled: &[(170, 5), (257, 50)],
    answer: b"<out><cheap><title>Data on the Web</title></cheap></out>",
};

impl Case<'_> {
    /// What is settled by so many bytes of the document, before its end.
    fn front(&self, count: usize) -> &[u8] {
        for &(upto, written) in self.settled {
            if count <= upto {
                return &self.answer[..written.min(self.answer.len())];
            }
        }
        self.answer
    }

    /// The number of calls of the files before the document is read.
    fn begun(&self, most: usize) -> usize {
        reads(self.query.len(), most).saturating_add(2)
    }

    /// The number of calls of the files in a run without faults.
    fn calls(&self, most: usize) -> usize {
        self.begun(most)
            .saturating_add(reads(self.document.len(), most))
    }

    /// How the run ends whose call of this number of the files fails, and what is written: nothing before DOC is attached,
    /// then exactly what is settled.
    fn at_call(&self, most: usize, number: usize) -> (Status, &[u8]) {
        let begun = self.begun(most);
        if number <= begun {
            (Status::ReadFault, b"".as_slice())
        } else if number <= self.calls(most) {
            let read = (number - begun - 1).saturating_mul(most);
            (Status::ReadFault, self.front(read.min(self.document.len())))
        } else {
            (Status::Ok, self.answer)
        }
    }

    fn run(
        &self,
        rt: &impl Abort,
        alloc: Global,
        most: usize,
        failing: FailingCalls,
    ) -> Result<Ran, Fail> {
        let files = (self.query, self.document);
        run(rt, alloc, &[b"run", b"q", b"d"], files, most, failing)
    }
}

/// The number of reads that give so many bytes and the end, each at most `most` bytes.
fn reads(count: usize, most: usize) -> usize {
    count.div_ceil(most.max(1)).saturating_add(1)
}

/// Each call of the files fails once.
fn files_fail(rt: &impl Abort, alloc: Global, case: Case<'_>, most: usize) -> Result<(), Fail> {
    for number in 1..=case.calls(most).saturating_add(1) {
        let failing = FailingCalls {
            files: Some(number as u64),
            ..NOTHING
        };
        let ran = case.run(rt, alloc, most, failing)?;
        let left = (ran.status, ran.out.as_slice());
        assert_eq!(rt; left, case.at_call(most, number), "call {number}");
    }
    Ok(())
}

/// The run whose write of this number fails.
fn at_write(
    rt: &impl Abort,
    alloc: Global,
    case: &Case<'_>,
    most: usize,
    number: usize,
) -> Result<Ran, Fail> {
    let failing = FailingCalls {
        out: Some(number as u64),
        ..NOTHING
    };
    case.run(rt, alloc, most, failing)
}

/// The answer is whole, or the bytes before the write of this number, where a call more was taken than before.
fn is_written_so_far(rt: &impl Abort, case: &Case<'_>, ran: &Ran, number: usize, before: usize) {
    let written = ran.out.as_slice();
    assert!(rt; case.answer.starts_with(written), "write {number}");
    if ran.status == Status::Ok {
        assert_eq!(rt; written, case.answer, "write {number}");
    } else {
        let line = b"gcx: write fault\n".as_slice();
        assert_eq!(rt;
            (ran.status, ran.err.as_slice()),
            (Status::WriteFault, line),
            "write {number}"
        );
        assert!(rt; number == 1 || before < written.len(), "write {number}");
    }
}

/// Each write fails once: the bytes before it are written.
fn writes_fail(rt: &impl Abort, alloc: Global, case: Case<'_>, most: usize) -> Result<(), Fail> {
    let mut before = 0;
    for number in 1..=case.answer.len().saturating_add(1) {
        let ran = at_write(rt, alloc, &case, most, number)?;
        is_written_so_far(rt, &case, &ran, number, before);
        before = ran.out.len();
    }
    Ok(())
}

/// The cases, and the most bytes that a call moves.
const RUNS: &[(Case<'static>, usize)] = &[(LOOP, 1), (LOOP, 7), (JOIN, 7), (BOOKS, 7)];

#[test]
fn each_call_of_the_files_fails_once(rt: HostRuntime) -> Result<(), Fail> {
    for &(case, most) in RUNS {
        files_fail(&rt, rt.alloc(), case, most)?;
    }
    Ok(())
}

#[test]
fn each_write_fails_once(rt: HostRuntime) -> Result<(), Fail> {
    for &(case, most) in RUNS {
        writes_fail(&rt, rt.alloc(), case, most)?;
    }
    Ok(())
}

#[test]
fn a_read_fault_behind_a_tag_writes_what_the_tag_settles(rt: HostRuntime) -> Result<(), Fail> {
    let query = b"for $x in //a return for $y in $x//b return <h/>".as_slice();
    let document = b"<a><a><b/>".as_slice();
    // an attach and two reads of the query, an attach and one read of the document
    let failing = FailingCalls {
        files: Some(6),
        ..NOTHING
    };
    let words: &[&[u8]] = &[b"run", b"q", b"d"];
    let ran = run(&rt, rt.alloc(), words, (query, document), 65_536, failing)?;
    let written = b"<h></h>".as_slice();
    assert_eq!(rt;
        (ran.status, ran.out.as_slice()),
        (Status::ReadFault, written)
    );
    Ok(())
}

/// A document is refused, and of the line that says so these bytes are written, where the write of this number fails.
fn line_is_cut(rt: &impl Abort, alloc: Global, number: u64, line: &[u8]) -> Result<(), Fail> {
    let failing = FailingCalls {
        err: Some(number),
        ..NOTHING
    };
    let words: &[&[u8]] = &[b"run", b"q", b"d"];
    let ran = run(rt, alloc, words, (LOOP.query, b"<a><b></a>"), 1, failing)?;
    let end = End {
        status: Status::DocumentRefused(DocFault::Syntax(8)),
        out: b"<r><b>",
        err: line,
    };
    assert_eq!(rt; ran.end(), end, "write {number}");
    Ok(())
}

#[test]
fn each_write_of_the_line_fails_once(rt: HostRuntime) -> Result<(), Fail> {
    let line = b"gcx: document Syntax 8\n".as_slice();
    // 23 writes of one byte
    for number in 1..=24usize {
        line_is_cut(&rt, rt.alloc(), number as u64, &line[..number - 1])?;
    }
    Ok(())
}

#[test]
fn a_second_write_that_fails_leaves_the_first(rt: HostRuntime) -> Result<(), Fail> {
    let ran = at_write(&rt, rt.alloc(), &LOOP, 65_536, 2)?;
    assert_eq!(&rt;
        (ran.status, ran.out.as_slice()),
        (Status::WriteFault, b"<r>".as_slice())
    );
    Ok(())
}
