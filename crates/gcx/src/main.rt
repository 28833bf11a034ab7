//! The program: it makes the real shelf, the standard streams and the store of nodes, takes its words and ends with the
//! exit status.
#![tactic(auto)]

mod help;

use gcx_base::Text;
use gcx_cmd::{Status, diagnose, gcx_files};
use gcx_io::{FileShelf, StdErr, StdOut};
use help::text_asked_for;
use raw_nodes::RawNodes;
use std::env;
use std::io::{ErrorKind, Write};
use std::process::ExitCode;

/// The words after the program's name, or the status to end with.
fn words(rt: HostRuntime) -> Result<Vec<Text>, Status> {
    let all = match env::args(&rt) {
        Ok(all) => all,
        Err(error) if error.kind() == ErrorKind::OutOfMemory => return Err(Status::Memory),
        Err(_) => return Err(Status::Usage),
    };
    let mut words = Vec::new(rt.alloc());
    for word in all.skip(1) {
        if words.push(Text::from_string(word)).is_err() {
            return Err(Status::Memory);
        }
    }
    Ok(words)
}

/// Runs the command line that the words are.
fn run(rt: HostRuntime, words: &[Text]) -> Status {
    let mut files = FileShelf::new(rt, rt);
    let mut out = StdOut::new(rt);
    let mut err = StdErr::new(rt);
    let mut nodes = RawNodes::new(rt.alloc());
    gcx_files(
        rt.alloc(),
        words,
        &mut files,
        &mut out,
        &mut err,
        &mut nodes,
    )
}

fn main(rt: HostRuntime) -> ExitCode {
    let words = match words(rt) {
        Ok(words) => words,
        Err(status) => {
            diagnose(&mut StdErr::new(rt), status);
            return ExitCode::from(status.code());
        }
    };
    let status = run(rt, &words);
    if matches!(status, Status::Usage)
        && let Some(text) = text_asked_for(&words)
    {
        // A fault of standard output changes nothing: the words are no command line.
        let _ = rt.stdout().write_all(text.as_bytes());
    }
    ExitCode::from(status.code())
}
