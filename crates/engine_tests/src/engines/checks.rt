//! The judging of a trace of the first tokens of a document.
ghost use Rattle.std.specs.Prelude.{◌≡◌, true, map, IfOk};
ghost use Rattle.gcx_model.specs.Growth.{may_all};
ghost use Rattle.gcx_model.specs.Tree.{opening};
ghost use Rattle.doc_reader.specs.Standing.{said_of};

use super::plan_of;
use super::turns::{COPIES, TWO, tokens_of};
use doc_reader::Token;
use gcx_io::MemSource;
use std::alloc::Global;
use std::collections::VecDeque;
use std::process::Abort;
use std::test::Fail;
use trace_check::{Checked, check_run};

/// So many tokens of the document.
fn first_tokens(alloc: Global, count: usize) -> Result<VecDeque<Token>, Fail>
    ensures { IfOk result (λ tokens. may_all (map said_of tokens.items) opening ≡ true) }
{
    let mut tokens = tokens_of(alloc, TWO)?;
    tokens.truncate(count);
    Ok(tokens)
}

/// What this trace of so many tokens is.
fn checked(alloc: Global, count: usize, trace: &[u8]) -> Result<Checked, Fail> {
    let plan = plan_of(alloc, COPIES)?;
    let tokens = first_tokens(alloc, count)?;
    let mut trace = MemSource::new(trace.to_vec(alloc)?, 7, Vec::new(alloc));
    Ok(check_run(alloc, &plan, tokens, &mut trace))
}

/// The lines that each token tells, and the numbers of the first and of the last of them.
pub(super) const TOLD: [(&[u8], u64, u64); 11] = [
    (b"+ 1 a 1\n", 3, 3),
    (b"+ 2 b 2 3\nw 3\n", 4, 5),
    (b"+ 3 # 3\nw 1\n", 6, 7),
    (b"- 2\nw 4\no 2 3\nx 3\no 2 2\nx 2\n", 8, 13),
    (b"+ 4 c\n", 14, 14),
    (b"- 4\nx 4\n", 15, 16),
    (b"+ 5 b 2 3\nw 3\n", 17, 18),
    (b"+ 6 # 3\nw 1\n", 19, 20),
    (b"- 5\nw 4\no 5 3\nx 6\no 5 2\nx 5\n", 21, 26),
    (b"- 1\no 1 1\nx 1\n", 27, 29),
    (b"- 0\nw 4\no 0 0\nx 0\n", 30, 33),
];

/// So many tokens and this trace are judged so.
fn is_judged(
    rt: &impl Abort,
    alloc: Global,
    count: usize,
    trace: &[u8],
    want: Checked,
) -> Result<(), Fail> {
    let found = checked(alloc, count, trace)?;
    assert_eq!(rt; found, want, "{count}");
    Ok(())
}

#[test]
fn each_token_tells_its_lines(rt: HostRuntime) -> Result<(), Fail> {
    let alloc = rt.alloc();
    let mut trace = b"+ 0 / 0\nw 3\n".to_vec(alloc)?;
    is_judged(&rt, alloc, 0, &trace, Checked::Yes(2))?;
    for (fewer, &(told, first, last)) in TOLD.iter().enumerate() {
        let count = fewer.saturating_add(1);
        is_judged(&rt, alloc, count, &trace, Checked::No(first))?;
        trace.extend_from_slice(told)?;
        is_judged(&rt, alloc, fewer, &trace, Checked::No(first))?;
        is_judged(&rt, alloc, count, &trace, Checked::Yes(last))?;
    }
    Ok(())
}
