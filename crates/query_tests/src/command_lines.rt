//! A table of command lines. What each means is worked out from `clap`'s definition of a simple command.
use gcx_base::{Memory, Text};
use gcx_words::{Command, Pair, command_of};
use std::alloc::{AllocError, Global};
use std::process::Abort;
use std::test::Fail;

fn text(alloc: Global, word: &str) -> Result<Text, Fail> {
    match Text::from_bytes(alloc, word.as_bytes())? {
        Some(text) => Ok(text),
        None => Err(Fail::new("not a text")),
    }
}

/// The words between the bars.
fn words(alloc: Global, line: &str) -> Result<Vec<Text>, Fail> {
    let mut words = Vec::new(alloc);
    for word in line.split('|') {
        words.push(text(alloc, word)?)?;
    }
    Ok(words)
}

/// A command's name, its query and its document in one line.
fn over(alloc: Global, name: &str, query: &Text, document: &Text) -> Result<String, AllocError> {
    format!(in alloc; "{name} {} {}", query.as_str(), document.as_str())
}

fn run_shown(
    alloc: Global,
    trace: bool,
    ahead: u32,
    query: &Text,
    document: &Text,
) -> Result<String, AllocError> {
    let (q, d) = (query.as_str(), document.as_str());
    format!(in alloc; "run {trace} {ahead} {q} {d}")
}

fn check_shown(
    alloc: Global,
    query: &Text,
    document: &Text,
    trace: &Text,
) -> Result<String, AllocError> {
    let (q, d, t) = (query.as_str(), document.as_str(), trace.as_str());
    format!(in alloc; "check {q} {d} {t}")
}

/// The pairs of `many`, each with a space before it.
fn many_shown(alloc: Global, document: &Text, pairs: &[Pair]) -> Result<String, AllocError> {
    let mut line = format!(in alloc; "many {}", document.as_str())?;
    for pair in pairs {
        let (query, out) = (pair.query.as_str(), pair.out.as_str());
        let next = format!(in alloc; " {query}>{out}")?;
        line.push_str(&next)?;
    }
    Ok(line)
}

/// A command and its arguments in one line, `none` where there is none.
fn shown(alloc: Global, command: &Option<Command>) -> Result<String, AllocError> {
    match command {
        None => format!(in alloc; "none"),
        Some(
            Command::Run {
                trace,
                ahead,
                query,
                document,
            },
        ) => run_shown(alloc, *trace, *ahead, query, document),
        Some(Command::Whole { query, document }) => over(alloc, "whole", query, document),
        Some(Command::Explain { query }) => format!(in alloc; "explain {}", query.as_str()),
        Some(Command::Peak { query, document }) => over(alloc, "peak", query, document),
        Some(Command::Gen { seed, count }) => format!(in alloc; "gen {seed} {count}"),
        Some(Command::Selfrun { seed, count }) => format!(in alloc; "selfrun {seed} {count}"),
        Some(Command::Many { document, pairs }) => many_shown(alloc, document, pairs.items()),
        Some(
            Command::Check {
                query,
                document,
                trace,
            },
        ) => check_shown(alloc, query, document, trace),
    }
}

/// Each line with what it means.
const RUNS: &[(&str, &str)] = &[
    ("run|q|d", "run false 1 q d"),
    ("run|--trace|q|d", "run true 1 q d"),
    ("run|q|--trace|d", "run true 1 q d"),
    ("run|q|d|--trace", "run true 1 q d"),
    ("run|--ahead|3|q|d", "run false 3 q d"),
    ("run|--ahead=3|q|d", "run false 3 q d"),
    ("run|q|--ahead|3|d", "run false 3 q d"),
    ("run|q|d|--ahead|1000", "run false 1000 q d"),
    ("run|--ahead=+5|q|d", "run false 5 q d"),
    ("run|--ahead|007|q|d", "run false 7 q d"),
    ("run|--ahead=1|q|d", "run false 1 q d"),
    ("run|--ahead|0|q|d", "none"),
    ("run|--ahead|1001|q|d", "none"),
    ("run|--ahead=|q|d", "none"),
    ("run|--ahead|-5|q|d", "none"),
    ("run|--ahead|0x5|q|d", "none"),
    ("run|--ahead| 3|q|d", "none"),
    ("run|--ahead|3|--ahead|3|q|d", "none"),
    ("run|--trace|--trace|q|d", "none"),
    ("run|--trace|--ahead|3|q|d", "none"),
    ("run|--ahead=1|--trace|q|d", "none"),
    ("run|--ahead|--trace|q|d", "none"),
    ("run|--trace=true|q|d", "none"),
    ("run|--tra|q|d", "none"),
    ("run|--ahea=3|q|d", "none"),
    ("run|-t|q|d", "none"),
    ("run|--|--trace|d", "run false 1 --trace d"),
    ("run|--|q|d", "run false 1 q d"),
    ("run|q|--|d", "run false 1 q d"),
    ("run|q|--|--help", "run false 1 q --help"),
    ("run|--|q|d|--trace", "none"),
    ("run|-|-", "run false 1 - -"),
    ("run||d", "run false 1  d"),
    ("run|q|", "run false 1 q "),
    ("run|q", "none"),
    ("run", "none"),
    ("run|q|d|e", "none"),
    ("run|-q|d", "none"),
    ("run|--help", "none"),
    ("run|q|d|--help", "none"),
    ("run|-h|q|d", "none"),
    ("run|--version|q|d", "none"),
    ("run|q|d|--ahead", "none"),
    ("run|q|é", "run false 1 q é"),
];

const MANY: &[(&str, &str)] = &[
    ("many|d|q|o", "many d q>o"),
    ("many|d|q|o|q|p", "many d q>o q>p"),
    ("many|-|-|o", "many - ->o"),
    ("many|d|d|o", "many d d>o"),
    ("many|--|d|q|--help", "many d q>--help"),
    ("many|d|--|q|-o", "many d q>-o"),
    (
        "many|d|q|a|q|b|q|c|q|e|q|f|q|g|q|h|q|i|q|j|q|k|q|l|q|m|q|n|q|o|q|p|q|r",
        "many d q>a q>b q>c q>e q>f q>g q>h q>i q>j q>k q>l q>m q>n q>o q>p q>r",
    ),
    (
        "many|d|q|a|q|b|q|c|q|e|q|f|q|g|q|h|q|i|q|j|q|k|q|l|q|m|q|n|q|o|q|p|q|r|q|s",
        "none",
    ),
    ("many|d|q|o|p|o", "none"),
    ("many|d|q|d", "none"),
    ("many|d|q|q", "none"),
    ("many|d|q|p|p|o", "none"),
    ("many|d|q|o|p|q", "none"),
    ("many|d|q|-", "none"),
    ("many|d|q|o|p", "none"),
    ("many|d|q", "none"),
    ("many|d", "none"),
    ("many", "none"),
    ("many|--trace|d|q|o", "none"),
    ("many|d|q|o|--help", "none"),
];

const OTHERS: &[(&str, &str)] = &[
    ("whole|q|d", "whole q d"),
    ("whole|q", "none"),
    ("whole|--trace|q|d", "none"),
    ("whole|--|-a|-b", "whole -a -b"),
    ("explain|q", "explain q"),
    ("explain|-", "explain -"),
    ("explain", "none"),
    ("explain|q|d", "none"),
    ("explain|help", "explain help"),
    ("peak|q|d", "peak q d"),
    ("peak|--ahead|3|q|d", "none"),
    ("peak|q|d|-h", "none"),
    ("gen|5|2", "gen 5 2"),
    ("gen|0|1", "gen 0 1"),
    ("gen|4294967295|100000", "gen 4294967295 100000"),
    ("gen|4294967296|1", "none"),
    ("gen|5|0", "none"),
    ("gen|5|100001", "none"),
    ("gen|+5|007", "gen 5 7"),
    ("gen|-1|1", "none"),
    ("gen|5", "none"),
    ("gen||1", "none"),
    ("gen|5|2 ", "none"),
    ("gen|--|5|2", "gen 5 2"),
    ("gen|--|-0|1", "none"),
    ("selfrun|5|1000", "selfrun 5 1000"),
    ("selfrun|5|1000|1", "none"),
    ("check|q|d|t", "check q d t"),
    ("check|q|d", "none"),
    ("check|q|d|t|t", "none"),
    ("check", "none"),
    ("check|--trace|q|d|t", "none"),
    ("check|q|d|--trace", "none"),
    ("check|--|q|d|t", "check q d t"),
    ("check|q|--|d|-t", "check q d -t"),
    ("check|-|-|-", "check - - -"),
    ("check|q|d|t|--help", "none"),
    ("Check|q|d|t", "none"),
    ("Run|q|d", "none"),
    ("ru|q|d", "none"),
    ("run |q|d", "none"),
    ("help", "none"),
    ("--help", "none"),
    ("-h", "none"),
    ("|q|d", "none"),
];

/// What these words mean, in one line.
fn meant(alloc: Global, words: &[Text]) -> Result<String, Memory> {
    let command = command_of(alloc, words)?;
    Ok(shown(alloc, &command)?)
}

fn line_meant(alloc: Global, line: &str) -> Result<String, Fail> {
    let words = words(alloc, line)?;
    Ok(meant(alloc, &words)?)
}

/// The command line has this meaning.
fn is_read(rt: &impl Abort, alloc: Global, line: &str, meaning: &str) -> Result<(), Fail> {
    let meant = line_meant(alloc, line)?;
    assert_eq!(rt; meant.as_str(), meaning, "{line}");
    Ok(())
}

/// These command lines have these meanings.
fn are_read(rt: &impl Abort, alloc: Global, rows: &[(&str, &str)]) -> Result<(), Fail> {
    for &(line, meaning) in rows {
        is_read(rt, alloc, line, meaning)?;
    }
    Ok(())
}

#[test]
fn command_lines_are_read(rt: HostRuntime) -> Result<(), Fail> {
    for rows in &[RUNS, MANY, OTHERS] {
        are_read(&rt, rt.alloc(), rows)?;
    }
    Ok(())
}

#[test]
fn no_words_are_no_command(rt: HostRuntime) -> Result<(), Fail> {
    let command = command_of(rt.alloc(), &Vec::new(rt.alloc()))?;
    assert!(rt; command.is_none());
    Ok(())
}
