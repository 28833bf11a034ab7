//! From words to a command.
ghost use Rattle.std.specs.Prelude.{◌≡◌, ◌+◌, ℕ, List, [], None, Ok, IfOk, IfSome, map, take};
ghost use Rattle.clap.specs.Words.{found_of, rows_of};
ghost use Rattle.gcx_words.specs.Words.{as_check, command_of, as_explain, found_as, as_gen, named, named_by, numbers_of};
ghost use Rattle.gcx_words.specs.Words.{as_many, many_with, pair_of, as_peak, read, as_run, run_with, as_selfrun, as_whole};
ghost use Rattle.gcx_words.specs.Pairs.{are_paired};
ghost use Rattle.gcx_words.specs.Within.{IsWithin};

use crate::command::{Command, CommandName};
use crate::found::{flag_found, number_found, own_found, parsed, texts_found};
use crate::pairs::{Pairs, are_apart};
use crate::parsers::parser_of;
use clap::ArgMatches;
use gcx_base::{Memory, Text};
use std::alloc::Global;

/// The command of this name.
fn named_by(word: &[u8]) -> Option<CommandName>
    ensures { result ≡ named_by word.now }
{
    if word == b"run".as_slice() {
        Some(CommandName::Run)
    } else if word == b"whole".as_slice() {
        Some(CommandName::Whole)
    } else if word == b"explain".as_slice() {
        Some(CommandName::Explain)
    } else if word == b"peak".as_slice() {
        Some(CommandName::Peak)
    } else if word == b"gen".as_slice() {
        Some(CommandName::Gen)
    } else if word == b"selfrun".as_slice() {
        Some(CommandName::Selfrun)
    } else if word == b"many".as_slice() {
        Some(CommandName::Many)
    } else if word == b"check".as_slice() {
        Some(CommandName::Check)
    } else {
        None
    }
}

/// The command that the first word names.
fn named(words: &[Text]) -> Option<CommandName>
    ensures { result ≡ named words.now }
{
    named_by(words.first()?.as_bytes())
}

/// The words as clap takes them.
fn texts_of<'t>(alloc: Global, words: &'t [Text]) -> Result<Vec<&'t str>, Memory>
    ensures { IfOk result (λ texts. map (λ t. t.now) texts.items ≡ words.entry.now) }
{
    let mut texts = Vec::new(alloc);
    for word in words {
        texts.push(word.as_str())?;
    }
    Ok(texts)
}

/// A run with a trace takes no number of tokens.
fn run_with(trace: bool, ahead: Option<u32>, query: Text, document: Text) -> Option<Command>
    ensures { result ≡ run_with trace ahead query document }
{
    match ahead {
        None => Some(Command::Run {
            trace,
            ahead: 1,
            query,
            document,
        }),
        Some(_) if trace => None,
        Some(ahead) => Some(Command::Run {
            trace,
            ahead,
            query,
            document,
        }),
    }
}

/// QUERY and DOC.
fn pair_of(alloc: Global, matches: &ArgMatches) -> Result<Option<(Text, Text)>, Memory>
    ensures { IfOk result (λ pair. pair ≡ pair_of (rows_of (found_of matches.now))) }
{
    let Some(query) = own_found(alloc, matches, "query")? else {
        return Ok(None);
    };
    let Some(document) = own_found(alloc, matches, "document")? else {
        return Ok(None);
    };
    Ok(Some((query, document)))
}

/// SEED and N.
fn numbers_of(matches: &ArgMatches) -> Option<(u32, u32)>
    ensures { result ≡ numbers_of (rows_of (found_of matches.now)) }
{
    let seed = number_found(matches, "seed", 0, 4_294_967_295)?;
    let count = number_found(matches, "count", 1, 100_000)?;
    Some((seed, count))
}

fn as_run(alloc: Global, matches: &ArgMatches) -> Result<Option<Command>, Memory>
    ensures { IfOk result (λ c. c ≡ as_run (rows_of (found_of matches.now))) }
{
    let Some((query, document)) = pair_of(alloc, matches)? else {
        return Ok(None);
    };
    let trace = flag_found(matches, "trace");
    let ahead = number_found(matches, "ahead", 1, 1000);
    Ok(run_with(trace, ahead, query, document))
}

fn as_whole(alloc: Global, matches: &ArgMatches) -> Result<Option<Command>, Memory>
    ensures { IfOk result (λ c. c ≡ as_whole (rows_of (found_of matches.now))) }
{
    match pair_of(alloc, matches)? {
        Some((query, document)) => Ok(Some(Command::Whole { query, document })),
        None => Ok(None),
    }
}

fn as_explain(alloc: Global, matches: &ArgMatches) -> Result<Option<Command>, Memory>
    ensures { IfOk result (λ c. c ≡ as_explain (rows_of (found_of matches.now))) }
{
    match own_found(alloc, matches, "query")? {
        Some(query) => Ok(Some(Command::Explain { query })),
        None => Ok(None),
    }
}

fn as_peak(alloc: Global, matches: &ArgMatches) -> Result<Option<Command>, Memory>
    ensures { IfOk result (λ c. c ≡ as_peak (rows_of (found_of matches.now))) }
{
    match pair_of(alloc, matches)? {
        Some((query, document)) => Ok(Some(Command::Peak { query, document })),
        None => Ok(None),
    }
}

fn as_gen(matches: &ArgMatches) -> Option<Command>
    ensures { result ≡ as_gen (rows_of (found_of matches.now)) }
{
    let (seed, count) = numbers_of(matches)?;
    Some(Command::Gen { seed, count })
}

fn as_selfrun(matches: &ArgMatches) -> Option<Command>
    ensures { result ≡ as_selfrun (rows_of (found_of matches.now)) }
{
    let (seed, count) = numbers_of(matches)?;
    Some(Command::Selfrun { seed, count })
}

/// QUERY, DOC and TRACE.
fn as_check(alloc: Global, matches: &ArgMatches) -> Result<Option<Command>, Memory>
    ensures { IfOk result (λ c. c ≡ as_check (rows_of (found_of matches.now))) }
{
    let Some((query, document)) = pair_of(alloc, matches)? else {
        return Ok(None);
    };
    let Some(trace) = own_found(alloc, matches, "trace")? else {
        return Ok(None);
    };
    Ok(Some(Command::Check {
        query,
        document,
        trace,
    }))
}

/// Whether no word is left over, and there are 32 at most.
fn are_paired(words: &[&str]) -> bool
    ensures { result ≡ are_paired (map (λ w. w.now) words.now) }
{
    words.len() % 2 == 0 && words.len() <= 32
}

/// The words behind DOC come in pairs, and each OUT is a name of its own.
fn many_with(alloc: Global, document: Text, words: &[&str]) -> Result<Option<Command>, Memory>
    ensures { IfOk result (λ c. c ≡ many_with document (map (λ w. w.now) words.now)) }
{
    if !are_paired(words) {
        return Ok(None);
    }
    let pairs = Pairs::of_words(alloc, words)?;
    if !are_apart(document.as_bytes(), pairs.items()) {
        return Ok(None);
    }
    Ok(Some(Command::Many { document, pairs }))
}

/// DOC, and the pairs of a QUERY and an OUT.
fn as_many(alloc: Global, matches: &ArgMatches) -> Result<Option<Command>, Memory>
    ensures { IfOk result (λ c. c ≡ as_many (rows_of (found_of matches.now))) }
{
    let Some(document) = own_found(alloc, matches, "document")? else {
        return Ok(None);
    };
    let Some(words) = texts_found(matches, "pair") else {
        return Ok(None);
    };
    many_with(alloc, document, words)
}

/// The command of this name of what was found.
fn found_as(
    alloc: Global,
    name: CommandName,
    matches: &ArgMatches,
) -> Result<Option<Command>, Memory>
    ensures { IfOk result (λ c. c ≡ found_as name (rows_of (found_of matches.now))) }
{
    match name {
        CommandName::Run => as_run(alloc, matches),
        CommandName::Whole => as_whole(alloc, matches),
        CommandName::Explain => as_explain(alloc, matches),
        CommandName::Peak => as_peak(alloc, matches),
        CommandName::Gen => Ok(as_gen(matches)),
        CommandName::Selfrun => Ok(as_selfrun(matches)),
        CommandName::Many => as_many(alloc, matches),
        CommandName::Check => as_check(alloc, matches),
    }
}

/// The command that all of the words ask for, where the first one names this command.
fn read(alloc: Global, name: CommandName, words: &[&str]) -> Result<Option<Command>, Memory>
    ensures { IfOk result (λ c. c ≡ read name (map (λ w. w.now) words.now)) }
{
    match parsed(parser_of(alloc, name)?, words)? {
        Some(matches) => found_as(alloc, name, &matches),
        None => Ok(None),
    }
}

/// The command that the words ask for, None where they are no command line. No memory is taken where there is no word or the
/// first word names no command.
pub fn command_of(alloc: Global, words: &[Text]) -> Result<Option<Command>, Memory>
    ensures command { IfOk result (λ c. c ≡ command_of words.now) }
    ensures within { IfOk result (λ c. IfSome c IsWithin) }
    ensures unnamed { named words.now ≡ None → result ≡ Ok None }
{
    let Some(name) = named(words) else {
        return Ok(None);
    };
    let texts = texts_of(alloc, words)?;
    read(alloc, name, &texts)
}
