//! What `clap` found.
ghost use Rattle.std.specs.Prelude.{◌≡◌, ◌≤◌, true, IfOk, map, option_map};
ghost use Rattle.clap.specs.Words.{all_of, app_of, first_of, found_of, is_simple_and_free, rows_of};
ghost use Rattle.gcx_words.specs.Rows.{any_number_at, flag_at, found_by, number_at, rows_found};

use clap::error::ErrorKind;
use clap::{ArgMatches, Command};
use gcx_base::{Memory, Text};
use std::alloc::Global;
use std::convert::AsStr;

/// What the parser finds in the words, the first of which is the command's name. None where it doesn't take them.
pub(crate) fn parsed<'a, S: AsStr>(
    parser: Command<'a>,
    words: &'a [S],
) -> Result<Option<ArgMatches<'a>>, Memory>
    requires simple { is_simple_and_free (app_of parser) ≡ true }
    ensures { IfOk result (λ found. rows_found found ≡ found_by (app_of parser.entry) (map S.text words.entry.now)) }
{
    match parser.try_get_matches_from(words) {
        Ok(matches) => Ok(Some(matches)),
        Err(error) => match error.kind() {
            ErrorKind::OutOfMemory => Err(Memory),
            _ => Ok(None),
        },
    }
}

/// The text that was found under an id.
fn text_found<'a>(matches: &ArgMatches<'a>, id: &str) -> Option<&'a str>
    ensures { option_map (λ s. s.now) result ≡ first_of id.now (rows_of (found_of matches.now)) }
{
    matches.get_str(id)
}

/// Whether a flag was given.
pub(crate) fn flag_found(matches: &ArgMatches, id: &str) -> bool
    ensures { result ≡ flag_at id.now (rows_of (found_of matches.now)) }
{
    match text_found(matches, id) {
        Some(text) => text == "true",
        None => false,
    }
}

/// The number that was found under an id.
fn any_number_found(matches: &ArgMatches, id: &str) -> Option<u64>
    ensures { result ≡ any_number_at id.now (rows_of (found_of matches.now)) }
{
    matches.get_one::<u64>(id)
}

/// The same where it lies between two numbers.
pub(crate) fn number_found(matches: &ArgMatches, id: &str, low: u32, high: u32) -> Option<u32>
    ensures { result ≡ number_at low high id.now (rows_of (found_of matches.now)) }
{
    match any_number_found(matches, id) {
        Some(number) if u64::from(low) <= number && number <= u64::from(high) => {
            Some(number as u32)
        }
        _ => None,
    }
}

/// A text of its own.
pub(crate) fn own(alloc: Global, text: &str) -> Result<Text, Memory>
    ensures { IfOk result (λ own. own ≡ text.now) }
{
    let mut string = String::new(alloc);
    string.push_str(text)?;
    Ok(Text::from_string(string))
}

/// The text that was found under an id, as a text of its own.
pub(crate) fn own_found(
    alloc: Global,
    matches: &ArgMatches,
    id: &str,
) -> Result<Option<Text>, Memory>
    ensures { IfOk result (λ text. text ≡ first_of id.now (rows_of (found_of matches.now))) }
{
    match text_found(matches, id) {
        Some(text) => Ok(Some(own(alloc, text)?)),
        None => Ok(None),
    }
}

/// The texts that were found under an id.
pub(crate) fn texts_found<'m, 'a>(matches: &'m ArgMatches<'a>, id: &str) -> Option<&'m [&'a str]>
    ensures { option_map (λ s. map (λ v. v.now) s.now) result ≡ all_of id.now (rows_of (found_of matches.now)) }
{
    matches.get_strs(id)
}
