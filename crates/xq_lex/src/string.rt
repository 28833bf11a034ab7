//! Strings.
ghost use Rattle.std.specs.Prelude.{◌≡◌, ◌≢◌, ◌≤◌, ◌<◌, ◌==◌, ◌||◌, ◌++◌, ◌∷◌, [], ℕ, List, true, length, take, drop, string_bytes, MatchOption, IfOk};
ghost use Rattle.std.specs.Str.{encode_utf8_all};
ghost use Rattle.doc_chars.specs.Reference.{Refers};
ghost use Rattle.xq_lex.specs.Strings.{is_quote, BeginsWithNoPart, Part, HasString, parts_value};
ghost use Rattle.xq_lex.specs.Reading.{HasPart, HasReference, BeginsWithNoReference, HasValue, BeginsWithNoString};

use crate::sign::begins_with;
use doc_chars::{RefStep, Reference};
use gcx_base::{Memory, is_xml_char};
use std::alloc::Global;

/// A part of a string: the character that it stands for, and how many characters it has.
#[derive(Clone, Copy, Debug)]
pub(crate) struct Part {
    pub value: char,
    pub count: usize,
}

/// A string's value, and how many characters it has behind its first delimiter.
#[derive(Drop, Debug)]
pub(crate) struct Quoted {
    pub value: String,
    pub count: usize,
}

pub(crate) fn is_quote(c: char) -> bool
    ensures { result ≡ is_quote c }
{
    c == '"' || c == '\''
}

/// The reference at the front of the text, which stands behind a `&`.
fn reference_at(text: &[char]) -> Option<Part>
    ensures { MatchOption result (BeginsWithNoReference text.now) (λ part. HasReference text.now part.value part.count) }
{
    let mut reference = Reference::new();
    for (i, c) in text.iter().enumerate() {
        match reference.step(*c) {
            RefStep::More => {}
            RefStep::Done(value) => {
                return Some(Part {
                    value,
                    count: i + 1,
                });
            }
            RefStep::Bad => return None,
        }
    }
    None
}

/// The part of a string at the front of the text.
fn part_at(quote: char, text: &[char]) -> Option<Part>
    requires { is_quote quote ≡ true }
    ensures { MatchOption result (BeginsWithNoPart quote text.now) (λ part. HasPart quote text.now part.value part.count) }
{
    let (first, rest) = text.split_first()?;
    if *first == quote {
        if begins_with(rest, quote) {
            Some(Part {
                value: quote,
                count: 2,
            })
        } else {
            None
        }
    } else if *first == '&' {
        let part = reference_at(rest)?;
        Some(Part {
            value: part.value,
            count: part.count + 1,
        })
    } else if is_xml_char(*first) {
        Some(Part {
            value: *first,
            count: 1,
        })
    } else {
        None
    }
}

/// The string at the front of the text, which stands behind the delimiter.
pub(crate) fn string_at(alloc: Global, quote: char, text: &[char]) -> Result<Option<Quoted>, Memory>
    requires { is_quote quote ≡ true }
    ensures { IfOk result (λ found. MatchOption found (BeginsWithNoString quote text.now)
        (λ quoted. HasValue quote text.now (string_bytes quoted.value) quoted.count)) }
{
    let mut value = String::new(alloc);
    let mut count = 0;
    while let Some(part) = part_at(quote, text.split_at(count).1) {
        value.push(part.value)?;
        count += part.count;
    }
    if begins_with(text.split_at(count).1, quote) {
        Ok(Some(Quoted {
            value,
            count: count + 1,
        }))
    } else {
        Ok(None)
    }
}
