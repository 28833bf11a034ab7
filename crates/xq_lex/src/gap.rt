//! White space and comments.
ghost use Rattle.std.specs.Prelude.{◌≡◌, ◌≤◌, ◌==◌, ◌&&◌, ◌∷◌, false, length, drop, Some, None, MatchOption};
ghost use Rattle.xq_lex.specs.Sign.{opens_comment};
ghost use Rattle.xq_lex.specs.Gap.{EndsGap, HasGap};
ghost use Rattle.xq_lex.specs.Closing.{before_is, behind_comment, closes, opens, HasGapPart};

use gcx_base::{is_space, is_xml_char};

fn is_before(before: Option<char>, c: char) -> bool
    ensures { result ≡ before_is c before }
{
    match before {
        Some(before) => before == c,
        None => false,
    }
}

fn opens(before: Option<char>, c: char) -> bool
    ensures { result ≡ opens before c }
{
    is_before(before, '(') && c == ':'
}

fn closes(before: Option<char>, c: char) -> bool
    ensures { result ≡ closes before c }
{
    is_before(before, ':') && c == ')'
}

/// How many characters stand behind the first mark of a comment up to its end. None where it isn't
/// closed, or not before a character that no query may have.
fn comment_len(text: &[char]) -> Option<usize>
    ensures { MatchOption result (behind_comment 0 None text.now ≡ None)
        (λ len. (len ≤ length text.now) × (behind_comment 0 None text.now ≡ Some (drop len text.now))) }
{
    let mut depth: usize = 0;
    let mut before = None;
    for (i, c) in text.iter().enumerate() {
        if !is_xml_char(*c) {
            return None;
        }
        if opens(before, *c) {
            depth += 1;
            before = None;
        } else if closes(before, *c) {
            if depth == 0 {
                return Some(i + 1);
            }
            depth -= 1;
            before = None;
        } else {
            before = Some(*c);
        }
    }
    None
}

/// What stands behind the first mark of a comment.
fn behind_mark(text: &[char]) -> Option<&[char]>
    ensures { MatchOption result (opens_comment text.now ≡ false) (λ inner. text.now ≡ 40 ∷ 58 ∷ inner.now) }
{
    let (first, rest) = text.split_first()?;
    let (second, inner) = rest.split_first()?;
    if *first == '(' && *second == ':' {
        Some(inner)
    } else {
        None
    }
}

/// How many characters the white space or the comment at the front of the text has.
fn part_len(text: &[char]) -> Option<usize>
    ensures { MatchOption result (EndsGap text.now)
        (λ len. (len ≤ length text.now) × HasGapPart text.now (drop len text.now)) }
{
    match text.first() {
        Some(first) if is_space(*first) => Some(1),
        _ => {
            let inner = behind_mark(text)?;
            let len = comment_len(inner)?;
            Some(len + 2)
        }
    }
}

/// How many characters stand before the next token: white space and comments, which nest.
pub(crate) fn gap_len(text: &[char]) -> usize
    ensures within { result ≤ length text.now }
    ensures gap { HasGap text.now (drop result text.now) }
{
    let mut len = 0;
    while let Some(more) = part_len(text.split_at(len).1) {
        len += more;
    }
    len
}
