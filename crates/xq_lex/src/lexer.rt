//! All tokens of a query.
ghost use Rattle.std.specs.Prelude.{◌≡◌, ◌+◌, ◌<◌, ◌^◌, [], IfOk, IfErr, MatchOption, length, IsUtf8};
ghost use Rattle.std.specs.Str.{chars, encode_utf8_all};
ghost use Rattle.xq_lex.specs.Gap.{HasGap};
ghost use Rattle.xq_lex.specs.Lex.{AreInOrder, HasOnlyFault, HasOnlyTokens, Lexes, LexesAs, LexFault};
ghost use Rattle.gcx_model.specs.Refusals.{UnlessMemory};
ghost use Rattle.xq_lex.specs.Steps.{IsNext, IsStop, IsStopped};

use crate::gap::gap_len;
use crate::lexeme::lexeme_at;
use crate::token::{Tok, Tokens};
use gcx_base::Memory;
use gcx_model::{QueryFault, What};
use simdutf8::compat::from_utf8;
use std::alloc::Global;

/// The most bytes of a query.
const MOST: usize = 1_048_576;

/// A token, and how many characters it and the gap before it have.
#[derive(Drop, Debug)]
pub(crate) struct Step {
    pub token: Tok,
    pub count: usize,
}

/// How many bytes the characters take.
fn size_of(text: &[char]) -> u64
    requires { length (encode_utf8_all text.now) < 2 ^ 64 }
    ensures { result ≡ length (encode_utf8_all text.now) }
{
    let mut size = 0;
    for c in text {
        size += c.len_utf8() as u64;
    }
    size
}

/// The next token of the text, which stands at byte `place` of the query.
fn next_token(alloc: Global, text: &[char], place: u64) -> Result<Option<Step>, QueryFault>
    requires { place + length (encode_utf8_all text.now) < 2 ^ 64 }
    ensures ok { IfOk result (λ next. MatchOption next (HasGap text.now []) (λ step. IsNext place text.now step)) }
    ensures err { IfErr result (IsStop place text.now) }
{
    let (gap, behind) = text.split_at(gap_len(text));
    if behind.is_empty() {
        return Ok(None);
    }
    let from = place + size_of(gap);
    let lexeme = lexeme_at(alloc, behind, from)?;
    let to = from + size_of(behind.split_at(lexeme.count).0);
    Ok(Some(Step {
        token: Tok {
            kind: lexeme.kind,
            from,
            to,
        },
        count: gap.len() + lexeme.count,
    }))
}

/// The tokens of these characters.
fn tokens_of(alloc: Global, text: &[char]) -> Result<Tokens, QueryFault>
    requires { length (encode_utf8_all text.now) < 2 ^ 64 }
    ensures ok { IfOk result (LexesAs text.now) }
    ensures err { IfErr result (IsStopped text.now) }
{
    let mut tokens = Tokens::new(alloc);
    let mut count = 0;
    let mut place = 0;
    while let Some(step) = next_token(alloc, text.split_at(count).1, place)? {
        count += step.count;
        place = step.token.to;
        tokens.push(step.token)?;
    }
    Ok(tokens)
}

fn chars_of(alloc: Global, text: &str) -> Result<Vec<char>, Memory>
    ensures { IfOk result (λ found. found.items ≡ chars text.now) }
{
    let chars = text.chars().collect(alloc)?;
    Ok(chars)
}

/// The tokens of a query of at most 1,048,576 bytes of UTF-8, in order. White space and comments,
/// which nest, may stand before and behind each; the longest token is taken.
///
/// `TooLarge` comes exactly where the query has more bytes; else `Utf8` exactly where it isn't UTF-8,
/// at the first byte of the first bad sequence; else `Lex` exactly where no token begins at a
/// character, also where a comment or a string that begins there isn't one, or `IntegerWide` exactly
/// where a number that begins there is out of range: the digits before the point, with the sign,
/// outside 64 bits, or more than 18 behind it. Of these two the first in the query comes.
pub fn lex(alloc: Global, text: &[u8]) -> Result<Tokens, QueryFault>
    ensures ok { IfOk result (Lexes text.now) }
    ensures in_order { IfOk result (AreInOrder text.now 0) }
    ensures only_tokens { IfOk result (HasOnlyTokens text.now) }
    ensures err { IfErr result (UnlessMemory (LexFault text.now)) }
    ensures only_fault { IfErr result (UnlessMemory (HasOnlyFault text.now)) }
{
    if text.len() > MOST {
        return Err(QueryFault::TooLarge(What::Text, MOST as u64));
    }
    match from_utf8(text) {
        Ok(text) => tokens_of(alloc, &chars_of(alloc, text)?),
        Err(error) => Err(QueryFault::Utf8(error.valid_up_to() as u64)),
    }
}
