//! The token at the front of a text.
ghost use Rattle.std.specs.Prelude.{◌≡◌, ◌≢◌, ◌∷◌, ◌++◌, ◌+◌, ◌<◌, ◌^◌, true, false, length, IfOk, IfErr};
ghost use Rattle.xq_lex.specs.Sign.{begins, sign_chars};
ghost use Rattle.xq_lex.specs.Names.{is_pair};
ghost use Rattle.xq_lex.specs.Numbers.{minus_chars};
ghost use Rattle.xq_lex.specs.Strings.{is_quote};
ghost use Rattle.xq_lex.specs.Answer.{IsLexeme, IsRefusal};
ghost use Rattle.xq_lex.specs.Found.{kind_at, of_name, of_number, of_sign};

use crate::name::{begins_name, name_at, name_of};
use crate::number::{is_digit, split_digits, split_fraction, units_of};
use crate::sign::{Sign, begins_with, sign_at};
use crate::string::{is_quote, string_at};
use crate::token::TokKind;
use gcx_base::Text;
use gcx_model::QueryFault;
use std::alloc::Global;

/// A token, and how many characters it has.
#[derive(Drop, Debug)]
pub(crate) struct Lexeme {
    pub kind: TokKind,
    pub count: usize,
}

/// The variable whose name begins behind a `$`.
fn variable_at(alloc: Global, behind: &[char], place: u64) -> Result<Lexeme, QueryFault>
    ensures ok { IfOk result (λ lexeme. IsLexeme (36 ∷ behind.now) lexeme.kind lexeme.count) }
    ensures err { IfErr result (IsRefusal place (36 ∷ behind.now)) }
{
    let chars = name_at(behind);
    if chars.is_empty() {
        return Err(QueryFault::Lex(place));
    }
    let name = name_of(alloc, chars)?;
    Ok(Lexeme {
        kind: TokKind::Var(name),
        count: chars.len() + 1,
    })
}

fn named_at(alloc: Global, text: &[char], place: u64) -> Result<Lexeme, QueryFault>
    requires { kind_at text.now ≡ of_name }
    ensures ok { IfOk result (λ lexeme. IsLexeme text.now lexeme.kind lexeme.count) }
    ensures err { IfErr result (IsRefusal place text.now) }
{
    let chars = name_at(text);
    let name = name_of(alloc, chars)?;
    Ok(Lexeme {
        kind: TokKind::Name(name),
        count: chars.len(),
    })
}

/// The string that begins behind this delimiter.
fn quoted_at(alloc: Global, quote: char, behind: &[char], place: u64) -> Result<Lexeme, QueryFault>
    requires { is_quote quote ≡ true }
    ensures ok { IfOk result (λ lexeme. IsLexeme (quote ∷ behind.now) lexeme.kind lexeme.count) }
    ensures err { IfErr result (IsRefusal place (quote ∷ behind.now)) }
{
    match string_at(alloc, quote, behind)? {
        Some(quoted) => Ok(Lexeme {
            kind: TokKind::Str(Text::from_string(quoted.value)),
            count: quoted.count + 1,
        }),
        None => Err(QueryFault::Lex(place)),
    }
}

/// How many characters a number has with its sign.
fn signed_len(minus: bool, len: usize) -> usize
    requires { len < 2 ^ 63 }
    ensures { result ≡ length (minus_chars minus) + len }
{
    if minus { len + 1 } else { len }
}

fn number_kind(units: i128) -> TokKind
    ensures { result ≡ TokKind.Number units }
{
    TokKind::Number(units)
}

/// The number whose digits begin here, behind a `-` or without one.
fn number_at(minus: bool, text: &[char], place: u64) -> Result<Lexeme, QueryFault>
    requires kind { kind_at (minus_chars minus ++ text.now) ≡ of_number }
    requires unsigned { minus ≡ false → begins 45 text.now ≡ false }
    ensures ok { IfOk result (λ lexeme. IsLexeme (minus_chars minus ++ text.now) lexeme.kind lexeme.count) }
    ensures err { IfErr result (IsRefusal place (minus_chars minus ++ text.now)) }
{
    let (whole, behind) = split_digits(text);
    if whole.is_empty() {
        return Err(QueryFault::Lex(place));
    }
    let (fraction, rest) = split_fraction(behind);
    match units_of(minus, whole, fraction) {
        Some(units) => Ok(Lexeme {
            kind: number_kind(units),
            count: signed_len(minus, text.len() - rest.len()),
        }),
        None => Err(QueryFault::IntegerWide(place)),
    }
}

fn sign_len(sign: Sign) -> usize
    ensures { result ≡ length (sign_chars sign) }
{
    match sign {
        Sign::SlashSlash
        | Sign::Axis
        | Sign::Ne
        | Sign::Le
        | Sign::Ge
        | Sign::EndTag
        | Sign::EmptyEnd => 2,
        _ => 1,
    }
}

fn sign_lexeme(text: &[char], place: u64) -> Result<Lexeme, QueryFault>
    requires { kind_at text.now ≡ of_sign }
    ensures ok { IfOk result (λ lexeme. IsLexeme text.now lexeme.kind lexeme.count) }
    ensures err { IfErr result (IsRefusal place text.now) }
{
    match sign_at(text) {
        Some(sign) => Ok(Lexeme {
            kind: TokKind::Sign(sign),
            count: sign_len(sign),
        }),
        None => Err(QueryFault::Lex(place)),
    }
}

/// The longest token at the front of a text, which stands at byte `place` of the query.
#[tactic(auto, unfolding(crate::specs::Found::kind_at))]
pub(crate) fn lexeme_at(alloc: Global, text: &[char], place: u64) -> Result<Lexeme, QueryFault>
    requires { 0 < length text.now }
    ensures ok { IfOk result (λ lexeme. IsLexeme text.now lexeme.kind lexeme.count) }
    ensures err { IfErr result (IsRefusal place text.now) }
{
    match text.split_first() {
        None => unreachable!(),
        Some((first, behind)) => {
            if *first == '$' {
                variable_at(alloc, behind, place)
            } else if is_quote(*first) {
                quoted_at(alloc, *first, behind, place)
            } else if *first == '-' {
                number_at(true, behind, place)
            } else if is_digit(*first) {
                number_at(false, text, place)
            } else if begins_name(*first, behind) {
                named_at(alloc, text, place)
            } else {
                sign_lexeme(text, place)
            }
        }
    }
}
