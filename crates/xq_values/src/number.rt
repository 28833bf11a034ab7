ghost use Rattle.std.specs.Prelude.{◌≡◌, IfSome, option_map, pos, ◌*ℤ◌, ◌≤◌, ◌<◌, ◌-◌, ◌*◌, ◌^◌, ◌++◌, [], ◌∷◌, ◌==◌, ◌↔◌, length, MatchOption, position, true};
ghost use Rattle.std.specs.List.{list_all};
ghost use Rattle.std.specs.Ordering.{nat_cmp, int_cmp};
ghost use Rattle.xq_values.specs.Wholes.{IsWhole};
ghost use Rattle.gcx_base.specs.Characters.{is_white};
ghost use Rattle.gcx_model.specs.Values.{against, CountsAs, Decimal, decimal_of, digits_from, fraction_of, is_digit_byte, is_negative, is_point, number, trimmed, whole_of, without_front, without_sign};

use std::cmp::Ordering;
use std::marker::Model;

/// How many places behind the point a literal has.
const PLACES: usize = 18;

/// A value that counts as a number, seen as that number. It borrows the digits, of which there may
/// be any number.
#[derive(Drop, Debug)]
pub struct NumText<'a> {
    negative: bool,
    whole: &'a [u8],
    fraction: &'a [u8],
}

impl<'a> Model for NumText<'a> {
    ghost use Rattle.std.specs.Prelude.{◌≡◌, ◌++◌, true};
    ghost use Rattle.std.specs.List.{list_all};
    ghost use Rattle.gcx_model.specs.Values.{Decimal, decimal_number, is_digit_byte};

    ghost Value = { Decimal };

    ghost view = { λ n. decimal_number n.negative n.whole.now n.fraction.now };

    ghost invariant = { λ n. list_all is_digit_byte (n.whole.now ++ n.fraction.now) ≡ true };
}

fn is_white(c: u8) -> bool
    ensures { result ≡ is_white c }
{
    c == b' ' || c == b'\t' || c == b'\r' || c == b'\n'
}

fn is_digit(c: u8) -> bool
    ensures { result ≡ is_digit_byte c }
{
    c.is_ascii_digit()
}

fn without_front(value: &[u8]) -> &[u8]
    ensures { result.now ≡ without_front value.now }
{
    let mut rest = value;
    while let [first, others @ ..] = rest {
        if !is_white(*first) {
            break;
        }
        rest = others;
    }
    rest
}

/// The value without the white space at its ends.
fn trimmed(value: &[u8]) -> &[u8]
    ensures { result.now ≡ trimmed value.now }
{
    let mut rest = without_front(value);
    while let Some((last, others)) = rest.split_last() {
        if !is_white(*last) {
            break;
        }
        rest = others;
    }
    rest
}

/// Whether a `-` stands in front, and the text behind its sign.
fn split_sign(text: &[u8]) -> (bool, &[u8])
    ensures negative { result.0 ≡ is_negative text.now }
    ensures unsigned { result.1.now ≡ without_sign text.now }
{
    match text.split_first() {
        None => (false, text),
        Some((first, rest)) => {
            if *first == b'-' {
                (true, rest)
            } else if *first == b'+' {
                (false, rest)
            } else {
                (false, text)
            }
        }
    }
}

fn first_point(text: &[u8]) -> Option<usize>
    ensures { result ≡ position is_point text.now }
{
    text.iter().position(|c| *c == b'.')
}

/// What stands before the first point, and behind it.
fn split_point(text: &[u8]) -> (&[u8], &[u8])
    ensures whole { result.0.now ≡ whole_of text.now }
    ensures fraction { result.1.now ≡ fraction_of text.now }
{
    match first_point(text) {
        Some(at) => (&text[..at], &text[at + 1..]),
        None => (text, &text[text.len()..]),
    }
}

fn are_digits(text: &[u8]) -> bool
    ensures { result ≡ list_all is_digit_byte text.now }
{
    text.iter().all(|c| is_digit(*c))
}

fn are_zeros(digits: &[u8]) -> bool
    ensures { result ≡ list_all (λ d. d == 48) digits.now }
{
    digits.iter().all(|d| *d == b'0')
}

/// One more digit behind those of a number. None where it is 2^128 or more.
fn with_digit(number: u128, digit: u8) -> Option<u128>
    requires { is_digit_byte digit ≡ true }
    ensures { let longer = digits_from number (digit ∷ []) in
        MatchOption result (2 ^ 128 ≤ longer) (λ n. n ≡ longer) }
{
    number
        .checked_mul(10)?
        .checked_add(u128::from(digit - b'0'))
}

/// The number that the digits write behind those of `start`. None where it is 2^128 or more.
fn digits_from(start: u128, digits: &[u8]) -> Option<u128>
    requires { list_all is_digit_byte digits.now ≡ true }
    ensures { let whole = digits_from start digits.now in
        MatchOption result (2 ^ 128 ≤ whole) (λ n. n ≡ whole) }
{
    let mut number = start;
    for digit in digits {
        number = with_digit(number, *digit)?;
    }
    Some(number)
}

/// The number of at most 18 places in units of 10^-18. None where it is 2^128 or more.
fn in_units(whole: &[u8], fraction: &[u8]) -> Option<u128>
    requires digits { list_all is_digit_byte (whole.now ++ fraction.now) ≡ true }
    requires few { length fraction.now ≤ 18 }
    ensures { let size = digits_from 0 (whole.now ++ fraction.now) * 10 ^ (18 - length fraction.now) in
        MatchOption result (2 ^ 128 ≤ size) (λ n. n ≡ size) }
{
    let number = digits_from(digits_from(0, whole)?, fraction)?;
    let missing = (PLACES - fraction.len()) as u32;
    number.checked_mul(10u128.pow(missing))
}

/// Whether the digits write 0 (Equal) or a number above it (Greater).
fn compare_to_zero(digits: &[u8]) -> Ordering
    requires { list_all is_digit_byte digits.now ≡ true }
    ensures { result ≡ nat_cmp (digits_from 0 digits.now) 0 }
{
    if are_zeros(digits) {
        Ordering::Equal
    } else {
        Ordering::Greater
    }
}

/// Compares a number without its sign with a literal's size in units of 10^-18.
fn compare_sizes(whole: &[u8], fraction: &[u8], units: u128) -> Ordering
    requires { list_all is_digit_byte (whole.now ++ fraction.now) ≡ true }
    ensures { let size = digits_from 0 (whole.now ++ fraction.now) in
        result ≡ nat_cmp (size * 10 ^ 18) (units * 10 ^ length fraction.now) }
{
    let (counted, rest) = fraction.split_at(fraction.len().min(PLACES));
    match in_units(whole, counted) {
        Some(size) => size.cmp(&units).then(compare_to_zero(rest)),
        None => Ordering::Greater,
    }
}

impl<'a> NumText<'a> {
    fn of_digits(negative: bool, whole: &'a [u8], fraction: &'a [u8]) -> Option<NumText<'a>>
        ensures { result ≡ decimal_of negative whole.now fraction.now }
    {
        let some = !whole.is_empty() || !fraction.is_empty();
        let digits = are_digits(whole) && are_digits(fraction);
        if !some || !digits {
            return None;
        }
        Some(NumText {
            negative,
            whole,
            fraction,
        })
    }

    /// The number as which the value counts: optional white space, an optional `+` or `-`, at least
    /// one digit, with at most one `.` before, among or behind the digits, optional white space
    /// (this project's rule). None exactly where the value isn't of this form. Takes no memory.
    pub fn read(value: &'a [u8]) -> Option<NumText<'a>>
        ensures number { result ≡ number value.now }
        ensures counts { (d : Decimal) → (result ≡ Some d) ↔ CountsAs value.now d }
    {
        let (negative, unsigned) = split_sign(trimmed(value));
        let (whole, fraction) = split_point(unsigned);
        NumText::of_digits(negative, whole, fraction)
    }

    /// Compares the number with a literal in units of 10^-18, exactly, whatever its length. Takes no
    /// memory.
    pub fn compare(&self, units: i128) -> Ordering
        ensures { result ≡ against self.now units }
    {
        let size = units.unsigned_abs();
        if self.negative {
            if units > 0 {
                Ordering::Less
            } else {
                compare_sizes(self.whole, self.fraction, size).reverse()
            }
        } else if units < 0 {
            Ordering::Greater
        } else {
            compare_sizes(self.whole, self.fraction, size)
        }
    }
}

/// The number that the text writes, where it is 1 to 18 digits and nothing else.
#[inline(always)]
fn whole_number(text: &[u8]) -> Option<u64>
    ensures { IfSome result (λ n. IsWhole text.now n) }
{
    if text.is_empty() || text.len() > PLACES {
        return None;
    }
    let mut number = 0;
    for digit in text {
        if !is_digit(*digit) {
            return None;
        }
        number = number * 10 + u64::from(*digit - b'0');
    }
    Some(number)
}

/// Compares a whole number with a literal in units of 10^-18.
#[inline(always)]
fn compare_whole(number: u64, units: i128) -> Ordering
    ensures { result ≡ int_cmp (pos number *ℤ pos (10 ^ 18)) units }
{
    (i128::from(number) * 1_000_000_000_000_000_000).cmp(&units)
}

/// Compares the number as which the value counts with a literal in units of 10^-18, exactly, whatever its length. None
/// where the value counts as none. Up to 18 digits alone, which most numbers are, are one machine word. Takes no memory.
#[inline(always)]
pub fn compare_number(value: &[u8], units: i128) -> Option<Ordering>
    ensures { result ≡ option_map (λ d. against d units) (number value.now) }
{
    if let Some(whole) = whole_number(value) {
        return Some(compare_whole(whole, units));
    }
    let number = NumText::read(value)?;
    Some(number.compare(units))
}
