//! Numbers.
ghost use Rattle.std.specs.Prelude.{◌≡◌, ◌≤◌, ◌*◌, ◌-◌, ◌^◌, ◌∷◌, ◌++◌, [], true, false, length, drop, MatchOption, IfSome, FitsSigned};
ghost use Rattle.std.specs.List.{list_all};
ghost use Rattle.std.specs.Int.{w128};
ghost use Rattle.gcx_model.specs.Values.{digits_from, is_digit_byte};
ghost use Rattle.xq_lex.specs.Numbers.{digits_at, fraction_at, fraction_chars, is_wide, most_of, units_of};

/// How many digits may stand behind the point.
const PLACES: usize = 18;

pub(crate) fn is_digit(c: char) -> bool
    ensures { result ≡ is_digit_byte c }
{
    c.is_ascii_digit()
}

/// The digits at the front of the text, and what stands behind them.
pub(crate) fn split_digits(text: &[char]) -> (&[char], &[char])
    ensures digits { result.0.now ≡ digits_at text.now }
    ensures rest { result.1.now ≡ drop (length (digits_at text.now)) text.now }
    ensures all { list_all is_digit_byte result.0.now ≡ true }
{
    let mut len = 0;
    let mut rest = text;
    while let Some((first, behind)) = rest.split_first() {
        if !is_digit(*first) {
            break;
        }
        len += 1;
        rest = behind;
    }
    text.split_at(len)
}

/// The digits behind a point at the front of the text, and what stands behind them.
pub(crate) fn split_fraction(text: &[char]) -> (&[char], &[char])
    ensures fraction { result.0.now ≡ fraction_at text.now }
    ensures rest { text.now ≡ fraction_chars result.0.now ++ result.1.now }
    ensures all { list_all is_digit_byte result.0.now ≡ true }
{
    match text.split_first() {
        Some((first, behind)) if *first == '.' => {
            let (digits, rest) = split_digits(behind);
            if digits.is_empty() {
                (digits, text)
            } else {
                (digits, rest)
            }
        }
        _ => text.split_at(0),
    }
}

/// One digit more behind those of a number. None where it is 2^64 or more.
fn with_digit(number: u64, digit: char) -> Option<u64>
    requires { is_digit_byte digit ≡ true }
    ensures { let longer = digits_from number (digit ∷ []) in
        MatchOption result (2 ^ 64 ≤ longer) (λ n. n ≡ longer) }
{
    let digit = u64::from(digit as u32 - '0' as u32);
    number.checked_mul(10)?.checked_add(digit)
}

/// The number that the digits write. None where it is 2^64 or more.
fn digits_value(digits: &[char]) -> Option<u64>
    requires { list_all is_digit_byte digits.now ≡ true }
    ensures { let whole = digits_from 0 digits.now in
        MatchOption result (2 ^ 64 ≤ whole) (λ n. n ≡ whole) }
{
    let mut number = 0;
    for digit in digits {
        number = with_digit(number, *digit)?;
    }
    Some(number)
}

/// What at most 18 digits behind the point count in units of 10^-18.
fn fraction_units(digits: &[char]) -> u64
    requires digits { list_all is_digit_byte digits.now ≡ true }
    requires few { length digits.now ≤ 18 }
    ensures { result ≡ digits_from 0 digits.now * 10 ^ (18 - length digits.now) }
{
    match digits_value(digits) {
        Some(number) => number * 10u64.pow((PLACES - digits.len()) as u32),
        None => unreachable!(),
    }
}

/// The largest number before the point.
fn most_of(minus: bool) -> u64
    ensures { result ≡ most_of minus }
{
    if minus { 1 << 63 } else { i64::MAX as u64 }
}

/// The number in units of 10^-18. None where it is out of range.
pub(crate) fn units_of(minus: bool, whole: &[char], fraction: &[char]) -> Option<i128>
    requires whole { list_all is_digit_byte whole.now ≡ true }
    requires fraction { list_all is_digit_byte fraction.now ≡ true }
    ensures value { MatchOption result (is_wide minus whole.now fraction.now ≡ true)
        (λ units. (is_wide minus whole.now fraction.now ≡ false) × (units ≡ units_of minus whole.now fraction.now)) }
    ensures fits { IfSome result (λ units. FitsSigned w128 units) }
{
    let number = digits_value(whole)?;
    if number > most_of(minus) || fraction.len() > PLACES {
        return None;
    }
    let size = u128::from(number) * 10u128.pow(PLACES as u32)
        + u128::from(fraction_units(fraction));
    let size = size as i128;
    Some(if minus { -size } else { size })
}
