//! Numbers and strings.
ghost use Rattle.std.specs.Prelude.{◌≡◌, ◌<◌, ◌+◌, ◌^◌, flat_map, OnOk};
ghost use Rattle.std.specs.Str.{chars, encode_utf8_all};
ghost use Rattle.xq_print.specs.Literals.{fraction_text, minus_text, number_text, places, quoted, string_text, without_zeros};
ghost use Rattle.xq_print.specs.Printed.{Prints};

use gcx_base::{Memory, Text};

/// How many units a number has: they count 10^-18 each.
const UNITS: u128 = 1_000_000_000_000_000_000;

/// How many digits stand behind the point at most.
const PLACES: u32 = 18;

/// A digit's character.
fn digit_char(digit: u64) -> char
    requires { digit < 10 }
    ensures { result ≡ 48 + digit }
{
    char::from(b'0' + digit as u8)
}

/// Appends the digits behind a point, without the zeros at their end.
fn put_places(out: &mut String, fraction: u64) -> Result<(), Memory>
    requires { fraction < 10 ^ 18 }
    ensures { OnOk result (Prints out.old out.new (without_zeros (places 18 fraction))) }
{
    let mut rest = fraction;
    let mut left = PLACES;
    while rest > 0 {
        left -= 1;
        let unit = 10u64.pow(left);
        out.push(digit_char(rest / unit))?;
        rest %= unit;
    }
    Ok(())
}

/// Appends the point and the digits behind it, or nothing where they are zeros.
fn put_fraction(out: &mut String, fraction: u64) -> Result<(), Memory>
    requires { fraction < 10 ^ 18 }
    ensures { OnOk result (Prints out.old out.new (fraction_text fraction)) }
{
    if fraction > 0 {
        out.push_str(".")?;
        put_places(out, fraction)?;
    }
    Ok(())
}

fn put_minus(out: &mut String, units: i128) -> Result<(), Memory>
    ensures { OnOk result (Prints out.old out.new (minus_text units)) }
{
    if units < 0 {
        out.push_str("-")?;
    }
    Ok(())
}

/// Appends a number in units of 10^-18: `-` where it is negative, its integer part, and where it has
/// a fraction the point and the fraction's digits without zeros at their end.
pub fn put_number(out: &mut String, units: i128) -> Result<(), Memory>
    ensures { OnOk result (Prints out.old out.new (number_text units)) }
{
    put_minus(out, units)?;
    let size = units.unsigned_abs();
    let whole = size / UNITS;
    write!(out, "{whole}")?;
    put_fraction(out, (size % UNITS) as u64)
}

/// Appends a character of a string.
fn put_quoted(out: &mut String, c: char) -> Result<(), Memory>
    ensures { OnOk result (Prints out.old out.new (encode_utf8_all (quoted c))) }
{
    match c {
        '"' => out.push_str("\"\"")?,
        '&' => out.push_str("&amp;")?,
        _ => out.push(c)?,
    }
    Ok(())
}

fn put_chars(out: &mut String, text: &str) -> Result<(), Memory>
    ensures { OnOk result (Prints out.old out.new (encode_utf8_all (flat_map quoted (chars text.now)))) }
{
    for c in text.chars() {
        put_quoted(out, c)?;
    }
    Ok(())
}

/// Appends a string in quotes, with each quote in it doubled and `&` as `&amp;`.
pub fn put_string(out: &mut String, text: &Text) -> Result<(), Memory>
    ensures { OnOk result (Prints out.old out.new (string_text text.now)) }
{
    out.push_str("\"")?;
    put_chars(out, text.as_str())?;
    out.push_str("\"")?;
    Ok(())
}
