//! How numbers and strings of queries are printed.
use gcx_base::Text;
use std::alloc::Global;
use std::process::Abort;
use std::test::Fail;
use xq_print::{put_number, put_string};

fn number(alloc: Global, units: i128) -> Result<String, Fail> {
    let mut out = String::new(alloc);
    put_number(&mut out, units)?;
    Ok(out)
}

#[test]
fn numbers_have_no_zeros_at_their_end(rt: HostRuntime) -> Result<(), Fail> {
    let rows: &[(i128, &str)] = &[
        (0, "0"),
        (1_000_000_000_000_000_000, "1"),
        (100_000_000_000_000_000_000, "100"),
        (-500_000_000_000_000_000, "-0.5"),
        (1_050_000_000_000_000_000, "1.05"),
        (1, "0.000000000000000001"),
        (-123_456_789_012_345_678, "-0.123456789012345678"),
        (
            9_223_372_036_854_775_807_000_000_000_000_000_000,
            "9223372036854775807",
        ),
        (
            -9_223_372_036_854_775_808_999_999_999_999_999_990,
            "-9223372036854775808.99999999999999999",
        ),
    ];
    for &(units, want) in rows {
        let number = number(rt.alloc(), units)?;
        assert_eq!(rt; number.as_str(), want, "{units}");
    }
    Ok(())
}

fn text(alloc: Global, value: &[u8]) -> Result<Text, Fail> {
    match Text::from_bytes(alloc, value)? {
        Some(text) => Ok(text),
        None => Err(Fail::new("not a text")),
    }
}

fn quoted(alloc: Global, value: &[u8]) -> Result<String, Fail> {
    let text = text(alloc, value)?;
    let mut out = String::new(alloc);
    put_string(&mut out, &text)?;
    Ok(out)
}

fn is_quoted(rt: &impl Abort, alloc: Global, value: &str, want: &str) -> Result<(), Fail> {
    let found = quoted(alloc, value.as_bytes())?;
    assert_eq!(rt; found.as_str(), want, "{value:?}");
    Ok(())
}

#[test]
fn strings_are_quoted(rt: HostRuntime) -> Result<(), Fail> {
    let rows: &[(&str, &str)] = &[
        ("", "\"\""),
        ("a\"b", "\"a\"\"b\""),
        ("<&'>", "\"<&amp;'>\""),
        ("\n\t", "\"\n\t\""),
        ("\u{E9}&\"", "\"\u{E9}&amp;\"\"\""),
    ];
    for &(value, want) in rows {
        is_quoted(&rt, rt.alloc(), value, want)?;
    }
    Ok(())
}
