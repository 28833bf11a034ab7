//! One item of a document.
ghost use Rattle.std.specs.Prelude.{◌≡◌, ◌++◌, codes, decimal, drop, OnOk};
ghost use Rattle.gcx_gen.specs.Generated.{item, note_text, price_of, price_text, seven_digits};

use gcx_base::Memory;
use itoa::Buffer;

/// Seven zeros.
const ZEROS: &[u8] = b"0000000";

/// Zeros in front of so many digits, to seven.
fn zeros_before(digits: usize) -> &'static [u8]
    ensures { result.now ≡ drop digits (codes "0000000") }
{
    match ZEROS.get(digits..) {
        Some(zeros) => zeros,
        None => b"",
    }
}

/// Appends a number.
fn put_number(out: &mut Vec<u8>, number: u64) -> Result<(), Memory>
    ensures { OnOk result (out.new.items ≡ out.old.items ++ decimal number) }
{
    let mut buffer = Buffer::new();
    out.extend_from_slice(buffer.format(number).as_bytes())?;
    Ok(())
}

/// Appends a number in seven digits, with zeros in front.
fn put_seven(out: &mut Vec<u8>, number: u64) -> Result<(), Memory>
    ensures { OnOk result (out.new.items ≡ out.old.items ++ seven_digits number) }
{
    let mut buffer = Buffer::new();
    let digits = buffer.format(number).as_bytes();
    out.extend_from_slice(zeros_before(digits.len()))?;
    out.extend_from_slice(digits)?;
    Ok(())
}

/// The price of an item.
fn price_of(seed: u32, index: u32) -> u64
    ensures { result ≡ price_of seed index }
{
    (u64::from(seed) + 37 * u64::from(index)) % 100
}

fn put_price(out: &mut Vec<u8>, seed: u32, index: u32) -> Result<(), Memory>
    ensures { OnOk result (out.new.items ≡ out.old.items ++ price_text seed index) }
{
    out.extend_from_slice(b"<price>")?;
    put_number(out, price_of(seed, index))?;
    out.extend_from_slice(b"</price>")?;
    Ok(())
}

fn put_note(out: &mut Vec<u8>, index: u32) -> Result<(), Memory>
    ensures { OnOk result (out.new.items ≡ out.old.items ++ note_text index) }
{
    out.extend_from_slice(b"<note>")?;
    put_seven(out, u64::from(index))?;
    out.extend_from_slice(b"</note>")?;
    Ok(())
}

/// Appends the item of this number.
pub(crate) fn put_item(out: &mut Vec<u8>, seed: u32, index: u32) -> Result<(), Memory>
    ensures { OnOk result (out.new.items ≡ out.old.items ++ item seed index) }
{
    out.extend_from_slice(b"<item>")?;
    put_price(out, seed, index)?;
    put_note(out, index)?;
    out.extend_from_slice(b"</item>")?;
    Ok(())
}
