//! Writes tags and texts: the bytes of the answer (XML 1.0, sections 2.4 and 3.1).
#![tactic(auto)]

ghost use Rattle.std.specs.Prelude.{◌≡◌, ◌≤◌, ◌<◌, ◌+◌, ◌++◌, ◌∷◌, [], true, IfOk, OnOk, OnErr, take, length, vec_len, vec_capacity};
ghost use Rattle.std.specs.List.{list_all};
ghost use Rattle.gcx_model.specs.Written.{start_tag, end_tag, escape, escaped};
ghost use Rattle.doc_write.specs.Plain.{is_plain};

use gcx_base::{Memory, Name, Text};
use std::alloc::AllocError;

/// Appends `<name>`. After `Memory` the output is as before.
pub fn put_start(out: &mut Vec<u8>, name: &Name) -> Result<(), Memory>
    ensures ok { OnOk result (out.new.items ≡ out.old.items ++ start_tag name.now) }
    ensures err { OnErr result (out.new.items ≡ out.old.items) }
{
    let bytes = name.as_bytes();
    out.reserve(bytes.len() + 2)?;
    out.push_reserved(b'<');
    put_rest(out, bytes);
    Ok(())
}

/// Appends `</name>`. After `Memory` the output is as before.
pub fn put_end(out: &mut Vec<u8>, name: &Name) -> Result<(), Memory>
    ensures ok { OnOk result (out.new.items ≡ out.old.items ++ end_tag name.now) }
    ensures err { OnErr result (out.new.items ≡ out.old.items) }
{
    let bytes = name.as_bytes();
    out.reserve(bytes.len() + 3)?;
    out.push_reserved(b'<');
    out.push_reserved(b'/');
    put_rest(out, bytes);
    Ok(())
}

/// Appends the name and the end of a tag, for which there is room.
#[inline(always)]
fn put_rest(out: &mut Vec<u8>, name: &[u8])
    requires { vec_len out.old + length name.now < vec_capacity out.old }
    ensures { out.new.items ≡ out.old.items ++ (name.now ++ (62 ∷ [])) }
{
    if out.extend_from_slice(name).is_ok() {
        out.push_reserved(b'>');
    }
}

/// Appends the text, with `&amp;`, `&lt;` and `&gt;` for the three characters.
/// After `Memory` the output is as before.
pub fn put_text(out: &mut Vec<u8>, text: &Text) -> Result<(), Memory>
    ensures ok { OnOk result (out.new.items ≡ out.old.items ++ escaped text.now) }
    ensures err { OnErr result (out.new.items ≡ out.old.items) }
{
    let bytes = text.as_bytes();
    if plain_front(bytes) < bytes.len() {
        return put_runs(out, bytes);
    }
    out.extend_from_slice(bytes)?;
    Ok(())
}

/// Whether the byte is written as it is.
#[inline(always)]
fn is_plain(b: u8) -> bool
    ensures { result ≡ is_plain b }
{
    b != b'&' && b != b'<' && b != b'>'
}

/// Whether all bytes are written as they are, in one pass that doesn't stop early.
#[inline(always)]
fn all_plain(bytes: &[u8]) -> bool
    ensures { result ≡ list_all is_plain bytes.now }
{
    let mut all = true;
    for b in bytes {
        all &= is_plain(*b);
    }
    all
}

/// How many bytes are looked at in one go.
const BLOCK: usize = 16;

/// How many bytes stand in the blocks at the front that are written as they are.
#[inline(always)]
fn plain_blocks(bytes: &[u8]) -> usize
    ensures within { result ≤ length bytes.now }
    ensures plain { list_all is_plain (take result bytes.now) ≡ true }
{
    let mut at = 0;
    while bytes.len() - at >= BLOCK {
        if !all_plain(&bytes[at..at + BLOCK]) {
            return at;
        }
        at += BLOCK;
    }
    at
}

/// How many bytes at the front are written as they are.
#[inline(always)]
fn plain_front(bytes: &[u8]) -> usize
    ensures within { result ≤ length bytes.now }
    ensures plain { list_all is_plain (take result bytes.now) ≡ true }
{
    for i in plain_blocks(bytes)..bytes.len() {
        if !is_plain(bytes[i]) {
            return i;
        }
    }
    bytes.len()
}

/// Appends a text by runs. After `Memory` the output is as before.
#[inline(never)]
fn put_runs(out: &mut Vec<u8>, bytes: &[u8]) -> Result<(), Memory>
    ensures ok { OnOk result (out.new.items ≡ out.old.items ++ escaped bytes.now) }
    ensures err { OnErr result (out.new.items ≡ out.old.items) }
{
    let before = out.len();
    match put_escaped(out, bytes) {
        Ok(()) => Ok(()),
        Err(_) => {
            out.truncate(before);
            Err(Memory)
        }
    }
}

fn put_byte(out: &mut Vec<u8>, c: u8) -> Result<(), AllocError>
    ensures ok { OnOk result (out.new.items ≡ out.old.items ++ escape c) }
    ensures err { OnErr result (out.new.items ≡ out.old.items) }
{
    match c {
        b'&' => out.extend_from_slice(b"&amp;"),
        b'<' => out.extend_from_slice(b"&lt;"),
        b'>' => out.extend_from_slice(b"&gt;"),
        _ => {
            out.push(c)?;
            Ok(())
        }
    }
}

/// Appends the bytes before the first that is escaped, and that one, and says how many they are.
fn put_run(out: &mut Vec<u8>, bytes: &[u8]) -> Result<usize, AllocError>
    requires { 0 < length bytes.now }
    ensures some { IfOk result (λ n. (0 < n) × (n ≤ length bytes.now)) }
    ensures ok { IfOk result (λ n. out.new.items ≡ out.old.items ++ escaped (take n bytes.now)) }
    ensures err { OnErr result (take (length out.old.items) out.new.items ≡ out.old.items) }
{
    let n = plain_front(bytes);
    out.extend_from_slice(&bytes[..n])?;
    if n == bytes.len() {
        return Ok(n);
    }
    put_byte(out, bytes[n])?;
    Ok(n + 1)
}

fn put_escaped(out: &mut Vec<u8>, bytes: &[u8]) -> Result<(), AllocError>
    ensures ok { OnOk result (out.new.items ≡ out.old.items ++ escaped bytes.now) }
    ensures err { OnErr result (take (length out.old.items) out.new.items ≡ out.old.items) }
{
    let mut at = 0;
    while at < bytes.len() {
        at += put_run(out, &bytes[at..])?;
    }
    Ok(())
}
