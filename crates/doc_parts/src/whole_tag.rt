//! Tags that are read as a whole.
ghost use Rattle.std.specs.Prelude.{◌≡◌, ◌≤◌, ◌∷◌, ◌++◌, ℕ, List, IsTrue, ◌↔◌, MatchOption, ⊤, length, take, OnErr, IfOk};
ghost use Rattle.gcx_base.specs.Name.{IsNameBytes};
ghost use Rattle.doc_chars.specs.Stream.{AreChars};
ghost use Rattle.doc_laws.specs.Machine.{StartSpace, ValueEnd, opened, emptied, begun};
ghost use Rattle.doc_machine.specs.Machine.{scan_state, quote_of};
ghost use Rattle.doc_machine.specs.Sound.{IsSound};
ghost use Rattle.doc_machine.specs.Steps.{Becomes};
ghost use Rattle.doc_parts.specs.Reading.{Moves};
ghost use Rattle.doc_parts.specs.Wholes.{named, BeginsWith, IsBetween};

use crate::front::begins;
use crate::name::name_front;
use doc_machine::{Mode, Quote, Scan, behind_tag, close_element, empty_element, open_element};
use gcx_base::{Limits, Memory, same_bytes};

/// A start tag without attributes is whole, whose name the first `n` of these bytes are.
#[inline(always)]
fn open_named(m: &mut Scan, bytes: &[u8], n: usize) -> Result<(), Memory>
    requires name { IsNameBytes (take n bytes.now) }
    requires within { n ≤ length bytes.now }
    ensures { Becomes result (scan_state m.old)
        (opened (begun (named (scan_state m.old) (take n bytes.now)))) (scan_state m.new) }
{
    m.tokens.begin_front(bytes, n)?;
    m.names.push_front(bytes, n)?;
    behind_tag(m);
    Ok(())
}

/// An empty-element tag without attributes is whole.
fn empty_named(m: &mut Scan, name: &[u8]) -> Result<(), Memory>
    requires { IsNameBytes name.now }
    ensures { Becomes result (scan_state m.old) (emptied (begun (named (scan_state m.old) name.now))) (scan_state m.new) }
{
    m.tokens.begin_tag(name)?;
    empty_element(m)
}

/// The name of a start tag is whole, and a space stands behind it.
fn begin_named(m: &mut Scan, name: &[u8]) -> Result<(), Memory>
    requires { IsNameBytes name.now }
    ensures { Becomes result (scan_state m.old)
        (record (begun (named (scan_state m.old) name.now)) { mode = StartSpace }) (scan_state m.new) }
{
    m.tokens.begin_tag(name)?;
    m.name.clear();
    m.name.extend_from_slice(name)?;
    m.mode = Mode::StartSpace;
    Ok(())
}

/// Reads a start tag without attributes, or the name of one and the space behind it, and says how many bytes that is.
#[inline(always)]
fn whole_start(m: &mut Scan, limits: &Limits, rest: &str) -> Result<usize, Memory>
    requires between { IsBetween limits.now (scan_state m.old) rest.now }
    requires less { BeginsWith 60 rest.now }
    ensures moves { IfOk result (λ n. Moves limits.now (scan_state m.old) rest.now n (scan_state m.new)) }
    ensures tokens { OnErr result ((scan_state m.new).tokens ≡ (scan_state m.old).tokens) }
{
    let (_, behind) = rest.split_at(1);
    let n = name_front(behind);
    if n == 0 || n > limits.name as usize || m.names.len() >= limits.depth as usize {
        return Ok(0);
    }
    let (name, after) = behind.split_at(n);
    let bytes = behind.as_bytes();
    let name = name.as_bytes();
    let after = after.as_bytes();
    if begins(after, b">") {
        open_named(m, bytes, n)?;
        Ok(n + 2)
    } else if begins(after, b" ") {
        begin_named(m, name)?;
        Ok(n + 2)
    } else if begins(after, b"/>") {
        empty_named(m, name)?;
        Ok(n + 3)
    } else {
        Ok(0)
    }
}

/// Whether a name stands at the front, and `>` behind it.
#[inline(always)]
fn closes(bytes: &[u8], name: &[u8]) -> bool
    ensures { IsTrue result → (after : List ℕ) × (bytes.now ≡ name.now ++ (62 ∷ after)) }
{
    let n = name.len();
    if n >= bytes.len() || bytes[n] != b'>' {
        return false;
    }
    same_bytes(&bytes[..n], name)
}

/// Reads an end tag without white space, and says how many bytes it takes.
#[inline(always)]
fn whole_end(m: &mut Scan, limits: &Limits, rest: &str) -> Result<usize, Memory>
    requires between { IsBetween limits.now (scan_state m.old) rest.now }
    requires front { (after : List ℕ) × (rest.now ≡ 60 ∷ (47 ∷ after)) }
    ensures moves { IfOk result (λ n. Moves limits.now (scan_state m.old) rest.now n (scan_state m.new)) }
    ensures tokens { OnErr result ((scan_state m.new).tokens ≡ (scan_state m.old).tokens) }
{
    let name = m.names.innermost();
    let n = name.len();
    if !closes(&rest.as_bytes()[2..], name) {
        return Ok(0);
    }
    close_element(m)?;
    Ok(n + 3)
}

/// Reads a tag that is whole and plain, or the front of one, and says how many bytes that is.
#[inline(always)]
pub(crate) fn whole_tag(m: &mut Scan, limits: &Limits, rest: &str) -> Result<usize, Memory>
    requires between { IsBetween limits.now (scan_state m.old) rest.now }
    requires less { BeginsWith 60 rest.now }
    ensures moves { IfOk result (λ n. Moves limits.now (scan_state m.old) rest.now n (scan_state m.new)) }
    ensures tokens { OnErr result ((scan_state m.new).tokens ≡ (scan_state m.old).tokens) }
{
    if begins(rest.as_bytes(), b"</") {
        whole_end(m, limits, rest)
    } else {
        whole_start(m, limits, rest)
    }
}

/// Reads the name of an attribute, the sign behind it and the quote behind that, and says how many bytes they take.
#[inline(always)]
pub(crate) fn whole_attribute(m: &mut Scan, limits: &Limits, rest: &str) -> Result<usize, Memory>
    requires chars { AreChars rest.now }
    requires mode { (scan_state m.old).mode ≡ StartSpace }
    requires sound { IsSound (scan_state m.old) }
    ensures moves { IfOk result (λ n. Moves limits.now (scan_state m.old) rest.now n (scan_state m.new)) }
    ensures tokens { OnErr result ((scan_state m.new).tokens ≡ (scan_state m.old).tokens) }
{
    let n = name_front(rest);
    let deepest = (limits.depth as usize).saturating_sub(1);
    if n == 0 || n > limits.name as usize || m.names.len() >= deepest {
        return Ok(0);
    }
    let (name, behind) = rest.split_at(n);
    let name = name.as_bytes();
    let Some(quote) = value_begins(behind.as_bytes()) else {
        return Ok(0);
    };
    if m.attrs.has(name) {
        return Ok(0);
    }
    m.attr.clear();
    m.attr.extend_from_slice(name)?;
    m.mode = Mode::InValue(quote);
    Ok(n + 2)
}

/// The quote behind a `=` at the front.
#[inline(always)]
fn value_begins(bytes: &[u8]) -> Option<Quote>
    ensures { MatchOption result ⊤ (λ q. (after : List ℕ) × (bytes.now ≡ 61 ∷ (quote_of q ∷ after))) }
{
    if bytes.len() < 2 || bytes[0] != b'=' {
        return None;
    }
    Quote::of(char::from(bytes[1]))
}

/// Reads what stands behind a value, and says how many bytes it takes.
#[inline(always)]
pub(crate) fn whole_tag_end(m: &mut Scan, limits: &Limits, rest: &str) -> Result<usize, Memory>
    requires chars { AreChars rest.now }
    requires mode { (scan_state m.old).mode ≡ ValueEnd }
    requires sound { IsSound (scan_state m.old) }
    ensures moves { IfOk result (λ n. Moves limits.now (scan_state m.old) rest.now n (scan_state m.new)) }
    ensures tokens { OnErr result ((scan_state m.new).tokens ≡ (scan_state m.old).tokens) }
{
    let bytes = rest.as_bytes();
    if begins(bytes, b" ") {
        m.mode = Mode::StartSpace;
        Ok(1)
    } else if begins(bytes, b">") {
        open_element(m)?;
        Ok(1)
    } else if begins(bytes, b"/>") {
        empty_element(m)?;
        Ok(2)
    } else {
        Ok(0)
    }
}
