//! What is read as a whole.
ghost use Rattle.std.specs.Prelude.{◌≡◌, ◌≤◌, true, length, IsTrue, OnErr, IfOk};
ghost use Rattle.gcx_model.specs.Fronts.{is_inside};
ghost use Rattle.doc_chars.specs.Stream.{AreChars};
ghost use Rattle.doc_laws.specs.Machine.{Between};
ghost use Rattle.doc_machine.specs.Machine.{scan_state};
ghost use Rattle.doc_machine.specs.Sound.{IsSound};
ghost use Rattle.doc_parts.specs.Reading.{Moves, Stops};
ghost use Rattle.doc_parts.specs.Wholes.{IsBetween};

use crate::front::begins;
use crate::reference::whole_reference;
use crate::span::{Span, keep, same_front, span_at};
use crate::whole_tag::{whole_attribute, whole_tag, whole_tag_end};
use doc_machine::{Mode, Quote, Scan, end_value};
use gcx_base::{Limits, Memory};

/// Reads characters of the innermost element's name, behind so many bytes of it, and says how many bytes they are.
fn match_name(m: &mut Scan, limits: &Limits, i: usize, rest: &str) -> usize
    requires mode { m.old.mode ≡ Mode.EndName i }
    requires run { length (scan_state m.old).run ≤ limits.now.text }
    ensures { Moves limits.now (scan_state m.old) rest.now result (scan_state m.new) }
{
    let name = m.names.innermost();
    if i > name.len() {
        return 0;
    }
    let n = same_front(&name[i..], rest.as_bytes());
    m.mode = Mode::EndName(i + n);
    n
}

/// Reads characters of a span, and says how many bytes they are.
#[inline(always)]
fn read_span(m: &mut Scan, limits: &Limits, rest: &str) -> Result<usize, Memory>
    requires { AreChars rest.now }
    ensures moves { IfOk result (λ n. Moves limits.now (scan_state m.old) rest.now n (scan_state m.new)) }
    ensures tokens { OnErr result ((scan_state m.new).tokens ≡ (scan_state m.old).tokens) }
{
    match span_at(m, limits) {
        Some((span, most)) => {
            let n = span.front(rest, most);
            let (front, _) = rest.split_at(n);
            keep(m, span, front)?;
            Ok(n)
        }
        None => Ok(0),
    }
}

/// Reads characters of text, and says how many bytes they are.
#[inline(always)]
fn read_text(m: &mut Scan, limits: &Limits, rest: &str) -> Result<usize, Memory>
    requires { IsBetween limits.now (scan_state m.old) rest.now }
    ensures moves { IfOk result (λ n. Moves limits.now (scan_state m.old) rest.now n (scan_state m.new)) }
    ensures tokens { OnErr result ((scan_state m.new).tokens ≡ (scan_state m.old).tokens) }
{
    let most = limits.text as usize - m.tokens.run_len();
    let n = Span::Text.front(rest, most);
    let (front, _) = rest.split_at(n);
    m.tokens.push_str(front)?;
    Ok(n)
}

/// Reads what stands at the front between two tags of an element, and says how many bytes it takes.
#[inline(always)]
fn read_between(m: &mut Scan, limits: &Limits, rest: &str) -> Result<usize, Memory>
    requires { IsBetween limits.now (scan_state m.old) rest.now }
    ensures moves { IfOk result (λ n. Moves limits.now (scan_state m.old) rest.now n (scan_state m.new)) }
    ensures tokens { OnErr result ((scan_state m.new).tokens ≡ (scan_state m.old).tokens) }
{
    let bytes = rest.as_bytes();
    if begins(bytes, b"<") {
        whole_tag(m, limits, rest)
    } else if begins(bytes, b"&") {
        whole_reference(m, limits, rest)
    } else {
        read_text(m, limits, rest)
    }
}

/// Reads what stands at the front in a value, and says how many bytes it takes.
#[inline(always)]
fn read_value(m: &mut Scan, limits: &Limits, quote: Quote, rest: &str) -> Result<usize, Memory>
    requires chars { AreChars rest.now }
    requires mode { m.old.mode ≡ Mode.InValue quote }
    requires sound { IsSound (scan_state m.old) }
    requires run { length (scan_state m.old).run ≤ limits.now.text }
    ensures moves { IfOk result (λ n. Moves limits.now (scan_state m.old) rest.now n (scan_state m.new)) }
    ensures tokens { OnErr result ((scan_state m.new).tokens ≡ (scan_state m.old).tokens) }
{
    let bytes = rest.as_bytes();
    if begins(bytes, &[quote.byte()]) {
        end_value(m)?;
        Ok(1)
    } else if begins(bytes, b"&") {
        whole_reference(m, limits, rest)
    } else {
        read_span(m, limits, rest)
    }
}

/// Reads the part at the front that stands elsewhere, if it is whole and plain, and says how many bytes it takes.
#[inline(always)]
fn read_part(m: &mut Scan, limits: &Limits, rest: &str) -> Result<usize, Memory>
    requires chars { AreChars rest.now }
    requires sound { IsSound (scan_state m.old) }
    ensures moves { IfOk result (λ n. Moves limits.now (scan_state m.old) rest.now n (scan_state m.new)) }
    ensures tokens { OnErr result ((scan_state m.new).tokens ≡ (scan_state m.old).tokens) }
{
    if m.tokens.run_len() > limits.text as usize {
        return Ok(0);
    }
    match m.mode {
        Mode::StartSpace => whole_attribute(m, limits, rest),
        Mode::InValue(quote) => read_value(m, limits, quote, rest),
        Mode::ValueEnd => whole_tag_end(m, limits, rest),
        Mode::EndName(i) => Ok(match_name(m, limits, i, rest)),
        _ => read_span(m, limits, rest),
    }
}

/// Whether it stands between two tags of an element, within the limit of text.
#[inline(always)]
fn is_between(m: &Scan, limits: &Limits) -> bool
    ensures mode { IsTrue result → (scan_state m.now).mode ≡ Between }
    ensures inside { IsTrue result → is_inside (scan_state m.now).names ≡ true }
    ensures run { IsTrue result → length (scan_state m.now).run ≤ limits.now.text }
{
    match m.mode {
        Mode::Between => m.names.has_open() && m.tokens.run_len() <= limits.text as usize,
        _ => false,
    }
}

/// Reads the part at the front, wherever it stands: mostly between two tags.
#[inline(always)]
fn read_next(m: &mut Scan, limits: &Limits, rest: &str) -> Result<usize, Memory>
    requires chars { AreChars rest.now }
    requires sound { IsSound (scan_state m.old) }
    ensures moves { IfOk result (λ n. Moves limits.now (scan_state m.old) rest.now n (scan_state m.new)) }
    ensures tokens { OnErr result ((scan_state m.new).tokens ≡ (scan_state m.old).tokens) }
{
    if is_between(m, limits) {
        read_between(m, limits, rest)
    } else {
        read_part(m, limits, rest)
    }
}

/// Reads the parts at the front that are whole and plain, and says how many bytes they take.
pub fn read_front(m: &mut Scan, limits: &Limits, text: &str) -> Result<usize, Memory>
    requires chars { AreChars text.now }
    requires sound { IsSound (scan_state m.old) }
    ensures moves { IfOk result (λ n. Moves limits.now (scan_state m.old) text.now n (scan_state m.new)) }
    ensures tokens { OnErr result (Stops limits.now (scan_state m.old) text.now (scan_state m.new).tokens) }
{
    let mut at = 0;
    loop {
        let (_, rest) = text.split_at(at);
        let n = read_next(m, limits, rest)?;
        if n == 0 {
            return Ok(at);
        }
        at += n;
    }
}
