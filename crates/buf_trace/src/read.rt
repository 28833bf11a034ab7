//! The line of a text.
ghost use Rattle.std.specs.Prelude.{◌≡◌, ◌++◌, ◌∷◌, ◌<◌, ◌^◌, IfOk, IfSome, IsNone, Some, true, false};
ghost use Rattle.std.specs.Fmt.{decimal};
ghost use Rattle.std.specs.List.{position};
ghost use Rattle.gcx_model.specs.Demand.{kind_text, line_text};
ghost use Rattle.gcx_model.specs.Given.{IsAboveLast};
ghost use Rattle.buf_trace.specs.declared.line.Line.{Line};
ghost use Rattle.buf_trace.specs.Lines.{IsGiven, IsKind, IsLine, kind_tree, line_tree};
ghost use Rattle.buf_trace.specs.Reading.{behind, is_space, IsWord, may_begin, Reads, roles_text};

use crate::line::{Line, LineKind};
use gcx_base::{Memory, Name, Role, Serial};
use gcx_model::Given;
use std::alloc::Global;
use std::str::from_utf8;

/// The line of this text, which has no line end. None exactly where it is no line's text.
pub fn read_line(alloc: Global, text: &[u8]) -> Result<Option<Line>, Memory>
    ensures some { IfOk result (λ read. IfSome read (λ line. line_text (line_tree line) ≡ text.now)) }
    ensures held { IfOk result (λ read. IfSome read IsLine) }
    ensures only { IfOk result (λ read. (line : Line) → IsLine line
        → line_text (line_tree line) ≡ text.now → read ≡ Some line) }
    ensures none { IfOk result (λ read. IsNone read → (line : Line) → IsLine line
        → line_text (line_tree line) ≡ text.now → ⊥) }
{
    match text {
        [sign, b' ', rest @ ..] => read_signed(alloc, *sign, rest),
        _ => Ok(None),
    }
}

/// The line of this sign, a space and the rest.
fn read_signed(alloc: Global, sign: u8, rest: &[u8]) -> Result<Option<Line>, Memory>
    ensures { IfOk result (Reads IsLine (λ line. line_text (line_tree line)) (sign ∷ (32 ∷ rest.now))) }
{
    match sign {
        b'+' => read_opened(alloc, rest),
        b'-' => Ok(read_number(rest).map(|serial| Line::Closed(Serial(serial)))),
        b'w' => Ok(read_number(rest).map(|bytes| Line::Wrote(bytes))),
        b'o' => Ok(read_signed_off(rest)),
        b'x' => Ok(read_number(rest).map(|serial| Line::Gone(Serial(serial)))),
        _ => Ok(None),
    }
}

/// What stands behind the sign and the space of an opened node.
fn read_opened(alloc: Global, text: &[u8]) -> Result<Option<Line>, Memory>
    ensures { IfOk result (Reads IsLine (λ line. line_text (line_tree line)) (43 ∷ (32 ∷ text.now))) }
{
    let (serial, rest) = cut(text);
    let Some(rest) = rest else {
        return Ok(None);
    };
    let (kind, roles) = cut(rest);
    let Some(serial) = read_number(serial) else {
        return Ok(None);
    };
    let Some(kind) = read_kind(alloc, kind)? else {
        return Ok(None);
    };
    let Some(given) = read_roles(alloc, roles)? else {
        return Ok(None);
    };
    Ok(Some(Line::Opened {
        serial: Serial(serial),
        kind,
        given,
    }))
}

/// What stands behind the sign and the space of a statement that was carried out.
fn read_signed_off(text: &[u8]) -> Option<Line>
    ensures { Reads IsLine (λ line. line_text (line_tree line)) (111 ∷ (32 ∷ text.now)) result }
{
    let (serial, rest) = cut(text);
    let serial = Serial(read_number(serial)?);
    let role = read_role(rest?)?;
    Some(Line::SignedOff { serial, role })
}

fn read_kind(alloc: Global, text: &[u8]) -> Result<Option<LineKind>, Memory>
    ensures { IfOk result (Reads IsKind (λ kind. kind_text (kind_tree kind)) text.now) }
{
    match text {
        b"/" => Ok(Some(LineKind::Document)),
        b"#" => Ok(Some(LineKind::Text)),
        _ => Ok(Name::from_bytes(alloc, text)?.map(|name| LineKind::Element(name))),
    }
}

/// Roles, each behind a space.
fn read_roles(alloc: Global, text: Option<&[u8]>) -> Result<Option<Given>, Memory>
    ensures { IfOk result (Reads IsGiven roles_text (behind text.entry)) }
{
    let mut given = Given::new(alloc);
    let mut rest = text;
    while let Some(text) = rest {
        let (word, behind) = cut(text);
        let Some(role) = read_role(word) else {
            return Ok(None);
        };
        if !is_above_last(&given, role) {
            return Ok(None);
        }
        given.push(role)?;
        rest = behind;
    }
    Ok(Some(given))
}

#[tactic(auto, using(crate::proofs::Roles::above_pushed, crate::proofs::Roles::pushed_above))]
fn is_above_last(given: &Given, role: Role) -> bool
    ensures yes { result ≡ true → IsAboveLast given.now role }
    ensures no { result ≡ false → IsAboveLast given.now role → ⊥ }
{
    match given.items().split_last() {
        Some((last, _)) => last.0 < role.0,
        None => true,
    }
}

fn read_role(text: &[u8]) -> Option<Role>
    ensures { Reads (λ role. role.0 < 2 ^ 32) (λ role. decimal role.0) text.now result }
{
    match u32::try_from(read_number(text)?) {
        Ok(number) => Some(Role(number)),
        Err(_) => None,
    }
}

/// A decimal number without leading zeros.
fn read_number(text: &[u8]) -> Option<u64>
    ensures { Reads (λ number. number < 2 ^ 64) decimal text.now result }
{
    if !may_begin(text) {
        return None;
    }
    match from_utf8(text) {
        Ok(text) => text.parse::<u64>().ok(),
        Err(_) => None,
    }
}

/// Whether neither a plus sign stands in front, nor a zero with more behind it.
fn may_begin(text: &[u8]) -> bool
    ensures { result ≡ may_begin text.now }
{
    match text.split_first() {
        Some((first, rest)) => *first != b'+' && (*first != b'0' || rest.is_empty()),
        None => true,
    }
}

/// What stands before the first space, and behind it, if there is one.
fn cut(text: &[u8]) -> (&[u8], Option<&[u8]>)
    ensures whole { text.now ≡ result.0.now ++ behind result.1 }
    ensures word { IsWord result.0.now }
{
    match first_space(text) {
        Some(at) => (&text[..at], Some(&text[at + 1..])),
        None => (text, None),
    }
}

fn first_space(text: &[u8]) -> Option<usize>
    ensures { result ≡ position is_space text.now }
{
    text.iter().position(|c| *c == b' ')
}
