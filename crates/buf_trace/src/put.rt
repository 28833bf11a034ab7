//! The text of a line.
ghost use Rattle.std.specs.Prelude.{◌≡◌, ◌<◌, ◌^◌, ◌++◌, ◌∷◌, [], OnOk, OnErr, map, take, length};
ghost use Rattle.std.specs.List.{flat_map};
ghost use Rattle.gcx_base.specs.declared.ids.Role.{Role};
ghost use Rattle.gcx_model.specs.Members.{In};
ghost use Rattle.gcx_model.specs.Demand.{kind_text, line_text, number_text};
ghost use Rattle.buf_trace.specs.Lines.{IsKind, IsLine, kind_tree, line_tree};

use crate::line::{Line, LineKind};
use gcx_base::{Memory, Role};
use itoa::Buffer;
use std::alloc::AllocError;

/// Appends the line's text and its line end. After `Memory` the output is as before.
pub fn put_line(out: &mut Vec<u8>, line: &Line) -> Result<(), Memory>
    ensures ok { OnOk result (out.new.items ≡ out.old.items ++ (line_text (line_tree line.now) ++ 10 ∷ [])) }
    ensures err { OnErr result (out.new.items ≡ out.old.items) }
    ensures held { OnOk result (IsLine line.now) }
{
    let before = out.len();
    match put_ended(out, line) {
        Ok(()) => Ok(()),
        Err(_) => {
            out.truncate(before);
            Err(Memory)
        }
    }
}

#[tactic(auto, using(crate::proofs::Fronts::front_kept))]
fn put_ended(out: &mut Vec<u8>, line: &Line) -> Result<(), AllocError>
    ensures ok { OnOk result (out.new.items ≡ out.old.items ++ (line_text (line_tree line.now) ++ 10 ∷ [])) }
    ensures err { OnErr result (take (length out.old.items) out.new.items ≡ out.old.items) }
    ensures held { OnOk result (IsLine line.now) }
{
    put_text(out, line)?;
    out.push(b'\n')?;
    Ok(())
}

#[tactic(auto, using(crate::proofs::Fronts::front_kept))]
fn put_text(out: &mut Vec<u8>, line: &Line) -> Result<(), AllocError>
    ensures ok { OnOk result (out.new.items ≡ out.old.items ++ line_text (line_tree line.now)) }
    ensures err { OnErr result (take (length out.old.items) out.new.items ≡ out.old.items) }
    ensures held { OnOk result (IsLine line.now) }
{
    match line {
        Line::Opened {
            serial,
            kind,
            given,
        } => {
            put_signed(out, b'+', serial.0)?;
            put_kind(out, kind)?;
            put_roles(out, given.items())
        }
        Line::Closed(serial) => put_signed(out, b'-', serial.0),
        Line::Wrote(bytes) => put_signed(out, b'w', *bytes),
        Line::SignedOff { serial, role } => {
            put_signed(out, b'o', serial.0)?;
            put_number(out, u64::from(role.0))
        }
        Line::Gone(serial) => put_signed(out, b'x', serial.0),
    }
}

/// Appends a sign and a number.
#[tactic(auto, using(crate::proofs::Fronts::front_kept))]
fn put_signed(out: &mut Vec<u8>, sign: u8, number: u64) -> Result<(), AllocError>
    ensures ok { OnOk result (out.new.items ≡ out.old.items ++ sign ∷ number_text number) }
    ensures err { OnErr result (take (length out.old.items) out.new.items ≡ out.old.items) }
    ensures fits { number < 2 ^ 64 }
{
    out.push(sign)?;
    put_number(out, number)
}

/// Appends a space and a number.
fn put_number(out: &mut Vec<u8>, number: u64) -> Result<(), AllocError>
    ensures ok { OnOk result (out.new.items ≡ out.old.items ++ number_text number) }
    ensures err { OnErr result (take (length out.old.items) out.new.items ≡ out.old.items) }
    ensures fits { number < 2 ^ 64 }
{
    let mut buffer = Buffer::new();
    out.push(b' ')?;
    out.extend_from_slice(buffer.format(number).as_bytes())
}

/// Appends a space and what is told of a kind.
fn put_kind(out: &mut Vec<u8>, kind: &LineKind) -> Result<(), AllocError>
    ensures ok { OnOk result (out.new.items ≡ out.old.items ++ 32 ∷ kind_text (kind_tree kind.now)) }
    ensures err { OnErr result (take (length out.old.items) out.new.items ≡ out.old.items) }
    ensures held { OnOk result (IsKind kind.now) }
{
    out.push(b' ')?;
    match kind {
        LineKind::Document => out.extend_from_slice(b"/"),
        LineKind::Element(name) => out.extend_from_slice(name.as_bytes()),
        LineKind::Text => out.extend_from_slice(b"#"),
    }
}

#[tactic(auto, using(crate::proofs::Fronts::front_kept))]
fn put_roles(out: &mut Vec<u8>, roles: &[Role]) -> Result<(), AllocError>
    ensures ok { OnOk result (out.new.items ≡ out.old.items ++ flat_map number_text (map (λ r. r.0) roles.now)) }
    ensures err { OnErr result (take (length out.old.items) out.new.items ≡ out.old.items) }
    ensures held { OnOk result ((role : Role) → In role roles.now → role.0 < 2 ^ 32) }
{
    for role in roles {
        put_number(out, u64::from(role.0))?;
    }
    Ok(())
}
