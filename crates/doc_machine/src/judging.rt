//! One character more, within the limits.
ghost use Rattle.std.specs.Prelude.{◌≡◌, length};
ghost use Rattle.doc_laws.specs.Judging.{naming_by};
ghost use Rattle.doc_machine.specs.Machine.{scan_state};
ghost use Rattle.doc_machine.specs.Sound.{IsSound};
ghost use Rattle.doc_machine.specs.Limited.{deep_at, limited, IsLimit, JudgedOne};

use crate::mode::Mode;
use crate::scan::Scan;
use crate::step::advance;
use crate::stop::{Refusal, Stop};
use gcx_base::{Limits, is_name_start};

/// Where an element too many begins, if one does.
fn too_deep(m: &Scan, limits: Limits, place: u64, c: char) -> Option<u64>
    ensures { result ≡ deep_at limits place (scan_state m.now) c }
{
    let depth = limits.depth as usize;
    match m.mode {
        Mode::Less if depth <= m.names.len() && is_name_start(c) => Some(place.saturating_sub(1)),
        Mode::StartSpace if depth.saturating_sub(1) <= m.names.len() && is_name_start(c) => {
            Some(place)
        }
        _ => None,
    }
}

/// How many bytes the name has that is being read.
fn name_length(m: &Scan) -> usize
    ensures { result ≡ length (naming_by (scan_state m.now).mode (scan_state m.now)) }
{
    match m.mode {
        Mode::StartName => m.name.len(),
        Mode::AttributeName => m.attr.len(),
        _ => 0,
    }
}

/// The limit that the state passes, if any: the text's, the depth's or the name's.
fn passed(m: &Scan, limits: Limits, place: u64, deep: Option<u64>) -> Option<Refusal>
    ensures { IsLimit result (limited limits place deep (scan_state m.now)) (scan_state m.now) }
{
    if m.tokens.run_len() > limits.text as usize {
        return Some(Refusal::TextLong(place));
    }
    if let Some(at) = deep {
        return Some(Refusal::Depth(at));
    }
    if name_length(m) > limits.name as usize {
        return Some(Refusal::NameLong(place));
    }
    None
}

/// One character more, at this place, within the limits.
pub fn judge(m: &mut Scan, limits: Limits, place: u64, c: char) -> Result<(), Stop>
    requires { IsSound (scan_state m.old) }
    ensures { JudgedOne result limits place (scan_state m.old) c (scan_state m.new) }
{
    let deep = too_deep(m, limits, place, c);
    if !advance(m, c)? {
        return Err(Stop::Refused(Refusal::Syntax(place)));
    }
    match passed(m, limits, place, deep) {
        Some(refusal) => Err(Stop::Refused(refusal)),
        None => Ok(()),
    }
}
