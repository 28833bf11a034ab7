//! Text between tags, its references and its CDATA sections.
ghost use Rattle.std.specs.Prelude.{◌≡◌, replicate};
ghost use Rattle.gcx_model.specs.Attributes.{is_text_char};
ghost use Rattle.doc_laws.specs.Machine.{InReference, Between, on_between, on_opening, on_cdsect, on_referred, refer};
ghost use Rattle.doc_machine.specs.Machine.{scan_state, referring_of, brackets_of};
ghost use Rattle.doc_machine.specs.Steps.{turned, bracketed, Taken, Stepped, Becomes};

use crate::mode::{Brackets, Mode};
use crate::referring::{Letters, Referred, Referring};
use crate::scan::Scan;
use gcx_base::{Memory, is_space, is_xml_char};

/// Whether it may stand in text as it is.
pub(crate) fn is_text(c: char) -> bool
    ensures { result ≡ is_text_char c }
{
    is_xml_char(c) && c != '<' && c != '&'
}

/// Goes on in the next mode, if there is one.
pub(crate) fn turn(m: &mut Scan, mode: Option<Mode>) -> bool
    ensures { Taken result (scan_state m.old) (turned (scan_state m.old) mode) (scan_state m.new) }
{
    match mode {
        Some(mode) => {
            m.mode = mode;
            true
        }
        None => false,
    }
}

/// Between two tags, or outside the root.
#[inline(always)]
pub(crate) fn between(m: &mut Scan, c: char) -> Result<bool, Memory>
    ensures { Stepped result (scan_state m.old) (on_between (scan_state m.old) c) (scan_state m.new) }
{
    let inside = m.names.has_open();
    if inside && is_text(c) {
        m.tokens.push(c)?;
        m.mode = Mode::Between;
        Ok(true)
    } else if c == '<' {
        m.mode = Mode::Less;
        Ok(true)
    } else if inside && c == '&' {
        m.mode = Mode::InReference(Referring::Letters(Letters::None));
        Ok(true)
    } else if !inside && is_space(c) {
        m.mode = Mode::Between;
        Ok(true)
    } else {
        Ok(false)
    }
}

/// Before the first character, which may be a byte order mark.
pub(crate) fn opening(m: &mut Scan, c: char) -> Result<bool, Memory>
    ensures { Stepped result (scan_state m.old) (on_opening (scan_state m.old) c) (scan_state m.new) }
{
    if c == '\u{FEFF}' {
        m.mode = Mode::Between;
        Ok(true)
    } else {
        between(m, c)
    }
}

/// In a reference.
pub(crate) fn in_reference(m: &mut Scan, referring: Referring, c: char) -> Result<bool, Memory>
    ensures { Stepped result (scan_state m.old)
        (on_referred (scan_state m.old) InReference Between (refer (referring_of referring) c)) (scan_state m.new) }
{
    match referring.and(c) {
        Referred::More(more) => {
            m.mode = Mode::InReference(more);
            Ok(true)
        }
        Referred::Done(c) => {
            m.tokens.push(c)?;
            m.mode = Mode::Between;
            Ok(true)
        }
        Referred::Bad => Ok(false),
    }
}

impl Brackets {
    /// As text.
    fn text(self) -> &'static str
        ensures { result.now ≡ replicate (brackets_of self) 93 }
    {
        match self {
            Brackets::None => "",
            Brackets::One => "]",
            Brackets::Two => "]]",
        }
    }
}

/// A bracket more in a CDATA section: the first of three belongs to the text.
fn bracket(m: &mut Scan, brackets: Brackets) -> Result<(), Memory>
    ensures { Becomes result (scan_state m.old) (bracketed (scan_state m.old) (brackets_of brackets)) (scan_state m.new) }
{
    m.mode = match brackets {
        Brackets::None => Mode::CDSect(Brackets::One),
        Brackets::One => Mode::CDSect(Brackets::Two),
        Brackets::Two => {
            m.tokens.push(']')?;
            Mode::CDSect(Brackets::Two)
        }
    };
    Ok(())
}

/// In a CDATA section.
pub(crate) fn cdsect(m: &mut Scan, brackets: Brackets, c: char) -> Result<bool, Memory>
    ensures { Stepped result (scan_state m.old) (on_cdsect (scan_state m.old) (brackets_of brackets) c) (scan_state m.new) }
{
    if c == ']' {
        bracket(m, brackets)?;
        Ok(true)
    } else if c == '>' && matches!(brackets, Brackets::Two) {
        m.mode = Mode::Between;
        Ok(true)
    } else if is_xml_char(c) {
        m.tokens.push_str(brackets.text())?;
        m.tokens.push(c)?;
        m.mode = Mode::CDSect(Brackets::None);
        Ok(true)
    } else {
        Ok(false)
    }
}
