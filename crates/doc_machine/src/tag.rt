//! Start tags.
ghost use Rattle.std.specs.Prelude.{◌≡◌};
ghost use Rattle.gcx_base.specs.Name.{IsNameBytes};
ghost use Rattle.doc_laws.specs.Machine.{InValue, InValueReference, begun, opened, emptied, valued, on_less, on_start, on_tag, on_start_space, on_attribute_name, on_named, on_equals, on_value, on_slash, on_referred, refer};
ghost use Rattle.doc_machine.specs.Machine.{scan_state, referring_of, quote_of};
ghost use Rattle.doc_machine.specs.Steps.{Taken, Stepped, Becomes, behind_tag};

use crate::bytes::push_char;
use crate::mode::{Mode, Quote};
use crate::referring::{Letters, Referred, Referring};
use crate::scan::Scan;
use crate::text::is_text;
use gcx_base::{Memory, is_name_char, is_name_start, is_space};

/// Behind `<`.
pub(crate) fn less(m: &mut Scan, c: char) -> Result<bool, Memory>
    ensures { Stepped result (scan_state m.old) (on_less (scan_state m.old) c) (scan_state m.new) }
{
    let inside = m.names.has_open();
    if is_name_start(c) && (inside || !m.rooted) {
        m.name.clear();
        push_char(&mut m.name, c)?;
        m.mode = Mode::StartName;
        Ok(true)
    } else if c == '/' && inside {
        m.mode = Mode::EndName(0);
        Ok(true)
    } else if c == '!' {
        m.mode = Mode::Bang;
        Ok(true)
    } else if c == '?' {
        m.mode = Mode::Question;
        Ok(true)
    } else {
        Ok(false)
    }
}

/// The name of the tag is whole.
fn begin_tag(m: &mut Scan) -> Result<(), Memory>
    requires { IsNameBytes m.old.name.items }
    ensures { Becomes result (scan_state m.old) (begun (scan_state m.old)) (scan_state m.new) }
{
    m.tokens.begin_tag(&m.name)
}

/// Behind a whole tag.
#[inline(always)]
pub fn behind_tag(m: &mut Scan)
    ensures { scan_state m.new ≡ behind_tag (scan_state m.old) }
{
    m.tokens.end_tag();
    m.name.clear();
    m.attrs.clear();
    m.rooted = true;
    m.typed = true;
    m.mode = Mode::Between;
}

/// The tag is whole, and its element is open.
pub fn open_element(m: &mut Scan) -> Result<(), Memory>
    ensures { Becomes result (scan_state m.old) (opened (scan_state m.old)) (scan_state m.new) }
{
    m.names.push(&m.name)?;
    behind_tag(m);
    Ok(())
}

/// The tag is whole, and its element is empty.
pub fn empty_element(m: &mut Scan) -> Result<(), Memory>
    ensures { Becomes result (scan_state m.old) (emptied (scan_state m.old)) (scan_state m.new) }
{
    m.tokens.add_empty_end()?;
    behind_tag(m);
    Ok(())
}

/// Behind the name of a start tag, or behind a value.
#[inline(always)]
pub(crate) fn tag(m: &mut Scan, c: char) -> Result<bool, Memory>
    ensures { Stepped result (scan_state m.old) (on_tag (scan_state m.old) c) (scan_state m.new) }
{
    if is_space(c) {
        m.mode = Mode::StartSpace;
        Ok(true)
    } else if c == '>' {
        open_element(m)?;
        Ok(true)
    } else if c == '/' {
        m.mode = Mode::Slash;
        Ok(true)
    } else {
        Ok(false)
    }
}

pub(crate) fn start_name(m: &mut Scan, c: char) -> Result<bool, Memory>
    requires { IsNameBytes m.old.name.items }
    ensures { Stepped result (scan_state m.old) (on_start (scan_state m.old) c) (scan_state m.new) }
{
    if is_name_char(c) {
        push_char(&mut m.name, c)?;
        Ok(true)
    } else {
        begin_tag(m)?;
        tag(m, c)
    }
}

pub(crate) fn start_space(m: &mut Scan, c: char) -> Result<bool, Memory>
    ensures { Stepped result (scan_state m.old) (on_start_space (scan_state m.old) c) (scan_state m.new) }
{
    if is_name_start(c) {
        m.attr.clear();
        push_char(&mut m.attr, c)?;
        m.mode = Mode::AttributeName;
        Ok(true)
    } else {
        tag(m, c)
    }
}

pub(crate) fn slash(m: &mut Scan, c: char) -> Result<bool, Memory>
    ensures { Stepped result (scan_state m.old) (on_slash (scan_state m.old) c) (scan_state m.new) }
{
    if c == '>' {
        empty_element(m)?;
        Ok(true)
    } else {
        Ok(false)
    }
}

/// Behind the name of an attribute.
pub(crate) fn named(m: &mut Scan, c: char) -> bool
    ensures { Taken result (scan_state m.old) (on_named (scan_state m.old) c) (scan_state m.new) }
{
    if is_space(c) {
        m.mode = Mode::AttributeSpace;
        true
    } else if c == '=' {
        m.mode = Mode::Equals;
        true
    } else {
        false
    }
}

/// In the name of an attribute, which is none of the tag's others.
pub(crate) fn attribute_name(m: &mut Scan, c: char) -> Result<bool, Memory>
    ensures { Stepped result (scan_state m.old) (on_attribute_name (scan_state m.old) c) (scan_state m.new) }
{
    if is_name_char(c) {
        push_char(&mut m.attr, c)?;
        Ok(true)
    } else if m.attrs.has(&m.attr) {
        Ok(false)
    } else {
        Ok(named(m, c))
    }
}

pub(crate) fn equals(m: &mut Scan, c: char) -> bool
    ensures { Taken result (scan_state m.old) (on_equals (scan_state m.old) c) (scan_state m.new) }
{
    if is_space(c) {
        m.mode = Mode::Equals;
        true
    } else {
        match Quote::of(c) {
            Some(quote) => {
                m.mode = Mode::InValue(quote);
                true
            }
            None => false,
        }
    }
}

/// The attribute is whole.
pub fn end_value(m: &mut Scan) -> Result<(), Memory>
    requires { IsNameBytes m.old.attr.items }
    ensures { Becomes result (scan_state m.old) (valued (scan_state m.old)) (scan_state m.new) }
{
    m.attrs.push(&m.attr)?;
    m.tokens.add_attribute(&m.attr)?;
    m.attr.clear();
    m.mode = Mode::ValueEnd;
    Ok(())
}

/// In a value between quotes of this kind.
pub(crate) fn in_value(m: &mut Scan, quote: Quote, c: char) -> Result<bool, Memory>
    requires { IsNameBytes m.old.attr.items }
    ensures { Stepped result (scan_state m.old) (on_value (scan_state m.old) (quote_of quote) c) (scan_state m.new) }
{
    let end = char::from(quote.byte());
    if c != end && is_text(c) {
        m.tokens.push(c)?;
        m.mode = Mode::InValue(quote);
        Ok(true)
    } else if c == end {
        end_value(m)?;
        Ok(true)
    } else if c == '&' {
        m.mode = Mode::InValueReference(quote, Referring::Letters(Letters::None));
        Ok(true)
    } else {
        Ok(false)
    }
}

/// In a reference in a value.
pub(crate) fn in_value_reference(
    m: &mut Scan,
    quote: Quote,
    referring: Referring,
    c: char,
) -> Result<bool, Memory>
    ensures { Stepped result (scan_state m.old) (on_referred (scan_state m.old) (InValueReference (quote_of quote))
        (InValue (quote_of quote)) (refer (referring_of referring) c)) (scan_state m.new) }
{
    match referring.and(c) {
        Referred::More(more) => {
            m.mode = Mode::InValueReference(quote, more);
            Ok(true)
        }
        Referred::Done(c) => {
            m.tokens.push(c)?;
            m.mode = Mode::InValue(quote);
            Ok(true)
        }
        Referred::Bad => Ok(false),
    }
}
