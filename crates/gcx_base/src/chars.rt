//! Classes of characters (XML 1.0, fifth edition, sections 2.2 and 2.3).
ghost use Rattle.std.specs.Prelude.{◌≡◌, ◌<◌, ◌≤◌};
ghost use Rattle.gcx_base.specs.Characters.{is_char, is_white, is_start_char, is_part_char, is_ascii_start, is_wide_start};

/// Whether it is a Char: any character but the surrogates, #xFFFE, #xFFFF and the controls other than #x9, #xA, #xD.
#[inline(always)]
pub fn is_xml_char(c: char) -> bool
    ensures { result ≡ is_char c }
{
    // Most characters are in the first range.
    matches!(c, ' '..='\u{D7FF}')
        || matches!(c, '\t' | '\n' | '\r' | '\u{E000}'..='\u{FFFD}' | '\u{10000}'..='\u{10FFFF}')
}

/// Whether it is white space: #x20, #x9, #xD or #xA.
#[inline(always)]
pub fn is_space(c: char) -> bool
    ensures { result ≡ is_white c }
{
    matches!(c, ' ' | '\t' | '\r' | '\n')
}

/// Whether it is a NameStartChar below #x80.
fn is_ascii_name_start(c: char) -> bool
    ensures { result ≡ is_ascii_start c }
{
    matches!(c, 'a'..='z' | 'A'..='Z' | '_' | ':')
}

/// Whether it is a NameStartChar from #x80 on.
fn is_wide_name_start(c: char) -> bool
    ensures { result ≡ is_wide_start c }
{
    matches!(
        c,
        '\u{C0}'..='\u{D6}'
            | '\u{D8}'..='\u{F6}'
            | '\u{F8}'..='\u{2FF}'
            | '\u{370}'..='\u{37D}'
            | '\u{37F}'..='\u{1FFF}'
            | '\u{200C}'..='\u{200D}'
            | '\u{2070}'..='\u{218F}'
            | '\u{2C00}'..='\u{2FEF}'
            | '\u{3001}'..='\u{D7FF}'
            | '\u{F900}'..='\u{FDCF}'
            | '\u{FDF0}'..='\u{FFFD}'
            | '\u{10000}'..='\u{EFFFF}'
    )
}

/// Whether a name may begin with it: NameStartChar.
#[inline(always)]
pub fn is_name_start(c: char) -> bool
    ensures { result ≡ is_start_char c }
{
    if c.is_ascii() {
        is_ascii_name_start(c)
    } else {
        is_wide_name_start(c)
    }
}

/// Whether it is a NameChar below #x80.
fn is_ascii_name_char(c: char) -> bool
    requires { c < 128 }
    ensures { result ≡ is_part_char c }
{
    matches!(c, 'a'..='z' | 'A'..='Z' | '0'..='9' | '-' | '.' | '_' | ':')
}

/// Whether it is a NameChar from #x80 on.
fn is_wide_name_char(c: char) -> bool
    requires { 128 ≤ c }
    ensures { result ≡ is_part_char c }
{
    is_wide_name_start(c) || matches!(c, '\u{B7}' | '\u{300}'..='\u{36F}' | '\u{203F}'..='\u{2040}')
}

/// Whether a name may go on with it: NameChar.
#[inline(always)]
pub fn is_name_char(c: char) -> bool
    ensures { result ≡ is_part_char c }
{
    if c.is_ascii() {
        is_ascii_name_char(c)
    } else {
        is_wide_name_char(c)
    }
}
