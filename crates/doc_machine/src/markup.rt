//! Comments, processing instructions and document type declarations.
ghost use Rattle.std.specs.Prelude.{◌≡◌, drop};
ghost use Rattle.gcx_model.specs.Attributes.{is_quote as is_quote_char};
ghost use Rattle.gcx_model.specs.Fronts.{is_inside};
ghost use Rattle.gcx_model.specs.Markup.{cdata_word, doc_word as octype, is_doc_char};
ghost use Rattle.doc_laws.specs.Machine.{State, on_question, on_target, on_target_mark, on_instruction, on_doc_word, on_doc_space, on_doc, on_doc_literal, on_bang, on_bang_dash, on_comment, on_comment_dash, on_comment_end, on_cdsect_word};
ghost use Rattle.doc_machine.specs.Machine.{scan_state};
ghost use Rattle.doc_machine.specs.Steps.{turned, Taken};

use crate::mode::{Brackets, Mode};
use crate::scan::Scan;
use gcx_base::{is_name_char, is_name_start, is_space, is_xml_char};

const CDATA: [char; 5] = ['C', 'D', 'A', 'T', 'A'];

const OCTYPE: [char; 6] = ['O', 'C', 'T', 'Y', 'P', 'E'];

/// Whether it is a quote of either kind.
pub(crate) fn is_quote(c: char) -> bool
    ensures { result ≡ is_quote_char c }
{
    c == '"' || c == '\''
}

fn is_declared(c: char) -> bool
    ensures { result ≡ is_doc_char c }
{
    is_xml_char(c) && !is_quote(c) && c != '[' && c != '<' && c != '>'
}

/// Behind `<!`.
pub(crate) fn bang(inside: bool, typed: bool, c: char) -> Option<Mode>
    ensures { (s : State) → is_inside s.names ≡ inside → s.typed ≡ typed → turned s result ≡ on_bang s c }
{
    match c {
        '-' => Some(Mode::BangDash),
        '[' if inside => Some(Mode::CDSectWord(0)),
        'D' if !typed => Some(Mode::DocWord(0)),
        _ => None,
    }
}

/// Behind `<!-`.
pub(crate) fn bang_dash(c: char) -> Option<Mode>
    ensures { (s : State) → turned s result ≡ on_bang_dash s c }
{
    if c == '-' { Some(Mode::Comment) } else { None }
}

pub(crate) fn comment(c: char) -> Option<Mode>
    ensures { (s : State) → turned s result ≡ on_comment s c }
{
    if c == '-' {
        Some(Mode::CommentDash)
    } else if is_xml_char(c) {
        Some(Mode::Comment)
    } else {
        None
    }
}

/// Behind one `-` in a comment.
pub(crate) fn comment_dash(c: char) -> Option<Mode>
    ensures { (s : State) → turned s result ≡ on_comment_dash s c }
{
    if c == '-' {
        Some(Mode::CommentEnd)
    } else if is_xml_char(c) {
        Some(Mode::Comment)
    } else {
        None
    }
}

/// Behind two.
pub(crate) fn comment_end(c: char) -> Option<Mode>
    ensures { (s : State) → turned s result ≡ on_comment_end s c }
{
    if c == '>' { Some(Mode::Between) } else { None }
}

/// Behind `<?`.
pub(crate) fn question(c: char) -> Option<Mode>
    ensures { (s : State) → turned s result ≡ on_question s c }
{
    if is_name_start(c) {
        Some(Mode::Target)
    } else {
        None
    }
}

/// In the name of a processing instruction.
pub(crate) fn target(c: char) -> Option<Mode>
    ensures { (s : State) → turned s result ≡ on_target s c }
{
    if is_name_char(c) {
        Some(Mode::Target)
    } else if is_space(c) {
        Some(Mode::Instruction)
    } else if c == '?' {
        Some(Mode::TargetMark)
    } else {
        None
    }
}

pub(crate) fn target_mark(c: char) -> Option<Mode>
    ensures { (s : State) → turned s result ≡ on_target_mark s c }
{
    if c == '>' { Some(Mode::Between) } else { None }
}

/// In a processing instruction.
pub(crate) fn instruction(c: char) -> Option<Mode>
    ensures { (s : State) → turned s result ≡ on_instruction s 0 c }
{
    if c == '?' {
        Some(Mode::InstructionMark)
    } else if is_xml_char(c) {
        Some(Mode::Instruction)
    } else {
        None
    }
}

/// Behind a `?` in it.
pub(crate) fn instruction_mark(c: char) -> Option<Mode>
    ensures { (s : State) → turned s result ≡ on_instruction s 1 c }
{
    if c == '>' {
        Some(Mode::Between)
    } else {
        instruction(c)
    }
}

/// Behind so many characters of `OCTYPE`.
pub(crate) fn doc_word(i: usize, c: char) -> Option<Mode>
    ensures { (s : State) → turned s result ≡ on_doc_word s (drop i octype) c }
{
    match OCTYPE.get(i) {
        Some(d) if *d == c => Some(Mode::DocWord(i + 1)),
        Some(_) => None,
        None if is_space(c) => Some(Mode::DocSpace),
        None => None,
    }
}

pub(crate) fn doc_space(c: char) -> Option<Mode>
    ensures { (s : State) → turned s result ≡ on_doc_space s c }
{
    if is_space(c) {
        Some(Mode::DocSpace)
    } else if is_name_start(c) {
        Some(Mode::Doc)
    } else {
        None
    }
}

pub(crate) fn doc_literal(quote: char, c: char) -> Option<Mode>
    ensures { (s : State) → turned s result ≡ on_doc_literal s quote c }
{
    if c == quote {
        Some(Mode::Doc)
    } else if is_xml_char(c) {
        Some(Mode::DocLiteral(quote))
    } else {
        None
    }
}

/// Behind so many characters of `CDATA`.
pub(crate) fn cdsect_word(i: usize, c: char) -> Option<Mode>
    ensures { (s : State) → turned s result ≡ on_cdsect_word s (drop i cdata_word) c }
{
    match CDATA.get(i) {
        Some(d) if *d == c => Some(Mode::CDSectWord(i + 1)),
        Some(_) => None,
        None if c == '[' => Some(Mode::CDSect(Brackets::None)),
        None => None,
    }
}

/// In a document type declaration.
pub(crate) fn doc(m: &mut Scan, c: char) -> bool
    ensures { Taken result (scan_state m.old) (on_doc (scan_state m.old) c) (scan_state m.new) }
{
    if is_declared(c) {
        m.mode = Mode::Doc;
        true
    } else if c == '>' {
        m.typed = true;
        m.mode = Mode::Between;
        true
    } else if is_quote(c) {
        m.mode = Mode::DocLiteral(c);
        true
    } else {
        false
    }
}
