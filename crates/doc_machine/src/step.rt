//! One character more.
ghost use Rattle.std.specs.Prelude.{◌≡◌};
ghost use Rattle.doc_laws.specs.Machine.{step, on_bang};
ghost use Rattle.doc_machine.specs.Machine.{scan_state};
ghost use Rattle.doc_machine.specs.Sound.{IsSound};
ghost use Rattle.doc_machine.specs.Steps.{Taken, Stepped};

use crate::end_tag::{end_name, ended};
use crate::markup::{
    bang, bang_dash, cdsect_word, comment, comment_dash, comment_end, doc, doc_literal, doc_space,
    doc_word, instruction, instruction_mark, question, target, target_mark,
};
use crate::mode::Mode;
use crate::scan::Scan;
use crate::tag::{
    attribute_name, equals, in_value, in_value_reference, less, named, slash, start_name,
    start_space, tag,
};
use crate::text::{between, cdsect, in_reference, opening, turn};
use gcx_base::Memory;

/// Behind `<!`.
fn exclamation(m: &mut Scan, c: char) -> bool
    ensures { Taken result (scan_state m.old) (on_bang (scan_state m.old) c) (scan_state m.new) }
{
    let mode = bang(m.names.has_open(), m.typed, c);
    turn(m, mode)
}

/// One character more: false where there is no such step.
pub(crate) fn advance(m: &mut Scan, c: char) -> Result<bool, Memory>
    requires { IsSound (scan_state m.old) }
    ensures { Stepped result (scan_state m.old) (step (scan_state m.old) c) (scan_state m.new) }
{
    match m.mode {
        Mode::Opening => opening(m, c),
        Mode::Between => between(m, c),
        Mode::Less => less(m, c),
        Mode::StartName => start_name(m, c),
        Mode::StartSpace => start_space(m, c),
        Mode::AttributeName => attribute_name(m, c),
        Mode::AttributeSpace => Ok(named(m, c)),
        Mode::Equals => Ok(equals(m, c)),
        Mode::InValue(quote) => in_value(m, quote, c),
        Mode::InValueReference(quote, referring) => in_value_reference(m, quote, referring, c),
        Mode::ValueEnd => tag(m, c),
        Mode::Slash => slash(m, c),
        Mode::EndName(i) => end_name(m, i, c),
        Mode::EndSpace => ended(m, c),
        Mode::Question => Ok(turn(m, question(c))),
        Mode::Target => Ok(turn(m, target(c))),
        Mode::TargetMark => Ok(turn(m, target_mark(c))),
        Mode::Instruction => Ok(turn(m, instruction(c))),
        Mode::InstructionMark => Ok(turn(m, instruction_mark(c))),
        Mode::DocWord(i) => Ok(turn(m, doc_word(i, c))),
        Mode::DocSpace => Ok(turn(m, doc_space(c))),
        Mode::Doc => Ok(doc(m, c)),
        Mode::DocLiteral(quote) => Ok(turn(m, doc_literal(quote, c))),
        Mode::Bang => Ok(exclamation(m, c)),
        Mode::BangDash => Ok(turn(m, bang_dash(c))),
        Mode::Comment => Ok(turn(m, comment(c))),
        Mode::CommentDash => Ok(turn(m, comment_dash(c))),
        Mode::CommentEnd => Ok(turn(m, comment_end(c))),
        Mode::CDSectWord(i) => Ok(turn(m, cdsect_word(i, c))),
        Mode::CDSect(brackets) => cdsect(m, brackets, c),
        Mode::InReference(referring) => in_reference(m, referring, c),
    }
}
