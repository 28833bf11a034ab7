//! The lines that `peak`, `selfrun` and `check` print.
ghost use Rattle.std.specs.Prelude.{◌≡◌, ◌++◌, decimal, OnOk};
ghost use Rattle.gcx_cmd.specs.Texts.{answer_line, lines_line, peak_line};

use engine::Report;
use gcx_base::Memory;
use itoa::Buffer;

fn put_number(line: &mut Vec<u8>, number: u64) -> Result<(), Memory>
    ensures { OnOk result (line.new.items ≡ line.old.items ++ decimal number) }
{
    let mut buffer = Buffer::new();
    line.extend_from_slice(buffer.format(number).as_bytes())?;
    Ok(())
}

fn put_sum(line: &mut Vec<u8>, sum: u128) -> Result<(), Memory>
    ensures { OnOk result (line.new.items ≡ line.old.items ++ decimal sum) }
{
    let mut buffer = Buffer::new();
    line.extend_from_slice(buffer.format(sum).as_bytes())?;
    Ok(())
}

/// Appends the line of a run's numbers.
pub(crate) fn put_peak_line(line: &mut Vec<u8>, report: &Report) -> Result<(), Memory>
    ensures { OnOk result (line.new.items ≡ line.old.items
        ++ peak_line report.now.peak report.now.nodes report.now.given report.now.taken) }
{
    line.extend_from_slice(b"peak ")?;
    put_number(line, report.peak)?;
    line.extend_from_slice(b" nodes ")?;
    put_number(line, report.nodes)?;
    line.extend_from_slice(b" given ")?;
    put_sum(line, report.given)?;
    line.extend_from_slice(b" taken ")?;
    put_sum(line, report.taken)?;
    line.extend_from_slice(b"\n")?;
    Ok(())
}

/// Appends the line of a run's numbers, which the number of the answer's bytes begins.
pub(crate) fn put_answer_line(
    line: &mut Vec<u8>,
    answer: u64,
    report: &Report,
) -> Result<(), Memory>
    ensures { OnOk result (line.new.items ≡ line.old.items
        ++ answer_line answer report.now.peak report.now.nodes report.now.given report.now.taken) }
{
    line.extend_from_slice(b"answer ")?;
    put_number(line, answer)?;
    line.extend_from_slice(b" ")?;
    put_peak_line(line, report)
}

/// Appends the line of a trace's number of lines.
pub(crate) fn put_lines_line(line: &mut Vec<u8>, lines: u64) -> Result<(), Memory>
    ensures { OnOk result (line.new.items ≡ line.old.items ++ lines_line lines) }
{
    line.extend_from_slice(b"trace ")?;
    put_number(line, lines)?;
    line.extend_from_slice(b" lines")?;
    line.extend_from_slice(b"\n")?;
    Ok(())
}
