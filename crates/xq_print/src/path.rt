//! Names and paths.
ghost use Rattle.std.specs.Prelude.{◌≡◌, flat_map, OnOk};
ghost use Rattle.xq_print.specs.Printed.{Prints, axis_text, path_text, start_text, step_text, test_text};

use gcx_base::{Axis, Memory, Name, Step, Test};
use gcx_model::PathExpr;

/// Appends a name.
pub fn put_name(out: &mut String, name: &Name) -> Result<(), Memory>
    ensures { OnOk result (Prints out.old out.new name.now) }
{
    out.push_str(name.as_str())?;
    Ok(())
}

fn axis_text(axis: Axis) -> &'static str
    ensures { result.now ≡ axis_text axis }
{
    match axis {
        Axis::Child => "/",
        Axis::Descendant => "//",
    }
}

/// Appends the test of a step.
pub fn put_test(out: &mut String, test: &Test) -> Result<(), Memory>
    ensures { OnOk result (Prints out.old out.new (test_text test.now)) }
{
    match test {
        Test::Named(name) => put_name(out, name)?,
        Test::AnyElement => out.push_str("*")?,
        Test::AnyText => out.push_str("text()")?,
        Test::AnyNode => out.push_str("node()")?,
    }
    Ok(())
}

fn put_step(out: &mut String, step: &Step) -> Result<(), Memory>
    ensures { OnOk result (Prints out.old out.new (step_text step.now)) }
{
    out.push_str(axis_text(step.axis))?;
    put_test(out, &step.test)
}

fn put_steps(out: &mut String, steps: &[Step]) -> Result<(), Memory>
    ensures { OnOk result (Prints out.old out.new (flat_map step_text steps.now)) }
{
    for step in steps {
        put_step(out, step)?;
    }
    Ok(())
}

fn put_start(out: &mut String, start: &Option<Name>) -> Result<(), Memory>
    ensures { OnOk result (Prints out.old out.new (start_text start.now)) }
{
    match start {
        Some(name) => {
            out.push_str("$")?;
            put_name(out, name)
        }
        None => Ok(()),
    }
}

pub(crate) fn put_path(out: &mut String, path: &PathExpr) -> Result<(), Memory>
    ensures { OnOk result (Prints out.old out.new (path_text path.now)) }
{
    put_start(out, &path.start)?;
    put_steps(out, path.steps.items())
}
