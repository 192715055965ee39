// How a list of steps is told.
ghost use Rattle.std.specs.Prelude.{◌≡◌, ◌++◌, string_bytes, OnOk};
ghost use Rattle.wording.specs.Words.{step_line, step_lines};

use running::Step;
use std::fmt;
use std::fmt::Write;

// Writes the line of one step.
fn tell_step(told: &mut String, step: Step) -> fmt::Result
    ensures { OnOk result (string_bytes told.new ≡ string_bytes told.old ++ step_line step) }
{
    writeln!(told, "{step}")?;
    Ok(())
}

/// Writes a line for each step, as `start 0 done`, `start 1 refused 20 run 0` or `cells 0 holds 2 write 0 read 1`.
/// Where memory runs out, some of the lines may be written.
pub fn tell_steps(told: &mut String, steps: &[Step]) -> fmt::Result
    ensures { OnOk result (string_bytes told.new ≡ string_bytes told.old ++ step_lines steps.now) }
{
    for step in steps {
        tell_step(told, *step)?;
    }
    Ok(())
}
