// The text of a schedule.

ghost use Rattle.std.specs.Prelude.{◌≡◌, ◌++◌, IfOk, OnOk, map};
ghost use Rattle.spi_run.specs.View.{step};
ghost use Rattle.spi_show.specs.Steps.{step_text, steps_text, schedule_text};

use crate::NoMemory;
use spi_run::Step;
use std::alloc::Global;

// Appends the line of a step.
fn put_step(alloc: Global, out: &mut Vec<u8>, s: &Step) -> Result<(), NoMemory>
    ensures { OnOk result (out.new.items ≡ out.old.items ++ step_text (step s.now)) }
{
    match s {
        Step::Act(place) => out.extend_from_slice(format!(in alloc; "act {place};\n")?.as_bytes()),
        Step::Talk(outputs, inputs) => {
            out.extend_from_slice(format!(in alloc; "talk {outputs} {inputs};\n")?.as_bytes())
        }
    }
}

// Appends a line for each step.
fn put_steps(alloc: Global, steps: &[Step], out: &mut Vec<u8>) -> Result<(), NoMemory>
    ensures { OnOk result (out.new.items ≡ out.old.items ++ steps_text (map step steps.now)) }
{
    for s in steps {
        put_step(alloc, out, s)?;
    }
    Ok(())
}

/// Appends the text of a schedule: the line `schedule`, and a line for each step.
pub fn put_schedule_text(alloc: Global, steps: &[Step], out: &mut Vec<u8>) -> Result<(), NoMemory>
    ensures { OnOk result (out.new.items ≡ out.old.items ++ schedule_text (map step steps.now)) }
{
    out.extend_from_slice(b"schedule\n")?;
    put_steps(alloc, steps, out)
}

/// The text of a schedule: the line `schedule`, and for each step a line `act I;` or `talk I J;`. Each line ends with
/// a line feed.
pub fn show_steps(alloc: Global, steps: &[Step]) -> Result<Vec<u8>, NoMemory>
    ensures { IfOk result (λ v. v.items ≡ schedule_text (map step steps.now)) }
{
    let mut out = Vec::new(alloc);
    put_schedule_text(alloc, steps, &mut out)?;
    Ok(out)
}
