//! Schedules.

ghost use Rattle.std.specs.Prelude.{◌≡◌, ◌≤◌, [], ◌∷◌, map, length, IfOk};
ghost use Rattle.spi_tree.specs.Views.{step_of};
ghost use Rattle.spi_run.specs.View.{step};
ghost use Rattle.spi_scope.specs.Parts.{step_in, step_span};
ghost use Rattle.spi_scope.specs.Points.{steps_points};
ghost use Rattle.spi_scope.specs.Gives.{run};
ghost use Rattle.spi_scope.specs.Leads.{LeadsTo};

use crate::fault::ScopeFault;
use spi_run::Step;
use spi_text::Span;
use spi_tree::SStep;
use std::alloc::Global;

fn step_place(s: &SStep) -> Span
    ensures { result ≡ step_span (step_of s.now) }
{
    match s {
        SStep::Act { span, .. } => *span,
        SStep::Talk { span, .. } => *span,
    }
}

fn read_step(s: &SStep) -> Step
    ensures { step result ≡ step_in (step_of s.now) }
{
    match s {
        SStep::Act { place, .. } => Step::Act(*place),
        SStep::Talk { from, to, .. } => Step::Talk(*from, *to),
    }
}

/// The steps of a schedule: 10,000 at most.
pub fn read_steps(
    alloc: Global,
    count: u64,
    steps: &[SStep],
) -> Result<(Vec<Step>, Vec<Span>), ScopeFault>
    ensures gives { LeadsTo result (run (steps_points 1 (length steps.now) (map step_of steps.now)) count)
        count }
    ensures steps { IfOk result (λ x. map step x.0.items ≡ map step_in (map step_of steps.now)) }
    ensures places { IfOk result (λ x. x.1.items ≡ map step_span (map step_of steps.now)) }
{
    let mut read = Vec::new(alloc);
    let mut places = Vec::new(alloc);
    for s in steps {
        let span = step_place(s);
        if places.len() >= 10_000 {
            return Err(ScopeFault::ScheduleTooLong {
                span,
                count: steps.len() as u64,
            });
        }
        read.push(read_step(s))?;
        places.push(span)?;
    }
    Ok((read, places))
}
