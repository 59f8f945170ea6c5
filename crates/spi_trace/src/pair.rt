// Which begin pays for which end.

ghost use Rattle.std.specs.Prelude.{◌<◌, ◌^◌, IfOk, length, map};
ghost use Rattle.spi_run.specs.View.{event};
ghost use Rattle.spi_trace.specs.Pairing.{IsPairing};

use crate::NoMemory;
use crate::labels::number_labels;
use crate::queue::{empty, pay};
use spi_run::Event;
use std::alloc::Global;

/// For each event the place of the begin that pays for it, counted from 0. A begin has none.
#[derive(Drop)]
pub struct Pairing {
    pub from: Vec<Option<u32>>,
}

/// The pairing of events. An end has the earliest begin before it with its label that no earlier end has, and None
/// just where there is none. An endmany has the earliest begin before it with its label, and None just where there
/// is none. The time is linear in the events and the nodes of their labels. Its only error is NoMemory.
pub fn pair_up(alloc: Global, events: &[Event]) -> Result<Pairing, NoMemory>
    requires { length events.now < 2 ^ 32 }
    ensures { IfOk result (λ pairing. IsPairing (map event events.now) pairing.from.items) }
{
    let labels = number_labels(alloc, events)?;
    let mut queues = empty(alloc, labels.bound)?;
    let mut from = Vec::new(alloc);
    for place in 0..events.len() {
        let number = labels.numbers[place];
        let begin = pay(&mut queues, number, &events[place], place as u32)?;
        from.push(begin)?;
    }
    Ok(Pairing { from })
}
