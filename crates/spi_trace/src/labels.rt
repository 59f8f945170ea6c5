// Numbers for labels.

ghost use Rattle.std.specs.Prelude.{◌≡◌, IfOk, map};
ghost use Rattle.spi_term.specs.View.{message};
ghost use Rattle.spi_run.specs.View.{event};
ghost use Rattle.spi_trace.specs.Labels.{label_of, AreNumbered};

use crate::NoMemory;
use spi_intern::Store;
use spi_run::Event;
use spi_term::Msg;
use std::alloc::Global;

/// The number of each event's label, all below `bound`.
#[derive(Drop)]
pub struct Labels {
    pub numbers: Vec<usize>,
    pub bound: usize,
}

fn label(e: &Event) -> &Msg
    ensures { message result.now ≡ label_of (event e.now) }
{
    match e {
        Event::Begin(m) => m,
        Event::End(m) => m,
        Event::EndMany(m) => m,
    }
}

/// Numbers for the labels of events: equal labels have equal numbers, and different ones different numbers.
pub fn number_labels(alloc: Global, events: &[Event]) -> Result<Labels, NoMemory>
    ensures { IfOk result (λ labels. AreNumbered (map event events.now) labels.numbers.items labels.bound) }
{
    let mut store = Store::new(alloc);
    let mut numbers = Vec::new(alloc);
    for e in events {
        let id = store.message(label(e))?;
        numbers.push(id.place())?;
    }
    let bound = store.distinct() as usize;
    Ok(Labels { numbers, bound })
}
