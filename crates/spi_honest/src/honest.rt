//! Honest schedules.

use spi_run::{Event, Step};

/// An honest schedule: the steps by which a narration goes, in order, and its events, in order.
#[derive(Drop)]
pub struct Honest {
    pub steps: Vec<Step>,
    pub events: Vec<Event>,
}
