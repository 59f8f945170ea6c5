use spi_term::{Effect, Process};
use spi_text::Text;

/// A part that is there, with its name and its least effect. `None` where no effect is derivable for it.
#[derive(Drop)]
pub struct Slot {
    pub name: Text,
    pub part: Process,
    pub least: Option<Effect>,
}
