//! What a file keeps of its tree.

ghost use Rattle.std.specs.Prelude.{◌≡◌};
ghost use Rattle.spi_scope.specs.Places.{place_in};

use crate::trail::Scopes;
use spi_text::Span;

/// Where the nodes of the process and of the opponent, the steps and the rule uses stand, and the names in scope at each
/// node of the process.
pub struct Marks {
    pub process: Vec<Span>,
    pub opponent: Vec<Span>,
    pub steps: Vec<Span>,
    pub rules: Vec<Span>,
    pub scopes: Scopes,
}

impl Drop for Marks {
    fn drop(self) {
        let Marks {
            process: _,
            opponent: _,
            steps: _,
            rules: _,
            scopes: _,
        } = self;
    }
}

/// The place with this number, and the empty one at 0 where there isn't one.
pub fn place_at(places: &[Span], number: u32) -> Span
    ensures { result ≡ place_in places.now number }
{
    match places.get(number as usize) {
        Some(place) => *place,
        None => Span { from: 0, to: 0 },
    }
}
