// Players that go by a script.

ghost use Rattle.std.specs.Prelude.{◌≡◌, ◌≤◌, Some, drop, vec_len};
ghost use Rattle.spi_play.specs.Way.{Script};

use crate::player::{Menu, Pick, Player};

/// A player that picks the numbers of a script in order, and leaves after the last. It tells its script.
pub struct Scripted {
    script: Vec<u64>,
    at: usize,
    asked: u64,
    ghost within: { at ≤ vec_len script },
}

impl Drop for Scripted {
    fn drop(self) {
        let Self { script, at, asked } = self;
    }
}

impl Scripted {
    /// It was asked 0 times.
    pub fn new(script: Vec<u64>) -> Scripted
        ensures times { ⟦<Scripted as Player>⟧.times result ≡ 0 }
        ensures way { ⟦<Scripted as Player>⟧.way result ≡ Some (Script script.items) }
    {
        Scripted {
            script,
            at: 0,
            asked: 0,
        }
    }
}

impl Player for Scripted {
    ghost times = { λ s. s.asked };

    ghost way = { λ s. Some (Script (drop s.at s.script.items)) };

    fn pick(&mut self, _menu: &Menu) -> Pick {
        self.asked = self.asked.saturating_add(1);
        if self.at == self.script.len() {
            return Pick::Leave;
        }
        let k = self.script[self.at];
        self.at += 1;
        Pick::Take(k)
    }

    fn asked(&self) -> u64 {
        self.asked
    }
}
