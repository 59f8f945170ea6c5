// The players of the program. They never leave.
ghost use Rattle.std.specs.Prelude.{◌≡◌, ◌<◌, ◌%◌, ℕ, None, Some};
ghost use Rattle.rand_pcg.specs.Pcg.{pcg32};
ghost use Rattle.spi_play.specs.Way.{First, Turn, FollowsWay, next_count};
ghost use Rattle.spi_play.specs.declared.player.Pick.TheVariants.{Take};

use rand_core::SeedableRng;
use rand_core::utils::NextWord;
use rand_pcg::Lcg64Xsh32;
use spi_play::{Menu, Pick, Player};

/// Takes the ready step with number 0. Its way is to take the first.
#[derive(Drop)]
pub struct FirstReady {
    asked: u64,
}

impl FirstReady {
    /// It was asked 0 times.
    pub fn new() -> FirstReady
        ensures { result.asked ≡ 0 }
    {
        FirstReady { asked: 0 }
    }
}

impl Player for FirstReady {
    ghost times = { λ s. s.asked };

    ghost way = { λ _. Some First };

    fn pick(&mut self, _menu: &Menu) -> Pick {
        self.asked = self.asked.saturating_add(1);
        Pick::Take(0)
    }

    fn asked(&self) -> u64 {
        self.asked
    }
}

/// Takes the ready step whose number is how often it was asked before, modulo the number of ready steps. Its way is to take
/// them in turn.
#[derive(Drop)]
pub struct InTurn {
    asked: u64,
}

impl InTurn {
    /// It was asked 0 times.
    pub fn new() -> InTurn
        ensures { result.asked ≡ 0 }
    {
        InTurn { asked: 0 }
    }
}

impl Player for InTurn {
    ghost times = { λ s. s.asked };

    ghost way = { λ _. Some Turn };

    fn pick(&mut self, menu: &Menu) -> Pick {
        let k = self.asked % menu.ready;
        self.asked = self.asked.saturating_add(1);
        Pick::Take(k)
    }

    fn asked(&self) -> u64 {
        self.asked
    }
}

/// Takes the next word of a generator, modulo the number of ready steps. It tells no way.
#[derive(Drop)]
pub struct Seeded {
    generator: Lcg64Xsh32,
    asked: u64,
}

impl Seeded {
    /// It was asked 0 times, and its generator is the one of this seed.
    pub fn new(seed: u64) -> Seeded
        ensures times { result.asked ≡ 0 }
        ensures generator { result.generator
            ≡ ⟦<Lcg64Xsh32 as SeedableRng>⟧.of_seed (⟦<Lcg64Xsh32 as SeedableRng>⟧.seed_of_u64 seed) }
    {
        Seeded {
            generator: Lcg64Xsh32::seed_from_u64(seed),
            asked: 0,
        }
    }
}

impl Player for Seeded {
    ghost times = { λ s. s.asked };

    ghost way = { λ _. None };

    fn pick(&mut self, menu: &Menu) -> Pick
        requires { 0 < menu.now.ready }
        ensures times { self.new.asked ≡ next_count self.old.asked }
        ensures way { FollowsWay None self.old.asked menu.now.ready result None }
        ensures word { (word : ℕ) × ((word, self.new.generator) ≡ pcg32 self.old.generator)
            × (result ≡ Take (word % menu.now.ready)) }
    {
        self.asked = self.asked.saturating_add(1);
        let word = self.generator.next_word();
        Pick::Take(u64::from(word) % menu.ready)
    }

    fn asked(&self) -> u64 {
        self.asked
    }
}
