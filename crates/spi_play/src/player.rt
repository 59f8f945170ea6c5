// Who picks the steps of a play.
ghost use Rattle.std.specs.Prelude.{◌≡◌, ℕ, ◌<◌, Option};
ghost use Rattle.spi_play.specs.Way.{Way, FollowsWay, next_count};

/// What a player is shown.
#[derive(Clone, Copy)]
pub struct Menu {
    /// How many steps are ready.
    pub ready: u64,
    /// How many places there are.
    pub places: u32,
}

/// What a player answers.
#[derive(Clone, Copy, Debug, PartialEq, Eq)]
pub enum Pick {
    /// To take the ready step with this number, counted from 0.
    Take(u64),
    /// To leave the play.
    Leave,
}

/// Picks the steps of a play.
///
/// It means how often it was asked, and its way, where it tells one.
pub trait Player: Drop {
    /// How often it was asked, which stays at u64's greatest value.
    ghost times: { Self → ℕ };

    /// Its way, where it tells one.
    ghost way: { Self → Option Way };

    /// Picks one of the steps that are ready, or leaves. Where it tells its way it answers by it.
    fn pick(&mut self, menu: &Menu) -> Pick
        requires { 0 < menu.now.ready }
        ensures times { times self.new ≡ next_count (times self.old) }
        ensures way { FollowsWay (way self.old) (times self.old) menu.now.ready result (way self.new) };

    /// How often it was asked.
    fn asked(&self) -> u64
        ensures { result ≡ times self.now };
}
