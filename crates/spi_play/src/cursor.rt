// Which player is asked next.

ghost use Rattle.std.specs.Prelude.{◌≡◌, ◌<◌, ◌≤◌};
ghost use Rattle.std.specs.Option.{ForSome};
ghost use Rattle.spi_play.specs.Play.{first_seat, after_take, after_leave};

// The place that is asked first.
pub(crate) fn place_at_first(only: Option<usize>, players: usize) -> Option<usize>
    requires { ForSome only (λ place. place < players) }
    ensures place { result ≡ first_seat only players }
    ensures within { ForSome result (λ place. place < players) }
{
    match only {
        Some(place) => Some(place),
        None if players == 0 => None,
        None => Some(0),
    }
}

// The place that is asked after the player at this one took a step.
pub(crate) fn place_after_take(only: Option<usize>, place: usize, players: usize) -> Option<usize>
    requires { place < players }
    ensures place { result ≡ after_take only place players }
    ensures within { ForSome result (λ place. place < players) }
{
    match only {
        Some(_) => Some(place),
        None if place + 1 == players => Some(0),
        None => Some(place + 1),
    }
}

// The place that is asked after the player at this one left so many players.
pub(crate) fn place_after_leave(only: Option<usize>, place: usize, players: usize) -> Option<usize>
    requires { place ≤ players }
    ensures place { result ≡ after_leave only place players }
    ensures within { ForSome result (λ place. place < players) }
{
    match only {
        Some(_) => None,
        None if players == 0 => None,
        None if place == players => Some(0),
        None => Some(place),
    }
}
