// What two places hand over.

ghost use Rattle.std.specs.Prelude.{◌≡◌, ◌∷◌, [], IfOk, MatchOption};
ghost use Rattle.spi_term.specs.View.{message};
ghost use Rattle.spi_run.specs.Reduction.{talk};
ghost use Rattle.spi_run.specs.Knowledge.{shown};
ghost use Rattle.spi_replay.specs.Ready.{IsReady};
ghost use Rattle.spi_replay.specs.Pools.{pooled, IsState};

use crate::NoMemory;
use crate::running::State;
use crate::waits::meeting_of;
use spi_intern::message_of;
use spi_term::Msg;

/// The message that an output hands over to an input, where they are ready to talk.
pub fn handed(state: &State<'_>, out: u32, inp: u32) -> Result<Option<Msg>, NoMemory>
    requires { IsState state.now }
    ensures { IfOk result
        (λ d. MatchOption d (IsReady (pooled state.now).configuration (talk out inp) → ⊥)
        (λ m. IsReady (pooled state.now).configuration (talk out inp)
        × (shown (pooled state.now).configuration (talk out inp) ≡ message m ∷ []))) }
{
    if out as usize >= state.index.len() {
        return Ok(None);
    }
    if inp as usize >= state.index.len() {
        return Ok(None);
    }
    // The count is asked for what its answer says: no message has two numbers.
    let _ = state.store.distinct();
    match meeting_of(state.index.at(out).wait, state.index.at(inp).wait) {
        None => Ok(None),
        Some(meeting) => {
            let datum = message_of(state.alloc, &state.store, meeting.datum)?;
            Ok(Some(datum))
        }
    }
}
