//! Where a core stands at a state.

ghost use Rattle.std.specs.Prelude.{◌≡◌};
ghost use Rattle.fsm_core.specs.Machine.{is_over};
ghost use Rattle.fsm_core.specs.Stands.{stand_of};

use crate::micro::{Micro, Next, State};
use crate::stream::{StreamUse, stream_first};

/// Where a core stands at a state: at the end, at a state that it makes, at a read of a port, or at a write to one from a
/// register.
#[derive(Clone, Copy)]
pub enum Stand {
    Over,
    Quiet,
    Takes(u8),
    Gives(u8, u16),
}

// Whether a state is the end: no micros, and End.
fn over(micros: &[Micro], next: Next) -> bool
    ensures { result ≡ is_over micros.now next }
{
    match next {
        Next::End => micros.is_empty(),
        _ => false,
    }
}

/// Where a core stands at this state.
#[tactic(auto, using(crate::proofs::Stood::over_is, crate::proofs::Stood::quiet_is, crate::proofs::Stood::takes_is, crate::proofs::Stood::gives_is))]
pub fn stand_of(state: &State) -> Stand
    ensures { result ≡ stand_of state.now }
{
    if over(&state.micros, state.next) {
        return Stand::Over;
    }
    match stream_first(&state.micros) {
        StreamUse::Quiet => Stand::Quiet,
        StreamUse::Takes(port) => Stand::Takes(port),
        StreamUse::Gives(port, a) => Stand::Gives(port, a),
    }
}
