//! Turns of a page's core that repeats operations.

ghost use Rattle.std.specs.Prelude.{◌≡◌};
ghost use Rattle.hot_swap.specs.Chase.{seen};
ghost use Rattle.pld_image.specs.Cores.{core_of};
ghost use Rattle.pld_image.specs.Steps.{turned_chasing, chasing_end, ChasingStandsAt};

use crate::laws::chasing_turns_are_steps;
use crate::page::{PageCore, STEPS, TurnEnd, turn_of};
use hot_swap::Chasing;

/// One turn of a core that may have operations to repeat: steps until it stands at a port operation of its own or has ended,
/// at most 256. Each operation that is repeated is a step, and the turn goes on.
#[tactic(auto, unfolding(crate::specs::Cores::steps, crate::specs::Steps::turned_chasing, crate::specs::Steps::chasing_end))]
pub fn turn_chasing(core: &mut Chasing<PageCore>) -> TurnEnd
    ensures end { result ≡ chasing_end (seen core_of core.old) }
    ensures core { seen core_of core.new ≡ turned_chasing (seen core_of core.old) }
    ensures stands { ChasingStandsAt (seen core_of core.new) result }
{
    chasing_turns_are_steps();
    let _left = core.left();
    turn_of(core.advance(STEPS))
}
