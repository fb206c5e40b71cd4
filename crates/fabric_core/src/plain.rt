//! The run of one worker.

ghost use Rattle.std.specs.Prelude.{◌≡◌, if◌then◌else◌, not, [], Some, None, IsSome, true};
ghost use Rattle.fabric_run.specs.Replay.{outcome, IsPlain, none_out, is_served, first_to};
ghost use Rattle.fabric_run.specs.World.{is_configured};
ghost use Rattle.fabric_core.specs.Runs.{setup_for, state_of};
ghost use Rattle.fabric_core.specs.Plainly.{IsNextPlain};

use crate::fabric::Fabric;

/// Makes the run of `plain`. It takes no memory and returns.
pub fn run_plain(fabric: Fabric) -> Fabric
    requires { fabric.journal ≡ [] }
    ensures plan { result.plan ≡ fabric.plan }
    ensures plain { IsPlain (setup_for result) result.journal }
    ensures over { IsSome (outcome (setup_for result) (state_of result)) }
{
    let mut fabric = fabric;
    'run: while fabric.over().is_none() {
        advance(&mut fabric);
    }
    fabric
}

// The next entries of `plain`: a Take of the page that is due, with its Give, or a round.
fn advance(fabric: &mut Fabric)
    requires on { outcome (setup_for fabric.old) (state_of fabric.old) ≡ None }
    requires home { none_out (setup_for fabric.old) (state_of fabric.old) ≡ true }
    requires plain { IsPlain (setup_for fabric.old) fabric.old.journal }
    ensures next { IsNextPlain fabric.old fabric.new }
{
    match fabric.first_due() {
        Some(leaf) => turn_page(fabric, leaf),
        None => {
            let _made = fabric.net(0);
            fabric.is_legal();
        }
    }
}

// A Take of the page that is due, and its Give.
fn turn_page(fabric: &mut Fabric, leaf: usize)
    requires on { outcome (setup_for fabric.old) (state_of fabric.old) ≡ None }
    requires home { none_out (setup_for fabric.old) (state_of fabric.old) ≡ true }
    requires plain { IsPlain (setup_for fabric.old) fabric.old.journal }
    requires due { Some leaf ≡ (if is_configured (setup_for fabric.old) (state_of fabric.old) then first_to (setup_for fabric.old).size (λ i. not (is_served ((state_of fabric.old).pages i))) else None) }
    ensures next { IsNextPlain fabric.old fabric.new }
{
    fabric.is_legal();
    match fabric.take(0, leaf as u8) {
        Some(page) => {
            let mut page = page;
            page.turn();
            fabric.give(0, page);
            fabric.is_legal();
        }
        None => unreachable!(),
    }
}
