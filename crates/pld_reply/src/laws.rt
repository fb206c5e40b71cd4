//! How long the replies to runs are.

ghost use Rattle.std.specs.Prelude.{◌≡◌, ℕ, ◌<◌, ◌≤◌, ◌^◌, List, length};
ghost use Rattle.pld_base.specs.Process.{Process};
ghost use Rattle.fabric_run.specs.declared.entry.Entry.{Entry};
ghost use Rattle.fabric_run.specs.Plan.{PlanValue};
ghost use Rattle.fabric_run.specs.Replay.{IsLegal, replay};
ghost use Rattle.fabric_run.specs.Shown.{Shown, shown};
ghost use Rattle.fabric_run.specs.Reply.{reply as run_reply};
ghost use Rattle.fabric_run.specs.Trees.{tree_setup};
ghost use Rattle.fabric_ends.specs.Planned.{IsDesign};
ghost use Rattle.pld_reply.specs.Sizes.{AreShort, HasOuts, HasBytePorts, run_room};

use fabric_tree::runs_over_the_tree;

/// How long the reply to a run is at most: 27 bytes for how it ended, 47 for each operator's port, and for each output 58
/// and 11 for each of its words, of which there are no more than allowed rounds.
pub fn run_replies_are_short()
    ensures { (names outputs : ℕ → List ℕ) (operators outs rounds : ℕ) (s : Shown) → AreShort names → AreShort outputs
        → rounds < 2 ^ 64 → HasOuts rounds s → HasBytePorts s
        → length (run_reply names outputs operators outs s) ≤ run_room operators outs rounds }
{}

/// Whatever the journal of a design's run, no more rounds are made than are allowed, an output has at most one word for each of them,
/// it is a word, and the port at which an operator stands is a byte.
pub fn runs_have_outs()
    ensures outs { (plan : PlanValue) (operators : List Process) (journal : List Entry) → IsDesign plan operators → IsLegal (tree_setup plan) journal
        → HasOuts plan.rounds (shown (tree_setup plan) (replay (tree_setup plan) journal)) }
    ensures ports { (plan : PlanValue) (operators : List Process) (journal : List Entry) → IsDesign plan operators → IsLegal (tree_setup plan) journal
        → HasBytePorts (shown (tree_setup plan) (replay (tree_setup plan) journal)) }
{
    runs_over_the_tree();
}
