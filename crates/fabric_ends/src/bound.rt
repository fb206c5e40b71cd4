//! How many rounds are enough for a design.

ghost use Rattle.std.specs.Prelude.{◌≡◌, ℕ, ◌/◌, ◌<◌, ◌≤◌, List, length, Some, slice_get};
ghost use Rattle.net_tree.specs.Links.{sum_to};
ghost use Rattle.pld_base.specs.Process.{Process};
ghost use Rattle.pld_base.specs.Channels.{NodeEvent, OperatorNode, family_of};
ghost use Rattle.pld_kahn.specs.Rest.{IsRestFamily};
ghost use Rattle.fabric_run.specs.declared.entry.Entry.{Entry};
ghost use Rattle.fabric_run.specs.declared.row.Outcome.TheVariants.{Spent};
ghost use Rattle.fabric_run.specs.Plan.{PagePlan, PlanValue, start_of, setup_of};
ghost use Rattle.fabric_run.specs.World.{Carrier, changes};
ghost use Rattle.fabric_run.specs.Replay.{run, replay, IsLegal, outcome};
ghost use Rattle.fabric_keeps.specs.Measure.{enough};
ghost use Rattle.fabric_keeps.specs.Facts.{RunsWell};
ghost use Rattle.hot_swap.specs.Paths.{RestsAfter};
ghost use Rattle.fabric_ends.specs.Planned.{IsDesign, network};
ghost use Rattle.pld_image.specs.Cores.{next};

/// A run is spent only where its allowed rounds are fewer than are enough for its design's rest family: by its events, the
/// entries that are sent, each page's steps by 256, and the pages.
pub fn spent_is_early<S>()
    ensures { (net : Carrier S) (plan : PlanValue) (operators : List Process) (most : ℕ) (journal : List Entry) (rest : List NodeEvent) (limit : ℕ → ℕ) → IsDesign plan operators → RunsWell (setup_of net plan) most → IsLegal (setup_of net plan) journal → 1 ≤ most
        → IsRestFamily plan.window (network plan operators) (family_of rest)
        → ((k : ℕ) (p : PagePlan) → slice_get plan.pages k ≡ Some p → RestsAfter next (start_of p) (limit k) (family_of rest (OperatorNode k)))
        → outcome (setup_of net plan) (replay (setup_of net plan) journal) ≡ Some Spent
        → plan.rounds < enough most (length rest) (length (changes (setup_of net plan))) (sum_to (length plan.pages) (λ k. limit k / 256)) (length plan.pages) }
{}
