//! Runs over the tree of switches: what holds of every run, with nothing left to ask of what carries packets.
#![tactic(auto)]

ghost use Rattle.std.specs.Prelude.{◌≡◌, ℕ, ◌/◌, ◌^◌, ◌<◌, ◌≤◌, List, length, Some, IsSome, slice_get, true};
ghost use Rattle.net_switch.specs.declared.packet.Pattern.{Pattern};
ghost use Rattle.net_tree.specs.Links.{Links, sum_to};
ghost use Rattle.net_tree.specs.Runs as tree;
ghost use Rattle.pld_base.specs.Process.{Process};
ghost use Rattle.pld_base.specs.Channels.{NodeEvent, OperatorNode, family_of};
ghost use Rattle.pld_kahn.specs.Rest.{IsRestFamily};
ghost use Rattle.fabric_run.specs.declared.entry.Entry.{Entry};
ghost use Rattle.fabric_run.specs.declared.entry.Entry.TheVariants.{Net};
ghost use Rattle.fabric_run.specs.declared.row.Outcome.TheVariants.{Spent};
ghost use Rattle.fabric_run.specs.Plan.{PagePlan, PlanValue, IsSound, start_of};
ghost use Rattle.fabric_run.specs.World.{changes, offers_of, ready};
ghost use Rattle.fabric_run.specs.Replay.{after, may, replay, IsLegal, IsPlain, outcome};
ghost use Rattle.fabric_keeps.specs.Measure.{enough};
ghost use Rattle.fabric_keeps.specs.Facts.{RunsWell};
ghost use Rattle.hot_swap.specs.Paths.{RestsAfter};
ghost use Rattle.fabric_keeps.specs.Whole.{IsWhole};
ghost use Rattle.fabric_keeps.specs.Carriers.{HasRun, IsCarrier};
ghost use Rattle.fabric_run.specs.Shown.{shown};
ghost use Rattle.fabric_ends.specs.Planned.{IsDesign, SameDesign, network};
ghost use Rattle.fabric_ends.specs.Promises.{IsRested, KeepsPromise, ShowSame};
ghost use Rattle.fabric_run.specs.Trees.{tree_net, longest_way, tree_setup};
ghost use Rattle.pld_image.specs.Cores.{next};

/// A tree of depth 1 to 6 with any pattern begins empty, loses no packet, and has none under way for more than M times D
/// rounds, for M links and D twice the depth and two. Its runs are those that the tree's own laws speak of.
pub fn trees_carry()
    ensures carries { (depth : ℕ) (pattern : Pattern) → 1 ≤ depth → depth ≤ 6 → IsCarrier (tree_net depth pattern) (2 ^ depth) (longest_way depth pattern) }
    ensures runs { (depth : ℕ) (pattern : Pattern) (rounds : ℕ) (links : Links) → HasRun (tree_net depth pattern) (2 ^ depth) rounds links → tree.HasRun depth pattern rounds links }
    ensures some { (depth : ℕ) (pattern : Pattern) → 1 ≤ depth → 1 ≤ longest_way depth pattern }
{}

/// The run of each sound plan over the tree of its depth and pattern: after every legal journal what the laws of runs ask and
/// tell holds, and the links are those that the tree's own laws speak of.
pub fn runs_over_the_tree()
    ensures well { (plan : PlanValue) → IsSound plan → RunsWell (tree_setup plan) (longest_way plan.depth plan.pattern) }
    ensures whole { (plan : PlanValue) (journal : List Entry) → IsSound plan → IsLegal (tree_setup plan) journal → IsWhole (tree_setup plan) (replay (tree_setup plan) journal) }
    ensures links { (plan : PlanValue) (journal : List Entry) → IsSound plan → IsLegal (tree_setup plan) journal → tree.HasRun plan.depth plan.pattern (replay (tree_setup plan) journal).rounds (replay (tree_setup plan) journal).carrier }
{}

/// After a legal journal a round that may be made is one of the tree: its leaves offer as the tree asks, and the links after
/// it are those after the tree's round.
pub fn rounds_are_the_trees()
    ensures offers { (plan : PlanValue) (journal : List Entry) (seat : ℕ) → IsSound plan → IsLegal (tree_setup plan) journal → may (tree_setup plan) (replay (tree_setup plan) journal) (Net seat) ≡ true
        → tree.AreOffers plan.depth (replay (tree_setup plan) journal).rounds (replay (tree_setup plan) journal).carrier (offers_of (tree_setup plan) (ready (tree_setup plan) (replay (tree_setup plan) journal))) }
    ensures round { (plan : PlanValue) (journal : List Entry) (seat : ℕ)
        → (after (tree_setup plan) (replay (tree_setup plan) journal) (Net seat)).carrier ≡ tree.after_round plan.depth plan.pattern (offers_of (tree_setup plan) (ready (tree_setup plan) (replay (tree_setup plan) journal))) (replay (tree_setup plan) journal).carrier }
{}

/// The run of a design's plan over its tree keeps its promise; it is spent only where its allowed rounds are too few; and two
/// runs of one design that come to rest show the same, whatever their patterns, depths, placements and journals.
pub fn designs_over_the_tree()
    ensures promise { (plan : PlanValue) (operators : List Process) (journal : List Entry) → IsDesign plan operators → IsLegal (tree_setup plan) journal
        → KeepsPromise plan.rounds plan.window (network plan operators) (shown (tree_setup plan) (replay (tree_setup plan) journal)) }
    ensures early { (plan : PlanValue) (operators : List Process) (journal : List Entry) (rest : List NodeEvent) (limit : ℕ → ℕ) → IsDesign plan operators → IsLegal (tree_setup plan) journal
        → IsRestFamily plan.window (network plan operators) (family_of rest)
        → ((k : ℕ) (p : PagePlan) → slice_get plan.pages k ≡ Some p → RestsAfter next (start_of p) (limit k) (family_of rest (OperatorNode k)))
        → outcome (tree_setup plan) (replay (tree_setup plan) journal) ≡ Some Spent
        → plan.rounds < enough (longest_way plan.depth plan.pattern) (length rest) (length (changes (tree_setup plan))) (sum_to (length plan.pages) (λ k. limit k / 256)) (length plan.pages) }
    ensures agree { (plan other : PlanValue) (operators : List Process) (journal journal' : List Entry) → SameDesign plan other → IsDesign plan operators → IsDesign other operators
        → IsLegal (tree_setup plan) journal → IsLegal (tree_setup other) journal'
        → IsRested (tree_setup plan) (replay (tree_setup plan) journal) → IsRested (tree_setup other) (replay (tree_setup other) journal')
        → ShowSame (shown (tree_setup plan) (replay (tree_setup plan) journal)) (shown (tree_setup other) (replay (tree_setup other) journal')) }
{}

/// A run has one journal of `plain`.
pub fn plain_runs_over_the_tree_are_one()
    ensures { (plan : PlanValue) (journal other : List Entry)
        → IsPlain (tree_setup plan) journal → IsSome (outcome (tree_setup plan) (replay (tree_setup plan) journal))
        → IsPlain (tree_setup plan) other → IsSome (outcome (tree_setup plan) (replay (tree_setup plan) other)) → journal ≡ other }
{}
