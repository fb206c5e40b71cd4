//! What holds of the plans of placed designs.

ghost use Rattle.std.specs.Prelude.{◌≡◌, ℕ, ◌<◌, List, [], Some, slice_get, true};
ghost use Rattle.pld_base.specs.Process.{Process};
ghost use Rattle.pld_graph.specs.Design.{Design};
ghost use Rattle.leaf_port.specs.Leaf.{row_of};
ghost use Rattle.pld_link.specs.Seats.{operator_names};
ghost use Rattle.fabric_plan.specs.Wiring.{design_network};
ghost use Rattle.fabric_run.specs.declared.entry.Entry.{Entry};
ghost use Rattle.fabric_run.specs.Plan.{IsSound, PagePlan, PlanValue, row_in, setup_of, size_of};
ghost use Rattle.fabric_run.specs.World.{Carrier, State, is_configured};
ghost use Rattle.fabric_run.specs.Replay.{replay, IsLegal};
ghost use Rattle.fabric_run.specs.Trees.{tree_setup};
ghost use Rattle.fabric_ends.specs.Planned.{IsDesign, SameDesign, network};
ghost use Rattle.fabric_plan.specs.Plans.{Given, plan_of};
ghost use Rattle.fabric_plan.specs.Standing.{AreStanding, standing_rows};
ghost use Rattle.fabric_plan.specs.Runnable.{IsRunnable, KeepMeaning};

/// The plan of a design that can be run is sound.
pub fn plans_are_sound()
    ensures { (d : Design) (given : Given) → IsRunnable d given → IsSound (plan_of d given) }
{}

/// Where its images do what the operators mean, it is a plan for the design of these operators, its rows join the channels
/// of the design's own network, and its k-th page has the k-th image.
pub fn plans_are_designs()
    ensures design { (d : Design) (given : Given) (operators : List Process) → IsRunnable d given → KeepMeaning given.images operators → IsDesign (plan_of d given) operators }
    ensures network { (d : Design) (given : Given) (operators : List Process) → IsRunnable d given → network (plan_of d given) operators ≡ design_network d operators given.feeds }
    ensures pages { (d : Design) (given : Given) (k : ℕ) (p : PagePlan) → slice_get (plan_of d given).pages k ≡ Some p → slice_get given.images k ≡ Some p.image }
{}

/// Kinds, placement, pins, depth, pattern, standing rows and rounds make no difference to what a run does: of designs with the
/// same channels and the same window, and operators of the same names in the same order, with the same feeds, the plans are for
/// one design.
pub fn plans_are_alike()
    ensures { (d other : Design) (given given' : Given) → d.channels ≡ other.channels → operator_names d ≡ operator_names other
        → d.window ≡ other.window → given.feeds ≡ given'.feeds → IsRunnable d given → IsRunnable other given' → SameDesign (plan_of d given) (plan_of other given') }
{}

/// What a run leaves may stand as the next one in a tree of the same depth begins; and so may no rows, in each tree.
pub fn left_rows_stand<S>()
    ensures left { (net : Carrier S) (plan : PlanValue) (st : State S) → AreStanding plan.depth (standing_rows (setup_of net plan) st) }
    ensures none { (depth : ℕ) → AreStanding depth [] }
{}

/// Once configuration is over, each leaf holds just the plan's rows, and these are what the run leaves.
pub fn rows_are_the_tables()
    ensures held { (plan : PlanValue) (journal : List Entry) (leaf slot : ℕ) → IsSound plan → IsLegal (tree_setup plan) journal → is_configured (tree_setup plan) (replay (tree_setup plan) journal) ≡ true
        → leaf < size_of plan → row_of ((replay (tree_setup plan) journal).leaves leaf) slot ≡ row_in plan.tables leaf slot }
    ensures left { (plan : PlanValue) (journal : List Entry) (leaf slot : ℕ) → IsSound plan → IsLegal (tree_setup plan) journal → is_configured (tree_setup plan) (replay (tree_setup plan) journal) ≡ true
        → row_in (standing_rows (tree_setup plan) (replay (tree_setup plan) journal)) leaf slot ≡ row_in plan.tables leaf slot }
{}
