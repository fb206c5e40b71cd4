//! Runs that come to rest, and what every run of a plan promises.

ghost use Rattle.std.specs.Prelude.{◌≡◌, ℕ, ◌<◌, Some, IsSome, List, ◌∷◌, ◌++◌, None, true, slice_get};
ghost use Rattle.pld_base.specs.Channels.{family_of, KeepsWindow, AfterEach, Node};
ghost use Rattle.channel_account.specs.Network.{Accounted};
ghost use Rattle.pld_kahn.specs.Network.{IsKahnNetwork};
ghost use Rattle.pld_kahn.specs.Rest.{FollowsTraces, IsReached, IsRestFamily};
ghost use Rattle.fabric_run.specs.Plan.{PagePlan, PlanValue, IsSound as IsSoundPlan, setup_of, wiring_of as plan_wiring};
ghost use Rattle.fabric_run.specs.World.{Carrier, Setup, State, round, out_at};
ghost use Rattle.fabric_run.specs.Replay.{is_still, replay, IsLegal, outcome, blocked, run, nets, IsPlain};
ghost use Rattle.fabric_run.specs.declared.entry.Entry.{Entry};
ghost use Rattle.fabric_keeps.specs.Facts.{RunsWell};
ghost use Rattle.fabric_keeps.specs.Links.{IsSound, net_of, wiring_of};
ghost use Rattle.fabric_keeps.specs.Paths.{page_network};
ghost use Rattle.fabric_run.specs.Shown.{Shown, shown};
ghost use Rattle.fabric_ends.specs.Planned.{IsDesign, SameDesign, network};
ghost use Rattle.fabric_ends.specs.Promises.{HasRested, IsRested, KeepsPromise, ShowSame};
ghost use Rattle.fabric_keeps.specs.Whole.{IsWhole};
ghost use Rattle.pld_base.specs.Process.{Process};
ghost use Rattle.fabric_run.specs.Reply.{reply};
ghost use Rattle.fabric_run.specs.declared.row.Outcome.TheVariants.{Spent};

/// The run of a sound plan is sound; its channels are those that the plan's
/// rows tell; and its pages and the host are a Kahn network.
pub fn plans_are_sound<S>()
    ensures sound { (net : Carrier S) (plan : PlanValue) → IsSoundPlan plan → IsSound (setup_of net plan) }
    ensures wiring { (net : Carrier S) (plan : PlanValue) → IsSoundPlan plan → wiring_of (setup_of net plan) ≡ plan_wiring plan }
    ensures kahn { (setup : Setup S) → IsSound setup → IsKahnNetwork (page_network setup (wiring_of setup)) }
{}

/// In each state of a run the account of every channel holds, each event has kept the windows, the events are those
/// of the network's processes and are reached in it; and where the state is still they are its rest family.
pub fn rest_is_the_networks<S>()
    ensures account { (setup : Setup S) (st : State S) → IsSound setup → IsWhole setup st → Accounted setup.window setup.tables (net_of setup st) }
    ensures window { (setup : Setup S) (st : State S) → IsWhole setup st → AfterEach (KeepsWindow setup.window (wiring_of setup)) st.history }
    ensures traces { (setup : Setup S) (st : State S) → IsSound setup → IsWhole setup st → FollowsTraces (page_network setup (wiring_of setup)) (family_of st.history) }
    ensures reached { (setup : Setup S) (st : State S) → IsSound setup → IsKahnNetwork (page_network setup (wiring_of setup)) → IsWhole setup st → IsReached setup.window (page_network setup (wiring_of setup)) (family_of st.history) }
    ensures rest { (setup : Setup S) (st : State S) → IsSound setup → IsKahnNetwork (page_network setup (wiring_of setup)) → IsWhole setup st → is_still setup st ≡ true → IsRestFamily setup.window (page_network setup (wiring_of setup)) (family_of st.history) }
{}

/// What every run promises by what it shows, of the network of the operators that its images mean: at each moment its outputs
/// begin their Kahn streams; at rest its events are the rest family, and each operator has returned or stands at the named port;
/// done, and stalled with no full port named, the outputs are whole; spent, all rounds were made.
pub fn runs_keep_their_promise<S>()
    ensures { (net : Carrier S) (plan : PlanValue) (operators : List Process) (most : ℕ) (journal : List Entry) → IsDesign plan operators → RunsWell (setup_of net plan) most → IsLegal (setup_of net plan) journal
        → KeepsPromise plan.rounds plan.window (network plan operators) (shown (setup_of net plan) (replay (setup_of net plan) journal)) }
{}

/// Runs of one design that come to rest show the same events, outcome, ports and words, whatever kinds, placement, network,
/// rounds and journals.
pub fn rested_runs_agree<S, T>()
    ensures { (net : Carrier S) (net' : Carrier T) (plan other : PlanValue) (operators : List Process) (st : State S) (st' : State T) → SameDesign plan other → IsDesign plan operators → IsDesign other operators
        → IsWhole (setup_of net plan) st → IsWhole (setup_of net' other) st' → IsRested (setup_of net plan) st → IsRested (setup_of net' other) st' → ShowSame (shown (setup_of net plan) st) (shown (setup_of net' other) st') }
{}

/// What two runs at rest show alike, their replies tell alike.
pub fn replies_agree()
    ensures { (names outputs : ℕ → List ℕ) (operators outs : ℕ) (a b : Shown) → HasRested a → ShowSame a b → reply names outputs operators outs a ≡ reply names outputs operators outs b }
{}

/// No state before the last is over.
pub fn runs_end_once<S>()
    ensures { (setup : Setup S) (front rest : List Entry) (e : Entry) → IsLegal setup (front ++ e ∷ rest) → outcome setup (replay setup front) ≡ None }
{}

/// The journal of `plain` is legal.
pub fn plain_is_legal<S>()
    ensures { (setup : Setup S) (journal : List Entry) → IsPlain setup journal → IsLegal setup journal }
{}

/// A run has one journal of `plain`.
pub fn plain_runs_are_one<S>()
    ensures { (setup : Setup S) (journal other : List Entry) → IsPlain setup journal → IsSome (outcome setup (replay setup journal)) → IsPlain setup other → IsSome (outcome setup (replay setup other)) → journal ≡ other }
{}

/// A run that is spent has made each allowed round; and rounds are counted.
pub fn spent_makes_all_rounds<S>()
    ensures spent { (setup : Setup S) (journal : List Entry) → IsLegal setup journal → outcome setup (replay setup journal) ≡ Some Spent → (replay setup journal).rounds ≡ setup.allowed }
    ensures counted { (setup : Setup S) (journal : List Entry) → (replay setup journal).rounds ≡ nets journal }
{}
