//! Each so many rounds use something up.

ghost use Rattle.std.specs.Prelude.{◌≡◌, ℕ, ◌+◌, ◌/◌, ◌<◌, ◌≤◌, ◌⊎◌, List, length, Some, true, false};
ghost use Rattle.net_tree.specs.Links.{sum_to};
ghost use Rattle.pld_base.specs.Channels.{NodeEvent, OperatorNode, family_of};
ghost use Rattle.pld_kahn.specs.Network.{IsKahnNetwork};
ghost use Rattle.pld_kahn.specs.Rest.{IsRestFamily};
ghost use Rattle.pld_image.specs.Cores.{Core, next};
ghost use Rattle.fabric_run.specs.declared.entry.Entry.{Entry};
ghost use Rattle.fabric_run.specs.World.{Setup, State, core_at, changes};
ghost use Rattle.fabric_run.specs.Replay.{after, run, replay, may, IsLegal, IsLegalFrom, is_still};
ghost use Rattle.fabric_keeps.specs.Measure.{enough};
ghost use Rattle.fabric_keeps.specs.Facts.{Facts, Gains, RunsWell};
ghost use Rattle.fabric_keeps.specs.Links.{IsSound, wiring_of};
ghost use Rattle.hot_swap.specs.Paths.{RestsAfter};
ghost use Rattle.fabric_keeps.specs.Paths.{page_network, page_count};

/// A still state stays still.
pub fn still_for_ever<S>()
    ensures { (setup : Setup S) (most : ℕ) (st : State S) (e : Entry) → 0 < setup.size → Facts setup most st → may setup st e ≡ true → is_still setup st ≡ true → is_still setup (after setup st e) ≡ true }
{}

/// One round more than a packet may be under way uses something up, or the state is still after them.
pub fn rounds_use_up<S>()
    ensures { (setup : Setup S) (most : ℕ) (es fs : List Entry) → RunsWell setup most → IsLegal setup es → IsLegalFrom setup (replay setup es) fs → 1 ≤ most → (replay setup es).rounds + most + 1 ≤ (run setup (replay setup es) fs).rounds
        → (is_still setup (run setup (replay setup es) fs) ≡ true) ⊎ Gains setup (replay setup es) (run setup (replay setup es) fs) }
{}

/// A run that ends in motion has made fewer rounds than are enough for its network's rest family.
pub fn motion_ends<S>()
    ensures { (setup : Setup S) (most : ℕ) (es : List Entry) (rest : List NodeEvent) (limit : ℕ → ℕ) → IsSound setup → RunsWell setup most → IsLegal setup es → 1 ≤ most
        → IsKahnNetwork (page_network setup (wiring_of setup)) → IsRestFamily setup.window (page_network setup (wiring_of setup)) (family_of rest)
        → ((i : ℕ) (c : Core) → core_at setup i ≡ Some c → RestsAfter next c (limit i) (family_of rest (OperatorNode (setup.number i))))
        → is_still setup (replay setup es) ≡ false
        → (replay setup es).rounds < enough most (length rest) (length (changes setup)) (sum_to setup.size (λ i. limit i / 256)) (sum_to setup.size (λ i. page_count (core_at setup i))) }
{}
