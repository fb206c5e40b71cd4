//! What a run asks of leaves, pages and network, and that this is as they ask.

ghost use Rattle.std.specs.Prelude.{◌≡◌, ℕ, ◌+◌, ◌<◌, ◌≤◌, ◌⊎◌, Some, IsSome, List, [], true, false, not, ◌≢◌};
ghost use Rattle.std.specs.List.{count_by, sum_by};
ghost use Rattle.pld_base.specs.declared.event.PortNo.{PortNo};
ghost use Rattle.net_switch.specs.declared.packet.Stamp.{Stamp};
ghost use Rattle.net_switch.specs.declared.packet.Packet.{Packet};
ghost use Rattle.net_tree.specs.Links.{is_stamped};
ghost use Rattle.leaf_port.specs.Leaf.{row_of, CanArrive};
ghost use Rattle.pld_image.specs.declared.page.TurnEnd.TheVariants.{AtRead, AtWrite};
ghost use Rattle.fabric_run.specs.Turns.{turn};
ghost use Rattle.fabric_run.specs.World.{Setup, State, PageState, start, ready, round, unaccepted, is_config, is_configured};
ghost use Rattle.fabric_run.specs.Replay.{after, may, replay, IsLegal, run, IsLegalFrom};
ghost use Rattle.fabric_run.specs.declared.entry.Entry.{Entry};
ghost use Rattle.fabric_run.specs.declared.entry.Entry.TheVariants.{Net, Give};
ghost use Rattle.fabric_keeps.specs.Facts.{Begins, Carries, RunsWell, is_outside};
ghost use Rattle.fabric_keeps.specs.Links.{IsSound};
ghost use Rattle.fabric_keeps.specs.Configuring.{pending, accepted_in};
ghost use Rattle.fabric_keeps.specs.Calls.{OffersSo};
ghost use Rattle.fabric_keeps.specs.Carriers.{HasRun, IsCarrier};
ghost use Rattle.fabric_keeps.specs.Whole.{IsWhole};
ghost use Rattle.fabric_keeps.specs.Holding.{IsOutWith, GivesNone};

/// Configuration. Each slot of each leaf has its new row, or an entry for it isn't accepted yet. Before it is over no
/// event has happened, and no word or credit is under way. Once it is over the leaves hold just the new rows, and it
/// stays over. A round leaves as many entries fewer as its leaves accept, so a count in code tells when it is over.
pub fn configuration_ends<S>()
    ensures slots { (setup : Setup S) (st : State S) (i slot : ℕ) → IsWhole setup st → i < setup.size → slot < 16 → (row_of (st.leaves i) slot ≡ setup.tables i slot) ⊎ (0 < pending setup st i slot) }
    ensures before { (setup : Setup S) (st : State S) → IsWhole setup st → is_configured setup st ≡ false → (st.history ≡ []) × (count_by (λ p. not (is_config p)) (setup.net.under st.carrier) ≡ 0) }
    ensures over { (setup : Setup S) (st : State S) (i slot : ℕ) → IsSound setup → IsWhole setup st → is_configured setup st ≡ true → i < setup.size → row_of (st.leaves i) slot ≡ setup.tables i slot }
    ensures stays { (setup : Setup S) (st : State S) (e : Entry) → IsSound setup → Carries setup (ready setup st) → may setup st e ≡ true → IsWhole setup st → is_configured setup st ≡ true → is_configured setup (after setup st e) ≡ true }
    ensures count { (setup : Setup S) (st : State S) → IsSound setup → IsWhole setup st → Carries setup (ready setup st) → unaccepted setup (round setup st) + accepted_in setup (ready setup st) ≡ unaccepted setup st }
{}

/// What a round asks of leaves and pages is as these ask: what comes to its own leaf may arrive there, and the
/// ports at which pages and the host read and write have rows.
pub fn calls_are_allowed<S>()
    ensures accept { (setup : Setup S) (st : State S) (i : ℕ) (p : Packet) → IsSound setup → Carries setup (ready setup st) → IsWhole setup st → i < setup.size → setup.net.arrival (ready setup st).carrier i ≡ Some p → p.to.0 ≡ i → CanArrive ((ready setup st).leaves i) p.body }
    ensures read { (setup : Setup S) (st : State S) (i seat : ℕ) (p : PageState) (k : PortNo) → IsSound setup → IsWhole setup st → i < setup.size → st.pages i ≡ Some p → p.holder ≡ Some seat → (turn p.core).end ≡ AtRead k → (k.0 < 8) × IsSome (row_of (st.leaves i) (8 + k.0)) }
    ensures write { (setup : Setup S) (st : State S) (i seat : ℕ) (p : PageState) (k : PortNo) (word : ℕ) → IsSound setup → IsWhole setup st → i < setup.size → st.pages i ≡ Some p → p.holder ≡ Some seat → (turn p.core).end ≡ AtWrite k word → (k.0 < 8) × IsSome (row_of (st.leaves i) k.0) }
    ensures input { (setup : Setup S) (st : State S) (k : ℕ) → IsSound setup → IsWhole setup st → is_configured setup st ≡ true → k < setup.inputs → (k < 8) × IsSome (row_of (st.leaves 0) k) }
    ensures output { (setup : Setup S) (st : State S) (j : ℕ) → IsSound setup → IsWhole setup st → is_configured setup st ≡ true → j < setup.outputs → (j < 8) × IsSome (row_of (st.leaves 0) (8 + j)) }
{}

/// A packet for another leaf is offered again; any other that is offered has the round's number and the leaf's; and
/// each is for a leaf of the network.
pub fn leaves_offer_so<S>()
    ensures offers { (setup : Setup S) (st : State S) (seat i : ℕ) → IsSound setup → Carries setup (ready setup st) → may setup st (Net seat) ≡ true → IsWhole setup st → i < setup.size → OffersSo setup (ready setup st) i }
    ensures inside { (setup : Setup S) (st : State S) → IsSound setup → IsWhole setup st → count_by (is_outside setup.size) (setup.net.under st.carrier) ≡ 0 }
{}

/// No two packets under way have one stamp.
pub fn stamps_differ<S>()
    ensures begins { (setup : Setup S) (s : Stamp) → Begins setup → sum_by (is_stamped s) (setup.net.under (start setup).carrier) ≤ 1 }
    ensures keeps { (setup : Setup S) (st : State S) (e : Entry) → IsSound setup → Carries setup (ready setup st) → may setup st e ≡ true → IsWhole setup st → ((s : Stamp) → sum_by (is_stamped s) (setup.net.under st.carrier) ≤ 1) → (s : Stamp) → sum_by (is_stamped s) (setup.net.under (after setup st e).carrier) ≤ 1 }
{}

/// A network that begins empty, loses no packet and has none under way for too long serves every legal journal.
pub fn carriers_run_well<S>()
    ensures serves { (setup : Setup S) (most : ℕ) → IsSound setup → IsCarrier setup.net setup.size most → RunsWell setup most }
    ensures ran { (setup : Setup S) (most : ℕ) (journal : List Entry) → IsSound setup → IsCarrier setup.net setup.size most → IsLegal setup journal → HasRun setup.net setup.size (replay setup journal).rounds (replay setup journal).carrier }
{}

/// Between a seat's Take of a page and its Give no entry of any seat changes the page: neither its core, nor who holds it.
pub fn pages_out_stay<S>()
    ensures entry { (setup : Setup S) (st : State S) (e : Entry) (seat leaf : ℕ) (p : PageState) → may setup st e ≡ true → e ≢ Give seat leaf → IsOutWith st seat leaf p → IsOutWith (after setup st e) seat leaf p }
    ensures journal { (setup : Setup S) (st : State S) (es : List Entry) (seat leaf : ℕ) (p : PageState) → IsLegalFrom setup st es → GivesNone seat leaf es → IsOutWith st seat leaf p → IsOutWith (run setup st es) seat leaf p }
{}
