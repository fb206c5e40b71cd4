//! What each legal entry of a journal keeps, from the start of configuration on, whatever carries packets.

ghost use Rattle.std.specs.Prelude.{◌≡◌, ℕ, ◌<◌, List, true};
ghost use Rattle.fabric_run.specs.World.{Setup, State, start, ready};
ghost use Rattle.fabric_run.specs.Replay.{after, may, replay, IsLegal};
ghost use Rattle.fabric_run.specs.declared.entry.Entry.{Entry};
ghost use Rattle.fabric_keeps.specs.Facts.{Begins, Carries, RunsWell};
ghost use Rattle.fabric_keeps.specs.Links.{IsSound};
ghost use Rattle.fabric_keeps.specs.Whole.{IsWhole};

/// As a run begins, and after each legal entry, there hold the account of every channel, the windows,
/// the traces and all side facts, from the start of configuration on.
pub fn each_entry_keeps<S>()
    ensures begins { (setup : Setup S) → IsSound setup → Begins setup → IsWhole setup (start setup) }
    ensures keeps { (setup : Setup S) (st : State S) (e : Entry) → IsSound setup → Carries setup (ready setup st) → may setup st e ≡ true → IsWhole setup st → IsWhole setup (after setup st e) }
{}

/// So it is after every legal journal.
pub fn legal_runs_keep<S>()
    ensures { (setup : Setup S) (most : ℕ) (journal : List Entry) → IsSound setup → RunsWell setup most → IsLegal setup journal → IsWhole setup (replay setup journal) }
{}
