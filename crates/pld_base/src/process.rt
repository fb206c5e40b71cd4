//! Laws of processes with blocking reads, and of the channels between them (Kahn 1974).

ghost use Rattle.std.specs.Prelude.{◌≡◌, ℕ, ◌+◌, ◌<◌, List, [], ◌∷◌, ◌++◌, length, Some};
ghost use Rattle.pld_base.specs.Prefix.{IsPrefixOf};
ghost use Rattle.pld_base.specs.Process.{IsProcess};
ghost use Rattle.pld_base.specs.Machine.{Move, machine};
ghost use Rattle.pld_base.specs.Channels.{Node, Wiring, KeepsWindow, NodeEvent, family_of, read_words, written_words};
ghost use Rattle.pld_base.specs.declared.event.Event.TheVariants.{Read, Write};

/// A read of the next unread word keeps the window, and so does a write to a channel that isn't full.
pub fn single_events_keep_window()
    ensures read { (window : ℕ) (wiring : Wiring) (before : List NodeEvent) (node : Node) (port word : ℕ)
        → KeepsWindow window wiring (family_of before)
        → IsPrefixOf (read_words (family_of before) node port ++ word ∷ []) (written_words wiring (family_of before) node port)
        → KeepsWindow window wiring (family_of (record { node = node; event = Read (record { 0 = port }) word } ∷ before)) }
    ensures write { (window : ℕ) (wiring : Wiring) (before : List NodeEvent) (node : Node) (port word : ℕ)
        → KeepsWindow window wiring (family_of before)
        → ((reader : Node) (reader_port : ℕ) → wiring reader reader_port ≡ Some (record { node = node; port = port })
        → length (written_words wiring (family_of before) reader reader_port)
        < window + length (read_words (family_of before) reader reader_port))
        → KeepsWindow window wiring (family_of (record { node = node; event = Write (record { 0 = port }) word } ∷ before)) }
{}

/// Each machine, with its moves as turns, is a process with blocking reads.
pub fn machines_are_processes<S>()
    ensures { (next : S → Move S) (state : S) → IsProcess (machine next state) }
{}
