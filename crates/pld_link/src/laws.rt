//! What holds of the rows of every sound design whose operators are placed.

ghost use Rattle.std.specs.Prelude.{◌≡◌, ℕ, ◌+◌, ◌*◌, ◌<◌, ◌⊎◌, ◌≤◌, List, [], Option, length, Some, None, IsSome, slice_index_or};
ghost use Rattle.std.specs.List.{Contains};
ghost use Rattle.net_switch.specs.declared.packet.Row.{Row};
ghost use Rattle.pld_graph.specs.Design.{Design, inputs, outputs};
ghost use Rattle.pld_graph.specs.Sound.{IsSound};
ghost use Rattle.pld_link.specs.Seats.{IsPlacement, HasSlots, operator_names, seat};
ghost use Rattle.leaf_port.specs.declared.tables.ConfigEntry.{ConfigEntry};
ghost use Rattle.pld_link.specs.Changes.{row_at, changes, with_entries};
ghost use Rattle.pld_link.specs.Rows.{row, out_row, in_row, row_of, rows};

/// Both ends of a channel name each other.
pub fn rows_name_each_other()
    ensures out_in { (d : Design) (leaves : List ℕ) (leaf port : ℕ) (r : Row) → IsSound d → IsPlacement d leaves
        → out_row d leaves leaf port ≡ Some r → in_row d leaves r.leaf.0 r.port.0 ≡ Some (row (seat leaf port)) }
    ensures in_out { (d : Design) (leaves : List ℕ) (leaf port : ℕ) (r : Row) → IsSound d → IsPlacement d leaves
        → in_row d leaves leaf port ≡ Some r → out_row d leaves r.leaf.0 r.port.0 ≡ Some (row (seat leaf port)) }
{}

/// The host's rows are just those of the inputs and outputs.
pub fn hosts_have_rows()
    ensures inputs { (d : Design) (leaves : List ℕ) (k : ℕ) → IsSound d → IsPlacement d leaves
        → k < length (inputs d.channels) → IsSome (out_row d leaves 0 k) }
    ensures outputs { (d : Design) (leaves : List ℕ) (k : ℕ) → IsSound d → IsPlacement d leaves
        → k < length (outputs d.channels) → IsSome (in_row d leaves 0 k) }
    ensures no_other_input { (d : Design) (leaves : List ℕ) (k : ℕ) (r : Row) → IsSound d → IsPlacement d leaves
        → out_row d leaves 0 k ≡ Some r → k < length (inputs d.channels) }
    ensures no_other_output { (d : Design) (leaves : List ℕ) (k : ℕ) (r : Row) → IsSound d → IsPlacement d leaves
        → in_row d leaves 0 k ≡ Some r → k < length (outputs d.channels) }
{}

/// Only the host's leaf and those of operators have rows.
pub fn rows_stand_on_leaves()
    ensures out { (d : Design) (leaves : List ℕ) (leaf port : ℕ) (r : Row) → IsSound d → IsPlacement d leaves
        → out_row d leaves leaf port ≡ Some r → (leaf ≡ 0) ⊎ Contains leaves leaf }
    ensures into { (d : Design) (leaves : List ℕ) (leaf port : ℕ) (r : Row) → IsSound d → IsPlacement d leaves
        → in_row d leaves leaf port ≡ Some r → (leaf ≡ 0) ⊎ Contains leaves leaf }
{}

/// Where the operators' ports have slots, so have both ends of each channel.
pub fn rows_have_slots()
    ensures out { (d : Design) (leaves : List ℕ) (leaf port : ℕ) (r : Row) → IsSound d → IsPlacement d leaves → HasSlots d
        → out_row d leaves leaf port ≡ Some r → (port < 8) × (r.port.0 < 8) }
    ensures into { (d : Design) (leaves : List ℕ) (leaf port : ℕ) (r : Row) → IsSound d → IsPlacement d leaves → HasSlots d
        → in_row d leaves leaf port ≡ Some r → (port < 8) × (r.port.0 < 8) }
{}

/// Slot s of leaf l is row 16·l + s, and there are no more than 1,024.
pub fn rows_stand_in_order()
    ensures each { (d : Design) (leaves : List ℕ) (leaf slot : ℕ) → leaf < 64 → slot < 16
        → slice_index_or (rows d leaves) (16 * leaf + slot) None ≡ row_of d leaves leaf slot }
    ensures all { (d : Design) (leaves : List ℕ) → length (rows d leaves) ≡ 1024 }
{}

/// Pins, the depth of the tree and the operators' counts of ports make no difference to the rows.
pub fn rows_follow_the_channels()
    ensures { (d other : Design) (leaves : List ℕ) → d.channels ≡ other.channels → operator_names d ≡ operator_names other
        → rows d leaves ≡ rows other leaves }
{}

/// Rows with the changes put into them are the new rows at all leaves from 1 up, and the old ones at leaf 0.
pub fn changes_make_the_new_rows()
    ensures new { (old new : List (Option Row)) (leaf slot : ℕ) → length old ≡ 1024 → 1 ≤ leaf → leaf < 64 → slot < 16
        → row_at (with_entries old (changes old new)) (16 * leaf + slot) ≡ row_at new (16 * leaf + slot) }
    ensures host { (old new : List (Option Row)) (slot : ℕ) → slot < 16
        → row_at (with_entries old (changes old new)) slot ≡ row_at old slot }
{}

/// There are no changes exactly where the rows are equal at all leaves from 1 up.
pub fn no_changes_for_equal_rows()
    ensures equal { (old new : List (Option Row)) (leaf slot : ℕ) → changes old new ≡ [] → 1 ≤ leaf → leaf < 64 → slot < 16
        → row_at old (16 * leaf + slot) ≡ row_at new (16 * leaf + slot) }
    ensures none { (old new : List (Option Row))
        → ((leaf slot : ℕ) → 1 ≤ leaf → leaf < 64 → slot < 16 → row_at old (16 * leaf + slot) ≡ row_at new (16 * leaf + slot))
        → changes old new ≡ [] }
{}

/// The row of a link that was removed is among the changes, with no new row.
pub fn removed_rows_are_sent()
    ensures { (old new : List (Option Row)) (leaf slot : ℕ) (r : Row) → 1 ≤ leaf → leaf < 64 → slot < 16
        → row_at old (16 * leaf + slot) ≡ Some r → row_at new (16 * leaf + slot) ≡ None
        → Contains (changes old new) (record { leaf = record { 0 = leaf }; slot = slot; row = None }) }
{}
