//! What holds of leaves as values.

ghost use Rattle.std.specs.Prelude.{◌≡◌, ℕ, ◌+◌, ◌<◌, ◌≤◌, true, IsSome, Option, Some};
ghost use Rattle.net_switch.specs.declared.packet.Row.{Row};
ghost use Rattle.net_switch.specs.declared.packet.Packet.{Packet};
ghost use Rattle.leaf_port.specs.declared.tables.ConfigEntry.{ConfigEntry};
ghost use Rattle.leaf_port.specs.Leaf.{LeafState, IsLeaf, fresh, row_of, with_row, can_write, next_word, wrote, took, is_idle, accepted, offered, CanArrive};

/// A leaf as a run begins is as every leaf is, and each move keeps it so: a row set where it is idle, a write where
/// there is a credit, a read of the next word, a packet that may arrive, and an offer.
pub fn moves_keep_window()
    ensures fresh { (own window : ℕ) → 0 < window → window ≤ 64 → IsLeaf (fresh own window) }
    ensures row { (s : LeafState) (slot : ℕ) (row : Option Row) → is_idle s ≡ true → IsLeaf s → IsLeaf (with_row s slot row) }
    ensures write { (s : LeafState) (k w : ℕ) → k < 8 → IsSome (row_of s k) → can_write s k ≡ true → IsLeaf s → IsLeaf (wrote s k w) }
    ensures read { (s : LeafState) (j w : ℕ) → j < 8 → IsSome (row_of s (8 + j)) → next_word s j ≡ Some w → IsLeaf s → IsLeaf (took s j) }
    ensures accept { (s : LeafState) (p : Packet) → (p.to.0 ≡ s.own → CanArrive s p.body) → IsLeaf s → IsLeaf (accepted s p) }
    ensures offer { (s : LeafState) (round : ℕ) (config : Option ConfigEntry) → IsLeaf s → IsLeaf (offered s round config).0 }
{}
