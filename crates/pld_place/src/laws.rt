//! What holds of the placement of every sound design.

ghost use Rattle.std.specs.Prelude.{◌≡◌, ℕ, ◌<◌, ◌≤◌, List, Some, length};
ghost use Rattle.pld_graph.specs.Design.{Design};
ghost use Rattle.pld_graph.specs.Sound.{IsSound};
ghost use Rattle.pld_place.specs.Exchanges.{first_pair, exchanged};
ghost use Rattle.pld_place.specs.Placing.{pages, placed, movable, channel_ends, distances, exchanges, IsPlaced, MayExchange};

/// Each operator has one leaf, from 1 to 2^depth - 1, and no two share one. Pinned operators stand at their pins.
pub fn operators_have_leaves()
    ensures { (d : Design) → IsSound d → length d.operators ≤ pages d → IsPlaced d (placed d) }
{}

/// Each exchange that is made lowers the sum of channel distances.
pub fn exchanges_lower_the_sum()
    ensures { (d : Design) (leaves : List ℕ) (p : ℕ × ℕ) → first_pair (channel_ends d) leaves (movable d) ≡ Some p
        → distances d (exchanged p.0 p.1 leaves) < distances d leaves }
{}

/// Where fewer than 64 exchanges were made, no exchange of two leaves without a pin lowers the sum any more.
pub fn no_exchange_is_left()
    ensures { (d : Design) (a b : ℕ) → exchanges d < 64 → MayExchange d a b
        → distances d (placed d) ≤ distances d (exchanged a b (placed d)) }
{}
