//! What misses are.

ghost use Rattle.std.specs.Prelude.{◌≡◌, ◌≤◌, ◌||◌, ℕ, List, length, map};
ghost use Rattle.std.specs.List.{AllByRecursion, Contains};
ghost use Rattle.build_cache.specs.Pairs.{Pair, is_among, pair_at, misses, IsFirstMiss};

/// The misses among some pairs are just the places whose pair isn't kept and stands at no earlier place. With the pairs at these
/// places each of the pairs is kept.
pub fn misses_are_first_places()
    ensures sound { (kept ps : List Pair) → AllByRecursion (IsFirstMiss kept ps) (misses kept ps) }
    ensures complete { (kept ps : List Pair) (k : ℕ) → IsFirstMiss kept ps k → Contains (misses kept ps) k }
    ensures covered { (kept ps : List Pair) (p : Pair) → (is_among p kept || is_among p (map (pair_at ps) (misses kept ps))) ≡ (is_among p kept || is_among p ps) }
{}

/// There are no more misses than pairs.
pub fn misses_are_few()
    ensures { (kept ps : List Pair) → length (misses kept ps) ≤ length ps }
{}
