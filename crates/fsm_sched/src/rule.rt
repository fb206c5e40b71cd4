//! Which micros may stand in which states.

ghost use Rattle.std.specs.Prelude.{◌≡◌};
ghost use Rattle.fsm_core.specs.Shapes.{shape_of, target, writes};
ghost use Rattle.fsm_sched.specs.Rule.{reads, hits, feeds_on, clashes, is_stream, must_follow, some_in, has_room};

use fsm_core::{Fields, Micro, class_of, is_same_class, room_of};

/// Whether it reads this register.
#[tactic(auto, using(crate::proofs::ByFields::reads_by_fields))]
pub fn reads(m: Micro, r: u16) -> bool
    ensures { result ≡ reads (shape_of m) r }
{
    match m.op.fields() {
        Fields::Sets => false,
        Fields::Sets1 => r == m.a,
        Fields::Sets2 => r == m.a || r == m.b,
        Fields::Loads => r == m.a,
        Fields::Stores => r == m.a || r == m.b,
        Fields::Reads => false,
        Fields::Writes => r == m.a,
    }
}

/// The register that it writes.
#[tactic(auto, using(crate::proofs::ByFields::target_by_fields))]
pub fn target(m: Micro) -> Option<u16>
    ensures { result ≡ target (shape_of m) }
{
    match m.op.fields() {
        Fields::Stores => None,
        Fields::Writes => None,
        _ => Some(m.t),
    }
}

/// Whether it writes this register.
pub fn writes(m: Micro, r: u16) -> bool
    ensures { result ≡ writes (shape_of m) r }
{
    match target(m) {
        None => false,
        Some(t) => r == t,
    }
}

/// Whether e writes a register which m reads or writes.
pub fn hits(e: Micro, m: Micro) -> bool
    ensures { result ≡ hits (shape_of e) (shape_of m) }
{
    match target(e) {
        None => false,
        Some(t) => reads(m, t) || writes(m, t),
    }
}

/// Whether e reads a register which m writes.
pub fn feeds_on(e: Micro, m: Micro) -> bool
    ensures { result ≡ feeds_on (shape_of e) (shape_of m) }
{
    match target(m) {
        None => false,
        Some(t) => reads(e, t),
    }
}

/// Whether both are accesses of one array, and one of the two is a Store.
#[tactic(auto, using(crate::proofs::ByFields::clashes_by_fields))]
pub fn clashes(e: Micro, m: Micro) -> bool
    ensures { result ≡ clashes (shape_of e) (shape_of m) }
{
    match (e.op.fields(), m.op.fields()) {
        (Fields::Stores, Fields::Stores) => e.unit == m.unit,
        (Fields::Stores, Fields::Loads) => e.unit == m.unit,
        (Fields::Loads, Fields::Stores) => e.unit == m.unit,
        _ => false,
    }
}

/// Whether it is a stream operation.
#[tactic(auto, using(crate::proofs::ByFields::stream_by_fields))]
pub fn is_stream(m: Micro) -> bool
    ensures { result ≡ is_stream (shape_of m) }
{
    match m.op.fields() {
        Fields::Reads => true,
        Fields::Writes => true,
        _ => false,
    }
}

/// Whether m has to stand in a later state than an earlier micro e.
pub fn must_follow(e: Micro, m: Micro) -> bool
    ensures { result ≡ must_follow (shape_of e) (shape_of m) }
{
    hits(e, m) || clashes(e, m) || is_stream(e) && is_stream(m)
}

/// Whether the state has room for one more of its class.
pub fn has_room(m: Micro, s: &[Micro]) -> bool
    ensures { result ≡ has_room m s.now }
{
    let c = class_of(m);
    s.iter().filter(|e| is_same_class(class_of(**e), c)).count() < room_of(c)
}

/// Whether the micro has to follow some micro of a state.
pub fn follows_some(m: Micro, s: &[Micro]) -> bool
    ensures { result ≡ some_in (λ e. must_follow e (shape_of m)) s.now }
{
    s.iter().any(|e| must_follow(*e, m))
}

/// Whether some micro of a state reads what the micro writes.
pub fn feeds_some(m: Micro, s: &[Micro]) -> bool
    ensures { result ≡ some_in (λ e. feeds_on e (shape_of m)) s.now }
{
    s.iter().any(|e| feeds_on(*e, m))
}
