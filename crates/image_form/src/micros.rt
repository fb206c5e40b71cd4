//! The micros of a state.

ghost use Rattle.std.specs.Prelude.{◌≡◌};
ghost use Rattle.fsm_core.specs.Shapes.{shape_of, target as target_of};
ghost use Rattle.image_form.specs.Reading.{Tells};
ghost use Rattle.image_form.specs.Tables.{Bounds, fits as fits_in, collides as collide, is_taken as taken, has_room as room, may_follow as may_stand, op_at, micro_parts, micro_checked, micro_at};
ghost use Rattle.image_form.specs.Views.{bounds_in};

use crate::fields::{bad, byte, half, word};
use crate::ops::op_of;
use crate::stop::Bad;
use fsm_core::{Fields, Micro, MicroOp, class_of, is_same_class, room_of};

/// What the fields of a state are bounded by: the counts of the ports, the arrays, the registers and
/// the states.
#[derive(Clone, Copy)]
pub struct Limits {
    pub ins: u8,
    pub outs: u8,
    pub arrays: usize,
    pub registers: u32,
    pub states: u32,
}

// The registers that it names are below the count, its array or port exists, and the fields that it
// doesn't have are 0.
fn fits(limits: Limits, m: Micro) -> bool
    ensures { result ≡ fits_in (bounds_in limits) m }
{
    let t = (m.t as u32) < limits.registers;
    let a = (m.a as u32) < limits.registers;
    let b = (m.b as u32) < limits.registers;
    let array = (m.unit as usize) < limits.arrays;
    match m.op.fields() {
        Fields::Sets => t && m.a == 0 && m.b == 0 && m.unit == 0,
        Fields::Sets1 => t && a && m.b == 0 && m.unit == 0 && m.value == 0,
        Fields::Sets2 => t && a && b && m.unit == 0 && m.value == 0,
        Fields::Loads => t && a && m.b == 0 && array && m.value == 0,
        Fields::Stores => m.t == 0 && a && b && array && m.value == 0,
        Fields::Reads => t && m.a == 0 && m.b == 0 && m.unit < limits.ins && m.value == 0,
        Fields::Writes => m.t == 0 && a && m.b == 0 && m.unit < limits.outs && m.value == 0,
    }
}

// The register that it writes.
#[tactic(auto, using(crate::proofs::Targets::target_by_fields))]
fn target(m: Micro) -> Option<u16>
    ensures { result ≡ target_of (shape_of m) }
{
    match m.op.fields() {
        Fields::Stores => None,
        Fields::Writes => None,
        _ => Some(m.t),
    }
}

// Whether m writes the register that e writes.
fn collides(e: Micro, m: Micro) -> bool
    ensures { result ≡ collide e m }
{
    match (target(e), target(m)) {
        (Some(s), Some(t)) => s == t,
        _ => false,
    }
}

// Whether its target is a target of an earlier micro.
fn is_taken(before: &[Micro], m: Micro) -> bool
    ensures { result ≡ taken before.now m }
{
    before.iter().any(|e| collides(*e, m))
}

// Whether the state has room for one more of its class.
fn has_room(before: &[Micro], m: Micro) -> bool
    ensures { result ≡ room before.now m }
{
    let c = class_of(m);
    before
        .iter()
        .filter(|e| is_same_class(class_of(**e), c))
        .count()
        < room_of(c)
}

// Whether it is in range behind the earlier micros of its state.
fn may_follow(limits: Limits, before: &[Micro], m: Micro) -> bool
    ensures { result ≡ may_stand (bounds_in limits) before.now m }
{
    fits(limits, m) && !is_taken(before, m) && has_room(before, m)
}

// An operation.
#[tactic(auto, unfolding(crate::specs::Tables::op_at))]
fn op(bytes: &[u8]) -> Result<(MicroOp, &[u8]), Bad>
    ensures { Tells (λ x. (x.0, x.1.now)) result (op_at bytes.now) }
{
    let (number, rest) = byte(bytes)?;
    match op_of(number) {
        Some(op) => Ok((op, rest)),
        None => Err(bad(bytes)),
    }
}

// The parts of a micro.
#[tactic(auto, unfolding(crate::specs::Tables::micro_parts))]
fn parts(bytes: &[u8]) -> Result<(Micro, &[u8]), Bad>
    ensures { Tells (λ x. (x.0, x.1.now)) result (micro_parts bytes.now) }
{
    let (op, rest) = op(bytes)?;
    let (unit, rest) = byte(rest)?;
    let (t, rest) = half(rest)?;
    let (a, rest) = half(rest)?;
    let (b, rest) = half(rest)?;
    let (value, rest) = word(rest)?;
    let micro = Micro {
        op,
        unit,
        t,
        a,
        b,
        value,
    };
    Ok((micro, rest))
}

// A micro in range behind the earlier ones of its state.
#[tactic(auto, unfolding(crate::specs::Tables::micro_checked))]
fn checked<'a>(limits: Limits, before: &[Micro], bytes: &'a [u8]) -> Result<(Micro, &'a [u8]), Bad>
    ensures { Tells (λ x. (x.0, x.1.now)) result (micro_checked (bounds_in limits) before.now bytes.now) }
{
    let (m, rest) = parts(bytes)?;
    if may_follow(limits, before, m) {
        Ok((m, rest))
    } else {
        Err(bad(bytes))
    }
}

/// A micro in range behind the earlier ones of its state. It is one field.
#[tactic(auto, unfolding(crate::specs::Tables::micro_at))]
pub fn micro<'a>(
    limits: Limits,
    before: &[Micro],
    bytes: &'a [u8],
) -> Result<(Micro, &'a [u8]), Bad>
    ensures { Tells (λ x. (x.0, x.1.now)) result (micro_at (bounds_in limits) before.now bytes.now) }
{
    match checked(limits, before, bytes) {
        Ok(found) => Ok(found),
        Err(_) => Err(bad(bytes)),
    }
}
