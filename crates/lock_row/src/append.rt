ghost use Rattle.std.specs.Prelude.{◌≡◌, ◌+◌, ◌*◌, ◌<◌, ◌≤◌, ◌++◌, [], ◌∷◌, if◌then◌else◌};
ghost use Rattle.fabric_lock.specs.Lock.{IsSeatOf, own};
ghost use Rattle.lock_row.specs.Row.{entry_of, counted_to};

use crate::log::{Log, append};
use fabric_lock::{FabricLock, Seat};
use std::sync::Wait;

/// One hold, in which the seat's entry with this count is added. Says whether there was memory for it.
fn append_one<R: Wait>(
    rt: &R,
    lock: &FabricLock<Log>,
    seat: Seat<Log>,
    count: u16,
) -> (Seat<Log>, bool)
    requires lock { IsSeatOf lock.now seat }
    requires count { count < 256 }
    ensures lock { IsSeatOf lock.now result.0 }
    ensures counts { (result.0.number ≡ seat.number) × (result.0.spare ≡ seat.spare) × (result.0.gathered ≡ seat.gathered) }
    ensures own { own result.0 ≡ (if result.1 then own seat ++ entry_of seat.number count ∷ [] else own seat) }
{
    let entry = u16::from(seat.number()) * 256 + count;
    let mut held = lock.enter(rt, seat);
    let added = append(held.value(), entry);
    (lock.leave(held), added)
}

/// Adds the seat's entries with the counts from 0 to 99, each in a hold of its own, and ends early where there is no memory.
/// Says how many were added.
pub fn append_hundred<R: Wait>(rt: &R, lock: &FabricLock<Log>, seat: Seat<Log>) -> (Seat<Log>, u16)
    requires lock { IsSeatOf lock.now seat }
    ensures lock { IsSeatOf lock.now result.0 }
    ensures counts { (result.0.number ≡ seat.number) × (result.0.spare ≡ seat.spare) × (result.0.gathered ≡ seat.gathered) }
    ensures own { (own result.0 ≡ own seat ++ counted_to seat.number result.1) × (result.1 ≤ 100) }
{
    let mut seat = seat;
    for count in 0..100u16 {
        let (next, added) = append_one(rt, lock, seat, count);
        seat = next;
        if !added {
            return (seat, count);
        }
    }
    (seat, 100)
}
