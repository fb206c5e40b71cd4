//! One worker.

ghost use Rattle.std.specs.Prelude.{◌≡◌, true, [], map};
ghost use Rattle.fabric_lock.specs.Lock.{first_of, IsSeatOf, seen, own};
ghost use Rattle.fabric_lock.specs.History.{entries_of};
ghost use Rattle.fabric_run.specs.Entries.{entry_of};
ghost use Rattle.fabric_core.specs.Holding.{Brings};
ghost use Rattle.page_threads.specs.Work.{run_by, EndsOver};

use crate::begun::Begun;
use crate::moves::turn;
use crate::shared::Shared;
use fabric_core::Page;
use fabric_lock::{FabricLock, Seat};
use pld_io::Gate;
use std::sync::Wait;
use std::thread;

/// One worker, until the run is over: it carries pages out, lets each pass the gate, turns it while the lock is free, and brings it back;
/// and it makes rounds.
pub fn work_one<R: Wait>(
    rt: &R,
    lock: &FabricLock<Shared>,
    seat: Seat<Shared>,
    gate: &(dyn Gate + Sync),
) -> Seat<Shared>
    requires lock { IsSeatOf lock.now seat }
    requires new { own seat ≡ [] }
    ensures lock { IsSeatOf lock.now result }
    ensures counts { (result.number ≡ seat.number) × (result.spare ≡ seat.spare) × (result.gathered ≡ seat.gathered) }
    ensures over { EndsOver (first_of lock.now).fabric.plan (map entry_of (seen result)) }
{
    let pass = |page: u8| gate.pass(page);
    work_by(rt, lock, seat, &pass)
}

/// The same, where `pass` lets a page pass the gate: what threads share can't be a trait object in a recursion.
pub(crate) fn work_by<R: Wait, F: Fn(u8)>(
    rt: &R,
    lock: &FabricLock<Shared>,
    seat: Seat<Shared>,
    pass: &F,
) -> Seat<Shared>
    requires pass { F.IsAlwaysCallable pass.now }
    requires lock { IsSeatOf lock.now seat }
    requires new { own seat ≡ [] }
    ensures lock { IsSeatOf lock.now result }
    ensures counts { (result.number ≡ seat.number) × (result.spare ≡ seat.spare) × (result.gathered ≡ seat.gathered) }
    ensures over { EndsOver (first_of lock.now).fabric.plan (map entry_of (seen result)) }
{
    let mut seat = seat;
    for _ in rt.forever() {
        let (next, over) = one_turn(rt, lock, seat, pass);
        if over {
            return next;
        }
        seat = next;
    }
    unreachable!()
}

// One page out and back, or a round, or nothing. True where the run is over.
fn one_turn<R: Wait, F: Fn(u8)>(
    rt: &R,
    lock: &FabricLock<Shared>,
    seat: Seat<Shared>,
    pass: &F,
) -> (Seat<Shared>, bool)
    requires pass { F.IsAlwaysCallable pass.now }
    requires lock { IsSeatOf lock.now seat }
    ensures lock { IsSeatOf lock.now result.0 }
    ensures counts { (result.0.number ≡ seat.number) × (result.0.spare ≡ seat.spare) × (result.0.gathered ≡ seat.gathered) }
    ensures over { result.1 ≡ true → EndsOver (first_of lock.now).fabric.plan (map entry_of (seen result.0)) }
{
    let number = seat.number();
    let mut held = lock.enter(rt, seat);
    match held.value().begin(number) {
        Begun::Over => (lock.leave(held), true),
        Begun::Round => (lock.leave(held), false),
        Begun::Nothing => {
            let seat = lock.leave(held);
            let_others_run();
            (seat, false)
        }
        Begun::Taken(page) => {
            let seat = lock.leave(held);
            let mut page = page;
            turn(&mut page, pass);
            (bring_back(rt, lock, seat, page), false)
        }
    }
}

// Lets other threads run.
fn let_others_run() {
    for _ in 0..4u8 {
        thread::yield_now();
    }
}

// Brings back a page that was turned.
fn bring_back<R: Wait>(
    rt: &R,
    lock: &FabricLock<Shared>,
    seat: Seat<Shared>,
    page: Page,
) -> Seat<Shared>
    requires lock { IsSeatOf lock.now seat }
    requires own { own seat ≡ entries_of seat.number (seen seat) }
    requires page { Brings (run_by (first_of lock.now).fabric.plan (seen seat)) seat.number page }
    ensures lock { IsSeatOf lock.now result }
    ensures counts { (result.number ≡ seat.number) × (result.spare ≡ seat.spare) × (result.gathered ≡ seat.gathered) }
{
    let number = seat.number();
    let mut held = lock.enter(rt, seat);
    held.value().look();
    held.value().finish(number, page);
    lock.leave(held)
}
