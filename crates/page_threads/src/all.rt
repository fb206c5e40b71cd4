//! All workers.

ghost use Rattle.std.specs.Prelude.{◌≡◌, ℕ, ◌+◌, ◌≤◌, List, [], IfOk, IfErr, map};
ghost use Rattle.std.specs.Thread.{IsSync};
ghost use Rattle.fabric_lock.specs.History.{Begins};
ghost use Rattle.fabric_lock.specs.Lock.{first_of, IsSeatOf, seen, own};
ghost use Rattle.fabric_run.specs.Entries.{entry_of};
ghost use Rattle.fabric_core.specs.Runs.{words_of};
ghost use Rattle.page_threads.specs.Work.{EndsOver};

use crate::shared::Shared;
use crate::work::work_by;
use fabric_core::Fabric;
use fabric_lock::{FabricLock, Seat};
use pld_base::NoMemory;
use pld_io::Gate;
use std::alloc::Global;
use std::sync::Wait;
use std::thread::{Threads, join};

/// Makes a run by workers in threads of their own. Its journal is legal, and ends with the first state that is over. Where
/// there is no memory for the lock, the run comes back as it was.
pub fn work_all<R: Threads + Wait + Sync>(
    rt: &R,
    alloc: Global,
    fabric: Fabric,
    workers: u8,
    gate: &(dyn Gate + Sync),
) -> Result<Fabric, (Fabric, NoMemory)>
    requires workers { (1 ≤ workers) × (workers ≤ 8) }
    requires empty { fabric.journal ≡ [] }
    ensures ok { IfOk result (λ f. (f.plan ≡ fabric.plan) × EndsOver f.plan f.journal) }
    ensures err { IfErr result (λ e. e.0 ≡ fabric) }
{
    let shared = Shared::new(fabric);
    let (lock, seat) = match FabricLock::new(alloc, shared, workers) {
        Ok(made) => made,
        Err((shared, error)) => return Err((shared.fabric(), NoMemory::from(error))),
    };
    let pass = |page: u8| gate.pass(page);
    let seat = work_seats(rt, &lock, seat, &pass);
    Ok(ended(lock.close(seat)))
}

// The run, whose journal is legal: if its words begin with some that end over, they are those.
fn ended(shared: Shared) -> Fabric
    ensures same { result ≡ shared.fabric }
    ensures ends { (words : List ℕ) → Begins (words_of result) words → EndsOver result.plan (map entry_of words) → EndsOver result.plan result.journal }
{
    shared.look();
    shared.fabric()
}

// A worker for the seat, and one for each seat that can be cut off it.
fn work_seats<R: Threads + Wait + Sync, F: Fn(u8) + Sync>(
    rt: &R,
    lock: &FabricLock<Shared>,
    seat: Seat<Shared>,
    pass: &F,
) -> Seat<Shared>
    requires pass { F.IsAlwaysCallable pass.now }
    requires lock { IsSeatOf lock.now seat }
    requires new { own seat ≡ [] }
    ensures lock { IsSeatOf lock.now result }
    ensures counts { (result.number ≡ seat.number) × (result.spare ≡ 0) × (result.gathered ≡ seat.spare + seat.gathered) }
    ensures over { EndsOver (first_of lock.now).fabric.plan (map entry_of (seen result)) }
{
    if seat.spare() == 0 {
        return work_by(rt, lock, seat, pass);
    }
    let (mine, other) = lock.split(seat);
    let (mine, other) = join(
        rt,
        move || -> Seat<Shared>
            requires { IsSync R.row × IsSync F.row × F.IsAlwaysCallable pass.now × IsSeatOf lock.now mine × (own mine ≡ []) }
            ensures { IsSeatOf lock.entry.now result × (result.number ≡ mine.number) × (result.spare ≡ 0) × (result.gathered ≡ mine.spare + mine.gathered) × EndsOver (first_of lock.entry.now).fabric.plan (map entry_of (seen result)) }
        { work_seats(rt, lock, mine, pass) },
        move || -> Seat<Shared>
            requires { IsSync R.row × IsSync F.row × F.IsAlwaysCallable pass.now × IsSeatOf lock.now other × (own other ≡ []) }
            ensures { IsSeatOf lock.entry.now result × (result.number ≡ other.number) × (result.spare ≡ other.spare) × (result.gathered ≡ other.gathered) × EndsOver (first_of lock.entry.now).fabric.plan (map entry_of (seen result)) }
        { work_by(rt, lock, other, pass) },
    );
    lock.join(mine, other)
}
