ghost use Rattle.std.specs.Prelude.{◌≡◌, ◌≤◌, ◌++◌, [], IfOk, IfErr};
ghost use Rattle.fabric_lock.specs.History.{entries_of};
ghost use Rattle.fabric_lock.specs.Lock.{IsSeatOf, own};
ghost use Rattle.lock_row.specs.Row.{counted_to};

use crate::append::append_hundred;
use crate::log::Log;
use fabric_lock::{FabricLock, Seat};
use std::alloc::{AllocError, Global};
use std::sync::Wait;
use std::thread::{Threads, join};

/// A log to which two seats appended, and how many entries each of them added.
#[derive(Drop)]
pub struct Appended {
    pub log: Log,
    pub by_first: u16,
    pub by_second: u16,
}

/// Two seats in two threads append to an empty log.
pub fn append_by_two<R: Threads + Wait + Sync>(
    rt: &R,
    alloc: Global,
    log: Log,
) -> Result<Appended, (Log, AllocError)>
    requires empty { log.entries.items ≡ [] }
    ensures base { IfOk result (λ all. all.log.base ≡ log.base) }
    ensures first { IfOk result (λ all. (entries_of 0 all.log.entries.items ≡ counted_to 0 all.by_first) × (all.by_first ≤ 100)) }
    ensures err { IfErr result (λ e. e.0 ≡ log) }
{
    let (lock, seat) = FabricLock::new(alloc, log, 2)?;
    let (first, second) = lock.split(seat);
    let shared = &lock;
    let (first, second) = join(
        rt,
        move || -> (Seat<Log>, u16)
            requires { IsSeatOf shared.now first }
            ensures { IsSeatOf shared.entry.now result.0 × (result.0.number ≡ first.number) × (result.0.spare ≡ first.spare) × (result.0.gathered ≡ first.gathered) × (own result.0 ≡ own first ++ counted_to first.number result.1) × (result.1 ≤ 100) }
        { append_hundred(rt, shared, first) },
        move || -> (Seat<Log>, u16)
            requires { IsSeatOf shared.now second }
            ensures { IsSeatOf shared.entry.now result.0 × (result.0.spare ≡ second.spare) × (result.0.gathered ≡ second.gathered) }
        { append_hundred(rt, shared, second) },
    );
    let seat = lock.join(first.0, second.0);
    Ok(Appended {
        log: lock.close(seat),
        by_first: first.1,
        by_second: second.1,
    })
}
