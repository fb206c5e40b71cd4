//! One page that adds one to each of three words, whose run two seats of a lock make, each on a thread of its own. What is written: how
//! the run ended, and the words of its output.
#![tactic(auto)]

ghost use Rattle.std.specs.Prelude.{◌≡◌, [], IfOk, IfSome};
ghost use Rattle.std.specs.Thread.{IsSync};
ghost use Rattle.fabric_lock.specs.Lock.{IsSeatOf, own};

use chain_plans::{image, plan};
use fabric_core::Fabric;
use fabric_lock::{FabricLock, Seat};
use page_threads::{Shared, work_one};
use pld_base::NoMemory;
use pld_io::OpenGate;
use std::alloc::Global;
use std::io;
use std::sync::Wait;
use std::thread::{Threads, join};

// The image of `void inc(in a, out b)` that makes three turns of `x = read(a); write(b, x + 1);`.
const IMAGE: [u8; 116] = [
    0x50, 0x4c, 0x44, 0x49, 0x53, 0x01, 0x01, 0x00, 0x1a, 0x00, 0x00, 0x00, 0x37, 0x04, 0x02, 0x00,
    0xb7, 0x04, 0x00, 0x80, 0x37, 0x81, 0x02, 0x00, 0x13, 0x01, 0x01, 0x10, 0x03, 0xa6, 0x04, 0x00,
    0x13, 0x05, 0x06, 0x00, 0x93, 0x05, 0x05, 0x00, 0x37, 0x05, 0x00, 0x00, 0x13, 0x05, 0x15, 0x00,
    0x33, 0x85, 0xa5, 0x00, 0x23, 0xa0, 0xa4, 0x10, 0x03, 0xa6, 0x04, 0x00, 0x13, 0x05, 0x06, 0x00,
    0x93, 0x05, 0x05, 0x00, 0x37, 0x05, 0x00, 0x00, 0x13, 0x05, 0x15, 0x00, 0x33, 0x85, 0xa5, 0x00,
    0x23, 0xa0, 0xa4, 0x10, 0x03, 0xa6, 0x04, 0x00, 0x13, 0x05, 0x06, 0x00, 0x93, 0x05, 0x05, 0x00,
    0x37, 0x05, 0x00, 0x00, 0x13, 0x05, 0x15, 0x00, 0x33, 0x85, 0xa5, 0x00, 0x23, 0xa0, 0xa4, 0x10,
    0x73, 0x00, 0x10, 0x00,
];

// The run of that page on leaf 1, with the words 5, 6 and 2^32 - 1, which has not begun. None where there is no such image.
fn prepared(alloc: Global) -> Result<Option<Fabric>, NoMemory>
    ensures { IfOk result (λ run. IfSome run (λ fabric. (fabric.journal ≡ []) × (fabric.plan.outs ≡ 1))) }
{
    let Some(image) = image(alloc, &IMAGE)? else {
        return Ok(None);
    };
    let words = Vec::from_slice(alloc, &[5, 6, 4_294_967_295])?;
    let plan = plan(alloc, 1, &image, words, 1000)?;
    Ok(Some(Fabric::prepare(alloc, plan)?))
}

// Makes the run by two seats, each on a thread.
fn by_two<R: Threads + Wait + Sync>(
    rt: &R,
    alloc: Global,
    fabric: Fabric,
) -> Result<Fabric, NoMemory>
    requires { fabric.journal ≡ [] }
    ensures { IfOk result (λ run. run.plan ≡ fabric.plan) }
{
    let Ok((lock, seat)) = FabricLock::new(alloc, Shared::new(fabric), 2) else {
        return Err(NoMemory);
    };
    let (first, second) = lock.split(seat);
    let shared = &lock;
    let (first, second) = join(
        rt,
        move || -> Seat<Shared>
            requires { IsSync R.row × IsSeatOf shared.now first × (own first ≡ []) }
            ensures { IsSeatOf shared.entry.now result × (result.spare ≡ first.spare) × (result.gathered ≡ first.gathered) }
        { work_one(rt, shared, first, &OpenGate) },
        move || -> Seat<Shared>
            requires { IsSync R.row × IsSeatOf shared.now second × (own second ≡ []) }
            ensures { IsSeatOf shared.entry.now result × (result.spare ≡ second.spare) × (result.gathered ≡ second.gathered) }
        { work_one(rt, shared, second, &OpenGate) },
    );
    let seat = lock.join(first, second);
    Ok(lock.close(seat).fabric())
}

fn main(rt: HostRuntime) -> io::Result<()> {
    let Ok(Some(fabric)) = prepared(rt.alloc()) else {
        return println!(rt; "no run");
    };
    let Ok(fabric) = by_two(&rt, rt.alloc(), fabric) else {
        return println!(rt; "no memory");
    };
    let over = fabric.over();
    println!(rt; "{over:?}")?;
    println!(rt; "{:?}", fabric.out(0))
}
