//! Jobs on several threads.

ghost use Rattle.std.specs.Prelude.{◌≡◌, map, IfOk};
ghost use denote.Param.Send.{IsSync};
ghost use Rattle.par_build.specs.Jobs.{image_made};

use crate::each::compile_each;
use crate::job::Job;
use pld_base::NoMemory;
use pld_image::Image;
use std::thread::{Threads, join};

// How often the jobs are halved at most.
const SPLITS: u8 = 5;

/// The image of each job, in order, compiled on threads that are forked and joined; how many threads there are is claimed by
/// nothing. Each spends its job's permit. An error means that memory ran out: then no image is left, and every permit is gone.
pub fn compile_all<R: Threads + Sync>(rt: &R, jobs: Vec<Job>) -> Result<Vec<Image>, NoMemory>
    ensures { IfOk result (λ images. images.items ≡ map image_made jobs.items) }
{
    by_halves(rt, SPLITS, jobs)
}

// The images of the jobs, which are halved at most so often, each half on a thread.
#[cycle(halves)]
fn by_halves<R: Threads + Sync>(
    rt: &R,
    splits: u8,
    mut jobs: Vec<Job>,
) -> Result<Vec<Image>, NoMemory>
    ensures { IfOk result (λ images. images.items ≡ map image_made jobs.items) }
{
    if splits == 0 || jobs.len() < 2 {
        let alloc = *jobs.allocator();
        return compile_each(alloc, jobs);
    }
    let later = jobs.split_off(jobs.len() / 2)?;
    let left = splits - 1;
    let front = move || -> Result<Vec<Image>, NoMemory>
        requires { IsSync R.row }
        ensures { IfOk result (λ images. images.items ≡ map image_made jobs.items) }
    { by_halves(rt, left, jobs) };
    let back = move || -> Result<Vec<Image>, NoMemory>
        requires { IsSync R.row }
        ensures { IfOk result (λ images. images.items ≡ map image_made later.items) }
    { by_halves(rt, left, later) };
    let (first, second) = join(rt, front, back);
    let mut images = first?;
    let mut rest = second?;
    images.append(&mut rest)?;
    Ok(images)
}
