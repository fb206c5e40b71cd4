//! Jobs on one thread.

ghost use Rattle.std.specs.Prelude.{◌≡◌, map, IfOk};
ghost use Rattle.par_build.specs.Jobs.{image_made};

use crate::job::{Job, compile};
use pld_base::NoMemory;
use pld_image::Image;
use std::alloc::Global;

/// The image of each job, in order, compiled one after another. Each spends its job's permit. An error means that memory ran out:
/// then no image is left, and every permit is gone.
pub fn compile_each(alloc: Global, jobs: Vec<Job>) -> Result<Vec<Image>, NoMemory>
    ensures { IfOk result (λ images. images.items ≡ map image_made jobs.items) }
{
    let mut images: Vec<Image> = Vec::new(alloc);
    for job in jobs {
        images.push(compile(alloc, job)?)?;
    }
    Ok(images)
}
