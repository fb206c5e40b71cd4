//! What makes the images of jobs.

ghost use Rattle.std.specs.Prelude.{◌≡◌, map, IfOk};
ghost use Rattle.par_build.specs.Jobs.{image_made};

use crate::each::compile_each;
use crate::job::Job;
use pld_base::NoMemory;
use pld_image::Image;
use std::alloc::Global;

/// Makes the images of jobs, on one thread or on several.
pub trait Compile {
    /// What is known before it is asked: of threads, that they may share what they need.
    ghost ready: { Type 0 };

    /// The image of each job, in order. Each spends its job's permit. An error means that memory ran out: then no image is left,
    /// and every permit is gone.
    fn compile(&self, alloc: Global, jobs: Vec<Job>) -> Result<Vec<Image>, NoMemory>
        requires { ready }
        ensures { IfOk result (λ images. images.items ≡ map image_made jobs.items) };
}

/// One thread, which does one thing after another.
#[derive(Clone, Copy, Debug, PartialEq, Eq)]
pub struct OneThread;

impl Compile for OneThread {
    ghost ready = { Unit {0} };

    fn compile(&self, alloc: Global, jobs: Vec<Job>) -> Result<Vec<Image>, NoMemory> {
        compile_each(alloc, jobs)
    }
}
