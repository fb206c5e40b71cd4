//! Runs by workers on threads.

ghost use Rattle.std.specs.Prelude.{◌≤◌};
ghost use Rattle.std.specs.Thread.{IsSync};

use crate::runner::Runner;
use fabric_core::Fabric;
use page_threads::work_all;
use par_build::{Compile, Job, compile_all};
use pld_base::NoMemory;
use pld_image::Image;
use pld_io::Gate;
use std::alloc::Global;
use std::sync::Wait;
use std::thread::Threads;

/// So many workers, 1 to 8, each on a thread. They may wait for one another.
#[derive(Drop)]
pub struct Workers<'a, R> {
    pub rt: &'a R,
    pub workers: u8,
    ghost some: { 1 ≤ workers },
    ghost few: { workers ≤ 8 },
}

impl<'a, R: Threads + Sync> Compile for Workers<'a, R> {
    ghost ready = { IsSync R.row };

    fn compile(&self, _alloc: Global, jobs: Vec<Job>) -> Result<Vec<Image>, NoMemory> {
        compile_all(self.rt, jobs)
    }
}

impl<'a, R: Threads + Wait + Sync> Runner for Workers<'a, R> {
    ghost use Rattle.pld_runner.specs.Orders.{Any};

    ghost ready = { IsSync R.row };

    ghost order = { Any };

    fn run(
        &self,
        alloc: Global,
        fabric: Fabric,
        gate: &(dyn Gate + Sync),
    ) -> Result<Fabric, (Fabric, NoMemory)> {
        work_all(self.rt, alloc, fabric, self.workers, gate)
    }
}
