//! Runs on one thread.

use crate::runner::Runner;
use fabric_core::{Fabric, run_plain};
use par_build::OneThread;
use pld_base::NoMemory;
use pld_io::Gate;
use std::alloc::Global;

impl Runner for OneThread {
    ghost use Rattle.pld_runner.specs.Orders.{Plain};

    ghost ready = { Unit {0} };

    ghost order = { Plain };

    fn run(
        &self,
        _alloc: Global,
        fabric: Fabric,
        _gate: &(dyn Gate + Sync),
    ) -> Result<Fabric, (Fabric, NoMemory)> {
        Ok(run_plain(fabric))
    }
}
