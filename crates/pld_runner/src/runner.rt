//! What makes runs.

ghost use Rattle.std.specs.Prelude.{◌≡◌, [], IfOk, IfErr, IsSome};
ghost use Rattle.fabric_run.specs.Replay.{outcome};
ghost use Rattle.fabric_core.specs.Runs.{setup_for, state_of};
ghost use Rattle.pld_runner.specs.Orders.{Order, IsOrdered};

use fabric_core::Fabric;
use pld_base::NoMemory;
use pld_io::Gate;
use std::alloc::Global;

/// Makes runs.
pub trait Runner {
    /// What is known before it is asked: of threads, that they may share what they need.
    ghost ready: { Type 0 };

    /// In which order the entries of its runs stand.
    ghost order: { Order };

    /// Makes a run that has not begun, until it is over; workers pass the gate with each page that they turn. Want of memory comes only
    /// before its first entry: then the run comes back as it was.
    fn run(
        &self,
        alloc: Global,
        fabric: Fabric,
        gate: &(dyn Gate + Sync),
    ) -> Result<Fabric, (Fabric, NoMemory)>
        requires ready { ready }
        requires new { fabric.journal ≡ [] }
        ensures plan { IfOk result (λ run. run.plan ≡ fabric.plan) }
        ensures ordered { IfOk result (λ run. IsOrdered order run.plan run.journal) }
        ensures over { IfOk result (λ run. IsSome (outcome (setup_for run) (state_of run))) }
        ensures err { IfErr result (λ e. e.0 ≡ fabric) };
}
