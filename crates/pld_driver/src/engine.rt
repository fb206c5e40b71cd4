//! What answers the statements of a session.
ghost use Rattle.std.specs.Prelude.{◌≡◌, ◌+◌, ◌≤◌, ◌<◌, ◌^◌, [], IfOk, OnErr};
ghost use Rattle.pld_script.specs.Statements.{Placed};
ghost use Rattle.pld_driver.specs.Walk.{Step};
ghost use Rattle.pld_driver.specs.Moments.{Took, Broke};

use pld_base::{NoMemory, Permits};
use pld_io::Gate;
use pld_script::Statement;
use std::alloc::Global;

/// What a session leaves: the permits that it gave out, and a record of each run.
#[derive(Drop)]
pub struct Bench<R> {
    /// Gives out permits, and counts them.
    pub permits: Permits,
    /// The records of the runs, in their order.
    pub records: Vec<R>,
}

impl<R> Bench<R> {
    /// No permit was given out, and nothing has run.
    pub fn new(alloc: Global) -> Bench<R>
        ensures permits { result.permits ≡ 0 }
        ensures records { result.records.items ≡ [] }
    {
        Bench {
            permits: Permits::new(),
            records: Vec::new(alloc),
        }
    }
}

/// What answers statements: the state of a session, as contracts see it.
pub trait Engine {
    /// What a run leaves.
    type Record;

    /// What is known before it is asked: of one that works on threads, that they may share what they need.
    ghost ready: { Type 0 };

    /// What is said to a statement, and the state behind it.
    ghost step: { Self → Placed → Step Self Self.Record };

    /// The record is one that a run from this state may leave.
    ghost fits: { Self → Self.Record → Type 0 };

    /// Answers a statement, or a bad line, whose first line has this number. The reply goes into the empty list, and the
    /// result says whether the statement was refused. An answer spends at most 64 permits. A run puts its record at the end
    /// of the bench's. Pages that are turned on threads pass the gate. The one error is want of memory: then no answer was given and no
    /// record was left, and the engine isn't asked again.
    fn answer(
        &mut self,
        alloc: Global,
        number: u64,
        said: Option<Statement>,
        gate: &(dyn Gate + Sync),
        bench: &mut Bench<Self::Record>,
        reply: &mut Vec<u8>,
    ) -> Result<bool, NoMemory>
        requires ready { ready }
        requires empty { reply.old.items ≡ [] }
        requires room { bench.old.permits + 64 < 2 ^ 64 }
        ensures ok { IfOk result (λ refused. Took (step self.old (record { number = number; said = said })) (fits self.old) bench.old bench.new reply.new.items refused self.new) }
        ensures err { OnErr result (Broke (step self.old (record { number = number; said = said })) bench.old bench.new) }
        ensures few { bench.new.permits ≤ bench.old.permits + 64 };
}
