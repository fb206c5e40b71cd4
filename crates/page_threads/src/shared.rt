//! A run behind a lock.

ghost use Rattle.std.specs.Prelude.{◌≡◌};
ghost use Rattle.fabric_core.specs.Runs.{words_of};

use fabric_core::{Fabric, Plan};
use fabric_lock::Told;

/// A run that workers share. Its base is the plan, and its history the words of the journal. The pages on leaves below `next` were
/// taken since the last round, where they could be.
#[derive(Drop)]
pub struct Shared {
    pub(crate) fabric: Fabric,
    pub(crate) next: u8,
}

impl Shared {
    /// A run that is to be shared.
    pub fn new(fabric: Fabric) -> Shared
        ensures { result.fabric ≡ fabric }
    {
        Shared { fabric, next: 0 }
    }

    /// The run.
    pub fn fabric(self) -> Fabric
        ensures { result ≡ self.fabric }
    {
        let Shared { fabric, next: _ } = self;
        fabric
    }
}

impl Told for Shared {
    type Base = Plan;

    ghost base_of = { λ s. s.fabric.plan };

    ghost told_of = { λ s. words_of s.fabric };

    fn base(&self) -> &Plan {
        self.fabric.plan()
    }

    fn told(&self) -> &[u16] {
        self.fabric.journal()
    }
}
