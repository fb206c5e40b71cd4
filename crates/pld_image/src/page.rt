//! A page's core, and its turns.

ghost use Rattle.std.specs.Prelude.{◌≡◌, ◌≤◌, IfOk};
ghost use Rattle.fsm_core.specs.Table.{IsTable, plan_in};
ghost use Rattle.image_form.specs.Spelling.{Soft, Hard};
ghost use Rattle.pld_image.specs.Cores.{load, core_in, core_of, turned, turn_end, after_read, after_write};
ghost use Rattle.pld_image.specs.Standing.{IsAtRead, IsAtWrite, StandsAt};
ghost use Rattle.pld_image.specs.Steps.{turn_of};

use crate::image::Image;
use crate::laws::turns_are_steps;
use fsm_core::{FsmCore, Table};
use hot_swap::Steps;
use image_form::ImageForm;
use pld_base::{NoMemory, PortNo, StepEnd};
use rv_core::RvCore;
use std::alloc::Global;

/// How a turn ends.
#[derive(Clone, Copy, Debug, PartialEq, Eq)]
pub enum TurnEnd {
    /// The page stands at a read of this in-port.
    AtRead(PortNo),
    /// The page stands at a write of this word to this out-port.
    AtWrite(PortNo, u32),
    /// The program has ended. A softcore that has trapped counts as ended; a hardware page never traps.
    Ended,
    /// All steps of the turn were made.
    Limit,
}

/// The steps of a turn: one of a softcore is an instruction, and one of a hardware page a state.
pub(crate) const STEPS: u32 = 256;

// How a turn ends whose last step ended so.
pub(crate) fn turn_of(end: StepEnd) -> TurnEnd
    ensures { result ≡ turn_of end }
{
    match end {
        StepEnd::Went => TurnEnd::Limit,
        StepEnd::AtRead(port) => TurnEnd::AtRead(port),
        StepEnd::AtWrite(port, word) => TurnEnd::AtWrite(port, word),
        StepEnd::Ended => TurnEnd::Ended,
        StepEnd::Trapped(_) => TurnEnd::Ended,
    }
}

// What runs an image.
#[derive(Drop)]
enum Runner {
    Soft(RvCore),
    Hard(FsmCore),
}

// The runner of code at its start.
#[tactic(auto, unfolding(crate::specs::Cores::load))]
fn soft_runner(alloc: Global, ins: u8, outs: u8, code: &[u32]) -> Result<Runner, NoMemory>
    requires ins { ins ≤ 8 }
    requires outs { outs ≤ 8 }
    ensures { IfOk result (λ r. core_in r ≡ load (Soft ins outs code.now)) }
{
    let core = RvCore::of_words(alloc, code, ins, outs)?;
    Ok(Runner::Soft(core))
}

// The runner of a table at its start.
#[tactic(auto, unfolding(crate::specs::Cores::load))]
fn hard_runner(alloc: Global, table: &Table) -> Result<Runner, NoMemory>
    requires { IsTable (plan_in table.now) }
    ensures { IfOk result (λ r. core_in r ≡ load (Hard (plan_in table.now))) }
{
    let table = table.copy(alloc)?;
    let core = FsmCore::new(alloc, table)?;
    Ok(Runner::Hard(core))
}

/// The core of a page: it runs an image of either kind.
#[derive(Drop)]
pub struct PageCore {
    runner: Runner,
}

impl PageCore {
    /// A core of this image at its start. It takes all the memory that the core needs.
    #[tactic(auto, unfolding(crate::specs::Cores::core_of))]
    pub fn load(alloc: Global, image: &Image) -> Result<PageCore, NoMemory>
        ensures { IfOk result (λ page. core_of page ≡ load image.now) }
    {
        let runner = match image.form() {
            ImageForm::Soft { ins, outs, code } => soft_runner(alloc, *ins, *outs, code)?,
            ImageForm::Hard { table } => hard_runner(alloc, table)?,
        };
        Ok(PageCore { runner })
    }

    /// One turn: steps until the core stands at a port operation or has ended, at most 256. After 256 steps
    /// it ends with `Limit`, whatever the next step would meet.
    #[tactic(auto, unfolding(crate::specs::Cores::turned, crate::specs::Cores::turn_end, crate::specs::Cores::steps))]
    pub fn turn(&mut self) -> TurnEnd
        ensures end { result ≡ turn_end (core_of self.old) }
        ensures core { core_of self.new ≡ turned (core_of self.old) }
        ensures stands { StandsAt (core_of self.new) result }
    {
        turns_are_steps();
        turn_of(self.advance(STEPS))
    }

    /// The read at which the core stands gave this word.
    #[tactic(auto, unfolding(crate::specs::Cores::after_read, crate::specs::Cores::next, crate::specs::Cores::core_of))]
    pub fn resume_read(&mut self, word: u32)
        requires { IsAtRead (core_of self.old) }
        ensures { core_of self.new ≡ after_read (core_of self.old) word }
    {
        match &mut self.runner {
            Runner::Soft(core) => core.resume_read(word),
            Runner::Hard(core) => core.resume_read(word),
        }
    }

    /// The write at which the core stands is done.
    #[tactic(auto, unfolding(crate::specs::Cores::after_write, crate::specs::Cores::next, crate::specs::Cores::core_of))]
    pub fn resume_write(&mut self)
        requires { IsAtWrite (core_of self.old) }
        ensures { core_of self.new ≡ after_write (core_of self.old) }
    {
        match &mut self.runner {
            Runner::Soft(core) => core.resume_write(),
            Runner::Hard(core) => core.resume_write(),
        }
    }
}

/// A step of the core is an instruction or a state. It may trap, as a softcore.
impl Steps for PageCore {
    ghost use Rattle.pld_image.specs.Cores.{Core, core_of};
    ghost use Rattle.pld_image.specs.Steps.{page_meaning};

    ghost State = { Core };

    ghost state = { core_of };

    ghost meaning = { page_meaning };

    #[tactic(auto, unfolding(crate::specs::Cores::next, crate::specs::Cores::core_of, crate::specs::Steps::answer, crate::specs::Steps::stepped))]
    fn step(&mut self) -> StepEnd {
        match &mut self.runner {
            Runner::Soft(core) => core.step(),
            Runner::Hard(core) => core.step(),
        }
    }

    fn advance(&mut self, most: u32) -> StepEnd {
        match &mut self.runner {
            Runner::Soft(core) => core.turn(most),
            Runner::Hard(core) => core.turn(most),
        }
    }

    fn resume_read(&mut self, word: u32) {
        PageCore::resume_read(self, word);
    }

    fn resume_write(&mut self) {
        PageCore::resume_write(self);
    }
}
