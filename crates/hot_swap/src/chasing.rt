//! A core that repeats the operations of a log, and then goes on by itself.

ghost use Rattle.std.specs.Prelude.{◌≡◌, ◌≢◌, [], length};
ghost use Rattle.pld_base.specs.declared.event.StepEnd.TheVariants.{Went};
ghost use Rattle.hot_swap.specs.Steps.{after_step, IsAtRead, IsAtWrite};
ghost use Rattle.hot_swap.specs.Chase.{Repeats, seen, chasing, reread};
ghost use Rattle.hot_swap.specs.Advances.{ran};

use crate::log::{Log, Logged};
use crate::steps::Steps;
use pld_base::StepEnd;
use std::marker::Model;

/// A core with the operations that it has still to repeat.
#[derive(Drop)]
pub struct Chasing<C: Steps> {
    core: C,
    log: Log,
    done: usize,
}

impl<C: Steps> Model for Chasing<C> {
    ghost use Rattle.std.specs.Prelude.{◌≤◌, drop, length};
    ghost use Rattle.hot_swap.specs.Chase.{Chase, Repeats};

    ghost Value = { Chase C };

    ghost view = { λ c. record { core = c.core; left = drop c.done c.log.operations } };

    ghost invariant = { λ c. (c.done ≤ length c.log.operations) × Repeats C.meaning (C.state c.core) (drop c.done c.log.operations) };
}

// The core stands at a read, and the next operation of its log was one: it takes the word that was read then.
fn repeat_read<C: Steps>(core: &mut C, next: Logged)
    requires { IsAtRead (C.meaning.answer (C.state core.old)) }
    ensures { C.state core.new ≡ reread C.meaning (C.state core.old) next }
{
    if let Logged::Read(_, word) = next {
        core.resume_read(word);
    }
}

impl<C: Steps> Chasing<C> {
    /// The core with these operations to repeat.
    pub fn new(core: C, log: Log) -> Chasing<C>
        requires { Repeats C.meaning (C.state core) log.operations }
        ensures { result ≡ record { core = core; left = log.operations } }
    {
        Chasing { core, log, done: 0 }
    }

    /// How many operations are still to be repeated.
    pub fn left(&self) -> u64
        ensures left { result ≡ length self.now.left }
        ensures repeats { Repeats C.meaning (C.state self.now.core) self.now.left }
    {
        (self.log.len() - self.done) as u64
    }

    /// One step. Where operations are left and the core stands at a port, the next one is repeated: a read
    /// gives the word that it gave then, and the word of a write is dropped. Else it is the core's own step.
    pub fn step(&mut self) -> StepEnd
        ensures answer { result ≡ (chasing C.meaning).answer (seen C.state self.old) }
        ensures state { seen C.state self.new ≡ after_step (chasing C.meaning) (seen C.state self.old) }
        ensures goes { self.old.left ≢ [] → result ≡ Went }
    {
        let end = self.core.step();
        if self.done == self.log.len() {
            return end;
        }
        match end {
            StepEnd::AtRead(_) => {
                repeat_read(&mut self.core, self.log.get(self.done));
                self.done += 1;
                StepEnd::Went
            }
            StepEnd::AtWrite(_, _) => {
                self.core.resume_write();
                self.done += 1;
                StepEnd::Went
            }
            StepEnd::Went => StepEnd::Went,
            StepEnd::Ended => StepEnd::Ended,
            StepEnd::Trapped(pc) => StepEnd::Trapped(pc),
        }
    }

    /// At most so many steps. As soon as nothing is left to be repeated, the core makes them by itself.
    pub fn advance(&mut self, most: u32) -> StepEnd
        ensures end { result ≡ (ran (chasing C.meaning) most (seen C.state self.old)).end }
        ensures state { seen C.state self.new ≡ (ran (chasing C.meaning) most (seen C.state self.old)).state }
    {
        for made in 0..most {
            if self.left() == 0 {
                return self.core.advance(most - made);
            }
            self.step();
        }
        StepEnd::Went
    }

    /// The read at which the core stands gave this word. No operation is left to be repeated.
    pub fn resume_read(&mut self, word: u32)
        requires left { self.old.left ≡ [] }
        requires stands { IsAtRead (C.meaning.answer (C.state self.old.core)) }
        ensures { seen C.state self.new ≡ (chasing C.meaning).read (seen C.state self.old) word }
    {
        self.core.resume_read(word);
    }

    /// The write at which the core stands is done. No operation is left to be repeated.
    pub fn resume_write(&mut self)
        requires left { self.old.left ≡ [] }
        requires stands { IsAtWrite (C.meaning.answer (C.state self.old.core)) }
        ensures { seen C.state self.new ≡ (chasing C.meaning).written (seen C.state self.old) }
    {
        self.core.resume_write();
    }
}

/// To whoever makes its steps it is a core like any other.
impl<C: Steps> Steps for Chasing<C> {
    ghost use Rattle.hot_swap.specs.Chase.{Chase, seen, chasing};

    ghost State = { Chase C.State };

    ghost state = { seen C.state };

    ghost meaning = { chasing C.meaning };

    fn step(&mut self) -> StepEnd {
        Chasing::step(self)
    }

    fn advance(&mut self, most: u32) -> StepEnd {
        Chasing::advance(self, most)
    }

    fn resume_read(&mut self, word: u32) {
        Chasing::resume_read(self, word);
    }

    fn resume_write(&mut self) {
        Chasing::resume_write(self);
    }
}
