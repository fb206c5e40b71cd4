ghost use Rattle.std.specs.Prelude.{◌≡◌};
ghost use Rattle.hot_swap.specs.Steps.{Meaning, after_step, IsAtRead, IsAtWrite};
ghost use Rattle.hot_swap.specs.Advances.{ran};

use pld_base::StepEnd;

/// A core that goes in steps, up to its next port operation.
pub trait Steps {
    /// What the meanings speak of.
    ghost State: { Type 0 };

    /// The state of a core.
    ghost state: { Self → State };

    /// What a step answers in each state, and the state after it, after a read and after a write.
    ghost meaning: { Meaning State };

    /// One step. If it answers anything but `Went`, nothing has changed.
    fn step(&mut self) -> StepEnd
        ensures answer { result ≡ meaning.answer (state self.old) }
        ensures state { state self.new ≡ after_step meaning (state self.old) };

    /// At most so many steps, up to the first one that isn't made. `Went` where all were made; else what `step`
    /// answers then.
    fn advance(&mut self, most: u32) -> StepEnd
        ensures end { result ≡ (ran meaning most (state self.old)).end }
        ensures state { state self.new ≡ (ran meaning most (state self.old)).state };

    /// The read at which the core stands gave this word.
    fn resume_read(&mut self, word: u32)
        requires { IsAtRead (meaning.answer (state self.old)) }
        ensures { state self.new ≡ meaning.read (state self.old) word };

    /// The write at which the core stands is done.
    fn resume_write(&mut self)
        requires { IsAtWrite (meaning.answer (state self.old)) }
        ensures { state self.new ≡ meaning.written (state self.old) };
}
