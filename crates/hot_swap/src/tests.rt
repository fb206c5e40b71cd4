//! A core that copies words, taken over in the middle.

ghost use Rattle.std.specs.Prelude.{◌≡◌, ℕ, Option, Some, None};
ghost use Rattle.hot_swap.specs.Toy.{toy_meaning};

use crate::{Chasing, Log, Steps};
use pld_base::{Event, PortNo, StepEnd};
use std::test::Fail;

// It reads a word, and writes it.
#[derive(Drop)]
struct Copier {
    word: Option<u32>,
}

impl Steps for Copier {
    ghost State = { Option ℕ };

    ghost state = { λ c. c.word };

    ghost meaning = { toy_meaning };

    fn step(&mut self) -> StepEnd {
        match self.word {
            None => StepEnd::AtRead(PortNo(0)),
            Some(word) => StepEnd::AtWrite(PortNo(0), word),
        }
    }

    fn advance(&mut self, most: u32) -> StepEnd {
        if most == 0 {
            StepEnd::Went
        } else {
            self.step()
        }
    }

    fn resume_read(&mut self, word: u32) {
        self.word = Some(word);
    }

    fn resume_write(&mut self) {
        self.word = None;
    }
}

#[test]
fn a_core_takes_over(rt: HostRuntime) -> Result<(), Fail> {
    let mut log = Log::new(rt.alloc(), 3)?;
    log.add(Event::Read(PortNo(0), 7));
    log.add(Event::Write(PortNo(0), 7));
    log.add(Event::Read(PortNo(0), 9));
    let mut core = Chasing::new(Copier { word: None }, log);
    assert_eq!(rt; core.left(), 3);
    assert_eq!(rt; core.step(), StepEnd::Went);
    assert_eq!(rt; core.left(), 2);
    assert_eq!(rt; core.step(), StepEnd::Went);
    assert_eq!(rt; core.step(), StepEnd::Went);
    assert_eq!(rt; core.left(), 0);
    assert_eq!(rt; core.step(), StepEnd::AtWrite(PortNo(0), 9));
    core.resume_write();
    assert_eq!(rt; core.step(), StepEnd::AtRead(PortNo(0)));
    Ok(())
}
