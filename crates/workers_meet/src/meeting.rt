//! A gate at which the pages on leaves 1 and 2 wait for one another.

use pld_io::Gate;
use std::sync::atomic::{AtomicU64, Ordering};

/// How often a page looks for the other before it gives up.
const LOOKS: u64 = 1_000_000_000;

/// Each of two pages raises its flag when it passes, and waits until the other's is raised, or gives up.
#[derive(Drop)]
pub struct Meeting {
    first: AtomicU64,
    second: AtomicU64,
    given_up: AtomicU64,
}

impl Meeting {
    /// No page has passed yet.
    pub fn new() -> Meeting {
        Meeting {
            first: AtomicU64::new(0),
            second: AtomicU64::new(0),
            given_up: AtomicU64::new(0),
        }
    }

    /// Whether both flags were raised, and neither page gave up.
    pub fn met(&self) -> bool {
        let first = self.first.load(Ordering::SeqCst) == 1;
        let second = self.second.load(Ordering::SeqCst) == 1;
        first && second && self.given_up.load(Ordering::SeqCst) == 0
    }

    // Raises a flag, and waits for the other.
    fn meet(&self, mine: &AtomicU64, other: &AtomicU64) {
        mine.store(1, Ordering::SeqCst);
        for _ in 0..LOOKS {
            if other.load(Ordering::SeqCst) == 1 {
                return;
            }
        }
        self.given_up.store(1, Ordering::SeqCst);
    }
}

impl Gate for Meeting {
    fn pass(&self, page: u8) {
        match page {
            1 => self.meet(&self.first, &self.second),
            2 => self.meet(&self.second, &self.first),
            _ => {}
        }
    }
}
