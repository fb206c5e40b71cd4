//! Journals of two pages without ports.

use crate::small::Try::{Out, Round, Turn};
use crate::small::{Try, first_entry_other, first_other, prepared};
use fabric_core::run_plain;
use fabric_run::{Entry, Outcome};
use std::test::Fail;

// What is tried where three rounds are allowed, and whether it is done.
const TRIES: [(Try, bool); 23] = [
    // no page was served
    (Round(0), false),
    // no page is on leaf 0 or on leaf 3, and there is no leaf 4
    (Turn(0, 0), false),
    (Turn(0, 3), false),
    (Turn(0, 4), false),
    // four turns of a page between two rounds, and no fifth
    (Out(3, 1), true),
    (Turn(0, 1), true),
    (Turn(1, 1), true),
    (Turn(15, 1), true),
    (Turn(0, 1), false),
    // the other page has ended after its turn
    (Round(2), false),
    (Turn(5, 2), true),
    (Turn(5, 2), false),
    (Round(2), true),
    (Round(2), false),
    (Turn(5, 2), false),
    (Turn(0, 1), true),
    (Round(0), true),
    (Turn(0, 1), true),
    (Round(0), true),
    // the last round was made
    (Turn(0, 1), false),
    (Turn(5, 2), false),
    (Out(0, 1), false),
    (Round(0), false),
];

const ENTRIES: [Entry; 17] = [
    Entry::Take(3, 1),
    Entry::Give(3, 1),
    Entry::Take(0, 1),
    Entry::Give(0, 1),
    Entry::Take(1, 1),
    Entry::Give(1, 1),
    Entry::Take(15, 1),
    Entry::Give(15, 1),
    Entry::Take(5, 2),
    Entry::Give(5, 2),
    Entry::Net(2),
    Entry::Take(0, 1),
    Entry::Give(0, 1),
    Entry::Net(0),
    Entry::Take(0, 1),
    Entry::Give(0, 1),
    Entry::Net(0),
];

#[test]
fn entries_are_legal_or_change_nothing(rt: HostRuntime) -> Result<(), Fail> {
    let mut fabric = prepared(rt.alloc(), 3)?;
    assert_eq!(rt; first_other(&mut fabric, &TRIES), None);
    assert_eq!(rt; fabric.over(), Some(Outcome::Spent));
    let counts = fabric.counts();
    assert_eq!(rt;
        (
            counts.rounds,
            counts.packets,
            counts.deflected,
            counts.configs
        ),
        (3, 0, 0, 0)
    );
    assert_eq!(rt; first_entry_other(fabric, &ENTRIES), None);
    Ok(())
}

const IN_TURN: [Entry; 8] = [
    Entry::Take(0, 1),
    Entry::Give(0, 1),
    Entry::Take(0, 2),
    Entry::Give(0, 2),
    Entry::Net(0),
    Entry::Take(0, 1),
    Entry::Give(0, 1),
    Entry::Net(0),
];

#[test]
fn plain_goes_in_turn(rt: HostRuntime) -> Result<(), Fail> {
    let fabric = run_plain(prepared(rt.alloc(), 2)?);
    assert_eq!(rt; fabric.over(), Some(Outcome::Spent));
    assert_eq!(rt; first_entry_other(fabric, &IN_TURN), None);
    Ok(())
}
