//! The kinds of step on the table, and what each tells the seat that makes it.
//!
//! Seven kinds change a word, the slot or a view: a split and a join of seats (`Part`), the claim of word 0 (`Claim`), the exchange
//! of the slot at `enter` and at `leave`, the store of word 1 (`Tell`; `Open` while a lock is made), and the release of word 0
//! (`Release`). A look at word 0 (`Look`) changes nothing.
ghost use Rattle.std.specs.Prelude.{ℕ, List};
ghost use Rattle.fabric_lock.specs.Steps.{claimed, opened, telling, released, looked};
ghost use Rattle.fabric_lock.specs.Views.{one_fewer, newcomer, spent_view, joined_view};

use crate::told::Told;
use crate::views::View;
use atomic_table::{Join, Play, Split};
use std::marker::{Brand, PhantomData};

/// Word 0 becomes one more than the seat's number, where it was 0. The seat is then in a hold, and has seen the one history.
pub(crate) struct Claim;

impl<V: Told> Play<Option<V>, View<V>> for Claim {
    ghost then = { claimed V.base_of V.told_of };
}

/// Word 1 becomes 0 while a lock is made, and the seat takes the empty slot.
pub(crate) struct Open;

impl<V> Play<Option<V>, View<V>> for Open {
    ghost then = { opened };
}

/// The entries that a seat adds in its hold. Each call of `tell` picks them.
pub(crate) trait Adds {
    ghost more: { List ℕ };
}

impl Adds for Brand {
    ghost use Rattle.std.specs.Prelude.{[]};

    ghost more = { [] };
}

/// Word 1 becomes the length of the history with the entries that the seat adds.
pub(crate) struct Tell<M> {
    adds: PhantomData<M>,
}

impl<V, M: Adds> Play<Option<V>, View<V>> for Tell<M> {
    ghost then = { telling M.more };
}

/// Word 0 becomes 0, and the seat gives the slot back and is in no hold.
pub(crate) struct Release;

impl<V> Play<Option<V>, View<V>> for Release {
    ghost then = { released };
}

/// A seat hands out a new number, or takes another seat in.
pub(crate) struct Part;

impl<V> Split<View<V>> for Part {
    ghost left = { one_fewer };

    ghost right = { newcomer };
}

impl<V> Join<View<V>> for Part {
    ghost both = { joined_view };

    ghost spent = { spent_view };
}

/// Word 0 is read, which tells that the seat's counts are within the number of workers.
pub(crate) struct Look;

impl<V> Play<Option<V>, View<V>> for Look {
    ghost then = { looked };
}
