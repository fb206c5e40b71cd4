//! What a worker does in a hold, and what it does to a page outside of one.

ghost use Rattle.std.specs.Prelude.{◌≡◌, ◌<◌, IsNone, IfSome, true, false, map};
ghost use Rattle.fabric_run.specs.Entries.{entry_of};
ghost use Rattle.fabric_run.specs.Replay.{IsLegal};
ghost use Rattle.fabric_core.specs.Runs.{words_of, setup_for};
ghost use Rattle.fabric_core.specs.Holding.{Holds, Brings, IsTurned};
ghost use Rattle.page_threads.specs.Work.{IsNoted};
ghost use Rattle.page_threads.specs.Begins.{Began};

use crate::begun::Begun;
use crate::shared::Shared;
use fabric_core::{Fabric, Page};

// The leaves of the widest tree.
const LEAVES: u8 = 64;

// Takes the page on a leaf, if that is legal.
fn take_page(fabric: &mut Fabric, seat: u8, leaf: u8) -> Option<Page>
    requires { seat < 16 }
    ensures plan { fabric.new.plan ≡ fabric.old.plan }
    ensures none { IsNone result → fabric.new ≡ fabric.old }
    ensures some { IfSome result (λ page. IsNoted seat (words_of fabric.old) (words_of fabric.new) × Holds fabric.new seat page) }
{
    fabric.take(seat, leaf)
}

// Takes the first page from this leaf on that may be taken.
fn take_next(fabric: &mut Fabric, seat: u8, from: u8) -> Option<Page>
    requires { seat < 16 }
    ensures plan { fabric.new.plan ≡ fabric.old.plan }
    ensures none { IsNone result → fabric.new ≡ fabric.old }
    ensures some { IfSome result (λ page. IsNoted seat (words_of fabric.old) (words_of fabric.new) × Holds fabric.new seat page) }
{
    for leaf in from..LEAVES {
        if let Some(page) = take_page(fabric, seat, leaf) {
            return Some(page);
        }
    }
    None
}

// Makes a round, if that is legal.
fn make_round(fabric: &mut Fabric, seat: u8) -> bool
    requires { seat < 16 }
    ensures plan { fabric.new.plan ≡ fabric.old.plan }
    ensures made { result ≡ true → IsNoted seat (words_of fabric.old) (words_of fabric.new) }
    ensures stays { result ≡ false → fabric.new ≡ fabric.old }
{
    fabric.net(seat)
}

/// Lets a page pass the gate, and turns it.
pub(crate) fn turn<F: Fn(u8)>(page: &mut Page, pass: &F)
    requires { F.IsAlwaysCallable pass.now }
    ensures { IsTurned page.old page.new }
{
    pass(page.leaf());
    page.turn();
}

impl Shared {
    /// Begins some work, if there is any.
    pub(crate) fn begin(&mut self, seat: u8) -> Begun
        requires { seat < 16 }
        ensures plan { self.new.fabric.plan ≡ self.old.fabric.plan }
        ensures words { map entry_of (words_of self.new.fabric) ≡ self.new.fabric.journal }
        ensures began { Began self.old.fabric self.new.fabric seat result }
    {
        if self.fabric.over().is_some() {
            self.fabric.is_legal();
            return Begun::Over;
        }
        let begun = self.start(seat);
        self.fabric.is_legal();
        begun
    }

    // Begins some work of a run that isn't over: the next page that had no turn since the last round, or a round.
    fn start(&mut self, seat: u8) -> Begun
        requires { seat < 16 }
        ensures plan { self.new.fabric.plan ≡ self.old.fabric.plan }
        ensures began { Began self.old.fabric self.new.fabric seat result }
    {
        if let Some(page) = take_next(&mut self.fabric, seat, self.next) {
            self.next = page.leaf().saturating_add(1);
            return Begun::Taken(page);
        }
        self.next = LEAVES;
        if make_round(&mut self.fabric, seat) {
            self.next = 0;
            Begun::Round
        } else {
            Begun::Nothing
        }
    }

    /// Takes a page back.
    pub(crate) fn finish(&mut self, seat: u8, page: Page)
        requires seat { seat < 16 }
        requires page { Brings self.old.fabric seat page }
        ensures plan { self.new.fabric.plan ≡ self.old.fabric.plan }
        ensures given { IsNoted seat (words_of self.old.fabric) (words_of self.new.fabric) }
    {
        self.fabric.is_legal();
        self.fabric.give(seat, page);
    }

    /// Sees that the journal is legal, and that its words stand for it.
    pub(crate) fn look(&self)
        ensures legal { IsLegal (setup_for self.now.fabric) self.now.fabric.journal }
        ensures words { map entry_of (words_of self.now.fabric) ≡ self.now.fabric.journal }
    {
        self.fabric.is_legal();
    }
}
