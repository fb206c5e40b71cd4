//! A run: what is called, and what its journal stands for then.

ghost use Rattle.std.specs.Prelude.{◌≡◌, ℕ, ◌+◌, ◌*◌, ◌<◌, ◌≤◌, if◌then◌else◌, List, [], length, Some, None, IsSome, IfOk, IfSome, not, is_some, map};
ghost use Rattle.leaf_port.specs.Leaf.{row_of};
ghost use Rattle.fabric_run.specs.declared.entry.Entry.TheVariants.{Take, Give, Net};
ghost use Rattle.fabric_run.specs.Entries.{entry_of};
ghost use Rattle.fabric_run.specs.Plan.{IsSound, size_of};
ghost use Rattle.fabric_run.specs.World.{out_at, changes, is_configured};
ghost use Rattle.fabric_run.specs.Replay.{outcome, blocked, goes_on, all_served, is_served, first_to, IsLegal};
ghost use Rattle.fabric_core.specs.Runs.{RunValue, setup_for, state_of, is_legal, noted, words_of, room};

use crate::board::Board;
use crate::counts::Counts;
use crate::page::Page;
use crate::plan::Plan;
use crate::prepare::{none_sent, outputs, pages};
use fabric_run::{Blocked, Entry, Journal, Outcome, store};
use leaf_net::LeafNet;
use net_switch::Row;
use pld_base::NoMemory;
use std::alloc::Global;
use std::marker::Model;

/// What a run leaves: what was run, and its journal. The state at its end is the journal's replay.
#[derive(Drop)]
pub struct Record {
    pub plan: Plan,
    pub journal: Journal,
}

/// A run over a tree of switches: its plan, and the entries of its journal. All else that it tells is read off the state
/// that these stand for.
#[derive(Drop)]
pub struct Fabric {
    pub(crate) plan: Plan,
    pub(crate) board: Board,
    pub(crate) journal: Vec<u16>,
    pub(crate) configs: usize,
}

impl Model for Fabric {
    ghost use Rattle.std.specs.Prelude.{◌≡◌, ◌≤◌, length, map};
    ghost use Rattle.std.specs.Vec.{vec_capacity};
    ghost use Rattle.fabric_run.specs.Entries.{entry_of, stored};
    ghost use Rattle.fabric_run.specs.World.{changes};
    ghost use Rattle.fabric_run.specs.Trees.{tree_setup};
    ghost use Rattle.fabric_core.specs.Runs.{RunValue, room};
    ghost use Rattle.fabric_core.specs.Kept.{IsKept};

    ghost Value = { RunValue };

    ghost view = { λ a. record { plan = a.plan; journal = map entry_of a.journal.items } };

    ghost invariant = { λ a. IsKept a.plan (map entry_of a.journal.items) a.board × (map stored (map entry_of a.journal.items) ≡ a.journal.items) × (room a.plan ≤ vec_capacity a.journal) × (a.configs ≡ length (changes (tree_setup a.plan))) };
}

impl Fabric {
    ghost use Rattle.fabric_core.specs.Holding.{Holds, Brings};

    /// A run that has not begun. It takes all the memory of the run: no other call takes any.
    pub fn prepare(alloc: Global, plan: Plan) -> Result<Fabric, NoMemory>
        ensures { IfOk result (λ fabric. fabric ≡ record { plan = plan; journal = [] }) }
    {
        plan.is_sound();
        let most = plan.rounds() as usize * (8 * plan.pages() + 1);
        let journal = Vec::with_capacity(alloc, most)?;
        let net = LeafNet::new(
            alloc,
            plan.depth(),
            plan.pattern(),
            plan.window(),
            plan.before(),
            plan.tables(),
        )?;
        let pages = pages(alloc, &plan)?;
        let sent = none_sent(alloc, plan.feeds())?;
        let outs = outputs(alloc, plan.outs(), plan.rounds() as usize + 1)?;
        let configs = net.entries_left();
        let board = Board {
            net,
            pages,
            sent,
            outs,
            lively: 0,
        };
        Ok(Fabric {
            plan,
            board,
            journal,
            configs,
        })
    }

    /// What holds of each run: its plan is sound, its journal is legal, and there was room for it.
    pub fn is_legal(&self)
        ensures sound { IsSound self.now.plan }
        ensures legal { IsLegal (setup_for self.now) self.now.journal }
        ensures room { length self.now.journal ≤ room self.now.plan }
        ensures words { map entry_of (words_of self.now) ≡ self.now.journal }
    {
        let _plan = &self.plan;
    }

    /// How the run is over, if it is.
    pub fn over(&self) -> Option<Outcome>
        ensures { result ≡ outcome (setup_for self.now) (state_of self.now) }
    {
        self.board.outcome(&self.plan)
    }

    // Whether rounds are left and the run isn't over.
    fn goes_on(&self) -> bool
        ensures { result ≡ goes_on (setup_for self.now) (state_of self.now) }
    {
        self.board.net.rounds() < self.plan.rounds() && self.over().is_none()
    }

    /// Whether the page on a leaf may be taken.
    pub fn may_take(&self, leaf: u8) -> bool
        ensures { (seat : ℕ) → result ≡ is_legal self.now (Take seat leaf) }
    {
        if !self.board.net.configured() {
            return false;
        }
        if !self.board.pages.is_ready(leaf as usize) {
            return false;
        }
        self.goes_on()
    }

    // Whether each page was served, or configuration isn't over.
    fn all_served(&self) -> bool
        ensures { result ≡ all_served (setup_for self.now) (state_of self.now) }
    {
        if !self.board.net.configured() {
            return true;
        }
        self.board.pages.all_served()
    }

    /// Whether a round may be made.
    pub fn may_net(&self) -> bool
        ensures { (seat : ℕ) → result ≡ is_legal self.now (Net seat) }
    {
        if !self.all_served() {
            return false;
        }
        self.goes_on()
    }

    /// A seat takes the page on a leaf. None exactly where that isn't legal; then nothing changes. The page is the one
    /// that the journal stands for.
    pub fn take(&mut self, seat: u8, leaf: u8) -> Option<Page>
        requires { seat < 16 }
        ensures legal { is_legal self.old (Take seat leaf) ≡ is_some result }
        ensures run { self.new ≡ (if is_some result then noted self.old (Take seat leaf) else self.old) }
        ensures page { IfSome result (λ page. (page.leaf ≡ leaf) × Holds self.new seat page) }
    {
        if !self.may_take(leaf) {
            return None;
        }
        let core = self.board.take(seat, leaf as usize);
        let _ = self.journal.push(store(Entry::Take(seat, leaf)));
        Some(Page {
            leaf,
            core,
            end: None,
        })
    }

    /// A seat gives back the page that it took, after one turn. The port operation at which the turn ended is done if it
    /// can be.
    pub fn give(&mut self, seat: u8, page: Page)
        requires seat { seat < 16 }
        requires page { Brings self.old seat page }
        ensures { self.new ≡ noted self.old (Give seat page.leaf) }
    {
        let Page { leaf, core, end } = page;
        match end {
            Some(end) => self.board.give(leaf, core, end),
            None => unreachable!(),
        }
        let _ = self.journal.push(store(Entry::Give(seat, leaf)));
    }

    /// A seat makes a round. False exactly where that isn't legal; then nothing changes.
    pub fn net(&mut self, seat: u8) -> bool
        requires { seat < 16 }
        ensures legal { result ≡ is_legal self.old (Net seat) }
        ensures run { self.new ≡ (if result then noted self.old (Net seat) else self.old) }
    {
        if !self.may_net() {
            return false;
        }
        self.board.make_ready(&self.plan);
        self.board.round();
        let _ = self.journal.push(store(Entry::Net(seat)));
        true
    }

    /// The port at which the k-th page stands, if it stands at one: its last turn ended there, and the operation could
    /// not be done.
    pub fn blocked(&self, k: usize) -> Option<Blocked>
        requires { k < length self.now.plan.pages }
        ensures { result ≡ blocked (setup_for self.now) (state_of self.now) k }
    {
        self.board.pages.blocked(self.plan.leaf(k) as usize)
    }

    /// The words that the k-th output has read.
    pub fn out(&self, k: usize) -> &[u32]
        requires { k < self.now.plan.outs }
        ensures { result.now ≡ out_at (state_of self.now) k }
    {
        let out = &self.board.outs[k];
        out.words()
    }

    /// The row of a slot of a leaf, as it stands.
    pub fn standing(&self, leaf: u8, slot: u8) -> Option<Row>
        requires leaf { leaf < size_of self.now.plan }
        requires slot { slot < 16 }
        ensures { result ≡ row_of ((state_of self.now).leaves leaf) slot }
    {
        self.board.net.row(leaf, slot)
    }

    /// What the run has counted so far.
    pub fn counts(&self) -> Counts
        ensures rounds { result.rounds ≡ (state_of self.now).rounds }
        ensures packets { result.packets ≡ (state_of self.now).packets }
        ensures deflected { result.deflected ≡ (state_of self.now).deflected }
        ensures configs { result.configs ≡ length (changes (setup_for self.now)) }
    {
        Counts {
            rounds: self.board.net.rounds(),
            packets: self.board.net.packets(),
            deflected: self.board.net.deflected(),
            configs: self.configs as u64,
        }
    }

    /// The words of the journal.
    pub fn journal(&self) -> &[u16]
        ensures words { result.now ≡ words_of self.now }
        ensures entries { map entry_of result.now ≡ self.now.journal }
    {
        self.journal.as_slice()
    }

    /// What is run.
    pub fn plan(&self) -> &Plan
        ensures { result.now ≡ self.now.plan }
    {
        &self.plan
    }

    /// The record of the run.
    pub fn finish(self) -> Record
        ensures plan { result.plan ≡ self.plan }
        ensures journal { result.journal ≡ self.journal }
    {
        Record {
            plan: self.plan,
            journal: Journal::of(self.journal),
        }
    }

    // The leaf of the page that `plain` takes next, if it takes one.
    pub(crate) fn first_due(&mut self) -> Option<usize>
        ensures first { result ≡ (if is_configured (setup_for self.old) (state_of self.old) then first_to (setup_for self.old).size (λ i. not (is_served ((state_of self.old).pages i))) else None) }
        ensures same { self.new ≡ self.old }
    {
        if self.board.net.configured() {
            self.board.pages.first_due()
        } else {
            None
        }
    }
}
