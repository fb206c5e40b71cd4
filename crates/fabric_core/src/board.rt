//! What is kept of a run's state.

ghost use Rattle.std.specs.Prelude.{◌≡◌, ℕ, ◌+◌, ◌<◌, ◌≤◌, ◌&&◌, ◌||◌, true, false, not, length, Option, Some, None, IsSome, slice_get, is_some, ◌≢◌};
ghost use Rattle.net_switch.specs.declared.packet.Pattern.{Pattern};
ghost use Rattle.net_tree.specs.Links.{Links};
ghost use Rattle.leaf_port.specs.Leaf.{can_write, next_word};
ghost use Rattle.pld_image.specs.declared.page.TurnEnd.TheVariants.{AtRead, AtWrite};
ghost use Rattle.pld_image.specs.Cores.{core_of};
ghost use Rattle.fabric_run.specs.Turns.{turn};
ghost use Rattle.fabric_run.specs.World.{Setup, State, PageState, placed, out_to, send, receive, hosted, ready, moved, given, read_given, write_given, each_to, all_to, is_configured, out_at};
ghost use Rattle.fabric_run.specs.Replay.{has_ended, is_blocked, is_page_still, can_send, can_receive, is_still, outcome, page_blocked, none_out, all_served, first_to, is_served};
ghost use Rattle.fabric_run.specs.Trees.{tree_setup};
ghost use Rattle.leaf_net.specs.Net.{CanRound, net_size, leaf_at, is_configured as net_configured};
ghost use Rattle.fabric_pages.specs.Slots.{AreFew, core_in, slot_at};
ghost use Rattle.fabric_core.specs.Boards.{Shows, HaveRoom, CanGive, HostHasRows, HostFits, HasSpace, SlotsFit, IsPort, rest_of};

use crate::plan::Plan;
use crate::words::Output;
use fabric_pages::Pages;
use fabric_run::{Blocked, Outcome};
use leaf_net::LeafNet;
use pld_base::PortNo;
use pld_image::{PageCore, TurnEnd};

/// What is kept of a run's state: the network, the pages, how many words each input has sent, and the words that each
/// output has read. `lively` is a leaf whose page could go on when it was last looked at.
#[derive(Drop)]
pub(crate) struct Board {
    pub(crate) net: LeafNet,
    pub(crate) pages: Pages,
    pub(crate) sent: Vec<usize>,
    pub(crate) outs: Vec<Output>,
    pub(crate) lively: usize,
}

impl Board {
    /// The page on a leaf goes out to a seat.
    pub(crate) fn take(&mut self, seat: u8, leaf: usize) -> PageCore
        requires home { IsSome (core_in (slot_at self.old.pages leaf)) }
        requires few { AreFew self.old.pages }
        ensures core { (setup : Setup Links) (st : State Links) (p : PageState) → Shows setup st self.old → st.pages leaf ≡ Some p → p.holder ≡ None → core_of result ≡ p.core }
        ensures shows { (setup : Setup Links) (st : State Links) (p : PageState) → Shows setup st self.old → st.pages leaf ≡ Some p → p.holder ≡ None → Shows setup (record st { pages = placed st.pages leaf (out_to seat (st.pages leaf)) }) self.new }
        ensures room { (most : ℕ) → HaveRoom most self.old → HaveRoom most self.new }
    {
        self.pages.take(seat, leaf)
    }

    /// A page that has made its turn comes home; the port operation at which the turn ended is done if it can be.
    pub(crate) fn give(&mut self, leaf: u8, core: PageCore, end: TurnEnd)
        requires { CanGive self.old leaf core end }
        ensures shows { (setup : Setup Links) (st : State Links) (p : PageState) → Shows setup st self.old → st.pages leaf ≡ Some p → IsSome p.holder → has_ended p.end ≡ false → core_of core ≡ (turn p.core).core → end ≡ (turn p.core).end
            → Shows setup (given setup st leaf (st.pages leaf)) self.new }
        ensures room { (most : ℕ) → HaveRoom most self.old → HaveRoom most self.new }
    {
        match end {
            TurnEnd::AtRead(port) => self.give_at_read(leaf, core, port),
            TurnEnd::AtWrite(port, word) => self.give_at_write(leaf, core, port, word),
            TurnEnd::Ended => self.pages.give(leaf as usize, core, Some(TurnEnd::Ended)),
            TurnEnd::Limit => {
                self.lively = leaf as usize;
                self.pages.give(leaf as usize, core, None);
            }
        }
    }

    // A page comes home from a turn that ended at a read.
    fn give_at_read(&mut self, leaf: u8, core: PageCore, port: PortNo)
        requires { CanGive self.old leaf core (AtRead port) }
        ensures shows { (setup : Setup Links) (st : State Links) (p : PageState) → Shows setup st self.old → st.pages leaf ≡ Some p → IsSome p.holder → has_ended p.end ≡ false → core_of core ≡ (turn p.core).core
            → Shows setup (read_given setup st leaf p (turn p.core) port.0 (next_word (st.leaves leaf) port.0)) self.new }
        ensures room { (most : ℕ) → HaveRoom most self.old → HaveRoom most self.new }
    {
        match self.net.read(leaf, port) {
            Some(word) => {
                let mut core = core;
                core.resume_read(word);
                self.lively = leaf as usize;
                self.pages.give(leaf as usize, core, None);
            }
            None => self
                .pages
                .give(leaf as usize, core, Some(TurnEnd::AtRead(port))),
        }
    }

    // A page comes home from a turn that ended at a write.
    fn give_at_write(&mut self, leaf: u8, core: PageCore, port: PortNo, word: u32)
        requires { CanGive self.old leaf core (AtWrite port word) }
        ensures shows { (setup : Setup Links) (st : State Links) (p : PageState) → Shows setup st self.old → st.pages leaf ≡ Some p → IsSome p.holder → has_ended p.end ≡ false → core_of core ≡ (turn p.core).core
            → Shows setup (write_given setup st leaf p (turn p.core) port.0 word (can_write (st.leaves leaf) port.0)) self.new }
        ensures room { (most : ℕ) → HaveRoom most self.old → HaveRoom most self.new }
    {
        if self.net.write(leaf, port, word) {
            let mut core = core;
            core.resume_write();
            self.lively = leaf as usize;
            self.pages.give(leaf as usize, core, None);
        } else {
            self.pages
                .give(leaf as usize, core, Some(TurnEnd::AtWrite(port, word)));
        }
    }

    // The k-th input writes its next word, if it has one and a credit.
    fn send(&mut self, plan: &Plan, k: usize)
        requires input { k < length plan.now.feeds }
        requires fits { HostFits plan.now self.old }
        requires rows { HostHasRows plan.now self.old.net }
        ensures shows { (st : State Links) → Shows (tree_setup plan.now) st self.old → Shows (tree_setup plan.now) (send (tree_setup plan.now) k st) self.new }
        ensures fits { HostFits plan.now self.new }
        ensures rows { HostHasRows plan.now self.new.net }
        ensures outs { self.new.outs.items ≡ self.old.outs.items }
    {
        let sent = self.sent[k];
        let Some(word) = plan.word(k, sent) else {
            return;
        };
        if self.net.write(0, PortNo(k as u8), word) {
            self.sent[k] = sent + 1;
        }
    }

    // The j-th output reads its next word, if it is there.
    fn receive(&mut self, plan: &Plan, j: usize)
        requires output { j < plan.now.outs }
        requires fits { HostFits plan.now self.old }
        requires rows { HostHasRows plan.now self.old.net }
        requires room { HasSpace j self.old.outs.items }
        ensures shows { (setup : Setup Links) (st : State Links) → setup.outputs ≡ plan.now.outs → Shows setup st self.old → Shows setup (receive j st) self.new }
        ensures fits { HostFits plan.now self.new }
        ensures rows { HostHasRows plan.now self.new.net }
        ensures space { HasSpace (j + 1) self.new.outs.items }
        ensures room { (most : ℕ) → HaveRoom most self.old → HaveRoom most self.new }
    {
        let Some(word) = self.net.read(0, PortNo(j as u8)) else {
            return;
        };
        let out = &mut self.outs[j];
        out.put(word);
    }

    // The host's part of a round: each input writes a word, and then each output reads one, where they can.
    fn host_moves(&mut self, plan: &Plan)
        requires fits { HostFits plan.now self.old }
        requires rows { HostHasRows plan.now self.old.net }
        requires room { HasSpace 0 self.old.outs.items }
        ensures shows { (st : State Links) → Shows (tree_setup plan.now) st self.old → Shows (tree_setup plan.now) (hosted (tree_setup plan.now) st) self.new }
        ensures room { (most : ℕ) → HaveRoom most self.old → HaveRoom most self.new }
    {
        for k in 0..plan.feeds() {
            self.send(plan, k);
        }
        for j in 0..plan.outs() {
            self.receive(plan, j);
        }
    }

    /// The host's part of a round, once configuration is over.
    pub(crate) fn make_ready(&mut self, plan: &Plan)
        requires fits { HostFits plan.now self.old }
        requires rows { net_configured self.old.net ≡ true → HostHasRows plan.now self.old.net }
        requires room { HasSpace 0 self.old.outs.items }
        ensures shows { (st : State Links) → Shows (tree_setup plan.now) st self.old → Shows (tree_setup plan.now) (ready (tree_setup plan.now) st) self.new }
        ensures room { (most : ℕ) → HaveRoom most self.old → HaveRoom most self.new }
    {
        if self.net.configured() {
            self.host_moves(plan);
        }
    }

    /// The rest of a round.
    pub(crate) fn round(&mut self)
        requires { CanRound self.old.net }
        ensures shows { (setup : Setup Links) (st : State Links) → Shows setup st self.old → Shows setup (moved setup st) self.new }
        ensures room { (most : ℕ) → HaveRoom most self.old → HaveRoom most self.new }
    {
        self.net.round();
        self.pages.next_round();
    }

    // Whether an input has no word left, or no credit.
    fn input_stays(&self, plan: &Plan, k: usize) -> bool
        requires input { k < length plan.now.feeds }
        requires fits { HostFits plan.now self.now }
        ensures { (st : State Links) → Shows (tree_setup plan.now) st self.now → result ≡ not (can_send (tree_setup plan.now) st k) }
    {
        if plan.word(k, self.sent[k]).is_none() {
            return true;
        }
        !self.net.can_write(0, PortNo(k as u8))
    }

    fn inputs_stay(&self, plan: &Plan) -> bool
        requires { HostFits plan.now self.now }
        ensures { (st : State Links) → Shows (tree_setup plan.now) st self.now → result ≡ all_to (length plan.now.feeds) (λ k. not (can_send (tree_setup plan.now) st k)) }
    {
        for k in 0..plan.feeds() {
            if !self.input_stays(plan, k) {
                return false;
            }
        }
        true
    }

    fn output_stays(&self, j: usize) -> bool
        requires { j < 8 }
        ensures { (setup : Setup Links) (st : State Links) → Shows setup st self.now → result ≡ not (can_receive st j) }
    {
        !self.net.can_read(0, PortNo(j as u8))
    }

    fn outputs_stay(&self, plan: &Plan) -> bool
        ensures { (setup : Setup Links) (st : State Links) → Shows setup st self.now → result ≡ all_to plan.now.outs (λ j. not (can_receive st j)) }
    {
        for j in 0..plan.outs() {
            if !self.output_stays(j) {
                return false;
            }
        }
        true
    }

    // Whether a page on a leaf whose last Give ended so is finished, or stands at a port that is empty, or has no
    // credit, now.
    fn is_blocked(&self, leaf: u8, end: Option<TurnEnd>) -> bool
        requires inside { leaf < net_size self.now.net }
        requires port { IsPort end }
        ensures { (setup : Setup Links) (st : State Links) → Shows setup st self.now → result ≡ is_blocked (st.leaves leaf) end }
    {
        match end {
            Some(TurnEnd::AtRead(port)) => !self.net.can_read(leaf, port),
            Some(TurnEnd::AtWrite(port, _)) => !self.net.can_write(leaf, port),
            Some(TurnEnd::Ended) => true,
            Some(TurnEnd::Limit) => false,
            None => false,
        }
    }

    fn page_stays(&self, leaf: usize) -> bool
        requires inside { leaf < length self.now.pages.slots.items }
        requires fits { SlotsFit self.now }
        ensures { (setup : Setup Links) (st : State Links) → Shows setup st self.now → result ≡ is_page_still (st.leaves leaf) (st.pages leaf) }
    {
        if !self.pages.is_there(leaf) {
            return true;
        }
        self.is_blocked(leaf as u8, self.pages.end(leaf))
    }

    fn pages_stay(&self) -> bool
        requires { SlotsFit self.now }
        ensures { (setup : Setup Links) (st : State Links) → Shows setup st self.now → result ≡ all_to setup.size (λ i. is_page_still (st.leaves i) (st.pages i)) }
    {
        for leaf in 0..self.pages.slots.len() {
            if !self.page_stays(leaf) {
                return false;
            }
        }
        true
    }

    // Whether the page that could go on when it was last looked at still can.
    fn is_lively(&self) -> bool
        requires { SlotsFit self.now }
        ensures { (setup : Setup Links) (st : State Links) → Shows setup st self.now → result ≡ true → is_still setup st ≡ false }
    {
        if self.lively >= self.pages.slots.len() {
            return false;
        }
        !self.page_stays(self.lively)
    }

    fn is_still(&self, plan: &Plan) -> bool
        requires host { HostFits plan.now self.now }
        requires slots { SlotsFit self.now }
        ensures { (st : State Links) → Shows (tree_setup plan.now) st self.now → result ≡ is_still (tree_setup plan.now) st }
    {
        if !self.net.quiet() {
            return false;
        }
        if !self.inputs_stay(plan) {
            return false;
        }
        if !self.outputs_stay(plan) {
            return false;
        }
        self.pages_stay()
    }

    // How the run rests, if it does.
    fn rest(&self, plan: &Plan) -> Option<Outcome>
        requires host { HostFits plan.now self.now }
        requires slots { SlotsFit self.now }
        ensures { (st : State Links) → Shows (tree_setup plan.now) st self.now → result ≡ rest_of (tree_setup plan.now) st }
    {
        if !self.is_still(plan) {
            return None;
        }
        if self.pages.all_ended() {
            return Some(Outcome::Done);
        }
        Some(Outcome::Stalled)
    }

    /// How the run is over, if it is.
    pub(crate) fn outcome(&self, plan: &Plan) -> Option<Outcome>
        requires host { HostFits plan.now self.now }
        requires slots { SlotsFit self.now }
        ensures { (st : State Links) → Shows (tree_setup plan.now) st self.now → result ≡ outcome (tree_setup plan.now) st }
    {
        if !self.pages.none_out() {
            return None;
        }
        if self.net.rounds() < plan.rounds() {
            if !self.net.quiet() {
                return None;
            }
            if self.is_lively() {
                return None;
            }
            return self.rest(plan);
        }
        match self.rest(plan) {
            Some(outcome) => Some(outcome),
            None => Some(Outcome::Spent),
        }
    }
}
