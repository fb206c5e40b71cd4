//! The leaves' parts of a round.

ghost use Rattle.std.specs.Prelude.{◌≡◌, ℕ, ◌+◌, ◌<◌, ◌≤◌, if◌then◌else◌, ◌==◌, Bool, Option, Some, None, slice_index_or};
ghost use Rattle.net_switch.specs.declared.packet.Packet.{Packet};
ghost use Rattle.net_switch.specs.Switch.{weighs};
ghost use Rattle.fabric_run.specs.World.{entry_for};
ghost use Rattle.leaf_net.specs.Net.{NetState, net_size};
ghost use Rattle.leaf_net.specs.Counts.{one, config_weight, is_for_other};
ghost use Rattle.leaf_net.specs.Passing.{before_round, CanPass, HavePassed};

use crate::entries::Entries;
use crate::leaves::Leaves;
use crate::way::{Way, config_weight};
use leaf_port::ConfigEntry;
use net_switch::Packet;
use pld_base::RoundNo;

/// What leaves offered, counted.
#[derive(Clone, Copy)]
pub(crate) struct Tally {
    pub(crate) offered: u64,
    /// Those that bring a configuration entry.
    pub(crate) configs: u64,
    /// Those that weren't sent back.
    pub(crate) injected: u64,
    /// Whether leaf 0 sent a packet back.
    pub(crate) sent_back: bool,
}

// Whether this is a packet for another leaf.
fn is_for_other(leaf: u8, came: &Option<Packet>) -> bool
    ensures { result ≡ is_for_other leaf came.now }
{
    match came {
        None => false,
        Some(p) => p.to.0 != leaf,
    }
}

// The entry that a leaf is given.
fn entry_for(leaf: u8, entries: &Entries) -> Option<ConfigEntry>
    ensures { result ≡ entry_for leaf entries.now }
{
    if leaf == 0 { entries.first() } else { None }
}

impl Tally {
    // Counts what a leaf offers, which is what was to be sent back or new.
    fn add(&mut self, leaf: u8, offer: &Option<Packet>, sent_back: bool)
        requires offered { self.old.offered < 64 }
        requires configs { self.old.configs < 64 }
        requires injected { self.old.injected < 64 }
        ensures offered { self.new.offered ≡ self.old.offered + weighs one offer.now }
        ensures configs { self.new.configs ≡ self.old.configs + weighs config_weight offer.now }
        ensures injected { self.new.injected ≡ self.old.injected + (if sent_back then 0 else weighs one offer.now) }
        ensures sent_back { self.new.sent_back ≡ (if leaf == 0 then sent_back else self.old.sent_back) }
    {
        if let Some(p) = offer {
            self.offered += 1;
            self.configs += config_weight(p);
            if !sent_back {
                self.injected += 1;
            }
        }
        if leaf == 0 {
            self.sent_back = sent_back;
        }
    }
}

/// Each leaf takes what came to it, and offers. Tells the offers in `offers`, in which there are none before.
pub(crate) fn pass(
    leaves: &mut Leaves,
    way: &mut Way,
    entries: &Entries,
    round: RoundNo,
    offers: &mut [Option<Packet>; 64],
) -> Tally
    requires can { CanPass (before_round way.old leaves.old entries.now round.0) }
    requires none { (i : ℕ) → slice_index_or offers.old i None ≡ None }
    ensures { HavePassed (before_round way.old leaves.old entries.now round.0) way.new leaves.new offers.new result (net_size (before_round way.old leaves.old entries.now round.0)) }
{
    let mut tally = Tally {
        offered: 0,
        configs: 0,
        injected: 0,
        sent_back: false,
    };
    for leaf in 0..leaves.len() {
        let came = way.arrival(leaf);
        let sent_back = is_for_other(leaf, &came);
        let offer = leaves.turn(leaf, round, entry_for(leaf, entries), came);
        tally.add(leaf, &offer, sent_back);
        offers[leaf as usize] = offer;
    }
    tally
}
