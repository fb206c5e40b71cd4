//! A leaf.

ghost use Rattle.std.specs.Prelude.{◌≡◌, ℕ, ◌+◌, ◌-◌, ◌<◌, ◌≤◌, Bool, true, false, ◌&&◌, if◌then◌else◌, IsSome, IfOk, IfSome, is_some, is_none, Option, length, replicate};
ghost use Rattle.leaf_port.specs.Ports.{InState, fresh_in};
ghost use Rattle.leaf_port.specs.Leaf.{LeafState, IsLeaf, fresh, row_of, with_row, can_write, next_word, wrote, took, is_idle, owed_from, delivered, accepted, offered, offer_credit, offer_word, injected, CanArrive};

use crate::masks::Mask;
use crate::ports::number_after;
use crate::{ConfigEntry, InPort, OutPort, Waiting};
use circular_buffer::HeapCircularBuffer;
use net_switch::{Body, Packet, Row, Stamp};
use pld_base::{NoMemory, PageId, PortNo, RoundNo};
use std::alloc::Global;
use std::marker::Model;

/// What stands between a page and the network, for 8 out-ports and 8 in-ports.
///
/// Of each channel at most a window of words is unread: an out-port begins with as many credits, and a write
/// spends one. A word has the number of its place in its channel, modulo the window, and waits in the outbox
/// until it is offered to the network. At the other end it goes into the slot of its number, and is read when
/// its number is the next one. What reads free is given back as credits.
#[derive(Drop)]
pub struct Leaf {
    own: PageId,
    window: u8,
    rows: [Option<Row>; 16],
    outs: [OutPort; 8],
    ins: Vec<InPort>,
    // the in-ports with freed room
    owed: Mask,
    outbox: HeapCircularBuffer<Waiting>,
    back: Option<Packet>,
}

impl Model for Leaf {
    ghost use Rattle.std.specs.Prelude.{◌≡◌, ◌*◌};
    ghost use Rattle.leaf_port.specs.Leaf.{LeafState, IsLeaf};
    ghost use Rattle.leaf_port.specs.Owed.{AreOwed};

    ghost Value = { LeafState };

    ghost view = { λ a. record { own = a.own.0; window = a.window; rows = a.rows; outs = a.outs; ins = a.ins.items; box = a.outbox.items; back = a.back } };

    ghost invariant = { λ a. IsLeaf (record { own = a.own.0; window = a.window; rows = a.rows; outs = a.outs; ins = a.ins.items; box = a.outbox.items; back = a.back }) × (a.outbox.capacity ≡ 8 * a.window) × AreOwed a.ins.items a.owed.bits };
}

// The in-ports as a run begins.
fn fresh_ins(alloc: Global, window: u8) -> Result<Vec<InPort>, NoMemory>
    requires some { 0 < window }
    requires most { window ≤ 64 }
    ensures { IfOk result (λ ins. ins.items ≡ replicate 8 (fresh_in window)) }
{
    let mut ins = Vec::with_capacity(alloc, 8)?;
    for _port in 0..8usize {
        ins.push(InPort::new(window))?;
    }
    Ok(ins)
}

impl Leaf {
    /// A leaf as a run begins, with no rows, for channels with a window of 1 to 64 words. No other call takes
    /// memory.
    pub fn new(alloc: Global, own: PageId, window: u8) -> Result<Leaf, NoMemory>
        requires some { 0 < window }
        requires most { window ≤ 64 }
        ensures { IfOk result (λ leaf. leaf ≡ fresh own.0 window) }
    {
        let ins = fresh_ins(alloc, window)?;
        let outbox = HeapCircularBuffer::with_capacity(alloc, 8 * window as usize)?;
        Ok(Leaf {
            own,
            window,
            rows: [None; 16],
            outs: [OutPort {
                credits: window,
                next: 0,
            }; 8],
            ins,
            owed: Mask::empty(),
            outbox,
            back: None,
        })
    }

    /// The other end of a slot's channel. Slots 0 to 7 are those of the out-ports, 8 to 15 those of the in-ports.
    pub fn row(&self, slot: u8) -> Option<Row>
        requires { slot < 16 }
        ensures { result ≡ row_of self.now slot }
    {
        self.rows[slot as usize]
    }

    /// Whether nothing is to be sent back, no room was freed and no word waits.
    pub fn idle(&self) -> bool
        ensures { result ≡ is_idle self.now }
    {
        self.back.is_none() && self.lowest_owed().is_none() && self.outbox.is_empty()
    }

    /// Sets the row of a slot of an idle leaf.
    pub fn set_row(&mut self, slot: u8, row: Option<Row>)
        requires slot { slot < 16 }
        requires idle { is_idle self.old ≡ true }
        ensures { self.new ≡ with_row self.old slot row }
    {
        self.rows[slot as usize] = row;
    }

    /// Whether a packet is to be sent back.
    pub fn holds_back(&self) -> bool
        ensures { result ≡ is_some self.now.back }
    {
        self.back.is_some()
    }

    /// Whether an out-port has a credit.
    pub fn can_write(&self, port: PortNo) -> bool
        requires { port.0 < 8 }
        ensures { result ≡ can_write self.now port.0 }
    {
        self.outs[port.0 as usize].credits > 0
    }

    /// Whether an in-port's next word is there.
    pub fn can_read(&self, port: PortNo) -> bool
        requires { port.0 < 8 }
        ensures { result ≡ is_some (next_word self.now port.0) }
    {
        self.ins[port.0 as usize].next_word().is_some()
    }

    /// Writes a word to an out-port that has a row. False exactly where the port has no credit; then nothing is
    /// changed.
    pub fn write(&mut self, port: PortNo, w: u32) -> bool
        requires port { port.0 < 8 }
        requires row { IsSome (row_of self.old port.0) }
        ensures done { result ≡ can_write self.old port.0 }
        ensures state { self.new ≡ (if can_write self.old port.0 then wrote self.old port.0 w else self.old) }
    {
        let k = port.0 as usize;
        let out = self.outs[k];
        if out.credits == 0 {
            return false;
        }
        self.outs[k] = OutPort {
            credits: out.credits - 1,
            next: number_after(out.next, self.window),
        };
        self.outbox.push_back(Waiting {
            port: port.0,
            number: out.next,
            word: w,
        });
        true
    }

    /// Reads the next word of an in-port that has a row. None exactly where the slot of the next number is empty;
    /// then nothing is changed.
    pub fn read(&mut self, port: PortNo) -> Option<u32>
        requires port { port.0 < 8 }
        requires row { IsSome (row_of self.old (8 + port.0)) }
        ensures word { result ≡ next_word self.old port.0 }
        ensures state { self.new ≡ (if is_some (next_word self.old port.0) then took self.old port.0 else self.old) }
    {
        let word = self.ins[port.0 as usize].take();
        if word.is_some() {
            self.owed = self.owed.with(port.0);
        }
        word
    }

    /// Takes a packet that arrives, where none is to be sent back. One for another leaf is kept, to be sent back.
    /// One for this leaf must be as the account of its channel tells: a word's slot is empty and there is room for
    /// it, a credit stays within the window, and a row comes to an idle leaf.
    pub fn accept(&mut self, p: Packet)
        requires free { is_none self.old.back ≡ true }
        requires arrives { p.to.0 ≡ self.old.own → CanArrive self.old p.body }
        ensures { self.new ≡ accepted self.old p }
    {
        if p.to.0 == self.own.0 {
            self.deliver(p.body);
        } else {
            self.back = Some(p);
        }
    }

    // Takes what a packet for this leaf brings.
    fn deliver(&mut self, body: Body)
        requires { CanArrive self.old body }
        ensures { self.new ≡ delivered self.old body }
    {
        match body {
            Body::Data(port, number, word) => self.ins[port.0 as usize].put(number, word),
            Body::Credit(port, count) => {
                let mut out = self.outs[port.0 as usize];
                out.credits += count;
                self.outs[port.0 as usize] = out;
            }
            Body::Config(slot, row) => self.rows[slot as usize] = row,
        }
    }

    /// What every leaf keeps: credits and waiting words of an out-port, and words and freed room of an in-port,
    /// are no more than the window, and what waits has a row.
    pub fn keeps_window(&self)
        ensures { IsLeaf self.now }
    {
        let _own = &self.own;
    }

    // A new packet of this leaf.
    fn packet(&self, round: RoundNo, to: PageId, body: Body) -> Packet
        ensures { result ≡ injected self.now.own round.0 to.0 body }
    {
        Packet {
            stamp: Stamp {
                round,
                source: self.own,
            },
            to,
            body,
        }
    }

    // The lowest in-port with freed room.
    fn lowest_owed(&self) -> Option<u8>
        ensures lowest { result ≡ owed_from 0 self.now.ins }
        ensures within { IfSome result (λ j. j < 8) }
    {
        self.owed.lowest()
    }

    // Offers the freed room of an in-port.
    fn offer_credit(&mut self, round: RoundNo, j: u8) -> Option<Packet>
        requires { j < 8 }
        ensures state { self.new ≡ (offer_credit self.old round.0 j).0 }
        ensures packet { result ≡ (offer_credit self.old round.0 j).1 }
    {
        let count = self.ins[j as usize].give_back();
        self.owed = self.owed.without(j);
        match self.rows[8 + j as usize] {
            Some(row) => Some(self.packet(round, row.leaf, Body::Credit(row.port, count))),
            None => None,
        }
    }

    // Offers the head of the outbox.
    fn offer_word(&mut self, round: RoundNo) -> Option<Packet>
        ensures state { self.new ≡ (offer_word self.old round.0 self.old.box).0 }
        ensures packet { result ≡ (offer_word self.old round.0 self.old.box).1 }
    {
        let Some(w) = self.outbox.pop_front() else {
            return None;
        };
        match self.rows[w.port as usize] {
            Some(row) => Some(self.packet(round, row.leaf, Body::Data(row.port, w.number, w.word))),
            None => None,
        }
    }

    /// What the leaf offers to the network in a round: the packet to be sent back, with its old stamp; else the
    /// configuration entry; else a credit for the lowest in-port with freed room, with the whole count; else the
    /// head of the outbox. None exactly where there is nothing of these.
    pub fn offer(&mut self, round: RoundNo, config: Option<ConfigEntry>) -> Option<Packet>
        ensures state { self.new ≡ (offered self.old round.0 config).0 }
        ensures packet { result ≡ (offered self.old round.0 config).1 }
        ensures nothing { is_none result ≡ (is_none config && is_idle self.old) }
    {
        if let Some(p) = self.back {
            self.back = None;
            return Some(p);
        }
        if let Some(entry) = config {
            return Some(self.packet(round, entry.leaf, Body::Config(entry.slot, entry.row)));
        }
        match self.lowest_owed() {
            Some(j) => self.offer_credit(round, j),
            None => self.offer_word(round),
        }
    }
}
