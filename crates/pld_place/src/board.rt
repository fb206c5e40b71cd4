//! Operators on leaves, and exchanges of two leaves that lower the sum of channel distances.

ghost use Rattle.std.specs.Prelude.{◌≡◌, ◌≤◌, ◌<◌, IfOk, IfSome, length, map};
ghost use Rattle.pld_place.specs.Exchanges.{lowers as lowers_of, partner as partner_of, first_pair as first_pair_of, improved, exchanged};
ghost use Rattle.pld_place.specs.Placing.{numbers};
ghost use Rattle.pld_place.specs.Touching.{Standing, touches as touches_of, touching_at, IsBoard, AreAbove, AreAscending};

use crate::ends::{self, Ends};
use pld_base::{NoMemory, PageId};
use std::alloc::Global;
use std::marker::Model;

// Operators on leaves, and the channels between them.
#[derive(Drop)]
pub struct Board {
    channels: Vec<Ends>,
    leaves: Vec<PageId>,
    last: u8,
    // For each leaf from 0 to the last one the channels with an end there.
    touching: Vec<Vec<Ends>>,
}

impl Model for Board {
    ghost use Rattle.std.specs.Prelude.{map};
    ghost use Rattle.pld_place.specs.Placing.{numbers};
    ghost use Rattle.pld_place.specs.Touching.{Standing, IsBoard};

    ghost Value = { Standing };

    ghost view = { λ b. record { channels = b.channels.items; leaves = numbers b.leaves.items; last = b.last } };

    ghost invariant = { λ b. IsBoard (record { channels = b.channels.items; leaves = numbers b.leaves.items; last = b.last }) (map (λ row. row.items) b.touching.items) };
}

// Whether an end of the channel stands at the leaf.
fn touches(leaves: &[PageId], channel: &Ends, leaf: u8) -> bool
    ensures { result ≡ touches_of (numbers leaves.now) leaf channel.now }
{
    ends::leaf_at(leaves, channel.from) == leaf || ends::leaf_at(leaves, channel.to) == leaf
}

// The channels with an end at a leaf.
fn touching(
    alloc: Global,
    leaves: &[PageId],
    channels: &[Ends],
    leaf: u8,
) -> Result<Vec<Ends>, NoMemory>
    ensures { IfOk result (λ found. found.items ≡ touching_at channels.now (numbers leaves.now) leaf) }
{
    let mut found = Vec::new(alloc);
    for channel in channels {
        if touches(leaves, channel, leaf) {
            found.push(*channel)?;
        }
    }
    Ok(found)
}

// What stood at leaf a goes to leaf b, and what stood at b to a.
fn exchange_in(leaves: &mut Vec<PageId>, a: u8, b: u8)
    ensures { numbers leaves.new.items ≡ exchanged a b (numbers leaves.old.items) }
{
    for k in 0..leaves.len() {
        leaves[k] = PageId(ends::traded(a, b, leaves[k].0));
    }
}

impl Board {
    // Operators on these leaves, with these channels between them, in a tree with this last leaf.
    pub fn new(
        alloc: Global,
        channels: Vec<Ends>,
        leaves: Vec<PageId>,
        last: u8,
    ) -> Result<Board, NoMemory>
        requires few { length channels.items ≤ 256 }
        requires deep { last ≤ 63 }
        ensures { IfOk result (λ b. b ≡ record { channels = channels.items; leaves = numbers leaves.items; last = last }) }
    {
        let mut rows = Vec::new(alloc);
        for leaf in 0..last + 1 {
            rows.push(touching(alloc, &leaves, &channels, leaf)?)?;
        }
        Ok(Board {
            channels,
            leaves,
            last,
            touching: rows,
        })
    }

    // The channels with an end at a leaf.
    fn row(&self, leaf: u8) -> &[Ends]
        requires { leaf ≤ self.now.last }
        ensures value { result.now ≡ touching_at self.now.channels self.now.leaves leaf }
        ensures few { length result.now ≤ 256 }
    {
        &self.touching[leaf as usize]
    }

    // Whether the exchange of two leaves lowers the sum of channel distances. Only channels with an end at one of them are
    // looked at: the others keep their distances.
    fn lowers(&self, a: u8, b: u8) -> bool
        requires first { 1 ≤ a }
        requires order { a < b }
        requires most { b ≤ self.now.last }
        ensures { result ≡ lowers_of self.now.channels self.now.leaves a b }
    {
        let at_a = ends::measure(&self.leaves, self.row(a), a, b);
        let at_b = ends::measure(&self.leaves, self.row(b), a, b);
        at_a.after + at_b.after < at_a.before + at_b.before
    }

    // The first of these leaves whose exchange with leaf a lowers the sum.
    fn partner(&self, a: u8, others: &[u8]) -> Option<u8>
        requires first { 1 ≤ a }
        requires above { AreAbove a self.now.last others.now }
        ensures value { result ≡ partner_of self.now.channels self.now.leaves a others.now }
        ensures above { IfSome result (λ b. (a < b) × (b ≤ self.now.last)) }
    {
        for b in others {
            if self.lowers(a, *b) {
                return Some(*b);
            }
        }
        None
    }

    // Of these leaves the first pair whose exchange lowers the sum.
    fn first_pair(&self, movable: &[u8]) -> Option<(u8, u8)>
        requires { AreAscending self.now.last movable.now }
        ensures value { result ≡ first_pair_of self.now.channels self.now.leaves movable.now }
        ensures within { IfSome result (λ p. (1 ≤ p.0) × (p.0 < p.1) × (p.1 ≤ self.now.last)) }
    {
        for k in 0..movable.len() {
            let a = movable[k];
            if let Some(b) = self.partner(a, &movable[k + 1..]) {
                return Some((a, b));
            }
        }
        None
    }

    // Exchanges two leaves.
    fn exchange(&mut self, a: u8, b: u8)
        requires first { 1 ≤ a }
        requires order { a < b }
        requires most { b ≤ self.old.last }
        ensures { self.new ≡ record self.old { leaves = exchanged a b self.old.leaves } }
    {
        exchange_in(&mut self.leaves, a, b);
        self.touching.swap(a as usize, b as usize);
    }

    // Makes the first exchange of two of these leaves that lowers the sum, at most so many times.
    pub fn improve(&mut self, movable: &[u8], most: usize)
        requires { AreAscending self.old.last movable.now }
        ensures { self.new ≡ record self.old { leaves = improved self.old.channels movable.now most self.old.leaves } }
    {
        for _k in 0..most {
            let Some((a, b)) = self.first_pair(movable) else {
                return;
            };
            self.exchange(a, b);
        }
    }

    // The leaf of each operator.
    pub fn into_leaves(self) -> Vec<PageId>
        ensures { numbers result.items ≡ self.leaves }
    {
        self.leaves
    }
}
