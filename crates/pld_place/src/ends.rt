//! Channels by the operators at their ends, and how far apart these stand.

ghost use Rattle.std.specs.Prelude.{◌≡◌, ◌≤◌, ◌<◌, ◌*◌, IfOk, length};
ghost use Rattle.pld_graph.specs.Sound.{IsSound};
ghost use Rattle.pld_place.specs.Distance.{level_over as level_over_of, distance as distance_of};
ghost use Rattle.pld_place.specs.Exchanges.{leaf_at as leaf_in, traded as traded_of, reach as reach_of, total, exchanged};
ghost use Rattle.pld_place.specs.Placing.{numbers, from_place as from_place_of, to_place as to_place_of, channel_ends};

use pld_base::{NoMemory, PageId};
use pld_graph::{FromEnd, Graph, ToEnd};
use std::alloc::Global;

/// The two ends of a channel: the places of the operators that stand there, in the order of declaration. None is the host.
#[derive(Clone, Copy, Debug, PartialEq, Eq)]
pub struct Ends {
    pub from: Option<usize>,
    pub to: Option<usize>,
}

// So many levels has a tree at most.
const LEVELS: u32 = 6;

// The operator from which a channel comes.
fn from_place(g: &Graph, end: &FromEnd) -> Option<usize>
    ensures { result ≡ from_place_of g.now end.now }
{
    match end {
        FromEnd::Port(e) => g.place_of(&e.op),
        FromEnd::Input(_) => None,
    }
}

// The operator to which a channel goes.
fn to_place(g: &Graph, end: &ToEnd) -> Option<usize>
    ensures { result ≡ to_place_of g.now end.now }
{
    match end {
        ToEnd::Port(e) => g.place_of(&e.op),
        ToEnd::Output(_) => None,
    }
}

// The ends of each channel.
pub fn ends_of(alloc: Global, g: &Graph) -> Result<Vec<Ends>, NoMemory>
    ensures { IfOk result (λ channels. channels.items ≡ channel_ends g.now) }
{
    let mut channels = Vec::new(alloc);
    for k in 0..g.channels() {
        let channel = g.channel(k);
        let from = from_place(g, &channel.from);
        let to = to_place(g, &channel.to);
        channels.push(Ends { from, to })?;
    }
    Ok(channels)
}

// The leaf of an operator, and leaf 0 for the host.
pub fn leaf_at(leaves: &[PageId], place: Option<usize>) -> u8
    ensures { result ≡ leaf_in (numbers leaves.now) place }
{
    let Some(k) = place else {
        return 0;
    };
    match leaves.get(k) {
        Some(leaf) => leaf.0,
        None => 0,
    }
}

// The level of the lowest switch over two leaves, of so many levels.
fn level_over(levels: u32, a: u8, b: u8) -> u32
    ensures value { result ≡ level_over_of levels a b }
    ensures most { result ≤ levels }
{
    let mut low = a;
    let mut high = b;
    for level in 0..levels {
        if low == high {
            return level;
        }
        low /= 2;
        high /= 2;
    }
    levels
}

// The number of links between two leaves.
#[tactic(auto, unfolding(crate::specs::Distance::distance))]
fn distance(a: u8, b: u8) -> u32
    ensures value { result ≡ distance_of a b }
    ensures most { result ≤ 12 }
{
    2 * level_over(LEVELS, a, b)
}

// The distance of a channel's ends.
fn reach(leaves: &[PageId], channel: &Ends) -> u32
    ensures value { result ≡ reach_of (numbers leaves.now) channel.now }
    ensures most { result ≤ 12 }
{
    distance(leaf_at(leaves, channel.from), leaf_at(leaves, channel.to))
}

// Where a leaf's operator stands once leaves a and b are exchanged.
pub fn traded(a: u8, b: u8, leaf: u8) -> u8
    ensures { result ≡ traded_of a b leaf }
{
    if leaf == a {
        b
    } else if leaf == b {
        a
    } else {
        leaf
    }
}

// The distance of a channel's ends once leaves a and b are exchanged.
#[tactic(auto, using(crate::proofs::Gains::reach_moved))]
fn reach_after(leaves: &[PageId], channel: &Ends, a: u8, b: u8) -> u32
    requires first { 1 ≤ a }
    requires second { 1 ≤ b }
    ensures value { result ≡ reach_of (exchanged a b (numbers leaves.now)) channel.now }
    ensures most { result ≤ 12 }
{
    let from = traded(a, b, leaf_at(leaves, channel.from));
    let to = traded(a, b, leaf_at(leaves, channel.to));
    distance(from, to)
}

// The sum of distances of some channels, as they are and once two leaves are exchanged.
#[derive(Clone, Copy)]
pub struct Sums {
    pub before: u32,
    pub after: u32,
}

// The sums of these channels where leaves a and b are exchanged.
pub fn measure(leaves: &[PageId], channels: &[Ends], a: u8, b: u8) -> Sums
    requires few { length channels.now ≤ 256 }
    requires first { 1 ≤ a }
    requires second { 1 ≤ b }
    ensures before { result.before ≡ total channels.now (numbers leaves.now) }
    ensures after { result.after ≡ total channels.now (exchanged a b (numbers leaves.now)) }
    ensures most_before { result.before ≤ 3072 }
    ensures most_after { result.after ≤ 3072 }
{
    let mut before = 0;
    let mut after = 0;
    for channel in channels {
        before += reach(leaves, channel);
        after += reach_after(leaves, channel, a, b);
    }
    Sums { before, after }
}
