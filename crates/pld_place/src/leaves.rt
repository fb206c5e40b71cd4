//! The leaves before any exchange.

ghost use Rattle.std.specs.Prelude.{◌≡◌, ◌≤◌, ◌<◌, IfOk, length};
ghost use Rattle.pld_place.specs.Placing.{numbers, pins as pins_of, is_among as is_among_of, least_free as least_free_of, next_leaf as next_leaf_of, pinned_leaves, first_leaves as first_leaves_of, movable_among};

use pld_base::{NoMemory, PageId};
use pld_graph::Graph;
use std::alloc::Global;

// The last leaf of the deepest tree.
const LAST_LEAF: u8 = 63;

// The pin of each operator.
#[tactic(auto, using(crate::proofs::Pins::own_pin_of))]
pub fn pins(alloc: Global, g: &Graph) -> Result<Vec<Option<u8>>, NoMemory>
    ensures { IfOk result (λ ps. ps.items ≡ pins_of g.now) }
{
    let mut pins = Vec::new(alloc);
    for k in 0..g.operators() {
        let (name, _, _) = g.operator(k);
        pins.push(g.pin_of(name))?;
    }
    Ok(pins)
}

// The leaves to which operators are pinned.
pub fn pinned(alloc: Global, pins: &[Option<u8>]) -> Result<Vec<u8>, NoMemory>
    ensures { IfOk result (λ leaves. leaves.items ≡ pinned_leaves pins.now) }
{
    let mut leaves = Vec::new(alloc);
    for pin in pins {
        if let Some(leaf) = pin {
            leaves.push(*leaf)?;
        }
    }
    Ok(leaves)
}

fn is_among(leaves: &[u8], leaf: u8) -> bool
    ensures { result ≡ is_among_of leaves.now leaf }
{
    leaves.contains(&leaf)
}

// The least leaf from 1 to the last one that isn't taken; one more than the last where all are.
fn least_free(taken: &[u8], last: u8) -> u8
    requires { last ≤ 63 }
    ensures { result ≡ least_free_of taken.now 1 last }
{
    for leaf in 1..last + 1 {
        if !is_among(taken, leaf) {
            return leaf;
        }
    }
    last + 1
}

// The least free leaf from 1 up.
#[tactic(auto, unfolding(crate::specs::Placing::next_leaf))]
fn next_leaf(taken: &[u8]) -> u8
    ensures { result ≡ next_leaf_of taken.now }
{
    least_free(taken, LAST_LEAF)
}

// Pinned operators at their pins, and each other one on the least free leaf; `taken` has the leaves of pins at first.
pub fn first_leaves(
    alloc: Global,
    pins: &[Option<u8>],
    mut taken: Vec<u8>,
) -> Result<Vec<PageId>, NoMemory>
    requires { taken.items ≡ pinned_leaves pins.now }
    ensures { IfOk result (λ leaves. numbers leaves.items ≡ first_leaves_of pins.now) }
{
    let mut leaves = Vec::new(alloc);
    for pin in pins {
        let leaf = match pin {
            Some(leaf) => *leaf,
            None => {
                let leaf = next_leaf(&taken);
                taken.push(leaf)?;
                leaf
            }
        };
        leaves.push(PageId(leaf))?;
    }
    Ok(leaves)
}

// The leaves from 1 to the last one to which no operator is pinned.
pub fn movable(alloc: Global, pinned: &[u8], last: u8) -> Result<Vec<u8>, NoMemory>
    requires { last ≤ 63 }
    ensures { IfOk result (λ leaves. leaves.items ≡ movable_among pinned.now last) }
{
    let mut leaves = Vec::new(alloc);
    for leaf in 1..last + 1 {
        if !is_among(pinned, leaf) {
            leaves.push(leaf)?;
        }
    }
    Ok(leaves)
}
