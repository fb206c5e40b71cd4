//! The placement of a design.

ghost use Rattle.std.specs.Prelude.{◌≡◌, ◌≤◌, IfOk, length};
ghost use Rattle.pld_graph.specs.Sound.{IsSound};
ghost use Rattle.pld_place.specs.Placing.{numbers, pages as pages_of, placed, Places};

use crate::board::Board;
use crate::{ends, leaves};
use pld_base::{NoMemory, PageId, Refused};
use pld_graph::Graph;
use std::alloc::Global;
use std::marker::Model;

// So many exchanges are made at most.
const MOST_EXCHANGES: usize = 64;

/// The leaf of each operator of a design, in the order of declaration. Contracts see the list of these leaves.
#[derive(Debug, Drop)]
pub struct Placement {
    leaf_of: Vec<PageId>,
}

impl Model for Placement {
    ghost use Rattle.std.specs.Prelude.{List, ℕ};
    ghost use Rattle.pld_place.specs.Placing.{numbers};

    ghost Value = { List ℕ };

    ghost view = { λ p. numbers p.leaf_of.items };
}

impl Placement {
    /// The leaf of each operator, in the order of declaration.
    pub fn leaf_of(&self) -> &[PageId]
        ensures { numbers result.now ≡ self.now }
    {
        &self.leaf_of
    }
}

/// There are more operators than pages.
#[derive(Clone, Copy, Debug, PartialEq, Eq)]
pub struct TooFewPages {
    pub operators: u32,
    /// How many leaves there are for operators: all of the tree's but the host's.
    pub pages: u32,
}

// How many leaves there are for operators.
fn pages(g: &Graph) -> u8
    ensures value { result ≡ pages_of g.now }
    ensures most { result ≤ 63 }
{
    ((1u16 << g.depth()) - 1) as u8
}

// The placement where there are enough pages.
fn place_all(alloc: Global, g: &Graph, last: u8) -> Result<Placement, NoMemory>
    requires last { last ≡ pages_of g.now }
    requires most { last ≤ 63 }
    requires sound { IsSound g.now }
    ensures { IfOk result (λ p. p ≡ placed g.now) }
{
    let pins = leaves::pins(alloc, g)?;
    let pinned = leaves::pinned(alloc, &pins)?;
    let movable = leaves::movable(alloc, &pinned, last)?;
    let first = leaves::first_leaves(alloc, &pins, pinned)?;
    let mut board = Board::new(alloc, ends::ends_of(alloc, g)?, first, last)?;
    board.improve(&movable, MOST_EXCHANGES);
    Ok(Placement {
        leaf_of: board.into_leaves(),
    })
}

/// Places the operators of a design on the leaves of its tree of pages, from 1 to 2^depth - 1; the host stands at leaf 0.
///
/// Pinned operators stand at their pins, the others in the order of declaration each on the least free leaf. Then, at most 64
/// times, the first pair of leaves whose exchange lowers the sum of channel distances is exchanged: by its lower leaf, then by the
/// other. Neither is pinned to, and one of them may be empty. A channel's distance is the number of links between its ends.
///
/// `TooFewPages` exactly where there are more operators than pages.
pub fn place(alloc: Global, g: &Graph) -> Result<Placement, Refused<TooFewPages>>
    ensures exact { Places result g.now }
{
    let last = pages(g);
    let operators = g.operators();
    if operators > last as usize {
        return Err(Refused::Fault(TooFewPages {
            operators: operators as u32,
            pages: last as u32,
        }));
    }
    match place_all(alloc, g, last) {
        Ok(placement) => Ok(placement),
        Err(NoMemory) => Err(Refused::NoMemory),
    }
}
