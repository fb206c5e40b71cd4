//! What a run of a placed design is given.

ghost use Rattle.std.specs.Prelude.{◌≡◌, ◌<◌, ◌≤◌, IfOk, length, slice_index};
ghost use Rattle.pld_graph.specs.Design.{outputs as outputs_of};
ghost use Rattle.pld_link.specs.Seats.{numbers};
ghost use Rattle.pld_link.specs.Rows.{rows};
ghost use Rattle.fabric_plan.specs.Plans.{allowed as allowed_rounds, pages_of, plan_of};
ghost use Rattle.fabric_plan.specs.Runnable.{IsRunnable};

use fabric_core::{Feed, Plan, PlanPage};
use net_switch::Row;
use pld_base::{NoMemory, PageId};
use pld_graph::Graph;
use pld_image::Image;
use std::alloc::Global;

/// The most entries that a journal may have.
const ENTRIES: u64 = 40_000_000;

/// The rounds that a run of so many pages is allowed, where the option says `rounds`: its journal, with at most eight entries for
/// each page and one more in a round, has at most 40,000,000 entries. There are at most 63 pages.
pub fn allowed(rounds: u64, pages: u64) -> u64
    requires { pages ≤ 63 }
    ensures { result ≡ allowed_rounds rounds pages }
{
    rounds.min(ENTRIES / (8 * pages + 1))
}

// The k-th leaf.
fn leaf_of(leaves: &[PageId], k: usize) -> u8
    requires { k < length leaves.now }
    ensures { result ≡ slice_index (numbers leaves.now) k }
{
    leaves[k].0
}

// A page for each operator, on its leaf and with its image.
fn pages(alloc: Global, leaves: &[PageId], images: Vec<Image>) -> Result<Vec<PlanPage>, NoMemory>
    requires { length images.items ≡ length leaves.now }
    ensures { IfOk result (λ pages. pages.items ≡ pages_of (numbers leaves.now) images.items) }
{
    let mut pages = Vec::with_capacity(alloc, leaves.len())?;
    for image in images {
        let leaf = leaf_of(leaves, pages.len());
        pages.push(PlanPage::new(leaf, image))?;
    }
    Ok(pages)
}

// How many outputs the design has.
fn outputs(g: &Graph) -> u8
    ensures { result ≡ length (outputs_of g.now.channels) }
{
    let _channels = g.channels();
    g.outputs() as u8
}

/// The plan of a run of a placed design: the k-th operator stands on the leaf `leaves[k]` and has the k-th image, and the k-th
/// input has the k-th feed, all in the order of declaration. `before` are the rows that stand at the leaves, and `tables` those
/// that are to stand. `rounds` is what the option says, of which the plan has those that `allowed` allows. Tree, links and window are
/// the design's.
pub fn plan(
    alloc: Global,
    g: &Graph,
    leaves: &[PageId],
    images: Vec<Image>,
    before: Vec<Option<Row>>,
    tables: Vec<Option<Row>>,
    feeds: Vec<Feed>,
    rounds: u64,
) -> Result<Plan, NoMemory>
    requires runnable { IsRunnable g.now (record { leaves = numbers leaves.now; images = images.items; before = before.items; feeds = feeds.items; rounds = rounds }) }
    requires tables { tables.items ≡ rows g.now (numbers leaves.now) }
    ensures { IfOk result (λ plan. plan ≡ plan_of g.now (record { leaves = numbers leaves.now; images = images.items; before = before.items; feeds = feeds.items; rounds = rounds })) }
{
    let pages = pages(alloc, leaves, images)?;
    let rounds = allowed(rounds, g.operators() as u64);
    Ok(Plan::new(
        g.depth(),
        g.pattern(),
        g.window(),
        pages,
        before,
        tables,
        feeds,
        outputs(g),
        rounds,
    ))
}
