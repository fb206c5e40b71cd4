//! What a build makes.

ghost use Rattle.std.specs.Prelude.{◌≡◌, ◌+◌, ◌++◌, ◌≤◌, ◌<◌, ◌^◌, None, length, map, IfOk, OnErr, OnOk};
ghost use Rattle.std.specs.List.{All};
ghost use Rattle.pld_graph.specs.Design.{open_port};
ghost use Rattle.pld_draft.specs.Draft.{IsRead};
ghost use Rattle.build_cache.specs.Pairs.{missed};
ghost use Rattle.pld_build.specs.Images.{image_of, pair_of, compiles};
ghost use Rattle.pld_link.specs.Seats.{IsPlacement, numbers};
ghost use Rattle.pld_link.specs.Rows.{rows};
ghost use Rattle.pld_session.specs.States.{Builds};
ghost use Rattle.pld_session.specs.Answers.{pages_from};

use net_switch::Row;
use par_build::Compile;
use pld_base::{NoMemory, PageId, Permits, Refused};
use pld_build::Compiler;
use pld_draft::{Draft, Source};
use pld_graph::Graph;
use pld_image::Image;
use pld_link::tables;
use pld_place::{Placement, TooFewPages, operators_have_leaves, place};
use pld_reply::PlacedPage;
use std::alloc::Global;
use std::marker::Model;

/// A design's full build: the image of each operator and its leaf, in the order of declaration, and the rows of all leaves.
#[derive(Drop)]
pub struct Build {
    pub images: Vec<Image>,
    pub placement: Placement,
    pub tables: Vec<Option<Row>>,
}

impl Model for Build {
    ghost use Rattle.pld_session.specs.States.{BuildValue};

    ghost Value = { BuildValue };

    ghost view = { λ b. record { images = b.images.items; leaves = b.placement; tables = b.tables.items } };
}

/// The full build of a design, and how many images `maker` compiled, each with one of these permits: those of the pairs of kind and
/// text that weren't compiled before. There are more operators than pages exactly where it says so.
pub fn build_design<M: Compile>(
    alloc: Global,
    maker: &M,
    permits: &mut Permits,
    compiler: &mut Compiler,
    draft: &Draft,
) -> Result<(Build, u64), Refused<TooFewPages>>
    requires ready { M.ready }
    requires an_operator { 1 ≤ length draft.now.sources }
    requires closed { open_port draft.now.design ≡ None }
    requires room { permits.old + length draft.now.sources < 2 ^ 64 }
    ensures { Builds result draft.now compiler.old compiler.new permits.old permits.new }
{
    operators_have_leaves();
    let graph = draft.graph();
    let sources = draft.sources();
    let _operators = graph.operators();
    let placement = place(alloc, graph)?;
    match make_build(alloc, maker, permits, compiler, graph, sources, placement) {
        Ok(made) => Ok(made),
        Err(NoMemory) => Err(Refused::NoMemory),
    }
}

// The full build of a design that is placed so.
fn make_build<M: Compile>(
    alloc: Global,
    maker: &M,
    permits: &mut Permits,
    compiler: &mut Compiler,
    graph: &Graph,
    sources: &[Source],
    placement: Placement,
) -> Result<(Build, u64), NoMemory>
    requires ready { M.ready }
    requires placed { IsPlacement graph.now placement }
    requires read { All IsRead sources.now }
    requires room { permits.old + length sources.now < 2 ^ 64 }
    ensures images { IfOk result (λ made. made.0.images ≡ map image_of sources.now) }
    ensures leaves { IfOk result (λ made. made.0.leaves ≡ placement) }
    ensures tables { IfOk result (λ made. made.0.tables ≡ rows graph.now placement) }
    ensures compiled { IfOk result (λ made. made.1 ≡ compiles compiler.old sources.now) }
    ensures pairs { OnOk result (compiler.new ≡ compiler.old ++ missed compiler.old (map pair_of sources.now)) }
    ensures ok { OnOk result (permits.new ≡ permits.old + compiles compiler.old sources.now) }
    ensures err { OnErr result ((permits.old ≤ permits.new) × (permits.new ≤ permits.old + compiles compiler.old sources.now)) }
{
    let tables = tables(alloc, graph, placement.leaf_of())?;
    let built = compiler.build(alloc, maker, permits, sources)?;
    let made = Build {
        images: built.images,
        placement,
        tables,
    };
    Ok((made, built.compiled))
}

/// Each operator of a design with its leaf and its kind, in the order of declaration.
pub fn placed_pages(
    alloc: Global,
    graph: &Graph,
    sources: &[Source],
    leaves: &[PageId],
) -> Result<Vec<PlacedPage>, NoMemory>
    requires sources { length sources.now ≡ length graph.now.operators }
    requires leaves { length leaves.now ≡ length graph.now.operators }
    ensures { IfOk result (λ pages. pages.items ≡ pages_from (numbers leaves.now) graph.now.operators sources.now) }
{
    let mut pages = Vec::new(alloc);
    for k in 0..graph.operators() {
        let (name, _, _) = graph.operator(k);
        pages.push(PlacedPage {
            leaf: leaves[k],
            name,
            kind: sources[k].kind,
        })?;
    }
    Ok(pages)
}
