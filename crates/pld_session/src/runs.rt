//! Runs of a design.

ghost use Rattle.std.specs.Prelude.{◌≡◌, ◌+◌, ◌<◌, ◌≤◌, ◌^◌, List, [], length, vec_len, vec_capacity, IfOk, OnOk, IfErr};
ghost use Rattle.std.specs.List.{All};
ghost use Rattle.pld_base.specs.Words.{IsWord};
ghost use Rattle.pld_base.specs.Process.{Process};
ghost use Rattle.pld_graph.specs.Design.{outputs as outputs_of};
ghost use Rattle.pld_draft.specs.Draft.{words_of};
ghost use Rattle.pld_link.specs.Seats.{operator_names as names_of};
ghost use Rattle.fabric_run.specs.Reply.{name_in};
ghost use Rattle.fabric_ends.specs.Planned.{IsDesign};
ghost use Rattle.fabric_plan.specs.Standing.{AreStanding};
ghost use Rattle.fabric_plan.specs.Runnable.{IsRunnable, KeepMeaning};
ghost use Rattle.pld_reply.specs.Sizes.{AreShort, run_room};
ghost use Rattle.pld_session.specs.States.{IsBuild, images as images_of};
ghost use Rattle.pld_session.specs.Runs.{feeds as feeds_of, meanings, given_in, holding, CanRun, IsMade};

use crate::build::Build;
use fabric_core::{Counts, Fabric, Feed, Record};
use fabric_plan::{leave_rows, plan};
use net_switch::Row;
use pld_base::{Name, NoMemory};
use pld_build::{images_are_forms, images_keep_the_meaning, sources_are_processes};
use pld_draft::Draft;
use pld_graph::Graph;
use pld_image::{Image, cores_are_processes};
use pld_io::Gate;
use pld_place::operators_have_leaves;
use pld_reply::{put_run, run_replies_are_short, runs_have_outs};
use pld_runner::Runner;
use std::alloc::Global;

/// The names of the operators, in the order of declaration.
fn operator_names(alloc: Global, graph: &Graph) -> Result<Vec<Name>, NoMemory>
    ensures { IfOk result (λ names. names.items ≡ names_of graph.now) }
{
    let mut names = Vec::new(alloc);
    for k in 0..graph.operators() {
        let (name, _, _) = graph.operator(k);
        names.push(name)?;
    }
    Ok(names)
}

/// The names of the outputs, in the order of declaration.
fn output_names(alloc: Global, graph: &Graph) -> Result<Vec<Name>, NoMemory>
    ensures { IfOk result (λ names. names.items ≡ outputs_of graph.now.channels) }
{
    let mut names = Vec::new(alloc);
    for k in 0..graph.outputs() {
        if let Some(name) = graph.output_at(k) {
            names.push(name)?;
        }
    }
    Ok(names)
}

/// Numbers of 32 bits are words.
fn are_words(words: &[u32])
    ensures { All IsWord words.now }
{
    let _ = words;
}

/// The words of an input.
fn feed_of(alloc: Global, draft: &Draft, name: &Name) -> Result<Feed, NoMemory>
    ensures value { IfOk result (λ feed. feed ≡ words_of name.now draft.now.feeds) }
    ensures words { IfOk result (λ feed. All IsWord feed) }
{
    let words = draft.words_of(name);
    are_words(words);
    Ok(Feed::of(Vec::from_slice(alloc, words)?))
}

/// The words of the inputs, in the order of declaration.
fn feeds(alloc: Global, draft: &Draft) -> Result<Vec<Feed>, NoMemory>
    ensures value { IfOk result (λ feeds. feeds.items ≡ feeds_of draft.now) }
    ensures words { IfOk result (λ feeds. All (All IsWord) feeds.items) }
{
    let graph = draft.graph();
    let mut feeds = Vec::new(alloc);
    for k in 0..graph.inputs() {
        if let Some(name) = graph.input_at(k) {
            feeds.push(feed_of(alloc, draft, &name)?)?;
        }
    }
    Ok(feeds)
}

/// Equal images.
fn copies(alloc: Global, images: &[Image]) -> Result<Vec<Image>, NoMemory>
    ensures { IfOk result (λ copies. copies.items ≡ images.now) }
{
    let mut copies = Vec::new(alloc);
    for image in images {
        copies.push(image.copy(alloc)?)?;
    }
    Ok(copies)
}

/// Equal rows.
fn copied_rows(alloc: Global, rows: &[Option<Row>]) -> Result<Vec<Option<Row>>, NoMemory>
    ensures { IfOk result (λ copied. copied.items ≡ rows.now) }
{
    Ok(Vec::from_slice(alloc, rows)?)
}

/// The slots of all 64 leaves.
const ALL_SLOTS: usize = 1024;

/// A design that was built can be run, and its images do what its operators mean.
fn built_designs_run(
    rounds: u64,
    draft: &Draft,
    build: &Build,
    standing: &[Option<Row>],
    feeds: &[Feed],
)
    requires some { 1 ≤ rounds }
    requires built { IsBuild draft.now build.now }
    requires standing { AreStanding draft.now.design.depth standing.now }
    requires feeds { feeds.now ≡ feeds_of draft.now }
    requires words { All (All IsWord) feeds.now }
    ensures runnable { IsRunnable draft.now.design (given_in (holding rounds draft.now standing.now)) }
    ensures means { KeepMeaning (images_of draft.now) (meanings draft.now) }
{
    images_keep_the_meaning();
    images_are_forms();
    cores_are_processes();
    operators_have_leaves();
    sources_are_processes(draft.sources());
    let graph = draft.graph();
    let _operators = graph.operators();
}

/// The run of a design as it was built, with the words of its inputs, where these rows stand at the leaves; it may make so many
/// rounds. It has not begun, and all memory of its own is taken.
pub fn prepare_run(
    alloc: Global,
    rounds: u64,
    draft: &Draft,
    build: &Build,
    standing: &[Option<Row>],
) -> Result<Fabric, NoMemory>
    requires some { 1 ≤ rounds }
    requires most { rounds ≤ 1000000 }
    requires built { IsBuild draft.now build.now }
    requires standing { AreStanding draft.now.design.depth standing.now }
    ensures { IfOk result (λ fabric. (fabric.journal ≡ []) × CanRun (holding rounds draft.now standing.now) fabric.plan) }
{
    let graph = draft.graph();
    let images = copies(alloc, &build.images)?;
    let before = copied_rows(alloc, standing)?;
    let tables = copied_rows(alloc, &build.tables)?;
    let feeds = feeds(alloc, draft)?;
    built_designs_run(rounds, draft, build, standing, &feeds);
    let leaves = build.placement.leaf_of();
    let plan = plan(alloc, graph, leaves, images, before, tables, feeds, rounds)?;
    Fabric::prepare(alloc, plan)
}

/// What the reply to a run tells by name: its operators and its outputs, in the order of declaration.
#[derive(Drop)]
pub struct Names {
    operators: Vec<Name>,
    outputs: Vec<Name>,
}

impl Names {
    /// Those of a design.
    pub fn new(alloc: Global, graph: &Graph) -> Result<Names, NoMemory>
        ensures operators { IfOk result (λ names. names.operators.items ≡ names_of graph.now) }
        ensures outputs { IfOk result (λ names. names.outputs.items ≡ outputs_of graph.now.channels) }
    {
        let operators = operator_names(alloc, graph)?;
        let outputs = output_names(alloc, graph)?;
        Ok(Names { operators, outputs })
    }
}

/// A name is at most 32 bytes long.
fn are_short(names: &[Name])
    ensures { AreShort (name_in names.now) }
{
    for name in names {
        let _most = name.len();
    }
}

/// Room for the reply to a run: how it ended, a line for each operator and one for each output, which has at most a word a round.
fn reply_room(fabric: &Fabric) -> usize
    ensures room { result ≡ run_room (length fabric.now.plan.pages) fabric.now.plan.outs fabric.now.plan.rounds }
    ensures rounds { fabric.now.plan.rounds < 2 ^ 64 }
{
    let plan = fabric.plan();
    27 + 47 * plan.pages() + (58 + 11 * plan.rounds() as usize) * plan.outs()
}

/// Takes all room that the end of a run needs: for its record, for its reply, and for the rows that it leaves.
fn take_room(
    alloc: Global,
    fabric: &Fabric,
    records: &mut Vec<Record>,
    reply: &mut Vec<u8>,
) -> Result<Vec<Option<Row>>, NoMemory>
    ensures rows { IfOk result (λ rows. length rows.items ≡ 1024) }
    ensures record { OnOk result (vec_len records.new < vec_capacity records.new) }
    ensures reply { OnOk result (vec_len reply.new + run_room (length fabric.now.plan.pages) fabric.now.plan.outs fabric.now.plan.rounds ≤ vec_capacity reply.new) }
    ensures same { (records.new.items ≡ records.old.items) × (reply.new.items ≡ reply.old.items) }
    ensures rounds { fabric.now.plan.rounds < 2 ^ 64 }
{
    let room = reply_room(fabric);
    records.reserve(1)?;
    reply.reserve(room)?;
    Ok(vec![in alloc; None; ALL_SLOTS]?)
}

/// Makes a run that has not begun, of a plan for some design. Its record is put behind the others, its reply is written, and the
/// rows come back that it leaves, with what it has counted. Memory is wanted only before its first entry: then the run comes back
/// as it was, and no record was put. A run that has begun is answered.
pub fn make_run<X: Runner>(
    alloc: Global,
    runner: &X,
    gate: &(dyn Gate + Sync),
    fabric: Fabric,
    names: &Names,
    records: &mut Vec<Record>,
    reply: &mut Vec<u8>,
) -> Result<(Vec<Option<Row>>, Counts), (Fabric, NoMemory)>
    requires ready { X.ready }
    requires new { fabric.journal ≡ [] }
    requires design { (operators : List Process) × IsDesign fabric.plan operators }
    requires operators { length names.now.operators.items ≡ length fabric.plan.pages }
    requires outputs { length names.now.outputs.items ≡ fabric.plan.outs }
    requires empty { reply.old.items ≡ [] }
    ensures made { IfOk result (λ end. IsMade X.order fabric.plan records.old.items records.new.items names.now.operators.items names.now.outputs.items reply.new.items end.0.items end.1) }
    ensures stand { IfOk result (λ end. AreStanding fabric.plan.depth end.0.items) }
    ensures err { IfErr result (λ e. (e.0 ≡ fabric) × (records.new.items ≡ records.old.items)) }
{
    runs_have_outs();
    run_replies_are_short();
    let operators = &names.operators;
    let outputs = &names.outputs;
    are_short(operators);
    are_short(outputs);
    let mut left = match take_room(alloc, &fabric, records, reply) {
        Ok(left) => left,
        Err(NoMemory) => return Err((fabric, NoMemory)),
    };
    let fabric = runner.run(alloc, fabric, gate)?;
    fabric.is_legal();
    put_run(reply, operators, outputs, &fabric).unwrap();
    leave_rows(&fabric, &mut left);
    let counts = fabric.counts();
    records.push(fabric.finish()).unwrap();
    Ok((left, counts))
}
