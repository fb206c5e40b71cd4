//! What a session holds, and its answers to statements.

ghost use Rattle.std.specs.Prelude.{◌≡◌, ◌≤◌, ◌^◌, ◌+◌, ◌<◌, [], Some, None, IfOk, OnErr};
ghost use Rattle.pld_session.specs.States.{at_first};
ghost use Rattle.pld_session.specs.Answers.{answer_to, edits, dumps, dumps_tables, stats as told_counts};
ghost use Rattle.pld_session.specs.Runs.{FitsRun};
ghost use Rattle.pld_reply.specs.declared.refusals.Refusal.TheVariants as refusal;
ghost use Rattle.pld_session.specs.Steps.{Makes, Tells};
ghost use Rattle.pld_driver.specs.Moments.{Took, Broke};

use crate::build::{Build, build_design, placed_pages};
use crate::edits::{answer_edit, refuse};
use crate::runs::{Names, make_run, prepare_run};
use fabric_core::{Counts, Record};
use fabric_plan::plans_are_designs;
use net_switch::Row;
use par_build::Compile;
use pld_base::{Name, NoMemory, Refused};
use pld_build::{Compiler, pairs_are_few};
use pld_draft::{Draft, EditFault};
use pld_driver::Bench;
use pld_graph::GraphFault;
use pld_image::image_bytes;
use pld_io::Gate;
use pld_link::rows_stand_in_order;
use pld_place::{TooFewPages, operators_have_leaves};
use pld_reply::{Refusal, put_built, put_image, put_stats, put_tables};
use pld_runner::Runner;
use pld_script::{Edit, Statement};
use std::alloc::Global;
use std::marker::Model;

/// The depth of a session's tree, until `pages` names another.
const DEPTH: u8 = 4;

/// The most runs of a session.
const RUNS: u64 = 64;

/// A session: its design as it stands, the images compiled so far, its last build, the rows that stand at the leaves, how many
/// runs it has made, and what the last one counted.
#[derive(Drop)]
pub struct Session {
    rounds: u64,
    draft: Draft,
    compiler: Compiler,
    /// None where no build succeeded since the last edit.
    build: Option<Build>,
    /// The rows that the last run left; none before the first run, and where the tree has another depth since.
    standing: Vec<Option<Row>>,
    runs: u64,
    counted: Option<Counts>,
}

impl Model for Session {
    ghost use Rattle.std.specs.Prelude.{◌≤◌, IfSome, is_some};
    ghost use Rattle.pld_session.specs.States.{State, IsBuild};
    ghost use Rattle.fabric_plan.specs.Standing.{AreStanding};

    ghost Value = { State };

    ghost use Rattle.pld_ast.specs.contracts.tree.Stmt as stmt;
    ghost use Rattle.pld_ast.specs.contracts.tree.Expr as expr;
    ghost use Rattle.std.specs.Coded.{codes};

    ghost coded = { Prim.hlevel (codes, stmt.the_row.coded, expr.the_row.coded) };

    ghost view = { λ s. record { rounds = s.rounds; draft = s.draft; compiled = s.compiler; built = is_some s.build; standing = s.standing.items; runs = s.runs; counted = s.counted } };

    ghost invariant = { λ s. (1 ≤ s.rounds) × (s.rounds ≤ 1000000) × (s.runs ≤ 64) × IfSome s.build (λ build. IsBuild s.draft build) × AreStanding s.draft.design.depth s.standing.items };
}

impl Session {
    /// No statement was accepted yet. Runs may make so many rounds, from 1 to 1,000,000.
    pub fn new(alloc: Global, rounds: u64) -> Session
        requires some { 1 ≤ rounds }
        requires most { rounds ≤ 1000000 }
        ensures { result ≡ at_first rounds }
    {
        Session {
            rounds,
            draft: Draft::new(alloc, DEPTH),
            compiler: Compiler::new(alloc),
            build: None,
            standing: Vec::new(alloc),
            runs: 0,
            counted: None,
        }
    }

    /// Makes an edit. Behind one of the design there is no build, and no rows stand in a tree of another depth.
    #[tactic(auto, using(crate::proofs::Told::build_stays))]
    fn make(&mut self, alloc: Global, edit: Edit) -> Result<(), EditFault>
        ensures { Makes result edit self.old self.new }
    {
        let of_words = edit.is_of_words();
        let depth = self.draft.graph().depth();
        self.draft.edit(alloc, edit)?;
        if self.draft.graph().depth() != depth {
            self.standing.clear();
        }
        if !of_words {
            self.build = None;
        }
        Ok(())
    }

    fn edit(
        &mut self,
        alloc: Global,
        number: u64,
        edit: Edit,
        reply: &mut Vec<u8>,
    ) -> Result<bool, NoMemory>
        requires { reply.old.items ≡ [] }
        ensures { IfOk result (λ refused. Tells (edits self.old number edit) reply.new.items refused self.new) }
    {
        let done = self.make(alloc, edit);
        answer_edit(number, done, reply)
    }

    /// Builds the design: compiles each pair of kind and text that no build of the session has compiled yet, once.
    fn build<X: Compile + Runner>(
        &mut self,
        alloc: Global,
        maker: &X,
        number: u64,
        bench: &mut Bench<Record>,
        reply: &mut Vec<u8>,
    ) -> Result<bool, NoMemory>
        requires ready { X.Compile.ready }
        requires empty { reply.old.items ≡ [] }
        requires room { bench.old.permits + 64 < 2 ^ 64 }
        ensures ok { IfOk result (λ refused. Took (answer_to self.old number (Some Statement.Build)) (FitsRun X.order self.old) bench.old bench.new reply.new.items refused self.new) }
        ensures err { OnErr result (Broke (answer_to self.old number (Some Statement.Build)) bench.old bench.new) }
        ensures few { bench.new.permits ≤ bench.old.permits + 64 }
    {
        pairs_are_few();
        let graph = self.draft.graph();
        let sources = self.draft.sources();
        if sources.is_empty() {
            return refuse(number, Refusal::Empty, reply);
        }
        if let Err(open) = graph.closed() {
            return refuse(number, Refusal::OpenPort(open), reply);
        }
        let _operators = graph.operators();
        match build_design(
            alloc,
            maker,
            &mut bench.permits,
            &mut self.compiler,
            &self.draft,
        ) {
            Err(Refused::NoMemory) => Err(NoMemory),
            Err(Refused::Fault(few)) => refuse(number, too_few(few), reply),
            Ok((build, compiled)) => {
                put_built(reply, sources.len() as u64, compiled)?;
                self.build = Some(build);
                Ok(false)
            }
        }
    }

    /// Tells the bytes of an operator's image.
    fn dump_image(
        &self,
        alloc: Global,
        number: u64,
        name: Name,
        reply: &mut Vec<u8>,
    ) -> Result<bool, NoMemory>
        requires { reply.old.items ≡ [] }
        ensures { IfOk result (λ refused. Tells (dumps self.now number name) reply.new.items refused self.now) }
    {
        let Some(build) = &self.build else {
            return refuse(number, Refusal::NotBuilt, reply);
        };
        let _sources = self.draft.sources();
        let Some(k) = self.draft.graph().place_of(&name) else {
            return refuse(number, Refusal::Graph(GraphFault::UnknownOperator), reply);
        };
        let bytes = image_bytes(alloc, &build.images[k])?;
        put_image(reply, &name, bytes.as_slice())?;
        Ok(false)
    }

    /// Tells the pages on which the operators stand, and the rows of all leaves.
    fn dump_tables(&self, alloc: Global, number: u64, reply: &mut Vec<u8>) -> Result<bool, NoMemory>
        requires { reply.old.items ≡ [] }
        ensures { IfOk result (λ refused. Tells (dumps_tables self.now number) reply.new.items refused self.now) }
    {
        let Some(build) = &self.build else {
            return refuse(number, Refusal::NotBuilt, reply);
        };
        rows_stand_in_order();
        operators_have_leaves();
        let graph = self.draft.graph();
        let _operators = graph.operators();
        let leaves = build.placement.leaf_of();
        let pages = placed_pages(alloc, graph, self.draft.sources(), leaves)?;
        put_tables(reply, &pages, &build.tables)?;
        Ok(false)
    }

    /// Tells what the last run counted.
    fn stats(&self, number: u64, reply: &mut Vec<u8>) -> Result<bool, NoMemory>
        requires { reply.old.items ≡ [] }
        ensures { IfOk result (λ refused. Tells (told_counts self.now number) reply.new.items refused self.now) }
    {
        let Some(counts) = self.counted else {
            return refuse(number, Refusal::NotRun, reply);
        };
        put_stats(reply, counts)?;
        Ok(false)
    }

    /// Runs the design as it was built, with the words of its inputs as they stand. All memory is taken before the run's first entry.
    fn run<X: Runner>(
        &mut self,
        alloc: Global,
        runner: &X,
        gate: &(dyn Gate + Sync),
        number: u64,
        bench: &mut Bench<Record>,
        reply: &mut Vec<u8>,
    ) -> Result<bool, NoMemory>
        requires ready { X.ready }
        requires empty { reply.old.items ≡ [] }
        ensures ok { IfOk result (λ refused. Took (answer_to self.old number (Some Statement.Run)) (FitsRun X.order self.old) bench.old bench.new reply.new.items refused self.new) }
        ensures err { OnErr result (Broke (answer_to self.old number (Some Statement.Run)) bench.old bench.new) }
        ensures few { bench.new.permits ≤ bench.old.permits + 64 }
    {
        let Some(build) = &self.build else {
            return refuse(number, Refusal::NotBuilt, reply);
        };
        if self.runs >= RUNS {
            return refuse(number, Refusal::TooManyRuns, reply);
        }
        let _sources = self.draft.sources();
        let graph = self.draft.graph();
        let _operators = graph.operators();
        plans_are_designs();
        let names = Names::new(alloc, graph)?;
        let fabric = prepare_run(alloc, self.rounds, &self.draft, build, &self.standing)?;
        let records = &mut bench.records;
        let (left, counts) = match make_run(alloc, runner, gate, fabric, &names, records, reply) {
            Ok(end) => end,
            Err((_, NoMemory)) => return Err(NoMemory),
        };
        self.standing = left;
        self.counted = Some(counts);
        self.runs += 1;
        Ok(false)
    }

    /// Answers a statement. `quit` has no reply; the driver ends the session there.
    pub fn answer_statement<X: Compile + Runner>(
        &mut self,
        alloc: Global,
        maker: &X,
        gate: &(dyn Gate + Sync),
        number: u64,
        statement: Statement,
        bench: &mut Bench<Record>,
        reply: &mut Vec<u8>,
    ) -> Result<bool, NoMemory>
        requires images { X.Compile.ready }
        requires runs { X.Runner.ready }
        requires empty { reply.old.items ≡ [] }
        requires room { bench.old.permits + 64 < 2 ^ 64 }
        ensures ok { IfOk result (λ refused. Took (answer_to self.old number (Some statement)) (FitsRun X.order self.old) bench.old bench.new reply.new.items refused self.new) }
        ensures err { OnErr result (Broke (answer_to self.old number (Some statement)) bench.old bench.new) }
        ensures few { bench.new.permits ≤ bench.old.permits + 64 }
    {
        match statement {
            Statement::Edit(edit) => self.edit(alloc, number, edit, reply),
            Statement::Build => self.build(alloc, maker, number, bench, reply),
            Statement::Run => self.run(alloc, maker, gate, number, bench, reply),
            Statement::DumpImage(name) => self.dump_image(alloc, number, name, reply),
            Statement::DumpTables => self.dump_tables(alloc, number, reply),
            Statement::Stats => self.stats(number, reply),
            Statement::Quit => Ok(false),
        }
    }
}

// That there are more operators than pages.
fn too_few(few: TooFewPages) -> Refusal
    ensures { result ≡ refusal.TooFewPages few.operators few.pages }
{
    Refusal::TooFewPages {
        operators: u64::from(few.operators),
        pages: u64::from(few.pages),
    }
}
