//! A draft and its edits.

ghost use Rattle.std.specs.Prelude.{◌≡◌, ◌≤◌};
ghost use Rattle.pld_draft.specs.Draft.{at_first, words_of as words_of_input, IsKept};
ghost use Rattle.pld_draft.specs.Edits.{op as op_edit, replace as replace_edit, remove_operator, connect as connect_edit, disconnect as disconnect_edit, input as input_edit, output as output_edit, pin as pin_edit, unpin as unpin_edit, pages as pages_edit, levels as levels_edit, window as window_edit, feed as feed_edit, clear as clear_edit, edited, Tries};

use crate::feeds::{append, drop_lost, empty, words_in};
use crate::parts::{EditFault, EditRefusal, Feed, Source};
use pld_base::{End, Kind, Name};
use pld_graph::{Cut, Graph, GraphFault};
use pld_script::{Depth, Edit, Levels, Text, Window, WordList};
use pld_source::read_operator;
use std::alloc::Global;
use std::marker::Model;

/// The most words that an input may have.
const FEED_WORDS: usize = 65536;

/// A design as it is edited: its operators, each with its kind and text, its channels, and the words of its inputs.
///
/// An edit is refused with the first of its faults that applies, in the order in which its text names them, and then changes
/// nothing; nor does one for which memory is wanting.
///
/// In every draft each operator of the design has its source, which is read from its text and has its ports; each input of the
/// design has its feed, in the order of the inputs; and no feed has more than 65,536 words. `sources` tells it.
#[derive(Drop)]
pub struct Draft {
    graph: Graph,
    sources: Vec<Source>,
    feeds: Vec<Feed>,
}

impl Model for Draft {
    ghost use Rattle.pld_draft.specs.Draft.{DraftState, IsKept};

    ghost Value = { DraftState };

    ghost use Rattle.pld_ast.specs.contracts.tree.Stmt as stmt;
    ghost use Rattle.pld_ast.specs.contracts.tree.Expr as expr;
    ghost use Rattle.std.specs.Coded.{codes};

    ghost coded = { Prim.hlevel (codes, stmt.the_row.coded, expr.the_row.coded) };

    ghost view = { λ d. record { design = d.graph; sources = d.sources.items; feeds = d.feeds.items } };

    ghost invariant = { λ d. IsKept (record { design = d.graph; sources = d.sources.items; feeds = d.feeds.items }) };
}

impl Draft {
    /// A draft without operators, for a tree of this depth, from 1 to 6.
    pub fn new(alloc: Global, depth: u8) -> Draft
        requires least { 1 ≤ depth }
        requires most { depth ≤ 6 }
        ensures { result ≡ at_first depth }
    {
        Draft {
            graph: Graph::new(alloc, depth),
            sources: Vec::new(alloc),
            feeds: Vec::new(alloc),
        }
    }

    /// The design: its operators' names and ports, its channels, pins and depth.
    pub fn graph(&self) -> &Graph
        ensures { result.now ≡ self.now.design }
    {
        &self.graph
    }

    /// The sources of the operators, in the order of declaration: one for each operator of the design.
    pub fn sources(&self) -> &[Source]
        ensures value { result.now ≡ self.now.sources }
        ensures kept { IsKept self.now }
    {
        self.sources.as_slice()
    }

    /// The words of an input; none where no input has this name.
    pub fn words_of(&self, name: &Name) -> &[u32]
        ensures { result.now ≡ words_of_input name.now self.now.feeds }
    {
        words_in(self.feeds.as_slice(), name)
    }

    /// Makes an edit. Each of them:
    ///
    /// - `Op` adds an operator of this kind with this text, last in the order of declaration: `NameTaken` and `TooMany` as in
    ///   `Graph::add`; then `Source`, where the text has a fault.
    /// - `Replace` gives an operator a new kind and text; its place, its pin and its channels stay: `UnknownOperator` where no
    ///   operator has this name; `Source` where the text has a fault; `UnknownPort` where a channel stands at a port that the new
    ///   text lacks.
    /// - `Remove`, `Connect`, `Disconnect`, `Output`, `Pin`, `Unpin`, `Pages` and `Levels` are as in `Graph`. An input's words go
    ///   with it.
    /// - `Window` sets how many words each channel holds; it is never refused.
    /// - `Input` adds an input without words, as `Graph::input`.
    /// - `Feed` appends words to those of an input: `NotLinked` where no input has this name; `TooManyWords` where it would have
    ///   more than 65,536.
    /// - `Clear` takes an input's words away: `NotLinked` where no input has this name.
    pub fn edit(&mut self, alloc: Global, edit: Edit) -> Result<(), EditFault>
        ensures { Tries result (edited edit self.old) self.old self.new }
    {
        match edit {
            Edit::Op(name, kind, text) => self.op(alloc, name, kind, text),
            Edit::Replace(name, kind, text) => self.replace(alloc, name, kind, text),
            Edit::Remove(name) => self.remove(name),
            Edit::Connect(from, to) => self.connect(from, to),
            Edit::Disconnect(what) => self.disconnect(what),
            Edit::Input(name, to) => self.input(alloc, name, to),
            Edit::Output(from, name) => self.output(from, name),
            Edit::Pin(name, leaf) => self.pin(name, leaf),
            Edit::Unpin(name) => self.unpin(name),
            Edit::Pages(depth) => self.pages(depth),
            Edit::Levels(levels) => self.levels(&levels),
            Edit::Window(window) => self.window(window),
            Edit::Feed(name, words) => self.feed(name, &words),
            Edit::Clear(name) => self.clear(name),
        }
    }

    fn op(&mut self, alloc: Global, name: Name, kind: Kind, text: Text) -> Result<(), EditFault>
        ensures { Tries result (op_edit name kind text self.old) self.old self.new }
    {
        self.graph.may_add(&name)?;
        let operator = read_operator(alloc, text.as_slice())?;
        self.sources.reserve(1)?;
        self.graph.add(name, operator.ins(), operator.outs())?;
        let source = Source {
            kind,
            text,
            operator,
        };
        self.sources.push(source).unwrap();
        Ok(())
    }

    fn replace(
        &mut self,
        alloc: Global,
        name: Name,
        kind: Kind,
        text: Text,
    ) -> Result<(), EditFault>
        ensures { Tries result (replace_edit name kind text self.old) self.old self.new }
    {
        let Some(k) = self.graph.place_of(&name) else {
            return Err(EditFault::from(GraphFault::UnknownOperator));
        };
        let operator = read_operator(alloc, text.as_slice())?;
        self.graph.replace(name, operator.ins(), operator.outs())?;
        self.sources[k] = Source {
            kind,
            text,
            operator,
        };
        Ok(())
    }

    fn remove(&mut self, name: Name) -> Result<(), EditFault>
        ensures { Tries result (remove_operator name self.old) self.old self.new }
    {
        let Some(k) = self.graph.place_of(&name) else {
            return Err(EditFault::from(GraphFault::UnknownOperator));
        };
        // Asked since it tells that the design is sound: no two inputs have one name.
        let _channels = self.graph.channels();
        self.graph.remove(name)?;
        self.sources.remove(k);
        drop_lost(&mut self.feeds, &self.graph);
        Ok(())
    }

    fn connect(&mut self, from: End, to: End) -> Result<(), EditFault>
        ensures { Tries result (connect_edit from to self.old) self.old self.new }
    {
        self.graph.connect(from, to)?;
        Ok(())
    }

    fn disconnect(&mut self, what: Cut) -> Result<(), EditFault>
        ensures { Tries result (disconnect_edit what self.old) self.old self.new }
    {
        // Asked since it tells that the design is sound: no two inputs have one name.
        let _channels = self.graph.channels();
        self.graph.disconnect(what)?;
        drop_lost(&mut self.feeds, &self.graph);
        Ok(())
    }

    fn input(&mut self, alloc: Global, name: Name, to: End) -> Result<(), EditFault>
        ensures { Tries result (input_edit name to self.old) self.old self.new }
    {
        self.feeds.reserve(1)?;
        self.graph.input(name, to)?;
        let feed = Feed {
            name,
            words: WordList::of(Vec::new(alloc)),
        };
        self.feeds.push(feed).unwrap();
        Ok(())
    }

    fn output(&mut self, from: End, name: Name) -> Result<(), EditFault>
        ensures { Tries result (output_edit from name self.old) self.old self.new }
    {
        self.graph.output(from, name)?;
        Ok(())
    }

    fn pin(&mut self, name: Name, leaf: u16) -> Result<(), EditFault>
        ensures { Tries result (pin_edit name leaf self.old) self.old self.new }
    {
        self.graph.pin(name, leaf)?;
        Ok(())
    }

    fn unpin(&mut self, name: Name) -> Result<(), EditFault>
        ensures { Tries result (unpin_edit name self.old) self.old self.new }
    {
        self.graph.unpin(name)?;
        Ok(())
    }

    fn pages(&mut self, depth: Depth) -> Result<(), EditFault>
        ensures { Tries result (pages_edit depth self.old) self.old self.new }
    {
        self.graph.set_pages(depth.levels())?;
        Ok(())
    }

    fn levels(&mut self, levels: &Levels) -> Result<(), EditFault>
        ensures { Tries result (levels_edit levels.now self.old) self.old self.new }
    {
        self.graph.set_levels(levels.as_slice())?;
        Ok(())
    }

    fn window(&mut self, window: Window) -> Result<(), EditFault>
        ensures { Tries result (window_edit window self.old) self.old self.new }
    {
        self.graph.set_window(window.words());
        Ok(())
    }

    fn feed(&mut self, name: Name, words: &WordList) -> Result<(), EditFault>
        ensures { Tries result (feed_edit name words.now self.old) self.old self.new }
    {
        if !self.graph.is_input(&name) {
            return Err(EditFault::from(GraphFault::NotLinked));
        }
        let has = words_in(self.feeds.as_slice(), &name).len();
        if words.len() > FEED_WORDS || has > FEED_WORDS - words.len() {
            return Err(EditFault::from(EditRefusal::TooManyWords));
        }
        append(&mut self.feeds, &name, words)?;
        Ok(())
    }

    fn clear(&mut self, name: Name) -> Result<(), EditFault>
        ensures { Tries result (clear_edit name self.old) self.old self.new }
    {
        if !self.graph.is_input(&name) {
            return Err(EditFault::from(GraphFault::NotLinked));
        }
        empty(&mut self.feeds, &name);
        Ok(())
    }
}
