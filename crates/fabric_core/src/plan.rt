//! What a run is given.

ghost use Rattle.std.specs.Prelude.{◌≡◌, ℕ, ◌+◌, ◌*◌, ◌<◌, ◌≤◌, ◌^◌, List, length, OnSome};
ghost use Rattle.std.specs.List.{slice_get};
ghost use Rattle.fabric_run.specs.Plan.{PlanValue, PagePlan, IsSound, feed_of, size_of};
ghost use Rattle.fabric_core.specs.Plans.{leaf_at};

use crate::words::Feed;
use net_switch::{Pattern, Row};
use pld_image::Image;
use std::marker::Model;

/// A page of a plan: the leaf on which it stands, and what it runs.
#[derive(Drop)]
pub struct PlanPage {
    leaf: u8,
    image: Image,
}

impl Model for PlanPage {
    ghost use Rattle.fabric_run.specs.Plan.{PagePlan};

    ghost Value = { PagePlan };

    ghost view = { λ a. record { leaf = a.leaf; image = a.image } };
}

impl PlanPage {
    /// A page that runs this image on this leaf.
    pub fn new(leaf: u8, image: Image) -> PlanPage
        ensures { result ≡ record { leaf = leaf; image = image } }
    {
        PlanPage { leaf, image }
    }

    fn leaf(&self) -> u8
        ensures { result ≡ self.now.leaf }
    {
        self.leaf
    }

    fn image(&self) -> &Image
        ensures { result.now ≡ self.now.image }
    {
        &self.image
    }
}

/// What a run is given. Each plan is sound.
#[derive(Drop)]
pub struct Plan {
    depth: u8,
    pattern: Pattern,
    window: u8,
    pages: Vec<PlanPage>,
    before: Vec<Option<Row>>,
    tables: Vec<Option<Row>>,
    feeds: Vec<Feed>,
    outs: u8,
    rounds: u64,
}

impl Model for Plan {
    ghost use Rattle.fabric_run.specs.Plan.{PlanValue, IsSound};

    ghost Value = { PlanValue };

    ghost view = { λ a. record { depth = a.depth; pattern = a.pattern; window = a.window; pages = a.pages.items; before = a.before.items; tables = a.tables.items; feeds = a.feeds.items; outs = a.outs; rounds = a.rounds } };

    ghost invariant = { λ a. IsSound (record { depth = a.depth; pattern = a.pattern; window = a.window; pages = a.pages.items; before = a.before.items; tables = a.tables.items; feeds = a.feeds.items; outs = a.outs; rounds = a.rounds }) };
}

impl Plan {
    /// The plan of a run over a tree with 2^depth leaves and links by this pattern, for channels with this window. Leaf 0
    /// is the host's. Slot s of leaf l is row 16 l + s: `before` has the rows that stand at the leaves, `tables` those that are to stand.
    /// `feeds` are the words of each input, `outs` the count of outputs, and `rounds` the allowed rounds.
    pub fn new(
        depth: u8,
        pattern: Pattern,
        window: u8,
        pages: Vec<PlanPage>,
        before: Vec<Option<Row>>,
        tables: Vec<Option<Row>>,
        feeds: Vec<Feed>,
        outs: u8,
        rounds: u64,
    ) -> Plan
        requires { IsSound (record { depth = depth; pattern = pattern; window = window; pages = pages.items; before = before.items; tables = tables.items; feeds = feeds.items; outs = outs; rounds = rounds }) }
        ensures { result ≡ record { depth = depth; pattern = pattern; window = window; pages = pages.items; before = before.items; tables = tables.items; feeds = feeds.items; outs = outs; rounds = rounds } }
    {
        Plan {
            depth,
            pattern,
            window,
            pages,
            before,
            tables,
            feeds,
            outs,
            rounds,
        }
    }

    /// What every plan keeps.
    pub fn is_sound(&self)
        ensures { IsSound self.now }
    {
        let _depth = &self.depth;
    }

    pub(crate) fn depth(&self) -> u8
        ensures { result ≡ self.now.depth }
    {
        self.depth
    }

    pub(crate) fn pattern(&self) -> Pattern
        ensures { result ≡ self.now.pattern }
    {
        self.pattern
    }

    pub(crate) fn window(&self) -> u8
        ensures { result ≡ self.now.window }
    {
        self.window
    }

    pub(crate) fn before(&self) -> &[Option<Row>]
        ensures { result.now ≡ self.now.before }
    {
        self.before.as_slice()
    }

    pub(crate) fn tables(&self) -> &[Option<Row>]
        ensures { result.now ≡ self.now.tables }
    {
        self.tables.as_slice()
    }

    /// How many leaves its tree has.
    pub fn leaves(&self) -> usize
        ensures value { result ≡ size_of self.now }
        ensures most { result ≤ 64 }
    {
        1usize << self.depth
    }

    /// How many pages it has.
    pub fn pages(&self) -> usize
        ensures value { result ≡ length self.now.pages }
        ensures most { result ≤ 63 }
    {
        self.pages.len()
    }

    /// The leaf of the k-th page.
    pub fn leaf(&self, k: usize) -> u8
        requires { k < length self.now.pages }
        ensures { result ≡ leaf_at self.now.pages k }
    {
        let page = &self.pages[k];
        page.leaf()
    }

    pub(crate) fn image(&self, k: usize) -> &Image
        requires { k < length self.now.pages }
        ensures { slice_get self.now.pages k ≡ Some (record { leaf = leaf_at self.now.pages k; image = result.now }) }
    {
        let page = &self.pages[k];
        page.image()
    }

    /// How many inputs it has.
    pub fn feeds(&self) -> usize
        ensures value { result ≡ length self.now.feeds }
        ensures most { result ≤ 8 }
    {
        self.feeds.len()
    }

    /// How many outputs it has.
    pub fn outs(&self) -> usize
        ensures value { result ≡ self.now.outs }
        ensures most { result ≤ 8 }
    {
        self.outs as usize
    }

    /// The allowed rounds.
    pub fn rounds(&self) -> u64
        ensures value { result ≡ self.now.rounds }
        ensures most { result ≤ 40000000 }
    {
        self.rounds
    }

    pub(crate) fn word(&self, k: usize, at: usize) -> Option<u32>
        requires { k < length self.now.feeds }
        ensures word { result ≡ slice_get (feed_of self.now k) at }
        ensures more { OnSome result (at + 1 < 2 ^ 64) }
    {
        let feed = &self.feeds[k];
        feed.word(at)
    }
}
