//! Operators by name and in the order of their declaration.

ghost use Rattle.std.specs.Prelude.{◌≡◌, ◌==◌, ℕ, ◌^◌, ◌≤◌, if◌then◌else◌, not, nat_lt, ◌++◌, ◌∷◌, [], ◌<◌, Some, None, IfSome, MatchResult, length, remove, slice_set};
ghost use Rattle.std.specs.Int.{bit_at};
ghost use Rattle.std.specs.List.{count_by, find, list_any};
ghost use Rattle.pld_graph.specs.Parts.{passes};
ghost use Rattle.pld_graph.specs.Edits.{is_outside as is_outside_of};
ghost use Rattle.pld_graph.specs.Sound.{is_pinned as is_pinned_to};
ghost use Rattle.pld_graph.specs.Design.{place_from, is_called, operator_at};
ghost use Rattle.pld_graph.specs.Entries.{entry_of};

use crate::{OperatorEntry, looks};
use indexmap::IndexMap;
use pld_base::{Name, NoMemory};
use std::alloc::Global;
use std::marker::Model;

/// What stands under an operator's name.
#[derive(Clone, Copy, Debug, PartialEq, Eq, Drop)]
pub struct Counts {
    pub ins: u8,
    pub outs: u8,
    pub pin: Option<u8>,
}

/// A list of operators in the order of their declaration, in which a name is found by its hash. Contracts see the list.
#[derive(Drop)]
pub struct Operators {
    by_name: IndexMap<Name, Counts>,
    /// A bit for each leaf to which an operator is pinned.
    pinned: u64,
}

impl Model for Operators {
    ghost use Rattle.std.specs.Prelude.{List};
    ghost use Rattle.pld_graph.specs.declared.parts.OperatorEntry.{OperatorEntry};
    ghost use Rattle.pld_graph.specs.Entries.{listed};
    ghost use Rattle.pld_graph.specs.Masks.{IsMask};

    ghost Value = { List OperatorEntry };

    ghost view = { λ os. listed os.by_name.entries };

    ghost invariant = { λ os. IsMask (listed os.by_name.entries) os.pinned };
}

// The operator of this name with these counts.
fn entry(name: &Name, counts: &Counts) -> OperatorEntry
    ensures { result ≡ entry_of (name.now, counts.now) }
{
    OperatorEntry {
        name: *name,
        ins: counts.ins,
        outs: counts.outs,
        pin: counts.pin,
    }
}

// Whether the leaf is among these.
fn has_leaf(pinned: u64, leaf: u8) -> bool
    requires { leaf < 64 }
    ensures { result ≡ (bit_at pinned leaf == 1) }
{
    (pinned >> leaf) & 1 == 1
}

// Whether a leaf from n on is among these.
fn has_from(pinned: u64, n: u16) -> bool
    requires { n ≤ 64 }
    ensures { result ≡ not (nat_lt pinned (2 ^ n)) }
{
    n < 64 && pinned >= 1 << n
}

// These leaves and one more.
fn with_leaf(pinned: u64, leaf: u8) -> u64
    requires { leaf < 64 }
    ensures bits { (l : ℕ) → bit_at result l ≡ (if leaf == l then 1 else bit_at pinned l) }
    ensures small { result < 2 ^ 64 }
{
    pinned | (1 << leaf)
}

// These leaves without one.
fn without_leaf(pinned: u64, leaf: u8) -> u64
    requires { leaf < 64 }
    ensures bits { (l : ℕ) → bit_at result l ≡ (if leaf == l then 0 else bit_at pinned l) }
    ensures small { result < 2 ^ 64 }
{
    pinned & !(1 << leaf)
}

// These leaves without that of a pin.
fn without_pin(pinned: u64, pin: Option<u8>) -> u64
    requires { IfSome pin (λ leaf. leaf < 64) }
    ensures bits { (l : ℕ) → bit_at result l ≡ (if passes (λ leaf. leaf == l) pin then 0 else bit_at pinned l) }
    ensures small { result < 2 ^ 64 }
{
    match pin {
        Some(leaf) => without_leaf(pinned, leaf),
        None => pinned,
    }
}

impl Operators {
    pub fn new(alloc: Global) -> Operators
        ensures { result ≡ [] }
    {
        Operators {
            by_name: IndexMap::new(alloc),
            pinned: 0,
        }
    }

    /// How many operators there are.
    pub fn len(&self) -> usize
        ensures { result ≡ length self.now }
    {
        self.by_name.len()
    }

    /// The place of the operator of this name.
    pub fn place_of(&self, name: &Name) -> Option<usize>
        ensures place { result ≡ place_from 0 name.now self.now }
        ensures within { IfSome result (λ k. k < length self.now) }
    {
        self.by_name.get_index_of(name)
    }

    /// The operator at a place.
    pub fn at(&self, k: usize) -> OperatorEntry
        requires { k < length self.now }
        ensures { result ≡ operator_at self.now k }
    {
        let (name, counts) = self.by_name.get_index(k).unwrap();
        entry(name, counts)
    }

    /// The operator of this name.
    pub fn called(&self, name: &Name) -> Option<OperatorEntry>
        ensures { result ≡ find (is_called name.now) self.now }
    {
        match self.by_name.get(name) {
            Some(counts) => Some(entry(name, counts)),
            None => None,
        }
    }

    /// Whether an operator is pinned to the leaf.
    pub fn is_pinned(&self, leaf: u8) -> bool
        requires { leaf < 64 }
        ensures { result ≡ list_any (is_pinned_to leaf) self.now }
    {
        has_leaf(self.pinned, leaf)
    }

    /// Whether an operator is pinned to a leaf that a tree of this depth lacks.
    pub fn some_outside(&self, depth: u8) -> bool
        requires { depth ≤ 6 }
        ensures { result ≡ list_any (is_outside_of depth) self.now }
    {
        has_from(self.pinned, looks::leaves(depth))
    }

    /// An operator without a pin, last in the order of declaration.
    pub fn push(&mut self, name: Name, ins: u8, outs: u8) -> Result<(), NoMemory>
        requires new { place_from 0 name self.old ≡ None }
        ensures { MatchResult result (λ _done. self.new ≡ self.old ++ (record { name = name; ins = ins; outs = outs; pin = None }) ∷ []) (λ _e. self.new ≡ self.old) }
    {
        self.by_name.insert(
            name,
            Counts {
                ins,
                outs,
                pin: None,
            },
        )?;
        Ok(())
    }

    /// New counts of ports of the operator at a place.
    pub fn set_counts(&mut self, k: usize, ins: u8, outs: u8)
        requires { k < length self.old }
        ensures { self.new ≡ slice_set self.old k (record (operator_at self.old k) { ins = ins; outs = outs }) }
    {
        let pin = self.by_name[k].pin;
        self.by_name[k] = Counts { ins, outs, pin };
    }

    /// A pin of the operator at a place, to a leaf to which no other one is pinned.
    pub fn pin(&mut self, k: usize, leaf: u8)
        requires within { k < length self.old }
        requires below { leaf < 64 }
        requires free { count_by (is_pinned_to leaf) (remove self.old k) ≡ 0 }
        ensures { self.new ≡ slice_set self.old k (record (operator_at self.old k) { pin = Some leaf }) }
    {
        let pinned = without_pin(self.pinned, self.by_name[k].pin);
        self.pinned = with_leaf(pinned, leaf);
        self.by_name[k].pin = Some(leaf);
    }

    /// No pin of the operator at a place.
    pub fn unpin(&mut self, k: usize)
        requires { k < length self.old }
        ensures { self.new ≡ slice_set self.old k (record (operator_at self.old k) { pin = None }) }
    {
        self.pinned = without_pin(self.pinned, self.by_name[k].pin);
        self.by_name[k].pin = None;
    }

    /// Takes the operator at a place away; those behind it close up.
    pub fn remove(&mut self, k: usize)
        requires { k < length self.old }
        ensures { self.new ≡ remove self.old k }
    {
        self.pinned = without_pin(self.pinned, self.by_name[k].pin);
        self.by_name.shift_remove_index(k);
    }
}
