//! Channels by each of their ends and in the order of their declaration.

ghost use Rattle.std.specs.Prelude.{◌≡◌, ◌++◌, ◌∷◌, [], ◌<◌, ◌≤◌, false, true, not, None, Some, MatchResult, filter, length, slice_get, slice_set};
ghost use Rattle.std.specs.List.{list_any, list_all};
ghost use Rattle.pld_graph.specs.Parts.{same_end as same_end_of, is_lost as is_lost_of, is_of as is_of_operator, stands_at, is_host as is_host_of, is_cut as is_cut_of, from_input, to_output, same_from, same_to};
ghost use Rattle.pld_graph.specs.Design.{is_linked as is_linked_of, inputs as inputs_of, outputs as outputs_of, is_input as is_input_of};
ghost use Rattle.pld_graph.specs.Sound.{is_directed};
ghost use Rattle.pld_graph.specs.Slots.{live};
ghost use Rattle.pld_graph.specs.Masks.{ones, AreCounted};

use crate::slots::Slots;
use crate::{Channel, Cut, FromEnd, ToEnd, looks};
use pld_base::{End, Name, NoMemory, Side};
use std::alloc::Global;
use std::marker::Model;

/// How many channels, inputs and outputs stand.
#[derive(Clone, Copy, Debug, PartialEq, Eq, Drop)]
pub struct Tally {
    pub channels: usize,
    pub inputs: usize,
    pub outputs: usize,
}

/// A list of channels in the order of their declaration, in which an end is found by its hash. Contracts see the list.
#[derive(Drop)]
pub struct Channels {
    slots: Slots,
    tally: Tally,
}

impl Model for Channels {
    ghost use Rattle.std.specs.Prelude.{◌≡◌, true, List};
    ghost use Rattle.std.specs.List.{list_all};
    ghost use Rattle.pld_graph.specs.declared.parts.Channel.{Channel};
    ghost use Rattle.pld_graph.specs.Sound.{is_directed};
    ghost use Rattle.pld_graph.specs.Slots.{live};
    ghost use Rattle.pld_graph.specs.Masks.{AreCounted};

    ghost Value = { List Channel };

    ghost view = { λ cs. live cs.slots };

    ghost invariant = { λ cs. (list_all is_directed (live cs.slots) ≡ true) × AreCounted (live cs.slots) cs.tally };
}

// One for an input, none for a port.
fn one_input(from: &FromEnd) -> usize
    ensures value { result ≡ ones (from_input from.now) }
    ensures few { result ≤ 1 }
{
    match from {
        FromEnd::Port(_) => 0,
        FromEnd::Input(_) => 1,
    }
}

// One for an output, none for a port.
fn one_output(to: &ToEnd) -> usize
    ensures value { result ≡ ones (to_output to.now) }
    ensures few { result ≤ 1 }
{
    match to {
        ToEnd::Port(_) => 0,
        ToEnd::Output(_) => 1,
    }
}

// Takes out what is in a slot.
fn empty(slots: &mut Slots, tally: &mut Tally, i: usize)
    requires within { i < length slots.old }
    requires counted { AreCounted (live slots.old) tally.old }
    ensures emptied { slots.new ≡ slice_set slots.old i None }
    ensures counted { AreCounted (live slots.new) tally.new }
{
    if let Some(gone) = slots.take(i) {
        tally.channels -= 1;
        tally.inputs -= one_input(&gone.from);
        tally.outputs -= one_output(&gone.to);
    }
}

// Takes out the channels at the ports of an operator.
fn empty_of(slots: &mut Slots, tally: &mut Tally, name: &Name)
    requires { AreCounted (live slots.old) tally.old }
    ensures left { live slots.new ≡ filter (λ c. not (stands_at (is_of_operator name.now) c)) (live slots.old) }
    ensures counted { AreCounted (live slots.new) tally.new }
{
    for i in 0..slots.len() {
        if let Some(channel) = slots.at(i) {
            if looks::is_of(&channel.from, &channel.to, name) {
                empty(slots, tally, i);
            }
        }
    }
}

impl Channels {
    pub fn new(alloc: Global) -> Channels
        ensures { result ≡ [] }
    {
        Channels {
            slots: Slots::new(alloc),
            tally: Tally {
                channels: 0,
                inputs: 0,
                outputs: 0,
            },
        }
    }

    /// How many channels there are.
    pub fn len(&self) -> usize
        ensures { result ≡ length self.now }
    {
        self.tally.channels
    }

    /// The channel at a place.
    pub fn at(&self, k: usize) -> Channel
        requires { k < length self.now }
        ensures { slice_get self.now k ≡ Some result }
    {
        self.slots.nth(k).unwrap()
    }

    /// Whether a channel stands at the port.
    pub fn is_linked(&self, end: &End) -> bool
        ensures { result ≡ is_linked_of self.now end.now }
    {
        match end.side {
            Side::Out => self.slots.from_slot(&FromEnd::Port(*end)).is_some(),
            Side::In => self.slots.to_slot(&ToEnd::Port(*end)).is_some(),
        }
    }

    /// Whether an input or an output has this name.
    pub fn has_host(&self, name: &Name) -> bool
        ensures { result ≡ list_any (is_host_of name.now) self.now }
    {
        self.is_input(name) || self.slots.to_slot(&ToEnd::Output(*name)).is_some()
    }

    /// Whether an input has this name.
    pub fn is_input(&self, name: &Name) -> bool
        ensures { result ≡ is_input_of name.now self.now }
    {
        self.slots.from_slot(&FromEnd::Input(*name)).is_some()
    }

    /// Whether a channel stands at a port of this operator that these counts lack.
    pub fn some_lost(&self, name: &Name, ins: u8, outs: u8) -> bool
        ensures { result ≡ list_any (stands_at (is_lost_of name.now ins outs)) self.now }
    {
        self.slots.some_lost(name, ins, outs)
    }

    /// How many inputs there are.
    pub fn inputs(&self) -> usize
        ensures { result ≡ length (inputs_of self.now) }
    {
        self.tally.inputs
    }

    /// How many outputs there are.
    pub fn outputs(&self) -> usize
        ensures { result ≡ length (outputs_of self.now) }
    {
        self.tally.outputs
    }

    /// The name of the k-th input.
    pub fn input_at(&self, k: usize) -> Option<Name>
        ensures { result ≡ slice_get (inputs_of self.now) k }
    {
        self.slots.nth_input(k)
    }

    /// The name of the k-th output.
    pub fn output_at(&self, k: usize) -> Option<Name>
        ensures { result ≡ slice_get (outputs_of self.now) k }
    {
        self.slots.nth_output(k)
    }

    /// A channel, last in the order of declaration.
    pub fn push(&mut self, from: &FromEnd, to: &ToEnd) -> Result<(), NoMemory>
        requires directed { is_directed (record { from = from.now; to = to.now }) ≡ true }
        requires from_free { list_any (λ c. same_from from.now c.from) self.old ≡ false }
        requires to_free { list_any (λ c. same_to to.now c.to) self.old ≡ false }
        requires few_inputs { length (inputs_of self.old) ≤ 8 }
        requires few_outputs { length (outputs_of self.old) ≤ 8 }
        ensures { MatchResult result (λ _done. self.new ≡ self.old ++ (record { from = from.now; to = to.now }) ∷ []) (λ _e. self.new ≡ self.old) }
    {
        self.slots.push(from, to)?;
        self.tally.channels += 1;
        self.tally.inputs += one_input(from);
        self.tally.outputs += one_output(to);
        Ok(())
    }

    /// Removes the channels at the ports of an operator.
    pub fn drop_of(&mut self, name: &Name)
        ensures { self.new ≡ filter (λ c. not (stands_at (is_of_operator name.now) c)) self.old }
    {
        empty_of(&mut self.slots, &mut self.tally, name);
    }

    // Removes the channel with this producing end, if there is one.
    fn drop_from(&mut self, from: &FromEnd)
        ensures removed { self.new ≡ filter (λ c. not (same_from from.now c.from)) self.old }
        ensures sides { list_all is_directed self.old ≡ true }
    {
        if let Some(i) = self.slots.from_slot(from) {
            empty(&mut self.slots, &mut self.tally, i);
        }
    }

    // Removes the channel with this consuming end, if there is one.
    fn drop_to(&mut self, to: &ToEnd)
        ensures removed { self.new ≡ filter (λ c. not (same_to to.now c.to)) self.old }
        ensures sides { list_all is_directed self.old ≡ true }
    {
        if let Some(i) = self.slots.to_slot(to) {
            empty(&mut self.slots, &mut self.tally, i);
        }
    }

    // Removes the channel at a port.
    fn drop_at(&mut self, end: &End)
        ensures { self.new ≡ filter (λ c. not (stands_at (same_end_of end.now) c)) self.old }
    {
        match end.side {
            Side::Out => self.drop_from(&FromEnd::Port(*end)),
            Side::In => self.drop_to(&ToEnd::Port(*end)),
        }
    }

    // Removes the channels of the input and of the output of this name.
    fn drop_host(&mut self, name: &Name)
        ensures { self.new ≡ filter (λ c. not (is_host_of name.now c)) self.old }
    {
        self.drop_from(&FromEnd::Input(*name));
        self.drop_to(&ToEnd::Output(*name));
    }

    /// Removes the channel that is to be disconnected.
    pub fn drop_cut(&mut self, what: &Cut)
        ensures { self.new ≡ filter (λ c. not (is_cut_of what.now c)) self.old }
    {
        match what {
            Cut::Port(end) => self.drop_at(end),
            Cut::Host(name) => self.drop_host(name),
        }
    }
}
