//! Channels in slots, each found by either of its ends.

ghost use Rattle.std.specs.Prelude.{◌≡◌, ◌++◌, ◌∷◌, [], ◌<◌, false, not, None, Some, IfSome, MatchResult, IfOk, OnOk, ◌^◌, is_some, filter, length, slice_get, slice_set};
ghost use Rattle.std.specs.List.{list_any};
ghost use Rattle.pld_graph.specs.Parts.{is_lost as is_lost_of, stands_at, passes, from_input, to_output, same_from, same_to};
ghost use Rattle.pld_graph.specs.Design.{inputs as inputs_of, outputs as outputs_of};
ghost use Rattle.pld_graph.specs.Slots.{live, in_slot};

use crate::{Channel, FromEnd, ToEnd, looks};
use indexmap::IndexMap;
use pld_base::{Name, NoMemory};
use std::alloc::Global;
use std::marker::Model;

// With fewer slots none is worth closing up.
const FEW: usize = 64;

/// Slots in the order in which their channels were declared. A slot stays when its channel is taken out, until so many are empty that the
/// others are closed up: an edit costs the same in every design, on average. Contracts see the list of slots.
#[derive(Drop)]
pub struct Slots {
    channels: Vec<Option<Channel>>,
    from_at: IndexMap<FromEnd, usize>,
    to_at: IndexMap<ToEnd, usize>,
}

impl Model for Slots {
    ghost use Rattle.std.specs.Prelude.{List, Option};
    ghost use Rattle.pld_graph.specs.declared.parts.Channel.{Channel};
    ghost use Rattle.pld_graph.specs.Parts.{same_from, same_to};
    ghost use Rattle.pld_graph.specs.Slots.{IsFound};

    ghost Value = { List (Option Channel) };

    ghost view = { λ s. s.channels.items };

    ghost invariant = { λ s. IsFound same_from (λ c. c.from) s.channels.items s.from_at.entries × IsFound same_to (λ c. c.to) s.channels.items s.to_at.entries };
}

// The input from which the channel in a slot comes.
fn input_in(slot: &Option<Channel>) -> Option<Name>
    ensures { result ≡ in_slot (λ c. from_input c.from) slot.now }
{
    match slot {
        Some(
            Channel {
                from: FromEnd::Input(name),
                ..
            },
        ) => Some(*name),
        _ => None,
    }
}

// The output to which the channel in a slot goes.
fn output_in(slot: &Option<Channel>) -> Option<Name>
    ensures { result ≡ in_slot (λ c. to_output c.to) slot.now }
{
    match slot {
        Some(
            Channel {
                to: ToEnd::Output(name),
                ..
            },
        ) => Some(*name),
        _ => None,
    }
}

// Whether the channel in a slot stands at a port of this operator that these counts lack.
fn is_lost_in(slot: &Option<Channel>, name: &Name, ins: u8, outs: u8) -> bool
    ensures { result ≡ passes (stands_at (is_lost_of name.now ins outs)) slot.now }
{
    match slot {
        Some(channel) => looks::loses(&channel.from, &channel.to, name, ins, outs),
        None => false,
    }
}

impl Slots {
    pub fn new(alloc: Global) -> Slots
        ensures { result ≡ [] }
    {
        Slots {
            channels: Vec::new(alloc),
            from_at: IndexMap::new(alloc),
            to_at: IndexMap::new(alloc),
        }
    }

    /// How many slots there are.
    pub fn len(&self) -> usize
        ensures { result ≡ length self.now }
    {
        self.channels.len()
    }

    /// What is in a slot.
    pub fn at(&self, i: usize) -> Option<Channel>
        requires { i < length self.now }
        ensures { slice_get self.now i ≡ Some result }
    {
        self.channels[i]
    }

    /// The slot of the channel with this producing end.
    pub fn from_slot(&self, from: &FromEnd) -> Option<usize>
        ensures found { is_some result ≡ list_any (λ c. same_from from.now c.from) (live self.now) }
        ensures alone { IfSome result (λ i. live (slice_set self.now i None) ≡ filter (λ c. not (same_from from.now c.from)) (live self.now)) }
        ensures within { IfSome result (λ i. i < length self.now) }
    {
        self.from_at.get(from).copied()
    }

    /// The slot of the channel with this consuming end.
    pub fn to_slot(&self, to: &ToEnd) -> Option<usize>
        ensures found { is_some result ≡ list_any (λ c. same_to to.now c.to) (live self.now) }
        ensures alone { IfSome result (λ i. live (slice_set self.now i None) ≡ filter (λ c. not (same_to to.now c.to)) (live self.now)) }
        ensures within { IfSome result (λ i. i < length self.now) }
    {
        self.to_at.get(to).copied()
    }

    /// The k-th channel that stands.
    pub fn nth(&self, k: usize) -> Option<Channel>
        ensures { result ≡ slice_get (live self.now) k }
    {
        self.channels.iter().filter_map(|slot| *slot).nth(k)
    }

    /// The name of the k-th input.
    pub fn nth_input(&self, k: usize) -> Option<Name>
        ensures { result ≡ slice_get (inputs_of (live self.now)) k }
    {
        self.channels
            .iter()
            .filter_map(|slot| input_in(slot))
            .nth(k)
    }

    /// The name of the k-th output.
    pub fn nth_output(&self, k: usize) -> Option<Name>
        ensures { result ≡ slice_get (outputs_of (live self.now)) k }
    {
        self.channels
            .iter()
            .filter_map(|slot| output_in(slot))
            .nth(k)
    }

    /// Whether a channel stands at a port of this operator that these counts lack.
    pub fn some_lost(&self, name: &Name, ins: u8, outs: u8) -> bool
        ensures { result ≡ list_any (stands_at (is_lost_of name.now ins outs)) (live self.now) }
    {
        self.channels
            .iter()
            .any(|slot| is_lost_in(slot, name, ins, outs))
    }

    /// Takes out what is in a slot.
    pub fn take(&mut self, i: usize) -> Option<Channel>
        requires { i < length self.old }
        ensures taken { slice_get self.old i ≡ Some result }
        ensures emptied { self.new ≡ slice_set self.old i None }
    {
        let gone = self.channels[i]?;
        self.from_at.swap_remove(&gone.from);
        self.to_at.swap_remove(&gone.to);
        self.channels[i] = None;
        Some(gone)
    }

    // One slot more, with a channel whose ends no other one has.
    fn append(&mut self, from: &FromEnd, to: &ToEnd) -> Result<(), NoMemory>
        requires from_free { list_any (λ c. same_from from.now c.from) (live self.old) ≡ false }
        requires to_free { list_any (λ c. same_to to.now c.to) (live self.old) ≡ false }
        ensures { MatchResult result (λ _done. self.new ≡ self.old ++ Some (record { from = from.now; to = to.now }) ∷ []) (λ _e. self.new ≡ self.old) }
    {
        self.channels.reserve(1)?;
        self.to_at.reserve(1)?;
        let i = self.channels.len();
        self.from_at.insert(*from, i)?;
        self.to_at.insert(*to, i).unwrap();
        self.channels
            .push(Some(Channel {
                from: *from,
                to: *to,
            }))
            .unwrap();
        Ok(())
    }

    // The channels that stand, in slots without an empty one among them.
    fn closed_up(&self) -> Result<Slots, NoMemory>
        ensures { IfOk result (λ s. live s ≡ live self.now) }
    {
        let mut slots = Slots::new(*self.channels.allocator());
        for i in 0..self.channels.len() {
            if let Some(channel) = self.channels[i] {
                slots.append(&channel.from, &channel.to)?;
            }
        }
        Ok(slots)
    }

    // Whether half of the slots are empty, and there are many.
    fn is_sparse(&self) -> bool {
        self.channels.len() >= FEW && self.channels.len() / 2 >= self.from_at.len()
    }

    // Closes up the slots where many are empty.
    fn close_up(&mut self) -> Result<(), NoMemory>
        ensures { live self.new ≡ live self.old }
    {
        if self.is_sparse() {
            *self = self.closed_up()?;
        }
        Ok(())
    }

    /// A channel, last in the order of declaration, whose ends no other one has.
    pub fn push(&mut self, from: &FromEnd, to: &ToEnd) -> Result<(), NoMemory>
        requires from_free { list_any (λ c. same_from from.now c.from) (live self.old) ≡ false }
        requires to_free { list_any (λ c. same_to to.now c.to) (live self.old) ≡ false }
        ensures pushed { MatchResult result (λ _done. live self.new ≡ live self.old ++ (record { from = from.now; to = to.now }) ∷ []) (λ _e. live self.new ≡ live self.old) }
        ensures few { OnOk result (length (live self.new) < 2 ^ 64) }
    {
        self.close_up()?;
        self.append(from, to)?;
        let _slots = self.len();
        Ok(())
    }
}
