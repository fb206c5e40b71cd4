//! A design that is edited.

ghost use Rattle.std.specs.Prelude.{◌≡◌, OnOk, ◌<◌, ◌≤◌, Some, None, length, slice_get, IfSome, MatchResult};
ghost use Rattle.pld_base.specs.declared.event.Side.TheVariants.{In, Out};
ghost use Rattle.pld_base.specs.declared.memory.Refused.TheVariants as refused;
ghost use Rattle.pld_graph.specs.declared.parts.GraphFault.TheVariants.{NameTaken};
ghost use Rattle.pld_graph.specs.Design.{Design, fresh, place_of as place_in, operator_at, pin_in, is_named, inputs as inputs_of, outputs as outputs_of, is_input as is_input_of, has_port, open_port};
ghost use Rattle.std.specs.List.{list_any};
ghost use Rattle.pld_graph.specs.Sound.{IsSound};
ghost use Rattle.pld_graph.specs.Edits.{is_rival, when, with_channel, add_refusal, added, replaced, removed, connect_refusal, connected, with_input, with_output, disconnected, cut_refusal, pinned, unpinned, repaged, patterned, windowed, unknown, misdirected, lacking, taken, full, host_refusal, fault_in, Edits, Tries};

use crate::channels::Channels;
use crate::operators::Operators;
use crate::{Channel, Cut, FromEnd, GraphFault, OpenPort, ToEnd, looks};
use net_switch::Pattern;
use pld_base::{End, Name, NoMemory, Refused, Side};
use std::alloc::Global;
use std::marker::Model;

const MOST_OPERATORS: usize = 63;

const MOST_CHANNELS: usize = 256;
// Of inputs, and of outputs.
const MOST_HOSTS: usize = 8;

// How many words a channel holds, until `set_window` names another number.
const WINDOW: u8 = 16;

/// A design: operators with their counts of ports and their pins, channels between ports, inputs and outputs, depth and links
/// of the tree of switches, and how many words a channel holds.
///
/// Operators, channels, inputs and outputs are listed in the order in which they were declared; a removal closes up. An edit
/// is refused with the first of its faults that applies, in the order in which its text names them, and then changes nothing.
///
/// Every design is sound: it is within the limits of 63 operators, 256 channels, 8 inputs and 8 outputs; operators, inputs and
/// outputs share one set of names; no port is in two channels, and each port of a channel is one that its operator has; pins are
/// leaves of the tree, of one operator each. `operators` and `channels` tell it.
#[derive(Drop)]
pub struct Graph {
    operators: Operators,
    channels: Channels,
    depth: u8,
    pattern: Pattern,
    window: u8,
}

impl Model for Graph {
    ghost use Rattle.pld_graph.specs.Design.{Design};
    ghost use Rattle.pld_graph.specs.Sound.{IsSound};

    ghost Value = { Design };

    ghost view = { λ g. record { operators = g.operators; channels = g.channels; depth = g.depth; pattern = g.pattern; window = g.window } };

    ghost invariant = { λ g. IsSound (record { operators = g.operators; channels = g.channels; depth = g.depth; pattern = g.pattern; window = g.window }) };
}

// The fault, where this holds.
fn refuse(holds: bool, fault: GraphFault) -> Result<(), GraphFault>
    ensures { fault_in result ≡ when holds fault }
{
    if holds { Err(fault) } else { Ok(()) }
}

// WrongDirection where the port is on the other side.
fn directed(end: &End, side: Side) -> Result<(), GraphFault>
    ensures { fault_in result ≡ misdirected side end.now }
{
    refuse(
        !looks::same_side(end.side, side),
        GraphFault::WrongDirection,
    )
}

impl Graph {
    /// A design without operators. The depth of its tree is from 1 to 6; each switch has one upward link, and each channel
    /// holds 16 words.
    pub fn new(alloc: Global, depth: u8) -> Graph
        requires least { 1 ≤ depth }
        requires most { depth ≤ 6 }
        ensures { result ≡ fresh depth }
    {
        Graph {
            operators: Operators::new(alloc),
            channels: Channels::new(alloc),
            depth,
            pattern: Pattern::plain(),
            window: WINDOW,
        }
    }

    /// The depth of the tree of switches, which has 2^depth leaves.
    pub fn depth(&self) -> u8
        ensures value { result ≡ self.now.depth }
        ensures least { 1 ≤ result }
        ensures most { result ≤ 6 }
    {
        self.depth
    }

    /// Which levels of the tree have two upward links for each switch.
    pub fn pattern(&self) -> Pattern
        ensures { result ≡ self.now.pattern }
    {
        self.pattern
    }

    /// How many words each channel holds.
    pub fn window(&self) -> u8
        ensures value { result ≡ self.now.window }
        ensures least { 1 ≤ result }
        ensures most { result ≤ 64 }
    {
        self.window
    }

    // NameTaken where an operator, an input or an output has this name.
    fn free(&self, name: &Name) -> Result<(), GraphFault>
        ensures { fault_in result ≡ when (is_named name.now self.now) NameTaken }
    {
        let operator = self.operators.place_of(name).is_some();
        refuse(
            operator || self.channels.has_host(name),
            GraphFault::NameTaken,
        )
    }

    // UnknownOperator where the port's operator isn't there.
    fn known(&self, end: &End) -> Result<(), GraphFault>
        ensures { fault_in result ≡ unknown end.now self.now }
    {
        refuse(
            self.operators.place_of(&end.op).is_none(),
            GraphFault::UnknownOperator,
        )
    }

    // UnknownPort where the port's operator isn't there or lacks the port.
    fn has(&self, end: &End) -> Result<(), GraphFault>
        ensures { fault_in result ≡ lacking end.now self.now }
    {
        match self.operators.called(&end.op) {
            Some(o) => refuse(
                !looks::is_below(o.ins, o.outs, end),
                GraphFault::UnknownPort,
            ),
            None => Err(GraphFault::UnknownPort),
        }
    }

    // PortTaken where a channel stands at the port.
    fn untaken(&self, end: &End) -> Result<(), GraphFault>
        ensures { fault_in result ≡ taken end.now self.now }
    {
        refuse(self.channels.is_linked(end), GraphFault::PortTaken)
    }

    // TooMany where 256 channels stand.
    fn has_room(&self) -> Result<(), GraphFault>
        ensures fault { fault_in result ≡ full self.now }
        ensures sound { IsSound self.now }
    {
        refuse(self.channels.len() >= MOST_CHANNELS, GraphFault::TooMany)
    }

    // Whether an operator of another name than that of the one at the place is pinned to the leaf.
    fn has_rival(&self, k: usize, name: &Name, leaf: u8) -> bool
        requires within { k < length self.now.operators }
        requires place { Some k ≡ place_in name.now self.now }
        requires below { leaf < 64 }
        ensures { result ≡ list_any (is_rival name.now leaf) self.now.operators }
    {
        let own = looks::is_pin(self.operators.at(k).pin, leaf);
        looks::is_only_other(own, self.operators.is_pinned(leaf))
    }

    // A channel, last in the order of declaration.
    fn put(&mut self, from: FromEnd, to: ToEnd) -> Result<(), Refused<GraphFault>>
        requires { IsSound (with_channel (record { from = from; to = to }) self.old) }
        ensures { MatchResult result (λ _done. self.new ≡ with_channel (record { from = from; to = to }) self.old) (λ e. (e ≡ refused.NoMemory) × (self.new ≡ self.old)) }
    {
        match self.channels.push(&from, &to) {
            Ok(()) => Ok(()),
            Err(NoMemory) => Err(Refused::NoMemory),
        }
    }

    /// Whether an operator of this name may be added: `NameTaken` and `TooMany` as in `add`.
    pub fn may_add(&self, name: &Name) -> Result<(), GraphFault>
        ensures { fault_in result ≡ add_refusal name.now self.now }
    {
        self.free(name)?;
        refuse(self.operators.len() >= MOST_OPERATORS, GraphFault::TooMany)
    }

    // The tests of `connect`.
    fn may_connect(&self, from: &End, to: &End) -> Result<(), GraphFault>
        ensures fault { fault_in result ≡ connect_refusal from.now to.now self.now }
        ensures sound { OnOk result (IsSound self.now) }
    {
        self.known(from)?;
        self.known(to)?;
        directed(from, Side::Out)?;
        directed(to, Side::In)?;
        self.has(from)?;
        self.has(to)?;
        self.untaken(from)?;
        self.untaken(to)?;
        self.has_room()
    }

    // The tests of `input` and `output`, where so many inputs or outputs stand.
    fn may_host(&self, name: &Name, side: Side, end: &End, count: usize) -> Result<(), GraphFault>
        ensures fault { fault_in result ≡ host_refusal name.now side end.now count self.now }
        ensures sound { OnOk result (IsSound self.now) }
    {
        self.free(name)?;
        self.known(end)?;
        directed(end, side)?;
        self.has(end)?;
        self.untaken(end)?;
        refuse(count >= MOST_HOSTS, GraphFault::TooMany)?;
        self.has_room()
    }

    // The tests of `disconnect`.
    fn may_cut(&self, what: &Cut) -> Result<(), GraphFault>
        ensures { fault_in result ≡ cut_refusal what.now self.now }
    {
        match what {
            Cut::Port(end) => {
                self.known(end)?;
                directed(end, Side::Out)?;
                self.has(end)?;
                refuse(!self.channels.is_linked(end), GraphFault::NotLinked)
            }
            Cut::Host(name) => { refuse(!self.channels.has_host(name), GraphFault::NotLinked) }
        }
    }

    /// Adds an operator with these counts of ports, last in the order of declaration.
    ///
    /// `NameTaken` where an operator, an input or an output has this name; `TooMany` where 63 operators stand.
    pub fn add(&mut self, name: Name, ins: u8, outs: u8) -> Result<(), Refused<GraphFault>>
        ensures { Tries result (added name ins outs self.old) self.old self.new }
    {
        if let Err(fault) = self.may_add(&name) {
            return Err(Refused::Fault(fault));
        }
        match self.operators.push(name, ins, outs) {
            Ok(()) => Ok(()),
            Err(NoMemory) => Err(Refused::NoMemory),
        }
    }

    /// Gives an operator new counts of ports. Its place, its pin and its channels stay.
    ///
    /// `UnknownOperator` where no operator has this name; `UnknownPort` where a channel, to an input or an output too, stands at
    /// a port that the new counts lack.
    pub fn replace(&mut self, name: Name, ins: u8, outs: u8) -> Result<(), GraphFault>
        ensures { Edits result (replaced name ins outs self.old) self.old self.new }
    {
        let Some(k) = self.operators.place_of(&name) else {
            return Err(GraphFault::UnknownOperator);
        };
        refuse(
            self.channels.some_lost(&name, ins, outs),
            GraphFault::UnknownPort,
        )?;
        self.operators.set_counts(k, ins, outs);
        Ok(())
    }

    /// Removes an operator, its pin, its channels, and the inputs and outputs at its ports.
    ///
    /// `UnknownOperator` where no operator has this name.
    pub fn remove(&mut self, name: Name) -> Result<(), GraphFault>
        ensures { Edits result (removed name self.old) self.old self.new }
    {
        let Some(k) = self.operators.place_of(&name) else {
            return Err(GraphFault::UnknownOperator);
        };
        self.operators.remove(k);
        self.channels.drop_of(&name);
        Ok(())
    }

    /// Joins an out-port to an in-port.
    ///
    /// `UnknownOperator` where an end's operator isn't there; `WrongDirection` where the first end is no out-port or the second
    /// no in-port; `UnknownPort` where an operator lacks the port; `PortTaken` where a channel stands at a port already. Each is
    /// tested for the first end and then for the second before the next. Last `TooMany`, where 256 channels stand.
    pub fn connect(&mut self, from: End, to: End) -> Result<(), Refused<GraphFault>>
        ensures { Tries result (connected from to self.old) self.old self.new }
    {
        if let Err(fault) = self.may_connect(&from, &to) {
            return Err(Refused::Fault(fault));
        }
        self.put(FromEnd::Port(from), ToEnd::Port(to))
    }

    /// Removes the channel at an out-port, with the output if it ends there, or an input or output and its channel.
    ///
    /// Of a port: `UnknownOperator`, `WrongDirection`, `UnknownPort` as in `connect`; `NotLinked` where it is in no channel. Of a
    /// name: `NotLinked` where no input or output has it.
    pub fn disconnect(&mut self, what: Cut) -> Result<(), GraphFault>
        ensures { Edits result (disconnected what self.old) self.old self.new }
    {
        self.may_cut(&what)?;
        self.channels.drop_cut(&what);
        Ok(())
    }

    /// Adds an input, joined to an in-port.
    ///
    /// `NameTaken` where an operator, an input or an output has this name; `UnknownOperator`, `WrongDirection`, `UnknownPort`,
    /// `PortTaken` as in `connect`; `TooMany` where 8 inputs or 256 channels stand.
    pub fn input(&mut self, name: Name, to: End) -> Result<(), Refused<GraphFault>>
        ensures { Tries result (with_input name to self.old) self.old self.new }
    {
        if let Err(fault) = self.may_host(&name, Side::In, &to, self.inputs()) {
            return Err(Refused::Fault(fault));
        }
        self.put(FromEnd::Input(name), ToEnd::Port(to))
    }

    /// Adds an output, joined to an out-port.
    ///
    /// `NameTaken` where an operator, an input or an output has this name; `UnknownOperator`, `WrongDirection`, `UnknownPort`,
    /// `PortTaken` as in `connect`; `TooMany` where 8 outputs or 256 channels stand.
    pub fn output(&mut self, from: End, name: Name) -> Result<(), Refused<GraphFault>>
        ensures { Tries result (with_output from name self.old) self.old self.new }
    {
        if let Err(fault) = self.may_host(&name, Side::Out, &from, self.outputs()) {
            return Err(Refused::Fault(fault));
        }
        self.put(FromEnd::Port(from), ToEnd::Output(name))
    }

    /// Pins an operator to a leaf; a pin that it has moves.
    ///
    /// `UnknownOperator` where no operator has this name; `LeafRange` where the leaf is 0 or not below 2^depth; `LeafTaken` where
    /// another operator is pinned there.
    pub fn pin(&mut self, name: Name, leaf: u16) -> Result<(), GraphFault>
        ensures { Edits result (pinned name leaf self.old) self.old self.new }
    {
        let Some(k) = self.operators.place_of(&name) else {
            return Err(GraphFault::UnknownOperator);
        };
        let Some(leaf) = looks::leaf_within(self.depth, leaf) else {
            return Err(GraphFault::LeafRange);
        };
        refuse(self.has_rival(k, &name, leaf), GraphFault::LeafTaken)?;
        self.operators.pin(k, leaf);
        Ok(())
    }

    /// Takes an operator's pin away, if it has one.
    ///
    /// `UnknownOperator` where no operator has this name.
    pub fn unpin(&mut self, name: Name) -> Result<(), GraphFault>
        ensures { Edits result (unpinned name self.old) self.old self.new }
    {
        let Some(k) = self.operators.place_of(&name) else {
            return Err(GraphFault::UnknownOperator);
        };
        self.operators.unpin(k);
        Ok(())
    }

    /// Sets the depth of the tree, from 1 to 6. Each switch then has one upward link.
    ///
    /// `LeafRange` where a pin isn't below 2^depth.
    pub fn set_pages(&mut self, depth: u8) -> Result<(), GraphFault>
        requires least { 1 ≤ depth }
        requires most { depth ≤ 6 }
        ensures { Edits result (repaged depth self.old) self.old self.new }
    {
        refuse(self.operators.some_outside(depth), GraphFault::LeafRange)?;
        self.depth = depth;
        self.pattern = Pattern::plain();
        Ok(())
    }

    /// Says for each level of the tree, from the leaves' up and without the topmost, whether its switches have two upward links.
    ///
    /// `LevelCount` where it isn't said for just these levels.
    pub fn set_levels(&mut self, two: &[bool]) -> Result<(), GraphFault>
        ensures { Edits result (patterned two.now self.old) self.old self.new }
    {
        refuse(two.len() + 1 != self.depth as usize, GraphFault::LevelCount)?;
        self.pattern = looks::pattern_of(two);
        Ok(())
    }

    /// Sets how many words each channel holds, from 1 to 64.
    pub fn set_window(&mut self, window: u8)
        requires least { 1 ≤ window }
        requires most { window ≤ 64 }
        ensures { self.new ≡ windowed window self.old }
    {
        self.window = window;
    }

    /// Whether each port is in a channel. `OpenPort` exactly where one isn't: the first, operator by operator, each with in-ports
    /// and then out-ports, ascending.
    pub fn closed(&self) -> Result<(), OpenPort>
        ensures { MatchResult result (λ _closed. open_port self.now ≡ None) (λ found. open_port self.now ≡ Some found.end) }
    {
        match looks::first_open(&self.channels, &self.operators) {
            Some(end) => Err(OpenPort { end }),
            None => Ok(()),
        }
    }

    /// How many operators there are.
    pub fn operators(&self) -> usize
        ensures value { result ≡ length self.now.operators }
        ensures sound { IsSound self.now }
    {
        self.operators.len()
    }

    /// The k-th operator: its name and its counts of in-ports and out-ports.
    pub fn operator(&self, k: usize) -> (Name, u8, u8)
        requires { k < length self.now.operators }
        ensures { let o = operator_at self.now.operators k in result ≡ (o.name, o.ins, o.outs) }
    {
        let o = self.operators.at(k);
        (o.name, o.ins, o.outs)
    }

    /// The place of the operator of this name in the order of declaration. None where no operator has it.
    pub fn place_of(&self, name: &Name) -> Option<usize>
        ensures place { result ≡ place_in name.now self.now }
        ensures within { IfSome result (λ k. k < length self.now.operators) }
    {
        self.operators.place_of(name)
    }

    /// Whether an input has this name.
    pub fn is_input(&self, name: &Name) -> bool
        ensures { result ≡ is_input_of name.now self.now.channels }
    {
        self.channels.is_input(name)
    }

    /// How many channels there are.
    pub fn channels(&self) -> usize
        ensures value { result ≡ length self.now.channels }
        ensures sound { IsSound self.now }
    {
        self.channels.len()
    }

    /// The k-th channel.
    pub fn channel(&self, k: usize) -> Channel
        requires { k < length self.now.channels }
        ensures { slice_get self.now.channels k ≡ Some result }
    {
        self.channels.at(k)
    }

    /// The leaf to which an operator is pinned. None where no operator has this name, or it has no pin.
    pub fn pin_of(&self, name: Name) -> Option<u8>
        ensures { result ≡ pin_in name self.now }
    {
        let Some(k) = self.operators.place_of(&name) else {
            return None;
        };
        self.operators.at(k).pin
    }

    /// How many inputs there are.
    pub fn inputs(&self) -> usize
        ensures { result ≡ length (inputs_of self.now.channels) }
    {
        self.channels.inputs()
    }

    /// The name of the k-th input. None where there are no more than k.
    pub fn input_at(&self, k: usize) -> Option<Name>
        ensures { result ≡ slice_get (inputs_of self.now.channels) k }
    {
        self.channels.input_at(k)
    }

    /// How many outputs there are.
    pub fn outputs(&self) -> usize
        ensures { result ≡ length (outputs_of self.now.channels) }
    {
        self.channels.outputs()
    }

    /// The name of the k-th output. None where there are no more than k.
    pub fn output_at(&self, k: usize) -> Option<Name>
        ensures { result ≡ slice_get (outputs_of self.now.channels) k }
    {
        self.channels.output_at(k)
    }
}
