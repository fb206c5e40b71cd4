//! What a design is made of.

use pld_base::{End, Name};

/// An operator of a design.
#[derive(Clone, Copy, Debug, PartialEq, Eq)]
pub struct OperatorEntry {
    pub name: Name,
    /// How many in-ports it has.
    pub ins: u8,
    /// How many out-ports it has.
    pub outs: u8,
    /// The leaf at which it shall stand.
    pub pin: Option<u8>,
}

/// The producing end of a channel.
#[derive(Clone, Copy, Debug, PartialEq, Eq, Hash)]
pub enum FromEnd {
    /// An out-port of an operator.
    Port(End),
    /// An input of the design.
    Input(Name),
}

/// The consuming end of a channel.
#[derive(Clone, Copy, Debug, PartialEq, Eq, Hash)]
pub enum ToEnd {
    /// An in-port of an operator.
    Port(End),
    /// An output of the design.
    Output(Name),
}

/// A channel, with one producing and one consuming end. It may join an operator to itself.
#[derive(Clone, Copy, Debug, PartialEq, Eq)]
pub struct Channel {
    pub from: FromEnd,
    pub to: ToEnd,
}

/// What is to be disconnected.
#[derive(Clone, Copy, Debug, PartialEq, Eq)]
pub enum Cut {
    /// The channel at this out-port.
    Port(End),
    /// The input or output of this name.
    Host(Name),
}

/// A port that is in no channel.
#[derive(Clone, Copy, Debug, PartialEq, Eq)]
pub struct OpenPort {
    pub end: End,
}

/// Why an edit is refused.
#[derive(Clone, Copy, Debug, PartialEq, Eq)]
pub enum GraphFault {
    /// No operator has this name.
    UnknownOperator,
    /// The operator has no such port, or would lose one at which a channel stands.
    UnknownPort,
    /// An in-port where an out-port is wanted, or the other way round.
    WrongDirection,
    /// A channel stands at the port already.
    PortTaken,
    /// An operator, an input or an output has this name already.
    NameTaken,
    /// Another operator is pinned to the leaf.
    LeafTaken,
    /// A leaf that is 0 or isn't below 2^depth.
    LeafRange,
    /// Nothing is joined there.
    NotLinked,
    /// 63 operators, 256 channels, 8 inputs or 8 outputs stand already.
    TooMany,
    /// A pattern of links that isn't for as many levels as the tree has below its topmost.
    LevelCount,
}
