//! Pages, ports, places in a text, and what a program does at its ports.

use crate::Name;

/// A page's number, which is that of its leaf. Leaf 0 is the host's.
#[derive(Clone, Copy, Debug, PartialEq, Eq)]
pub struct PageId(pub u8);

/// A port's number, from 0 to 7. In-ports and out-ports are numbered apart.
#[derive(Clone, Copy, Debug, PartialEq, Eq, Hash)]
pub struct PortNo(pub u8);

/// A round's number, counted from the start of its run.
#[derive(Clone, Copy, Debug, PartialEq, Eq)]
pub struct RoundNo(pub u64);

/// A place in an operator's text: line and column, in bytes, counted from 1.
#[derive(Clone, Copy, Debug, PartialEq, Eq)]
pub struct Place {
    pub line: u32,
    pub column: u32,
}

/// The kind of page that an operator is compiled for.
#[derive(Clone, Copy, Debug, PartialEq, Eq, Hash)]
pub enum Kind {
    Soft,
    Hard,
}

/// Whether a port takes words in or gives words out.
#[derive(Clone, Copy, Debug, PartialEq, Eq, Hash)]
pub enum Side {
    In,
    Out,
}

/// A port of an operator, as a session's text names it: `inc.i0`.
#[derive(Clone, Copy, Debug, PartialEq, Eq, Hash)]
pub struct End {
    pub op: Name,
    pub side: Side,
    pub port: PortNo,
}

/// A word read from an in-port, or written to an out-port.
#[derive(Clone, Copy, Debug, PartialEq, Eq)]
pub enum Event {
    Read(PortNo, u32),
    Write(PortNo, u32),
}

/// What a step of a page comes to.
#[derive(Clone, Copy, Debug, PartialEq, Eq)]
pub enum StepEnd {
    /// The step was made.
    Went,
    /// The page stands at a read of this in-port.
    AtRead(PortNo),
    /// The page stands at a write of this word to this out-port.
    AtWrite(PortNo, u32),
    /// The program has ended.
    Ended,
    /// The program has trapped; the place is that of the instruction.
    Trapped(u32),
}
