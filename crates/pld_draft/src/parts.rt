//! What a draft is made of.

ghost use Rattle.std.specs.Prelude.{◌≡◌};
ghost use Rattle.pld_draft.specs.declared.parts.EditFault.TheVariants as fault;
ghost use Rattle.pld_draft.specs.declared.parts.EditRefusal.TheVariants as refusal;
ghost use Rattle.pld_draft.specs.Faults.{graph_fault, source_fault};

use pld_base::{Kind, Name, NoMemory, Refused, SourceFault};
use pld_check::Checked;
use pld_graph::GraphFault;
use pld_script::{Text, WordList};
use std::alloc::AllocError;

/// What an operator is compiled from.
#[derive(Drop)]
pub struct Source {
    /// The kind of page that it is compiled for.
    pub kind: Kind,
    /// Its text.
    pub text: Text,
    /// The operator that the text is read as.
    pub operator: Checked,
}

/// The words of an input.
#[derive(Drop)]
pub struct Feed {
    pub name: Name,
    /// At most 65,536 words.
    pub words: WordList,
}

/// Why an edit is refused.
#[derive(Clone, Copy, Debug, PartialEq, Eq)]
pub enum EditRefusal {
    /// The design can't be edited so.
    Graph(GraphFault),
    /// The operator's text has a fault.
    Source(SourceFault),
    /// The input would have more than 65,536 words.
    TooManyWords,
}

/// Why an edit isn't made.
#[derive(Clone, Copy, Debug, PartialEq, Eq)]
pub enum EditFault {
    /// It is refused.
    Refused(EditRefusal),
    /// No memory was left.
    NoMemory,
}

impl From<NoMemory> for EditFault {
    ghost from_gives = { λ _ e. e ≡ fault.NoMemory };

    fn from(_e: NoMemory) -> EditFault {
        EditFault::NoMemory
    }
}

impl From<AllocError> for EditFault {
    ghost from_gives = { λ _ e. e ≡ fault.NoMemory };

    fn from(_e: AllocError) -> EditFault {
        EditFault::NoMemory
    }
}

impl From<EditRefusal> for EditFault {
    ghost from_gives = { λ why e. e ≡ fault.Refused why };

    fn from(why: EditRefusal) -> EditFault {
        EditFault::Refused(why)
    }
}

impl From<GraphFault> for EditFault {
    ghost from_gives = { λ why e. e ≡ fault.Refused (refusal.Graph why) };

    fn from(why: GraphFault) -> EditFault {
        EditFault::Refused(EditRefusal::Graph(why))
    }
}

impl From<Refused<GraphFault>> for EditFault {
    ghost from_gives = { λ why e. e ≡ graph_fault why };

    fn from(why: Refused<GraphFault>) -> EditFault {
        match why {
            Refused::Fault(why) => EditFault::Refused(EditRefusal::Graph(why)),
            Refused::NoMemory => EditFault::NoMemory,
        }
    }
}

impl From<Refused<SourceFault>> for EditFault {
    ghost from_gives = { λ why e. e ≡ source_fault why };

    fn from(why: Refused<SourceFault>) -> EditFault {
        match why {
            Refused::Fault(why) => EditFault::Refused(EditRefusal::Source(why)),
            Refused::NoMemory => EditFault::NoMemory,
        }
    }
}
