//! What a statement says.

ghost use Rattle.std.specs.Prelude.{◌≡◌};
ghost use Rattle.pld_script.specs.Edits.{is_of_words as is_of_words_of};

use super::{Depth, Levels, Text, Window, WordList};
use pld_base::{End, Kind, Name};
use pld_graph::Cut;

/// An edit of the design, or of the words of its inputs.
#[derive(Drop)]
pub enum Edit {
    /// `op NAME KIND`: an operator, with its text: the bytes of its lines, each with a line end (byte 10).
    Op(Name, Kind, Text),
    /// `replace NAME KIND`: the operator of this name gets another kind and text.
    Replace(Name, Kind, Text),
    /// `remove NAME`: the operator of this name goes.
    Remove(Name),
    /// `connect PORT PORT`: a channel from the first port to the second.
    Connect(End, End),
    /// `disconnect PORT`: the channel at this port goes. `disconnect NAME`: the input or output of this name goes.
    Disconnect(Cut),
    /// `input NAME PORT`: an input of the network, and the in-port that it feeds.
    Input(Name, End),
    /// `output PORT NAME`: an out-port, and the output of the network that it feeds.
    Output(End, Name),
    /// `pin NAME NUMBER`: the operator shall stand at this leaf. The number is below 1,000; whether there is such a leaf
    /// isn't asked here.
    Pin(Name, u16),
    /// `unpin NAME`: the operator may stand at any leaf.
    Unpin(Name),
    /// `pages NUMBER`: the depth of the tree: it has two to the power of that many leaves.
    Pages(Depth),
    /// `pattern LETTERS`: how many upward links the switches of each level of the tree have, from the leaves' level up: `t` for one,
    /// `p` for two. There are one to five letters; whether the tree has as many levels below its topmost isn't asked here.
    Levels(Levels),
    /// `window NUMBER`: how many words each channel holds.
    Window(Window),
    /// `feed NAME { WORD }`: words for an input. There may be none.
    Feed(Name, WordList),
    /// `clear NAME`: the words that were fed to this input go.
    Clear(Name),
}

impl Edit {
    /// Whether it edits the words of an input, and not the design.
    pub fn is_of_words(&self) -> bool
        ensures { result ≡ is_of_words_of self.now }
    {
        match self {
            Edit::Feed(_, _) => true,
            Edit::Clear(_) => true,
            _ => false,
        }
    }
}

/// A statement of a session's text.
#[derive(Drop)]
pub enum Statement {
    /// An edit.
    Edit(Edit),
    /// `build`
    Build,
    /// `run`
    Run,
    /// `dump image NAME`: the image of the operator of this name.
    DumpImage(Name),
    /// `dump tables`
    DumpTables,
    /// `stats`
    Stats,
    /// `quit`: the session ends here, and nothing behind it is looked at.
    Quit,
}
