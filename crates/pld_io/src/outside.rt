//! What a source and a sink of bytes promise.

ghost use Rattle.std.specs.Io.{ReadsAtMost, WritesAtMost};
ghost use Rattle.pld_io.specs.Outside.{SourceState, SinkState, TakeGives, PutAccepts, TellsEnd};

/// A source or a sink has failed. Nothing was taken or put by the call that says so.
#[derive(Clone, Copy, Debug, PartialEq, Eq)]
pub struct Failed;

/// Where bytes come from.
pub trait Source {
    /// What is known of it: the bytes that it has given, whether its last take found the end or failed, the bytes that remain
    /// where it tells them, and how many takes have failed.
    ghost state: { Self → SourceState };

    /// Takes the next bytes into the buffer, and says how many. It takes none into a buffer that isn't
    /// empty only at the end. Where it fails, it has taken none, and the count of failures rises by one, up to 2^64 - 1.
    fn take(&mut self, buf: &mut [u8]) -> Result<usize, Failed>
        ensures bound { ReadsAtMost result buf.new }
        ensures bytes { TakeGives (state self.old) (state self.new) result buf.new }
        ensures end { TellsEnd (state self.new) result buf.new };
}

/// Where bytes go.
pub trait Sink {
    /// What is known of it: the bytes that it has accepted, whether its last put failed, what it holds where it tells that,
    /// and how many puts have failed.
    ghost state: { Self → SinkState };

    /// Puts the first bytes of the piece, and says how many. Where it fails, it has put none, and the count of failures rises
    /// by one, up to 2^64 - 1. So it does where none of a piece that isn't empty was put.
    fn put(&mut self, piece: &[u8]) -> Result<usize, Failed>
        ensures bound { WritesAtMost result piece.now }
        ensures bytes { PutAccepts (state self.old) (state self.new) result piece.now };
}

/// Where a worker waits before it turns a page. It promises only to return.
pub trait Gate {
    /// Lets a worker turn the page with this number, which is that of its leaf.
    fn pass(&self, page: u8);
}

/// A gate that returns at once.
#[derive(Clone, Copy, Debug, PartialEq, Eq)]
pub struct OpenGate;

impl Gate for OpenGate {
    fn pass(&self, page: u8) {}
}
