//! How a session ends.
ghost use Rattle.std.specs.Prelude.{◌≡◌};
ghost use Rattle.pld_driver.specs.Statuses.{number_of};

/// How a session ends.
#[derive(Clone, Copy, Debug, PartialEq, Eq)]
pub enum Status {
    /// Each statement was answered, up to the end or to `quit`, and none was refused.
    Fine,
    /// The same, and at least one statement was refused.
    SomeRefused,
    /// The words of a command were none that it knows. No session ends so.
    Usage,
    /// The source failed, and each whole statement before was answered.
    ReadFault,
    /// The sink failed, and a part of the replies was written that isn't all of them.
    WriteFault,
    /// No memory was left, and a part of the replies was written.
    NoMemory,
    /// The text is longer than a session's text may be, and each whole statement within was answered.
    TooLong,
}

impl Status {
    /// The status's number, from 0 for `Fine` to 6 for `TooLong`, in the order in which they stand.
    pub fn number(self) -> u8
        ensures { result ≡ number_of self }
    {
        match self {
            Status::Fine => 0,
            Status::SomeRefused => 1,
            Status::Usage => 2,
            Status::ReadFault => 3,
            Status::WriteFault => 4,
            Status::NoMemory => 5,
            Status::TooLong => 6,
        }
    }
}
