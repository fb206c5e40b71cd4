ghost use Rattle.std.specs.Prelude.{◌≡◌, ℕ, List};

/// A value with a base and a history. The history is a list of entries, oldest first.
/// An entry is made by one seat, whose number is in its bits 8 to 11; the other bits are the value's own.
pub trait Told {
    /// What no entry changes.
    type Base;

    ghost base_of: { Self → Self.Base };

    ghost told_of: { Self → List ℕ };

    /// The base.
    fn base(&self) -> &Self::Base
        ensures { result.now ≡ base_of self.now };

    /// The history.
    fn told(&self) -> &[u16]
        ensures { result.now ≡ told_of self.now };
}
