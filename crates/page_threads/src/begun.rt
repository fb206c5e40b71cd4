use fabric_core::Page;

/// What a worker found to do in a hold.
pub(crate) enum Begun {
    /// The run is over.
    Over,
    /// A page was taken.
    Taken(Page),
    /// A round was made.
    Round,
    /// Nothing is to be done now.
    Nothing,
}
