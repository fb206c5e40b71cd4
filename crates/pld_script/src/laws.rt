//! What holds of every text.

ghost use Rattle.pld_script.specs.Statements.{FirstsAreOne};

/// The first statement of some bytes is told in one way: what it says, the lines before it and its own, and the bytes that
/// these use are fixed.
pub fn firsts_are_one()
    ensures { FirstsAreOne }
{}
