//! What an image holds.

use fsm_core::Table;

/// An image: what a page runs.
#[derive(Drop)]
pub enum ImageForm {
    /// The counts of the in-ports and of the out-ports, each at most 8, and 1 to 32,767 words of RV32IM code.
    Soft { ins: u8, outs: u8, code: Vec<u32> },
    /// The table of a hardware page.
    Hard { table: Table },
}

/// The bytes are no image: the offset of the first field that is cut short or out of range. Bytes
/// behind the image are a field at the offset of the first of them.
#[derive(Clone, Copy, Debug, PartialEq, Eq)]
pub struct BadImage {
    pub place: usize,
}
