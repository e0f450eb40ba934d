//! Whether a text is there as a whole, or may go on behind what came of it.

/// What is known of the end of a text.
#[derive(Clone, Copy, Debug, PartialEq, Eq)]
pub enum Growth {
    /// The text ends where its input does.
    Whole,
    /// More characters may come behind those of the input.
    Growing,
    /// What comes next may depend on characters that did not come.
    Starved,
}
