//! What one step of a loop over the events gave, if the caller has places for an event and a fault.

/// An event or a fault was written into its place, or the events are over.
#[derive(Clone, Copy, Debug, PartialEq, Eq)]
pub enum Progress {
    Event,
    Fault,
    Over,
}
