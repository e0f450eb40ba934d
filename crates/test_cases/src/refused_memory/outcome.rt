//! How a comparison ends that finds no difference.

#[derive(Clone, Copy, PartialEq)]
pub enum Outcome {
    /// All is as the case lists it.
    Whole,
    /// All is so up to a refused request for memory, and right after that.
    Refused,
}

impl Outcome {
    pub fn name(self) -> &'static str {
        match self {
            Outcome::Whole => "whole",
            Outcome::Refused => "refused",
        }
    }
}
