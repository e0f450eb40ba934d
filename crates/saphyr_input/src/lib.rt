//! The characters of a text, read from the front through a window: a text in memory or an iterator.
#![tactic(auto)]

pub mod char_set;
pub mod char_traits;
pub mod input;
pub mod law;

pub use char_set::{CharSet, NonBreak, WordSet};
pub use input::str::StrInput;
pub use input::{BufferedInput, CloneInput, FaithfulClone, Input, SkipTabs};
