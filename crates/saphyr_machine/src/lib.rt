//! The inner machine of `saphyr_parser`: it turns tokens into events, and reads at most one event ahead. Only
//! `saphyr_parser` should use it. To read events, use the `Parser` of that crate.
#![tactic(auto)]

mod anchors;
mod block;
mod cloning;
mod context;
mod document;
mod event;
mod fault;
mod flow;
mod handles;
mod idle;
mod kept;
mod loading;
mod machine;
mod name_list;
mod name_map;
mod node;
mod prefixes;
mod progress;
mod property;
mod reader;
mod receiver;
mod state;
mod step;
mod tag;
mod tags;

pub use event::Event;
pub use fault::Fault;
pub use idle::PassedToken;
pub use progress::Progress;
pub use reader::{EventReader, no_event};
pub use receiver::{EventReceiver, Refused, SpannedEventReceiver};
pub use tag::Tag;
