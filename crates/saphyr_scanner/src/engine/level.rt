//! What is open at a place of the text, and which token in it may be a key.

ghost use Rattle.std.specs.Prelude.{◌≡◌, ◌<◌, ◌+◌, ◌^◌, false};
ghost use Rattle.saphyr_scanner.specs.Steps.Level as spec;

use saphyr_scalar::Marker;

/// What is open.
#[derive(Clone, Copy)]
pub(crate) enum Context {
    /// Nothing, or block collections.
    Block,
    /// A flow mapping.
    FlowMapping,
    /// A flow sequence, with no open pair that lacks brackets of its own.
    FlowSequence,
    /// A flow sequence with a pair that its colon began, as in `[a: b`.
    FlowPair,
    /// A flow sequence with a pair that `?` began, as in `[? a : b`.
    ExplicitFlowPair,
    /// A flow sequence with a `?` after the colon that began a pair, as in `[a: ? b`.
    MarkedFlowPair,
}

impl Context {
    pub(super) fn is_block(self) -> bool
        ensures { result ≡ spec.is_block self }
    {
        match self {
            Context::Block => true,
            Context::FlowMapping
            | Context::FlowSequence
            | Context::FlowPair
            | Context::ExplicitFlowPair
            | Context::MarkedFlowPair => false,
        }
    }

    // Whether an open pair ends with its entry.
    pub(super) fn ends_pair(self) -> bool
        ensures { result ≡ spec.ends_pair self }
    {
        match self {
            Context::FlowPair | Context::MarkedFlowPair => true,
            Context::Block
            | Context::FlowMapping
            | Context::FlowSequence
            | Context::ExplicitFlowPair => false,
        }
    }

    // Whether a pair without brackets of its own is open.
    pub(super) fn is_pair(self) -> bool
        ensures end { result ≡ false → spec.ends_pair self ≡ false }
        ensures entry { result ≡ false → spec.behind_entry self ≡ self }
    {
        match self {
            Context::FlowPair | Context::ExplicitFlowPair | Context::MarkedFlowPair => true,
            Context::Block | Context::FlowMapping | Context::FlowSequence => false,
        }
    }

    // What is open after a comma.
    pub(super) fn behind_entry(self) -> Context
        ensures { result ≡ spec.behind_entry self }
    {
        match self {
            Context::Block => Context::Block,
            Context::FlowMapping => Context::FlowMapping,
            Context::FlowSequence
            | Context::FlowPair
            | Context::ExplicitFlowPair
            | Context::MarkedFlowPair => Context::FlowSequence,
        }
    }

    // What is open after `?`.
    pub(super) fn behind_question(self) -> Context
        ensures { result ≡ spec.behind_question self }
    {
        match self {
            Context::FlowSequence => Context::ExplicitFlowPair,
            Context::FlowPair => Context::MarkedFlowPair,
            other => other,
        }
    }

    // Whether a colon begins a pair without brackets of its own.
    pub(super) fn begins_pair(self) -> bool
        ensures { result ≡ spec.begins_pair self }
    {
        match self {
            Context::FlowSequence | Context::FlowPair => true,
            Context::Block
            | Context::FlowMapping
            | Context::ExplicitFlowPair
            | Context::MarkedFlowPair => false,
        }
    }

    // What is open after a colon.
    pub(super) fn behind_colon(self) -> Context
        ensures { result ≡ spec.behind_colon self }
    {
        match self {
            Context::FlowSequence => Context::FlowPair,
            other => other,
        }
    }
}

/// A token that may be a key, or begin one: the `[` of `[a, b]: c`, and the anchor of `&x a: b`.
#[derive(Clone, Copy)]
pub(crate) struct Candidate {
    // Where it begins. Outside flow, its colon must be on this line.
    pub(super) mark: Marker,
    // The number of its place in the queue. There a colon puts the key's token in front of it.
    pub(super) place: usize,
    ghost near: { mark.col + 1 < 2 ^ 64 },
}

/// What is open, and the token in it that may be a key.
#[derive(Clone, Copy)]
pub(crate) struct Level {
    // What is open.
    pub(super) context: Context,
    // Whether the first token of the last node may be a key, until its colon comes or can't come any more.
    pub(super) has_key: bool,
    // That token, or any other. For speed this is no `Option`, of which the whole would be cleared with each token.
    pub(super) key: Candidate,
}

impl Level {
    ghost use Rattle.std.specs.Prelude.{None};
    ghost use Rattle.saphyr_scanner.specs.Views.Engine.{level};

    // What is open, with no token that may be a key.
    pub(super) fn new(context: Context) -> Level
        ensures { level result ≡ record { context = context; key = None } }
    {
        Level {
            context,
            has_key: false,
            key: Candidate {
                mark: Marker::new(0, 0, 0),
                place: 0,
            },
        }
    }

    // Whether the token at a place may be a key.
    pub(super) fn holds(&self, place: usize) -> bool
        ensures { result ≡ spec.holds place (level self.now) }
    {
        self.has_key && self.key.place == place
    }
}
