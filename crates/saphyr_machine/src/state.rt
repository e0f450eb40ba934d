//! The states of the machine: where it is in the stream, a document or a collection.

ghost use Rattle.std.specs.Prelude.{◌≡◌};
ghost use Rattle.saphyr_scanner.specs.Views.Tokens.{Parts, kind_with};
ghost use Rattle.saphyr_machine.specs.Steps.Nodes as spec;

use crate::context::NodeContext;
use saphyr_scanner::TokenKind;

/// What the machine expects next.
#[derive(Clone, Copy)]
pub enum State {
    /// The start of the stream, which is the first token.
    StreamStart,
    /// A document that may begin without `---`, or the stream's end: at first, and after `...`.
    ImplicitDocumentStart,
    /// A document that begins with `---`, or the stream's end: after a document without `...`.
    DocumentStart,
    /// The node after `---`, which may be left out.
    DocumentContent,
    /// The end of a document, after its node.
    DocumentEnd,
    /// The node of a document without `---`.
    BlockNode,
    /// An entry of a block sequence, or the sequence's end.
    BlockSequenceEntry,
    /// An entry of a sequence at the column of the mapping around it, or the sequence's end, which has no token.
    IndentlessSequenceEntry,
    /// A key of a block mapping, or the mapping's end.
    BlockMappingKey,
    /// The value of a key of a block mapping, which may be left out.
    BlockMappingValue,
    /// The first entry of a flow sequence, or the sequence's end.
    FlowSequenceFirstEntry,
    /// The comma before an entry of a flow sequence, or the sequence's end.
    FlowSequenceEntry,
    /// The key of a pair in a flow sequence after its `?`: `a` in `[? a : b]`.
    FlowSequenceEntryMappingKey,
    /// The value of such a pair, which may be left out.
    FlowSequenceEntryMappingValue,
    /// The end of such a pair, which has no token. The machine keeps its place.
    FlowSequenceEntryMappingEnd,
    /// The first key of a flow mapping, or the mapping's end.
    FlowMappingFirstKey,
    /// The comma before a key of a flow mapping, or the mapping's end.
    FlowMappingKey,
    /// The value of a key of a flow mapping, which may be left out.
    FlowMappingValue,
    /// The value of a pair that has only a key, such as `a` in `{a, b: c}`.
    FlowMappingEmptyValue,
    /// Nothing: the stream's end was given.
    End,
}

// A text may have one for each byte.
const _: () = prove!(size_of::<State>() == 1);

impl State {
    /// Whether a node, behind which this is expected, is left out before a token.
    #[inline(always)]
    pub(super) fn is_left_out(self, kind: TokenKind) -> bool
        ensures { (x : Parts) → result ≡ spec.is_left_out self (kind_with kind x) }
    {
        match self {
            State::BlockSequenceEntry => {
                matches!(kind, TokenKind::BlockEntry | TokenKind::BlockEnd)
            }
            State::IndentlessSequenceEntry => matches!(
                kind,
                TokenKind::BlockEntry | TokenKind::Key | TokenKind::Value | TokenKind::BlockEnd
            ),
            State::BlockMappingKey | State::BlockMappingValue => {
                matches!(
                    kind,
                    TokenKind::Key | TokenKind::Value | TokenKind::BlockEnd
                )
            }
            State::FlowSequenceEntryMappingValue => matches!(
                kind,
                TokenKind::Value | TokenKind::FlowEntry | TokenKind::FlowSequenceEnd
            ),
            State::FlowSequenceEntryMappingEnd => {
                matches!(kind, TokenKind::FlowEntry | TokenKind::FlowSequenceEnd)
            }
            State::FlowMappingKey => {
                matches!(kind, TokenKind::FlowEntry | TokenKind::FlowMappingEnd)
            }
            State::FlowMappingValue => matches!(
                kind,
                TokenKind::Value | TokenKind::FlowEntry | TokenKind::FlowMappingEnd
            ),
            _ => false,
        }
    }

    /// The context of a node, behind which this is expected.
    #[inline(always)]
    pub(super) fn context_before(self) -> NodeContext
        ensures { result ≡ spec.context_before self }
    {
        match self {
            State::BlockSequenceEntry | State::IndentlessSequenceEntry => NodeContext::Block,
            State::BlockMappingKey | State::BlockMappingValue => NodeContext::BlockMapping,
            _ => NodeContext::Flow,
        }
    }
}
