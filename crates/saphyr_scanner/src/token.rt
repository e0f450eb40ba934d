//! Tokens: the indicators, properties and scalars of a text in order, and among them tokens without characters, such as
//! the starts and ends of block collections and a key without `?`.

ghost use Rattle.std.specs.Prelude.{◌≡◌};
ghost use Rattle.saphyr_scanner.specs.Views.Tokens.{no_parts, parts_view, style_of_kind};

use saphyr_scalar::ScalarStyle;
use std::alloc::Global;

/// What a token is.
#[derive(Clone, Copy, Debug, PartialEq, Eq)]
pub enum TokenKind {
    StreamStart,
    StreamEnd,
    /// The two numbers of a version directive.
    VersionDirective,
    /// The handle and the prefix of a tag directive.
    TagDirective,
    /// The name of a reserved directive.
    ReservedDirective,
    /// The marker `---`.
    DocumentStart,
    /// The marker `...`.
    DocumentEnd,
    ByteOrderMark,
    BlockSequenceStart,
    BlockMappingStart,
    BlockEnd,
    FlowSequenceStart,
    FlowSequenceEnd,
    FlowMappingStart,
    FlowMappingEnd,
    BlockEntry,
    FlowEntry,
    Key,
    Value,
    /// The name after `*`.
    Alias,
    /// The name after `&`.
    Anchor,
    /// The handle and the suffix of a tag.
    Tag,
    /// The text of a plain scalar, and so for the other styles of scalars.
    Plain,
    SingleQuoted,
    DoubleQuoted,
    Literal,
    Folded,
}

impl TokenKind {
    /// The style of a scalar, if the token is one.
    #[must_use]
    #[inline(always)]
    pub fn style(self) -> Option<ScalarStyle>
        ensures { result ≡ style_of_kind self }
    {
        match self {
            TokenKind::Plain => Some(ScalarStyle::Plain),
            TokenKind::SingleQuoted => Some(ScalarStyle::SingleQuoted),
            TokenKind::DoubleQuoted => Some(ScalarStyle::DoubleQuoted),
            TokenKind::Literal => Some(ScalarStyle::Literal),
            TokenKind::Folded => Some(ScalarStyle::Folded),
            _ => None,
        }
    }
}

/// What a token has besides its kind and its place. What its kind doesn't have is empty, or 0.
///
/// A tag and a tag directive have the handle as it is written, which is empty for `!` and
/// `!<uri>`. Percent escapes in suffixes and prefixes are decoded.
#[derive(Debug, Drop)]
pub struct TokenParts {
    pub handle: String,
    pub text: String,
    pub major: u32,
    pub minor: u32,
}

impl TokenParts {
    /// Those of most kinds of tokens.
    #[must_use]
    pub fn none(alloc: Global) -> TokenParts
        ensures { parts_view result ≡ no_parts }
    {
        TokenParts {
            handle: String::new(alloc),
            text: String::new(alloc),
            major: 0,
            minor: 0,
        }
    }
}

// Each place of the queue has one.
const _: () = prove!(size_of::<TokenKind>() == 1);
