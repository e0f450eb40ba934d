//! Why reading ends: a text is refused for one of the reasons here, or memory ran out.

ghost use Rattle.std.specs.Prelude.{◌≡◌, IfOk, string_bytes};
ghost use Rattle.saphyr_scalar.specs.Faults.{Says};
ghost use Rattle.saphyr_scalar.specs.Texts.{fault_text};

use crate::scalar::position::Marker;
use std::alloc::{AllocError, AllocFailed, Global};
use std::fmt;

/// Why a text is refused: a variant for each message of a fault.
#[derive(Clone, Copy, Debug)]
pub enum FaultText {
    UnprintableCharacter,
    MisplacedByteOrderMark,
    ContentAfterDocumentEnd,
    InvalidIndentation,
    UnexpectedCharacter(char),
    KeyWithoutColon,
    KeyExpected,
    TabInBlockIndentation,
    CommentInsideText,
    WhitespaceExpected,
    DirectiveEndExpected,
    VersionDigitOrDotExpected,
    DirectiveNameExpected,
    DirectiveNameCharacter,
    VersionNumberTooLong,
    VersionNumberExpected,
    TagDirectiveEndExpected,
    TagEndExpected,
    TagHandleStartExpected,
    TagDirectiveHandleEndExpected,
    TagPrefixCharacter,
    VerbatimTagEndExpected,
    TagSuffixExpected,
    TagEscape,
    TagEscapeLeadingByte,
    TagEscapeTrailingByte,
    TagEscapeCodePoint,
    AnchorNameExpected,
    MisplacedBracket,
    RecursionLimit,
    DashInsideFlow,
    SequenceEntryNotAllowed,
    AnchorIndentation,
    DashWithoutWhitespace,
    BlockScalarIndicatorZero,
    BlockScalarHeaderEndExpected,
    BlockScalarTabFirst,
    BlockScalarLineIndentation,
    DocumentIndicatorInsideQuotes,
    EndInsideQuotes,
    QuotedIndentation,
    TabAsIndentation,
    ContentAfterQuotes,
    UnknownEscape,
    HexadecimalDigitExpected,
    EscapedCodePoint,
    FlowIndentation,
    PlainDashBeforeFlow,
    TabInsidePlain,
    PlainEnd,
    KeyNotAllowed,
    TabNotAllowed,
    ColonBeforeFlow,
    ColonWithoutWhitespace,
    MisplacedColon,
    ValueNotAllowed,
    CommentWithoutWhitespace,
    DuplicateVersionDirective,
    DuplicateTagDirective,
    DocumentStartExpected,
    DocumentEndExpected,
    UnknownAnchor,
    NodeContentExpected,
    BlockMappingKeyExpected,
    FlowMappingEndExpected,
    FlowSequenceEndExpected,
    SequenceEntryExpected,
    UndeclaredHandle,
    TextTooLong,
}

impl FaultText {
    ghost use Rattle.saphyr_scalar.specs.Texts as spec;

    /// The text without the character that some texts show after it.
    pub fn words(self) -> &'static str
        ensures { result.now ≡ spec.words self }
    {
        match self {
            FaultText::UnexpectedCharacter(_) => "unexpected character",
            FaultText::UnprintableCharacter => "found unprintable character",
            FaultText::MisplacedByteOrderMark =>
                "a byte order mark must not appear inside a document",
            FaultText::ContentAfterDocumentEnd => "invalid content after document end marker",
            FaultText::InvalidIndentation => "invalid indentation",
            FaultText::KeyWithoutColon => "simple key expect ':'",
            FaultText::KeyExpected => "simple key expected",
            FaultText::TabInBlockIndentation =>
                "tabs disallowed within this context (block indentation)",
            FaultText::CommentInsideText => "comment intercepting the multiline text",
            FaultText::WhitespaceExpected => "expected whitespace",
            FaultText::DirectiveEndExpected =>
                "while scanning a directive, did not find expected comment or line break",
            FaultText::VersionDigitOrDotExpected =>
                "while scanning a YAML directive, did not find expected digit or '.' character",
            FaultText::DirectiveNameExpected =>
                "while scanning a directive, could not find expected directive name",
            FaultText::DirectiveNameCharacter =>
                "while scanning a directive, found unexpected non-alphabetical character",
            FaultText::VersionNumberTooLong =>
                "while scanning a YAML directive, found extremely long version number",
            FaultText::VersionNumberExpected =>
                "while scanning a YAML directive, did not find expected version number",
            FaultText::TagDirectiveEndExpected =>
                "while scanning TAG, did not find expected whitespace or line break",
            FaultText::TagEndExpected =>
                "while scanning a tag, did not find expected whitespace or line break",
            FaultText::TagHandleStartExpected => "while scanning a tag, did not find expected '!'",
            FaultText::TagDirectiveHandleEndExpected =>
                "while parsing a tag directive, did not find expected '!'",
            FaultText::TagPrefixCharacter => "invalid global tag character",
            FaultText::VerbatimTagEndExpected =>
                "while scanning a verbatim tag, did not find the expected '>'",
            FaultText::TagSuffixExpected => "while parsing a tag, did not find expected tag URI",
            FaultText::TagEscape => "while parsing a tag, found an invalid escape sequence",
            FaultText::TagEscapeLeadingByte =>
                "while parsing a tag, found an incorrect leading UTF-8 byte",
            FaultText::TagEscapeTrailingByte =>
                "while parsing a tag, found an incorrect trailing UTF-8 byte",
            FaultText::TagEscapeCodePoint =>
                "while parsing a tag, found an invalid UTF-8 codepoint",
            FaultText::AnchorNameExpected =>
                "while scanning an anchor or alias, did not find expected alphabetic or numeric character",
            FaultText::MisplacedBracket => "misplaced bracket",
            FaultText::RecursionLimit => "recursion limit exceeded",
            FaultText::DashInsideFlow => "\"-\" is only valid inside a block",
            FaultText::SequenceEntryNotAllowed =>
                "block sequence entries are not allowed in this context",
            FaultText::AnchorIndentation => "invalid indentation for anchor",
            FaultText::DashWithoutWhitespace => "'-' must be followed by a valid YAML whitespace",
            FaultText::BlockScalarIndicatorZero =>
                "while scanning a block scalar, found an indentation indicator equal to 0",
            FaultText::BlockScalarHeaderEndExpected =>
                "while scanning a block scalar, did not find expected comment or line break",
            FaultText::BlockScalarTabFirst => "a block scalar content cannot start with a tab",
            FaultText::BlockScalarLineIndentation => "wrongly indented line in block scalar",
            FaultText::DocumentIndicatorInsideQuotes =>
                "while scanning a quoted scalar, found unexpected document indicator",
            FaultText::EndInsideQuotes =>
                "while scanning a quoted scalar, found unexpected end of stream",
            FaultText::QuotedIndentation => "invalid indentation in quoted scalar",
            FaultText::TabAsIndentation => "tab cannot be used as indentation",
            FaultText::ContentAfterQuotes => "invalid trailing content after double-quoted scalar",
            FaultText::UnknownEscape =>
                "while parsing a quoted scalar, found unknown escape character",
            FaultText::HexadecimalDigitExpected =>
                "while parsing a quoted scalar, did not find expected hexadecimal number",
            FaultText::EscapedCodePoint =>
                "while parsing a quoted scalar, found invalid Unicode character escape code",
            FaultText::FlowIndentation => "invalid indentation in flow construct",
            FaultText::PlainDashBeforeFlow =>
                "plain scalar cannot start with '-' followed by ,[]{}",
            FaultText::TabInsidePlain => "while scanning a plain scalar, found a tab",
            FaultText::PlainEnd => "unexpected end of plain scalar",
            FaultText::KeyNotAllowed => "mapping keys are not allowed in this context",
            FaultText::TabNotAllowed => "tabs disallowed in this context",
            FaultText::ColonBeforeFlow => "':' may not precede any of `[{` in flow mapping",
            FaultText::ColonWithoutWhitespace => "':' must be followed by a valid YAML whitespace",
            FaultText::MisplacedColon => "illegal placement of ':' indicator",
            FaultText::ValueNotAllowed => "mapping values are not allowed in this context",
            FaultText::CommentWithoutWhitespace =>
                "comments must be separated from other tokens by whitespace",
            FaultText::DuplicateVersionDirective => "duplicate version directive",
            FaultText::DuplicateTagDirective =>
                "the TAG directive must only be given at most once per handle in the same document",
            FaultText::DocumentStartExpected => "did not find expected <document start>",
            FaultText::DocumentEndExpected =>
                "missing explicit document end marker before directive",
            FaultText::UnknownAnchor => "while parsing node, found unknown anchor",
            FaultText::NodeContentExpected =>
                "while parsing a node, did not find expected node content",
            FaultText::BlockMappingKeyExpected =>
                "while parsing a block mapping, did not find expected key",
            FaultText::FlowMappingEndExpected =>
                "while parsing a flow mapping, did not find expected ',' or '}'",
            FaultText::FlowSequenceEndExpected =>
                "while parsing a flow sequence, expected ',' or ']'",
            FaultText::SequenceEntryExpected =>
                "while parsing a block collection, did not find expected '-' indicator",
            FaultText::UndeclaredHandle => "the handle wasn't declared",
            FaultText::TextTooLong => "text longer than 4294967295 characters",
        }
    }
}

impl fmt::Display for FaultText {
    ghost use Rattle.std.specs.Prelude.{Some};

    ghost output = { λ t. Some (fault_text t) };

    fn fmt<W: fmt::Write>(&self, f: &mut fmt::Formatter<W>) -> fmt::Result {
        let words = self.words();
        match self {
            FaultText::UnexpectedCharacter(c) => write!(f, "{words}: `{c}'"),
            _ => write!(f, "{words}"),
        }
    }
}

/// Why a text is refused, and where, as a small value that functions pass on.
#[derive(Clone, Copy)]
pub struct Refusal {
    pub text: FaultText,
    pub mark: Marker,
    /// Whether characters that did not come may change it.
    pub may_change: bool,
}

/// Why a text is refused, and where.
#[derive(Debug, PartialEq, Eq, Drop)]
pub struct ScanError {
    pub mark: Marker,
    pub info: String,
}

impl ScanError {
    /// A fault with this text, at this place.
    pub fn new(loc: Marker, info: String) -> ScanError
        ensures mark { result.mark ≡ loc }
        ensures info { result.info ≡ info }
    {
        ScanError { mark: loc, info }
    }

    /// A fault with a copy of the text.
    pub fn new_str(alloc: Global, loc: Marker, info: &str) -> Result<ScanError, AllocError>
        ensures { IfOk result (Says loc info.now) }
    {
        let info = String::from_str(alloc, info)?;
        Ok(ScanError::new(loc, info))
    }

    /// Where the text is refused.
    #[inline]
    pub fn marker(&self) -> &Marker
        ensures { result.now ≡ self.now.mark }
    {
        &self.mark
    }

    /// Why the text is refused.
    #[inline]
    pub fn info(&self) -> &str
        ensures { result.now ≡ string_bytes self.now.info }
    {
        self.info.as_str()
    }

    /// An equal fault.
    pub fn try_clone(&self) -> Result<ScanError, AllocError>
        ensures { IfOk result (Says self.now.mark (string_bytes self.now.info)) }
    {
        let info = self.info.clone()?;
        Ok(ScanError::new(self.mark, info))
    }
}

/// The fault of a refusal, with its text. It is no method of `ScanError`, whose users can't name a `Refusal`.
pub fn error_of_refusal(alloc: Global, refusal: Refusal) -> Result<ScanError, AllocError>
    ensures { IfOk result (Says refusal.mark (fault_text refusal.text)) }
{
    let info = refusal.text.to_string(alloc)?;
    Ok(ScanError::new(refusal.mark, info))
}

impl fmt::Display for ScanError {
    ghost use Rattle.std.specs.Prelude.{Some};
    ghost use Rattle.saphyr_scalar.specs.Faults.{error_text};

    ghost output = { λ e. Some (error_text e) };

    fn fmt<W: fmt::Write>(&self, f: &mut fmt::Formatter<W>) -> fmt::Result {
        let column = self.mark.col as u128 + 1;
        write!(
            f,
            "{} at byte {} line {} column {}",
            self.info, self.mark.index, self.mark.line, column
        )
    }
}

/// What ends a reading: the text is refused, or memory ran out.
#[derive(Clone, Copy)]
pub enum Stop {
    Refused(Refusal),
    OutOfMemory,
}

impl From<Refusal> for Stop {
    ghost use Rattle.saphyr_scalar.specs.declared.scalar.fault.Stop.TheVariants.{Refused};

    ghost from_gives = { λ r e. e ≡ Refused r };

    fn from(refusal: Refusal) -> Stop {
        Stop::Refused(refusal)
    }
}

impl From<AllocError> for Stop {
    ghost use Rattle.saphyr_scalar.specs.declared.scalar.fault.Stop.TheVariants.{OutOfMemory};

    ghost from_gives = { λ _ e. e ≡ OutOfMemory };

    fn from(_e: AllocError) -> Stop {
        Stop::OutOfMemory
    }
}

impl<X: Drop> From<AllocFailed<X>> for Stop {
    ghost use Rattle.saphyr_scalar.specs.declared.scalar.fault.Stop.TheVariants.{OutOfMemory};

    ghost from_gives = { λ _ e. e ≡ OutOfMemory };

    fn from(_e: AllocFailed<X>) -> Stop {
        Stop::OutOfMemory
    }
}
