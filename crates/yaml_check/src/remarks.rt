//! Which remarks may help with a fault, by its words.
ghost use Rattle.std.specs.Prelude.{◌≡◌};
ghost use Rattle.yaml_check.specs.Remarks as spec;

use crate::note::Remark;
use saphyr_scalar::FaultText;

/// The remarks that may help with a fault of this message.
pub(crate) fn remarks_on(message: &str) -> &'static [Remark]
    ensures { result.now ≡ spec.remarks_on message.now }
{
    if is_on_quotes(message) {
        &[Remark::TypographersQuote, Remark::QuotesOpen]
    } else if is_on_escape(message) {
        &[Remark::Escape]
    } else if is_on_tab(message) {
        &[Remark::Tab]
    } else if message == FaultText::BlockScalarTabFirst.words() {
        &[Remark::AllowedFirstTab, Remark::Tab]
    } else if is_behind_question_mark(message) {
        &[Remark::AllowedQuestionMark, Remark::AllowedTab, Remark::Tab]
    } else if message == FaultText::ContentAfterQuotes.words() {
        &[
            Remark::OtherComment,
            Remark::CommaBehind,
            Remark::MissingComma,
            Remark::Apostrophe,
            Remark::JsonText,
            Remark::QuotesEnd,
        ]
    } else {
        remarks_on_lines(message)
    }
}

/// The same for faults of keys and entries.
fn remarks_on_lines(message: &str) -> &'static [Remark]
    ensures { result.now ≡ spec.remarks_on_lines message.now }
{
    if message == FaultText::KeyWithoutColon.words() {
        &[
            Remark::NoBreakSpace,
            Remark::IdeographicSpace,
            Remark::OtherSpace,
            Remark::ZeroWidth,
            Remark::OtherComment,
            Remark::WideColon,
            Remark::NoBlankBehindDash,
            Remark::NoBlankBehindColon,
            Remark::BlockScalarColumn,
            Remark::ValueColumn,
            Remark::NoColon,
        ]
    } else if message == FaultText::ValueNotAllowed.words() {
        &[
            Remark::TypographersQuote,
            Remark::NoBreakSpace,
            Remark::IdeographicSpace,
            Remark::OtherSpace,
            Remark::ZeroWidth,
            Remark::OtherComment,
            Remark::ColonInText,
            Remark::WideColon,
            Remark::NoBlankBehindDash,
            Remark::OtherColumn,
            Remark::TooFarRight,
            Remark::NoBlankBehindColon,
            Remark::BlockScalarColumn,
            Remark::ValueColumn,
            Remark::NoColon,
        ]
    } else {
        remarks_on_columns(message)
    }
}

/// The same for faults of lines in collections without brackets, and of what is in no collection.
fn remarks_on_columns(message: &str) -> &'static [Remark]
    ensures { result.now ≡ spec.remarks_on_columns message.now }
{
    if message == FaultText::BlockMappingKeyExpected.words() {
        &[
            Remark::Template,
            Remark::NoBreakSpace,
            Remark::IdeographicSpace,
            Remark::OtherSpace,
            Remark::ZeroWidth,
            Remark::KeyBeginsWithDash,
            Remark::BlockScalarColumn,
            Remark::NoDash,
            Remark::Mixed,
            Remark::OtherColumn,
            Remark::MappingColumn,
        ]
    } else if message == FaultText::SequenceEntryExpected.words() {
        &[
            Remark::Template,
            Remark::NoBreakSpace,
            Remark::IdeographicSpace,
            Remark::OtherSpace,
            Remark::ZeroWidth,
            Remark::NoBlankBehindDash,
            Remark::BlockScalarColumn,
            Remark::Mixed,
            Remark::OtherColumn,
            Remark::SequenceColumn,
        ]
    } else if message == FaultText::DocumentStartExpected.words() {
        &[Remark::OtherColumn]
    } else if message == FaultText::SequenceEntryNotAllowed.words() {
        &[Remark::SequenceLine]
    } else {
        remarks_on_nodes(message)
    }
}

/// The same for faults of what begins a node, or is in brackets.
fn remarks_on_nodes(message: &str) -> &'static [Remark]
    ensures { result.now ≡ spec.remarks_on_nodes message.now }
{
    if is_on_first_character(message) {
        &[Remark::Template, Remark::FirstCharacter]
    } else if message == FaultText::TagEndExpected.words() {
        &[Remark::AllowedColonBehindTag, Remark::FirstCharacter]
    } else if message == FaultText::UnknownAnchor.words() {
        &[Remark::UnknownAlias]
    } else if is_on_bracket_column(message) {
        &[Remark::BracketColumn]
    } else if is_on_flow_entry(message) {
        &[
            Remark::OtherComment,
            Remark::AllowedColon,
            Remark::Template,
            Remark::MissingComma,
        ]
    } else {
        remarks_on_signs(message)
    }
}

/// The same for faults of one sign.
fn remarks_on_signs(message: &str) -> &'static [Remark]
    ensures { result.now ≡ spec.remarks_on_signs message.now }
{
    if message == FaultText::DashInsideFlow.words() {
        &[Remark::Template]
    } else if message == FaultText::PlainDashBeforeFlow.words() {
        &[Remark::AllowedDash]
    } else if message == FaultText::ColonBeforeFlow.words() {
        &[Remark::AllowedColon]
    } else if message == FaultText::ColonWithoutWhitespace.words() {
        &[Remark::AllowedTab]
    } else if message == FaultText::BlockScalarLineIndentation.words() {
        &[Remark::AllowedLine]
    } else if message == FaultText::CommentInsideText.words() {
        &[Remark::CommentInText]
    } else if message == FaultText::BlockScalarHeaderEndExpected.words() {
        &[Remark::BlockScalarHeader]
    } else {
        &[]
    }
}

fn is_on_first_character(message: &str) -> bool
    ensures { result ≡ spec.is_on_first_character message.now }
{
    message == "unexpected character: `@'"
        || message == "unexpected character: ``'"
        || message == "unexpected character: `%'"
        || message == FaultText::AnchorNameExpected.words()
}

fn is_on_quotes(message: &str) -> bool
    ensures { result ≡ spec.is_on_quotes message.now }
{
    message == FaultText::QuotedIndentation.words()
        || message == FaultText::EndInsideQuotes.words()
        || message == FaultText::DocumentIndicatorInsideQuotes.words()
}

fn is_on_escape(message: &str) -> bool
    ensures { result ≡ spec.is_on_escape message.now }
{
    message == FaultText::UnknownEscape.words()
        || message == FaultText::HexadecimalDigitExpected.words()
        || message == FaultText::EscapedCodePoint.words()
}

fn is_on_tab(message: &str) -> bool
    ensures { result ≡ spec.is_on_tab message.now }
{
    message == FaultText::TabInBlockIndentation.words()
        || message == FaultText::TabAsIndentation.words()
        || message == FaultText::TabInsidePlain.words()
}

fn is_behind_question_mark(message: &str) -> bool
    ensures { result ≡ spec.is_behind_question_mark message.now }
{
    message == FaultText::WhitespaceExpected.words() || message == FaultText::TabNotAllowed.words()
}

fn is_on_bracket_column(message: &str) -> bool
    ensures { result ≡ spec.is_on_bracket_column message.now }
{
    message == FaultText::InvalidIndentation.words()
        || message == FaultText::FlowIndentation.words()
}

fn is_on_flow_entry(message: &str) -> bool
    ensures { result ≡ spec.is_on_flow_entry message.now }
{
    message == FaultText::FlowMappingEndExpected.words()
        || message == FaultText::FlowSequenceEndExpected.words()
}
